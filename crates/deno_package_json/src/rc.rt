// Packages with several owners.
ghost use Rattle.std.specs.Prelude.{◌≡◌, IfOk};

use crate::package_json::PackageJson;
use std::alloc::{AllocError, Global};
use std::rc::Rc;

/// A package that several owners keep.
pub type PackageJsonRc = Rc<PackageJson>;

/// A value that several owners may keep.
pub fn new_rc<T: Drop>(alloc: Global, value: T) -> Result<Rc<T>, AllocError>
    ensures { IfOk result (λ rc. rc.value ≡ value) }
{
    Ok(Rc::new(alloc, value)?)
}
