// Which file of the package a subpath means.
ghost use Rattle.std.specs.Prelude.{◌≡◌, IfOk, IfSome, IsSome};
ghost use Rattle.package_exports.specs.Exported.{exported};
ghost use Rattle.deno_package_json.specs.Package.{package_of};

use crate::package_json::PackageJson;
use package_exports::exported;
use std::alloc::{AllocError, Global};
use sugar_path::Text;

impl PackageJson {
    /// Which file of the package a subpath means under conditions, as a text that begins with `./`; `None` where the
    /// package doesn't export it. The subpath is `.` for the package itself, and begins with `./` else.
    pub fn exported(
        &self,
        alloc: Global,
        subpath: &str,
        conditions: &[Text],
    ) -> Result<Option<Text>, AllocError>
        requires { IsSome (package_of self.now).exports }
        ensures { IfOk result (λ file. IfSome (package_of self.now).exports (λ exports.
            file ≡ exported exports subpath.now conditions.now)) }
    {
        match &self.exports {
            Some(exports) => exported(alloc, exports, subpath, conditions),
            None => Ok(None),
        }
    }
}
