// What keeps other crates from writing an impl of this crate's traits.
use crate::path::{Path, PathBuf};

pub trait Sealed {}

impl<'a> Sealed for Path<'a> {}

impl Sealed for PathBuf {}
