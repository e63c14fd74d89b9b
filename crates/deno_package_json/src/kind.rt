// Who asks for a package.

/// The kind of a module that asks for a package.
#[derive(Clone, Copy, Debug, PartialEq, Eq)]
pub enum NodeModuleKind {
    Esm,
    Cjs,
}
