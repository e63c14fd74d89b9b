// For what modules are resolved.

/// For what modules are resolved. Browsers have rules of their own in the `browser` field of a package.json.
#[derive(Clone, Copy, Debug, Default, PartialEq, Eq, Hash)]
pub enum TargetEnv {
    #[default]
    Browser,
    Node,
}
