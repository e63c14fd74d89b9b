// How the patterns of a mapping are read.

/// How TypeScript's `paths` are read where a pattern has text behind its `*`.
#[derive(Clone, Copy, Debug, PartialEq, Eq)]
pub enum TsVersion {
    /// What stands behind the `*` is passed over.
    V1,
    /// What stands behind the `*` must end the specifier, as TypeScript has it.
    V2,
}
