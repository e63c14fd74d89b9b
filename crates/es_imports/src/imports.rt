// What a text imports.
use sugar_path::Text;

/// By which form something is imported.
#[derive(Clone, Copy, Debug, PartialEq, Eq)]
pub enum ImportKind {
    /// `import .. from "x"`, and `import "x"`.
    Static,
    /// `export .. from "x"`.
    Export,
    /// `import("x")`.
    Dynamic,
    /// `require("x")`.
    Require,
    /// `import x = require("x")`.
    ImportEquals,
}

/// An import of a text.
#[derive(Debug, Drop, PartialEq, Eq)]
pub struct Import {
    pub kind: ImportKind,
    /// The value of the string or template.
    pub specifier: Text,
    /// Where the string or template begins: how many bytes stand before it.
    pub place: usize,
    /// Whether it is `import type` or `export type`.
    pub is_type: bool,
}
