// What the rows before a search come to.
use crate::Resolution;
use sugar_path::Text;

/// What the rows before a search come to.
#[derive(Debug, Drop, PartialEq, Eq)]
pub enum Before {
    /// The answer, which no search changes.
    Decided(Resolution),
    /// What is searched for: the alias of the specifier, else the specifier.
    Target(Text),
}
