//! The imports that a text of JavaScript or TypeScript writes, told by the lexical grammar of the
//! language.
#![tactic(auto)]

mod element;
mod escape;
mod expected;
mod imports;
pub mod laws;
mod literal;
mod number;
mod part;
mod piece;
mod punctuator;
mod reading;
mod refusal;
mod run;
mod scan;
mod scanner;
mod sign;
mod space;
mod value;

pub use imports::{Import, ImportKind};
pub use refusal::{Cause, ScanError};
pub use scan::{scan_imports, scan_imports_jsx};
