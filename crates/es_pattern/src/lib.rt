//! Patterns: regular expressions after ECMAScript without flags, and whether one is found in a
//! text. The test `the_example` of `es_pattern_tests` runs these lines:
//!
//! ```
//! let pattern = Pattern::parse(alloc, "^src/.*\\.ts$")?;
//! assert!(pattern.is_found(alloc, "src/index.ts")?);
//! assert!(!pattern.is_found(alloc, "lib/index.ts")?);
//!
//! let fault = Pattern::parse(alloc, "a**").err();
//! assert_eq!(fault, Some(PatternError::Syntax { place: 2 }));
//! ```
#![tactic(auto)]

mod alive;
mod begins;
mod braces;
mod compile;
mod error;
mod escape;
pub mod laws;
mod mode;
mod number_set;
mod parse;
mod passing;
mod pattern;
mod piece;
mod program;
mod reader;
mod search;
mod step;
mod turns;
mod walk;

pub use error::PatternError;
pub use pattern::Pattern;
