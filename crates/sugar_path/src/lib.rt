//! Lexical paths, and the plain values that the crates above share.
#![tactic(auto)]

mod borrowed;
mod clean;
mod clean_path;
mod clean_relative;
mod component;
mod content;
mod faults;
mod front;
mod joined;
pub mod laws;
mod lexical;
mod lexical_buf;
mod normal;
mod parents;
mod part;
mod path;
mod path_components;
mod path_parts;
mod places;
mod plain;
mod plain_names;
mod plain_traits;
mod prefix;
mod reading;
mod sealed;
mod ways;

pub use clean::{clean_text, is_clean};
pub use clean_path::CleanPath;
pub use component::{Component, Components};
pub use faults::TryError;
pub use front::after;
pub use joined::join;
pub use lexical::SugarPath;
pub use lexical_buf::SugarPathBuf;
pub use parents::parent;
pub use path::{CwdAnswer, Path, PathBuf, PathCow};
pub use path_components::components;
pub use plain::{Bytes, List, Text};
pub use prefix::common_prefix_len;
