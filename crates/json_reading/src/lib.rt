//! What can be read from a JSON value: each reader answers what its definition reads, or that the value is of another
//! kind.
#![tactic(auto)]

mod borrowed;
mod bytes;
mod error;
mod fields;
mod floats;
mod from_json;
mod given_up;
mod json_value;
mod objects;
mod texts;

pub use bytes::{read_bytes, read_json};
pub use error::FromJsonError;
pub use fields::{field, field_or};
pub use floats::holds_float;
pub use from_json::FromJson;
pub use given_up::{into_items, into_member};
pub use json_value::JsonValue;
pub use objects::Object;
pub use texts::{ReadJson, read_text};
