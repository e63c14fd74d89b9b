//! The trails of many requests in one canonical text.
#![tactic(auto)]

mod bundle;
mod bundle_error;
mod count;
mod decode;
mod decode_error;
mod encode;
pub mod laws;
mod line_reading;
mod ordered;
mod replay_error;
mod replaying;
mod replies;
mod request;
mod text_lines;
mod written;

pub use bundle::Bundle;
pub use bundle_error::BundleError;
pub use decode_error::DecodeError;
pub use replay_error::BundleReplayError;
pub use request::BundleRequest;
