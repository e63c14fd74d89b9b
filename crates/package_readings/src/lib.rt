//! What package.jsons are read to: a content that several requests read is read once.
#![tactic(auto)]

mod loaded;
mod readings;

pub use readings::{PackageReadings, ReadPackage};
