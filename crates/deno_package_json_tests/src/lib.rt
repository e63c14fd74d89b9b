//! The tests of `deno_package_json`.
#![tactic(auto)]

#[cfg(test)]
mod example;
#[cfg(test)]
mod export_fixtures;
#[cfg(test)]
mod exports;
#[cfg(test)]
mod fields;
#[cfg(test)]
mod fixtures;
#[cfg(test)]
mod loads;
#[cfg(test)]
mod packages;
#[cfg(test)]
mod rows;
