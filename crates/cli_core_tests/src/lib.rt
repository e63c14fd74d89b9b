//! The tests of `cli_core`.
#![tactic(auto)]

#[cfg(test)]
mod audits;
#[cfg(test)]
mod bundles;
#[cfg(test)]
mod documents;
#[cfg(test)]
mod example;
#[cfg(test)]
mod graphs;
#[cfg(test)]
mod imports;
#[cfg(test)]
mod mappings;
#[cfg(test)]
mod node_search;
#[cfg(test)]
mod refusals;
#[cfg(test)]
mod sessions;
#[cfg(test)]
mod trails;
#[cfg(test)]
mod words;
