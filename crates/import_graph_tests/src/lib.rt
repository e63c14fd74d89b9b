//! The tests of `import_graph`.
#![tactic(auto)]

#[cfg(test)]
mod large;
#[cfg(test)]
mod lines;
#[cfg(test)]
mod memory;
#[cfg(test)]
mod plain;
#[cfg(test)]
mod project;
#[cfg(test)]
mod random_edits;
