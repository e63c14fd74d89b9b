//! The tests of `pnp_core`.
#![tactic(auto)]

#[cfg(test)]
mod answers;
#[cfg(test)]
mod bindings;
#[cfg(test)]
mod example;
#[cfg(test)]
mod manifests;
#[cfg(test)]
mod packages;
#[cfg(test)]
mod parts;
#[cfg(test)]
mod patterns;
#[cfg(test)]
mod rows;
#[cfg(test)]
mod tries;
#[cfg(test)]
mod unqualified;
#[cfg(test)]
mod virtual_paths;
#[cfg(test)]
mod wordings;
