//! The tests of `swc_loader`.
#![tactic(auto)]

#[cfg(test)]
mod browser_maps;
#[cfg(test)]
mod calls;
#[cfg(test)]
mod example;
#[cfg(test)]
mod like_node;
#[cfg(test)]
mod node_orders;
#[cfg(test)]
mod rows;
#[cfg(test)]
mod searches;
#[cfg(test)]
mod shared_readings;
#[cfg(test)]
mod words;
