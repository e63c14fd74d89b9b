//! The tests of `lock_audit`.
#![tactic(auto)]

#[cfg(test)]
mod audited;
#[cfg(test)]
mod edges;
#[cfg(test)]
mod joined;
#[cfg(test)]
mod random_manifests;
