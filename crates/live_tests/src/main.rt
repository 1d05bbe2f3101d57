//! The tests of `live_stores` and `entry_runs`: they call what is public, and stand in a crate of their own so that no
//! change of a test proves those crates anew.
#![tactic(auto)]

#[cfg(test)]
mod entry_runs_tests;
#[cfg(test)]
mod live_stores_tests;

fn main() {}
