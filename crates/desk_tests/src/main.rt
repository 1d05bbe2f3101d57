//! The tests of `name_queues`, `connection_queues`, `scope_desk`, `idb_desk`: they call what is public, and stand in a crate
//! of their own so that no change of a test proves those crates anew.
#![tactic(auto)]

#[cfg(test)]
mod connection_queues_tests;
#[cfg(test)]
mod idb_desk_tests;
#[cfg(test)]
mod name_queues_tests;
#[cfg(test)]
mod scope_desk_tests;

fn main() {}
