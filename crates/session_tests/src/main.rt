//! The tests of `session_openings`, `session_txs`, `client_tasks`: they call what is public, and stand in a crate
//! of their own so that no change of a test proves those crates anew.
#![tactic(auto)]

#[cfg(test)]
mod client_tasks_tests;
#[cfg(test)]
mod session_openings_tests;
#[cfg(test)]
mod session_txs_tests;

fn main() {}
