//! The tests of `script_runner`: they call what is public, and stand in a crate of their own so that no change of a test proves
//! that crate anew.
#![tactic(auto)]

#[cfg(test)]
mod script_runner_disk_tests;
#[cfg(test)]
mod script_runner_tests;

fn main() {}
