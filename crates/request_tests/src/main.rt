//! The tests of `request_reads`, `request_lists`, `handler_calls`, `tx_courses`: they call what is public, and stand in a crate
//! of their own so that no change of a test proves those crates anew.
#![tactic(auto)]

#[cfg(test)]
mod handler_calls_tests;
#[cfg(test)]
mod list_steps;
#[cfg(test)]
mod request_lists_tests;
#[cfg(test)]
mod request_reads_tests;
#[cfg(test)]
mod tx_courses_tests;

fn main() {}
