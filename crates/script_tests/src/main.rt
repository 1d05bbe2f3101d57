//! The tests of `script_statements`, `script_exprs`, `script_values`, `script_runs`, `script_handlers`, `script_reading`, `report_lines`: they call what is public, and stand in a crate
//! of their own so that no change of a test proves those crates anew.
#![tactic(auto)]

#[cfg(test)]
mod report_lines_tests;
#[cfg(test)]
mod script_exprs_tests;
#[cfg(test)]
mod script_handlers_tests;
#[cfg(test)]
mod script_reading_tests;
#[cfg(test)]
mod script_runs_tests;
#[cfg(test)]
mod script_statements_tests;
#[cfg(test)]
mod script_values_tests;

fn main() {}
