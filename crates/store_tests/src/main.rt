//! The tests of `indexed_records`, `object_stores`, `store_cursors`, `range_reads`, `store_changes`, `store_requests`: they call what is public, and stand in a crate
//! of their own so that no change of a test proves those crates anew.
#![tactic(auto)]

#[cfg(test)]
mod indexed_records_tests;
#[cfg(test)]
mod object_stores_tests;
#[cfg(test)]
mod range_reads_tests;
#[cfg(test)]
mod store_changes_tests;
#[cfg(test)]
mod store_cursors_tests;
#[cfg(test)]
mod store_requests_tests;

fn main() {}
