//! The tests of `idb_base`, `clone_values`, `value_members`, `value_json`, `value_bytes`: they call what is public, and stand in a crate
//! of their own so that no change of a test proves those crates anew.
#![tactic(auto)]

#[cfg(test)]
mod clone_values_tests;
#[cfg(test)]
mod idb_base_tests;
#[cfg(test)]
mod value_bytes_tests;
#[cfg(test)]
mod value_json_tests;
#[cfg(test)]
mod value_members_tests;

fn main() {}
