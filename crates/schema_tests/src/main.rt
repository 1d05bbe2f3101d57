//! The tests of `idb_schema`, `version_upgrade`, `idb_calls`, `database_changes`, `idb_databases`: they call what is public, and stand in a crate
//! of their own so that no change of a test proves those crates anew.
#![tactic(auto)]

#[cfg(test)]
mod database_changes_tests;
#[cfg(test)]
mod idb_calls_tests;
#[cfg(test)]
mod idb_databases_tests;
#[cfg(test)]
mod idb_schema_tests;
#[cfg(test)]
mod version_upgrade_tests;

fn main() {}
