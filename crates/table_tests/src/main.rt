//! The tests of `leaf_table`, `index_tables`, `store_tables`, `idb_cursors`: they call what is public, and stand in a crate
//! of their own so that no change of a test proves those crates anew.
#![tactic(auto)]

#[cfg(test)]
mod idb_cursors_tests;
#[cfg(test)]
mod index_tables_tests;
#[cfg(test)]
mod leaf_table_tests;
#[cfg(test)]
mod store_tables_tests;

fn main() {}
