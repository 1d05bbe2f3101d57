//! The tests of `path_grammar`, `idb_keys`, `key_order`, `query_ranges`, `key_paths`, `key_generators`: they call what is public, and stand in a crate
//! of their own so that no change of a test proves those crates anew.
#![tactic(auto)]

#[cfg(test)]
mod idb_keys_tests;
#[cfg(test)]
mod key_generators_tests;
#[cfg(test)]
mod key_order_tests;
#[cfg(test)]
mod key_paths_tests;
#[cfg(test)]
mod path_grammar_tests;
#[cfg(test)]
mod query_ranges_tests;

fn main() {}
