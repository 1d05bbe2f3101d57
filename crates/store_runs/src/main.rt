//! Long random runs of tables and of object stores beside plain slow programs, and many records at once. They call what is
//! public, and stand in a crate of their own so that no change of a test proves those crates anew.
#![tactic(auto)]

#[cfg(test)]
mod dice;
#[cfg(test)]
mod many_records_tests;
#[cfg(test)]
mod object_stores_tests;
#[cfg(test)]
mod ordered_tables_tests;
#[cfg(test)]
mod random_acts;
#[cfg(test)]
mod slow_store;
#[cfg(test)]
mod slow_table;
#[cfg(test)]
mod stores;

fn main() {}
