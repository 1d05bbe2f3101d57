//! The tests of `edge_traits`, `disk_trait`, `gate_areas`, `record_bytes`, `record_changes`, `log_replay`, `idb_recovery`: they call what is public, and stand in a crate
//! of their own so that no change of a test proves those crates anew.
#![tactic(auto)]

#[cfg(test)]
mod disk_trait_tests;
#[cfg(test)]
mod edge_traits_tests;
#[cfg(test)]
mod gate_areas_tests;
#[cfg(test)]
mod idb_recovery_tests;
#[cfg(test)]
mod log_replay_tests;
#[cfg(test)]
mod record_bytes_tests;
#[cfg(test)]
mod record_changes_tests;

fn main() {}
