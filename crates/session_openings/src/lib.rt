// The databases on which a session begins, with what its desk and its report are told of them.
//
// The layer above uses `open_databases`: the databases that a log gave move into those of a session, and the schemas and the lines of the
// report's opening are made of them before.
#![tactic(auto)]

mod lines;
mod openings;
mod schemas;

pub use openings::{SessionOpening, open_databases};
