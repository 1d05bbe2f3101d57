// One driver of a session, without threads: it runs the clients' tasks and events, and the transactions one by one in the order of
// their numbers.
//
// The layer above uses `run_session`: it runs a session whole on the databases that a log gave, enters each transaction in a book over that
// log, and what it reports is a legal report.
#![tactic(auto)]

mod choosing;
mod driver;
mod ending;
mod reporting;
mod seats;

pub use driver::run_session;
pub use interrupted_sessions::interruption_laws;
