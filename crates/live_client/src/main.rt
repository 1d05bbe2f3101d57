//! A small client of live transactions: a handler that places calls by a plan, and an upgrade whose body places requests with such
//! handlers and which is run to its end. `run_upgrade` has the whole theorem of that run as its contract, proved from the public
//! clauses of `live_tx`, `request_lists` and `tx_courses` alone.
#![tactic(auto)]

mod bodies;
mod calls;
mod clients;
#[cfg(test)]
mod many_tests;
mod plans;
#[cfg(test)]
mod saying;
#[cfg(test)]
mod steps;
#[cfg(test)]
mod tests;

fn main() {}
