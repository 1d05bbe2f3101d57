// What the states of a transaction meet, turn by turn.
//
// There is no code here but laws of the list machine: all changes so far, applied to the database before, give the one now, and
// each finds what it needs; no limit is passed; and what is changed is in the scope.
#![tactic(auto)]

mod laws_of_limits;
mod laws_of_states;

pub use laws_of_limits::{limit_laws, reach_laws};
pub use laws_of_states::state_laws;
pub use list_machine::leaving_laws;
