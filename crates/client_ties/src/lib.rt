// How the transactions of a client stand to those of the desk.
//
// There is no code here but definitions and their laws: the unfinished transactions of a desk, and that a client's own are
// those of them that it made.
#![tactic(auto)]

mod laws_of_ties;

pub use laws_of_ties::tie_laws;
