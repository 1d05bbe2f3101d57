// A session that was interrupted, as by want of memory: what it had done by then is so much of a legal session.
//
// There is no code here but definitions and their laws.
#![tactic(auto)]

mod laws_of_interruptions;

pub use laws_of_interruptions::interruption_laws;
