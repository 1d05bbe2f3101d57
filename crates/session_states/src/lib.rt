// A session under way: what a driver without threads holds, and what must hold of it, so that it reports a legal session at its end.
//
// There is no code here but definitions and their laws. Each step of a client, its steps of the desk made at once, keeps a session
// under way; where nobody has anything left to do, the report of what was noted is a legal one.
#![tactic(auto)]

mod laws_of_sessions;
mod laws_of_steps;

pub use laws_of_sessions::under_way_laws;
pub use laws_of_steps::step_laws;
