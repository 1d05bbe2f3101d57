// What a session may report: client runs, desk run, serial results, the order in which transactions finished, and the databases
// at the end.
//
// There is no code here but definitions and their law. Nothing of them speaks of how many drivers run the clients.
#![tactic(auto)]

mod laws_of_sessions;

pub use laws_of_sessions::session_laws;
