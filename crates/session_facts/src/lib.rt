// What a session under way tells its driver: that what its clients hold fits what the desk holds.
//
// There is no code here but definitions and their laws. Each step of a client keeps a session fitting; and where it fits, an event
// is one of the client's own, the desk allows the finish of the transaction that runs and of one that its body aborted, and what
// may not begin was aborted by its body.
#![tactic(auto)]

mod laws_of_fitting;
mod laws_of_showing;
mod laws_of_telling;

pub use laws_of_fitting::fitting_laws;
pub use laws_of_showing::showing_laws;
pub use laws_of_telling::telling_laws;
