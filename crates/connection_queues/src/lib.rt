// The queues of opens and deletes, the connections that aren't closed, and the inboxes of the clients.
//
// Contracts see the state of the whole as plain data; each call is one step of it, by a definition. The layers above use that
// only an ask can want memory: it takes the room for every event that can come of it.
#![tactic(auto)]

mod admitting;
mod calls;
mod faulting;
mod laws_of_queues;
mod queues;
mod steps;

pub use laws_of_queues::queue_laws;
pub use queues::Queues;
