// Handlers are called: the event of a request goes to its handler, and those of requests that are left when a transaction aborts.
//
// Layers above call `handle` for each request that has its result, ask `verdict` whether the transaction goes on, and call
// `cancel_all` when it has aborted; `cancel` is for a transaction that never starts.
#![tactic(auto)]

mod cancelling;
mod handling;
mod laws_of_attending;
mod verdicts;

pub use cancelling::cancel;
pub use handling::{cancel_all, handle};
pub use laws_of_attending::attending_laws;
pub use verdicts::verdict;
