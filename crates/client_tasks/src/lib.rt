// The clients of scripts, and what their tasks do: statements over a desk and a client.
//
// An `Office` is a desk with one of its clients, moved in; it is the world of the client's tasks. The layer above uses `run_now`: a
// block runs at once as a task, as `RunsNow` defines it, and each step that it makes of the desk is made at once.
#![tactic(auto)]

mod errors;
mod finishing;
mod meeting;
mod offices;
mod running;
mod starting;
mod tasks;

pub use errors::TakeError;
pub use offices::Office;
