// Scripts on the front of a transaction: its body, and the handlers of its requests.
//
// The layer above uses `ScriptHandler`, a `Handler` whose relation is `Handled`, and `run_body`. Both are runs of blocks as
// `Goes` defines them, over `FrontDoes`: what each statement asks of the front, by name, and what the front makes of it.
#![tactic(auto)]

mod asking;
mod asks;
mod handlers;
mod lent_fronts;
mod running;
mod values;

pub use handlers::ScriptHandler;
pub use running::run_body;
