// Fronts of transactions: what their scripts may call, and the list of requests that these calls make.
//
// Layers above hand a `TxFront` to a `Handler`, which contracts see as plain data. `refusal_of` says which calls a front refuses, in
// the standard's order of checks; what is not refused adds one entry at the end of the list, and nothing else changes.
#![tactic(auto)]

mod checking;
mod cursor_checks;
mod cursors;
mod entries;
mod front;
mod handlers;
mod lookups;
mod placing;
mod refusing;
mod running;
mod upgrading;
mod values;

pub use entries::{FrontCursor, ListEntry, Phase};
pub use front::TxFront;
pub use handlers::{Handler, HandlerEnd};
pub use refusing::{Refusal, Refused};
