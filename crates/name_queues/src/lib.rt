// The queue of one name, its connections, and the inboxes that it writes into.
//
// A change of a name is a function that gives the name after it and the events that it sends. The layer above sends them, and
// keeps for each client the room for all that is still owed to it; nothing here but an ask wants memory.
#![tactic(auto)]

mod asks;
mod boxes;
mod connections;
mod ends;
mod events;
mod faults;
mod ids;
mod names;
mod traffic;
mod turns;

pub use asks::{Ask, Stage, Wants};
pub use boxes::{Inbox, box_place, lose, promise, send, send_if};
pub use connections::{Change, Conn};
pub use ends::{end_deletion, end_upgrade};
pub use events::ClientEvent;
pub use faults::fault_name;
pub use ids::ConnId;
pub use names::{GREATEST_NAME_COUNT, Named, begin_tx, blank_name, close, end_tx, mark, push};
pub use traffic::Traffic;
pub use turns::{Turn, turn_name};
