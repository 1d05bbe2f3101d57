// The desk: queues, connections, inboxes and transactions as one machine, whose order list says all that it did.
//
// Contracts see the desk as the databases that it began with and the list of its steps. The layers above use that each call is
// one allowed step of the machine, answered as the run so far says.
#![tactic(auto)]

mod allowing;
mod board;
mod changes;
mod clients;
mod desk;
mod drawing;
mod durabilities;
mod making;
mod places;
mod reads;
mod waiting;

pub use allowing::{GREATEST_ASK_COUNT, GREATEST_STORE_COUNT, GREATEST_VERSION};
pub use desk::Desk;
pub use desk_steps::{
    DeskPlace, DeskRequest, DeskStep, DrawnTx, Stand, TxKind, TxStage, desk_laws, durability_laws,
    item_laws, quiet_laws,
};
