// What the client of a script has: its tasks, its opens and deletes, and its transactions, with what a step makes of each.
//
// Nothing here knows a desk. The layer above uses `ScriptClient`, whose value is the state of the client machine, and its parts,
// which calls change one by one as that machine says.
#![tactic(auto)]

mod asking;
mod begun;
mod clients;
mod ends;
mod events;
mod held_txs;
mod kept_opens;
mod posting;
mod tx_places;
mod wishes;

pub use asking::{Asking, asking_in};
pub use begun::{BegunBody, BegunParts, BegunTx};
pub use clients::{ClientParts, ScriptClient};
pub use ends::{end_block, end_env, end_line};
pub use events::{event_block, event_env, event_line};
pub use held_txs::{HeldTx, TxKindHeld};
pub use kept_opens::KeptOpen;
pub use posting::take_posts;
pub use tx_places::{can_start, is_started, start, take_out, waits};
pub use wishes::{conn_named, has_thrown, names_once, version_wanted};
