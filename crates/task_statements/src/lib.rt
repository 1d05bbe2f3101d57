// What statements of tasks do: opens, deletes and closes are asked of the desk, transactions are created and their bodies run.
//
// Nothing here holds a desk and a client together: each call takes both, and leaves the client seated at the desk. The layer above
// uses `act`, which does what one statement says, and the calls by which a transaction of an upgrade begins.
#![tactic(auto)]

mod acting;
mod asking;
mod creating;
mod upgrading;

pub use acting::{act, open_at};
pub use creating::{TxAsked, make_room, put_tx};
pub use upgrading::begin_upgrade;
