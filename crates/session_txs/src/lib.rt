// One transaction of a session, run on the session's databases.
//
// The layer above hands a transaction whose body has run to `begin`, which takes its part out of the databases, steps it turn by turn
// until it has an end, and lets it `close`. Then it enters what is told of it in its log, and puts the part back: `keep` as the
// transaction left it, or `take_back` as it was, where its commit met a fault. Whether the part is as the schema says with which the
// transaction was made isn't tested here: the layer above has proved it. `delete_database` is the deletion of a database,
// and `end_begun` ends a transaction that hasn't started.
#![tactic(auto)]

mod beginning;
mod cancelling;
mod deleting;
mod fronts;
mod laws_of_runs;
mod left_part;
mod session_tx;
mod turns;

pub use beginning::begin;
pub use cancelling::end_begun;
pub use deleting::{delete_database, deletion_trace, dropped_deletion_trace};
pub use left_part::LeftPart;
pub use session_tx::{SessionTx, TxEnd};
