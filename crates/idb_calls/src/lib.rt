// The words in which transactions are spoken of: what a request asks, what its event says, what a commit changed, and what
// became of it.
//
// All of it is plain data in contracts, so that a front, a trace and a view can hold it and `≡` means equality; a change is
// seen as a `DeltaTree`, with trees for its key and its value.
#![tactic(auto)]

mod calls;
mod deltas;
mod events;
mod orders;
mod traces;

pub use calls::{Call, Query, Target};
pub use deltas::{Delta, Deltas};
pub use events::{Event, Events};
pub use orders::{Pending, PendingLines, Token, Tokens};
pub use traces::{GREATEST_DELTA_COUNT, Outcome, TxTrace};
