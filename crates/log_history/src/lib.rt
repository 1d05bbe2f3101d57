// What the batches of a log mean, and how commits are cut into them.
//
// There is no code here but definitions and their laws, which the layers of recovery and sessions cite: the items that the
// batches of a disk give, the cutting of commits into batches, and how many of a session's commits may be found afterwards.
#![tactic(auto)]

mod laws_of_batches;
mod laws_of_keeping;
mod laws_of_replay;
mod limits;

pub use laws_of_batches::batch_laws;
pub use laws_of_keeping::kept_laws;
pub use laws_of_replay::replay_laws;
pub use limits::{FULL_BATCH_BYTES, GREATEST_BATCH_COUNT};
