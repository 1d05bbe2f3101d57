// Live transactions: each step runs the first entry of the list and calls its handler, and is one turn of the list machine.
//
// Layers above make a `LiveTx` of a front whose body has run and of the stores of its scope, call `step` until no entry is left or the
// transaction has aborted, and take it apart. `abort` and `revert` end it from outside.
#![tactic(auto)]

mod ending;
mod entries;
mod laws_of_living;
mod live;
mod next;
mod parts;
mod standing;
mod turning;

pub use laws_of_living::live_laws;
pub use live::LiveTx;
pub use parts::LiveParts;
pub use standing::Standing;
