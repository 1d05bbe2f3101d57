// Names of errors, modes of transactions, directions of cursors, and key ranges.
//
// Contracts see a key range as its two bounds, over key trees. The layers above read which keys are in it, by
// `IsInRange` or by the test `includes`, and that its bounds never exclude each other.
#![tactic(auto)]

mod names;
mod ranges;

pub use key_order::compare;
pub use names::{Direction, Durability, ErrorName, Mode, Over};
pub use ranges::{KeyRange, RangeError, bound_laws, key_range_laws};
