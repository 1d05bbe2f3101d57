// Leaves in use, in order and in blocks, and free ones beside them.
//
// A `Pile` is the list of its blocks, none of them too small, and the number of its free leaves: an item is put in or taken out
// of a leaf, a leaf is split, joined with the one behind it, or left out, and none of it takes memory.
#![tactic(auto)]

mod pile;
mod shelf;

pub use pile::Pile;
pub use shelf::{Guess, Seat, Shelf};
