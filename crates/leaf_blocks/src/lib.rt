// Runs of at most 64 items, leaves, and blocks of at most 128 of them, with how much there is up to each.
//
// A `Block` is the list of its leaves, and each call says which list it leaves. Leaves and blocks have all their room from
// the first: only `new` and `reserve` take memory.
#![tactic(auto)]

mod block;
mod ends;
mod heads;
mod leaf;

pub use block::{Block, HALF_WIDTH, WIDTH, absorb, halve};
pub use ends::{Ends, Inner};
pub use heads::{cut_head, head_at, last_below, last_up_to, put_head, set_head};
pub use leaf::{HALF, Leaf, MOST};
