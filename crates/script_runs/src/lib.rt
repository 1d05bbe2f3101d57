// Runs of blocks: one interpreter for the statements of tasks and of handlers.
//
// A layer above says what its statements act on, as a `World`, and calls `enter`, which gives a run as `Goes` defines it: the
// statements in order, to the limits of their number and of the depth of blocks.
#![tactic(auto)]

mod environments;
mod interpreting;
mod limits;
mod notes;
mod stating;
mod worlds;

pub use environments::{At, Env};
pub use interpreting::enter;
pub use limits::{DEEPEST_BLOCK, MOST_STATEMENTS};
pub use notes::{Note, Notes, Task};
pub use worlds::{RunEnd, World};
