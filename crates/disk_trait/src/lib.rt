// The disk: two areas of bytes that fail and stop by a stated model, and a disk in memory that keeps it.
//
// The layers above rest on the trait `Disk` alone: what reads give, what a stop now may leave, and what a stop at any
// moment since may have left. What they prove from it holds for every disk that keeps its clauses.
#![tactic(auto)]

mod area;
mod area_bytes;
mod both_areas;
mod change_log;
mod content;
mod disk;
mod memory;
mod note;
mod over_calls;
mod plan;
mod synced;

pub use area::Area;
pub use disk::Disk;
pub use edge_traits::Failed;
pub use memory::MemoryDisk;
pub use note::leave_note;
pub use over_calls::{planned_images, same_calls_leave_the_same, sync_pins};
pub use plan::{DiskPlan, Image};
pub use synced::{cut_synced, rewrite_synced, write_synced};
