// All of a running transaction but its front: its schema, its stores, its changes in their order, and what it is counted by.
//
// Layers above run requests through a `Course`, by the names of stores, and calls of an upgrade by `run_change`. What would pass a
// limit isn't kept: whatever a transaction did, `restore` undoes it, and takes no memory.
#![tactic(auto)]

mod changing;
mod course;
mod opening;
mod parts;
mod requests;
mod upgrades;

pub use changing::run_change;
pub use course::Course;
pub use opening::opening_changes;
pub use parts::CourseParts;
