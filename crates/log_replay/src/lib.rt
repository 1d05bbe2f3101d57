// The databases that the batches of a log give.
//
// Recovery hands what a log had to `replay`, which gives the databases that these batches are defined to give, or the place of the first
// batch that gives none. The changes are made in place, record by record.
#![tactic(auto)]

mod batches;
mod error;
mod records;

pub use batches::replay;
pub use error::ReplayError;
