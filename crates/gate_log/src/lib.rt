// A log of batches in one of two areas of a disk, behind gates.
#![tactic(auto)]

mod error;
mod log;
mod open;

pub use disk_trait::{Area, Disk};
pub use error::{AppendError, LogError};
pub use gate_areas::{Batch, Batches, Frame, Payload};
pub use log::GateLog;

#[cfg(test)]
mod journal;
#[cfg(test)]
mod silent;
#[cfg(test)]
mod tests;
