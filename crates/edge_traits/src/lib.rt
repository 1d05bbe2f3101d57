// The outside of the database: where bytes come from, where they go, and what is told before a request runs.
//
// Each trait says what its object holds, where it tells that, and counts its faults: a call answers
// `Failed` only where the count rose in that call. The layers above read and write by `read_all` and
// `write_all`. The fakes over memory say exactly which call fails.
#![tactic(auto)]

mod call_plans;
mod gates;
mod memory_sinks;
mod memory_sources;
mod sinks;
mod sources;

pub use call_plans::CallPlan;
pub use gates::{Gate, OpenGate};
pub use memory_sinks::MemorySink;
pub use memory_sources::{MemorySource, SteadySource};
pub use sinks::{Sink, write_all};
pub use sources::{Source, SourceError, read_all};

/// What a source, a sink or a disk answers where it failed. The fault is counted: the object's count
/// rose, or stands at its end.
#[derive(Clone, Copy, Debug, PartialEq, Eq)]
pub struct Failed;
