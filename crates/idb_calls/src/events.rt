// What a request is told.
ghost use Rattle.std.specs.Prelude.{◌≡◌, IfOk};

use clone_values::Value;
use idb_base::{Listed, NoMemory};
use idb_keys::ErrorName;
use std::alloc::{AllocError, Global};

/// The event of a request (Indexed Database API 3.0, "fire a success event" and "fire an error event"). A request is named by
/// its number in its transaction, from 1.
#[derive(Drop)]
pub enum Event {
    Success { request: u32, result: Value },
    Error { request: u32, name: ErrorName },
}

impl Clone for Event {
    ghost is_clone = { λ x y. y ≡ x };

    fn clone(&self) -> Result<Event, AllocError> {
        match self {
            Event::Success { request, result } => Ok(Event::Success {
                request: *request,
                result: result.clone()?,
            }),
            Event::Error { request, name } => Ok(Event::Error {
                request: *request,
                name: *name,
            }),
        }
    }
}

impl Event {
    /// An equal event; it shares what the result holds.
    pub fn copy(&self, _alloc: Global) -> Result<Event, NoMemory>
        ensures { IfOk result (λ e. e ≡ self.now) }
    {
        Ok(self.clone()?)
    }
}

/// The events of a transaction, in the order in which they were handled.
pub type Events = Listed<Event>;
