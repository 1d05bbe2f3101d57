// Whether a transaction goes on after an event.
ghost use Rattle.std.specs.Prelude.{◌≡◌};
ghost use Rattle.list_machine.specs.Machine.{verdict, verdict_of_end, error_left};

use idb_calls::Event;
use idb_keys::ErrorName;
use request_lists::{HandlerEnd, Phase};

/// `None` where the transaction goes on after the event, and otherwise the error with which it aborts: that of the script which
/// aborted, AbortError where the handler threw, or the request's own where it was not prevented.
pub fn verdict(phase: Phase, event: &Event, how: HandlerEnd) -> Option<Option<ErrorName>>
    ensures { result ≡ verdict phase event.now how }
{
    match phase {
        Phase::Aborted { error } => Some(error),
        _ => verdict_of_end(event, how),
    }
}

fn verdict_of_end(event: &Event, how: HandlerEnd) -> Option<Option<ErrorName>>
    ensures { result ≡ verdict_of_end event.now how }
{
    match how {
        HandlerEnd::Returned { prevented } => match error_left(event, prevented) {
            Some(error) => Some(Some(error)),
            None => None,
        },
        HandlerEnd::Threw => Some(Some(ErrorName::AbortError)),
        HandlerEnd::NoMemory => None,
    }
}

/// The request's own error, unless the handler prevented it.
fn error_left(event: &Event, prevented: bool) -> Option<ErrorName>
    ensures { result ≡ error_left event.now prevented }
{
    match event {
        Event::Success { .. } => None,
        Event::Error { name, .. } => { if prevented { None } else { Some(*name) } }
    }
}
