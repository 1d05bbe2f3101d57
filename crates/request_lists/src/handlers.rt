// What handles the events of requests.
ghost use Rattle.std.specs.Prelude.{◌≡◌, ◌≢◌, ◌++◌, List};
ghost use Rattle.std.specs.Coded.{Coded};
ghost use Rattle.idb_calls.specs.declared.events.Event.{Event};
ghost use Rattle.request_lists.specs.declared.handlers.HandlerEnd.{HandlerEnd};
ghost use Rattle.request_lists.specs.declared.handlers.HandlerEnd.TheVariants as end;
ghost use Rattle.request_lists.specs.Fronts.{Front, front_map};
ghost use Rattle.request_lists.specs.Placing.{IsEvent, Becomes};

use crate::front::TxFront;
use idb_calls::Event;

/// How a handler ended.
#[derive(Clone, Copy, Debug, PartialEq, Eq)]
pub enum HandlerEnd {
    /// It returned; `prevented` says whether it prevented the default action of an error event.
    Returned { prevented: bool },
    Threw,
    /// Memory ran out.
    NoMemory,
}

/// The handler of a request. Contracts see it as plain data.
pub trait Handler: Drop {
    type Notes;

    ghost Plain: { Type 0 };

    ghost plain_code: { Coded Plain };

    ghost plain: { Self → Plain };

    ghost reacts: { Plain → Front Plain → Event → Plain → Front Plain → HandlerEnd → Type 0 };

    ghost Line: { Type 0 };

    ghost lines: { Self.Notes → List Line };

    ghost writes: { Plain → Front Plain → Event → List Line → Type 0 };

    /// Handles the event of its request. Between calls the front is lent to it alone.
    fn on_event(
        &mut self,
        front: &mut TxFront<Self>,
        event: &Event,
        notes: &mut Self::Notes,
    ) -> HandlerEnd
        requires { IsEvent event.now }
        ensures reacts { result ≢ end.NoMemory → reacts (plain self.old) (front_map plain front.old) event.now
            (plain self.new) (front_map plain front.new) result }
        ensures writes { result ≢ end.NoMemory → (ls : List Line)
            × writes (plain self.old) (front_map plain front.old) event.now ls
            × (lines notes.new ≡ lines notes.old ++ ls) }

        // The front is changed by its calls alone, also where memory ran out.
        ensures becomes { Becomes front.old front.new };
}
