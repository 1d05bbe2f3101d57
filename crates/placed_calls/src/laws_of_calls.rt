// The laws of fit calls, for every handler.
ghost use Rattle.std.specs.Prelude.{ℕ, List};
ghost use Rattle.idb_keys.specs.declared.names.Mode.{Mode};
ghost use Rattle.idb_schema.specs.Schemas.{SchemaData};
ghost use Rattle.idb_calls.specs.declared.events.Event.{Event};
ghost use Rattle.request_lists.specs.declared.entries.ListEntry.{ListEntry};
ghost use Rattle.request_lists.specs.declared.handlers.HandlerEnd.{HandlerEnd};
ghost use Rattle.request_lists.specs.Fronts.{Front, new_front};
ghost use Rattle.request_lists.specs.Placing.{Becomes};
ghost use Rattle.list_machine.specs.Machine.{Handles};
ghost use Rattle.placed_calls.specs.Fitting.{AreFit};

use request_lists::Handler;

/// The laws of fit calls: those that a body placed in a new front are fit, and those of a front stay so while a handler places more.
pub fn fitting_laws<H: Handler>()
    ensures body { (mode : Mode) (schema : SchemaData) (scope : List (List ℕ)) (body : Front H.Plain)
        → Becomes (new_front mode schema scope) body → AreFit body }
    ensures handled { (front last : Front H.Plain) (entry : ListEntry H.Plain) (event : Event)
        (how : HandlerEnd) (lines : List H.Line)
        → Handles H.reacts H.writes front entry event last how lines → AreFit front → AreFit last }
{}
