// The laws of turns, for every handler.
ghost use Rattle.std.specs.Prelude.{◌≡◌, ◌++◌, List, [], Option};
ghost use Rattle.idb_keys.specs.declared.names.ErrorName.{ErrorName};
ghost use Rattle.idb_schema.specs.Schemas.{SchemaData};
ghost use Rattle.idb_calls.specs.declared.events.Event.{Event};
ghost use Rattle.store_requests.specs.Items.{Database};
ghost use Rattle.request_lists.specs.declared.entries.ListEntry.{ListEntry};
ghost use Rattle.request_lists.specs.declared.handlers.HandlerEnd.{HandlerEnd};
ghost use Rattle.request_lists.specs.Fronts.{Front};
ghost use Rattle.list_machine.specs.declared.steps.Step.TheVariants.{Did, Idle, Aborted};
ghost use Rattle.list_machine.specs.States.{State, fresh_state};
ghost use Rattle.list_machine.specs.Machine.{Handles, Aborts, Turn, GoesOn, Runs};
ghost use Rattle.list_machine.specs.Noting.{Noted, IsRaised, IsRunnable};

use request_lists::Handler;
use store_requests::leaving_laws;

/// The laws of changes. What a transaction noted leads from its database before to the one now, each change finding what it
/// needs: as its body left it, and after each turn that goes on, where the entry that is run meets what was checked of it.
pub fn noting_laws<H: Handler>()
    ensures body { (front : Front H.Plain) (schema : SchemaData) (before : Option Database)
        → IsRaised front.mode schema before → Noted (fresh_state front schema before) }
    ensures turn { (old new : State H.Plain) (lines : List H.Line)
        → Turn H.reacts H.writes old Did new lines → Noted old → IsRunnable old → Noted new }
{
    leaving_laws();
}

/// The laws of aborting. An aborted transaction leaves the database before it and no change, after one turn, after a whole run, and
/// where it is told to abort between turns; no turn changes the database before; and where no entry is left all stays as it is.
pub fn abort_laws<H: Handler>()
    ensures turn { (old new : State H.Plain) (error : Option ErrorName) (lines : List H.Line)
        → Turn H.reacts H.writes old (Aborted error) new lines
        → (new.database ≡ old.before) × (new.changes ≡ []) }
    ensures run { (old last : State H.Plain) (error : Option ErrorName) (lines : List H.Line)
        → Runs H.reacts H.writes old (Aborted error) last lines
        → (last.database ≡ old.before) × (last.changes ≡ []) }
    ensures at_once { (old new : State H.Plain) (error : Option ErrorName) (lines : List H.Line)
        → Aborts H.reacts H.writes old error new lines
        → (new.database ≡ old.before) × (new.changes ≡ []) }
    ensures before { (old new : State H.Plain) (lines : List H.Line)
        → GoesOn H.reacts H.writes old new lines → (new.before ≡ old.before) × (new.name ≡ old.name) }
    ensures idle { (old new : State H.Plain) (lines : List H.Line)
        → Turn H.reacts H.writes old Idle new lines → new ≡ old }
{}

/// The laws of lists. What a handler places comes at the end of the list, behind all that waits; and when a transaction has
/// aborted nothing waits.
pub fn list_laws<H: Handler>()
    ensures grows { (front last : Front H.Plain) (entry : ListEntry H.Plain) (event : Event)
        (how : HandlerEnd) (lines : List H.Line)
        → Handles H.reacts H.writes front entry event last how lines
        → (placed : List (ListEntry H.Plain)) × (last.waiting ≡ front.waiting ++ placed) }
    ensures aborted { (old new : State H.Plain) (error : Option ErrorName) (lines : List H.Line)
        → Turn H.reacts H.writes old (Aborted error) new lines → new.front.waiting ≡ [] }
{}
