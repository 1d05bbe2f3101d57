// The laws of what a run of a scripted transaction makes of its part of the databases.
ghost use Rattle.std.specs.Prelude.{◌≡◌, false, List, Option};
ghost use Rattle.idb_schema.specs.Schemas.{SchemaData};
ghost use Rattle.idb_calls.specs.Deltas.{DeltaTree};
ghost use Rattle.idb_calls.specs.declared.traces.Outcome.TheVariants.{Committed};
ghost use Rattle.item_changes.specs.Items.{Database, Items};
ghost use Rattle.item_changes.specs.Effects.{made_all};
ghost use Rattle.item_changes.specs.Scopes.{AllWithin, part_of};
ghost use Rattle.request_lists.specs.Fronts.{new_front};
ghost use Rattle.request_lists.specs.Placing.{Becomes};
ghost use Rattle.list_machine.specs.States.{State};
ghost use Rattle.machine_laws.specs.Keeping.{IsState};
ghost use Rattle.serial_order.specs.FinishEntries.{ScriptedBody};
ghost use Rattle.serial_order.specs.SerialRuns.{GoesBy, ScriptedRun};
ghost use Rattle.serial_order.specs.NumberOrder.{FitsWhole};
ghost use Rattle.script_runs.specs.declared.notes.Note.{Note};
ghost use Rattle.script_handlers.specs.Handling.{Script, ScriptReacts, ScriptWrites};
ghost use Rattle.session_txs.specs.Running.{scope_of_scripted};
ghost use Rattle.session_txs.specs.Keeping.{begun_state};

use machine_laws::state_laws;
use script_handlers::ScriptHandler;
use serial_order::serial_laws;

/// The laws of a run: its changes lead from its part as it was to the part now, and are in its scope; and its state is one at every
/// moment.
pub(crate) fn run_laws()
    ensures made { (body : ScriptedBody Script) (part : Option Database) (new : State Script)
        (turns : List (List Note))
        → Becomes (new_front body.mode body.schema body.names) body.front → FitsWhole part body
        → GoesBy ScriptReacts ScriptWrites (begun_state body part) new turns
        → made_all new.changes part ≡ new.database }
    ensures states { (body : ScriptedBody Script) (part : Option Database) (new : State Script)
        (turns : List (List Note))
        → Becomes (new_front body.mode body.schema body.names) body.front → FitsWhole part body
        → GoesBy ScriptReacts ScriptWrites (begun_state body part) new turns → IsState new }
    ensures within { (body : ScriptedBody Script) (items : Items) (turns : List (List Note))
        (changes : List DeltaTree) (kept : Option SchemaData)
        → ScriptedRun ScriptReacts ScriptWrites (part_of (scope_of_scripted body) items)
        body turns changes kept false Committed
        → AllWithin (scope_of_scripted body) changes }
{
    state_laws::<ScriptHandler>();
    serial_laws::<ScriptHandler>();
}
