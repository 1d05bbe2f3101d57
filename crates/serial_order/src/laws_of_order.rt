// The laws of the order of transactions, for every handler.
ghost use Rattle.std.specs.Prelude.{◌≡◌, Bool, false, List, Option};
ghost use Rattle.std.specs.List.Sorted.{IsPermutation};
ghost use Rattle.idb_schema.specs.Schemas.{SchemaData};
ghost use Rattle.idb_calls.specs.Deltas.{DeltaTree};
ghost use Rattle.idb_calls.specs.declared.traces.Outcome.TheVariants.{Committed};
ghost use Rattle.item_changes.specs.Items.{Items};
ghost use Rattle.item_changes.specs.Effects.{applied_all};
ghost use Rattle.item_changes.specs.Scopes.{AllWithin, part_of};
ghost use Rattle.machine_laws.specs.Step.TheVariants as step;
ghost use Rattle.machine_laws.specs.States.{State, fresh_state};
ghost use Rattle.machine_laws.specs.Machine.{Runs};
ghost use Rattle.serial_order.specs.FinishEntries.{ScriptedBody, Scripted, FinishEntry, front_left, scope_of_body, scope_of_entry, did_commit, changes_kept};
ghost use Rattle.serial_order.specs.SerialRuns.{joined_lines, ScriptedRun, RunsAlone, IsSerial, items_after};
ghost use Rattle.serial_order.specs.NumberOrder.{IsInOrder, by_number, Rises, committed_of, FitsWhole, EachFits, EachApplies};

use item_changes::scope_laws;
use key_paths::conversion_laws;
use machine_laws::leaving_laws;
use request_lists::Handler;

/// The laws of the order. Where transactions that conflict finished in the order of their numbers, all of them have the same
/// runs one by one in the order in which they finished and in that of their numbers, and the items at the end are the same: those
/// that the committed ones leave. By their numbers they are the same transactions, and rise.
pub fn serial_laws<H: Handler>()
    ensures by_number { (items : Items) (finish : List (FinishEntry H.Plain H.Line)) → IsInOrder finish
        → IsSerial H.reacts H.writes items finish → IsSerial H.reacts H.writes items (by_number finish) }
    ensures from_number { (items : Items) (finish : List (FinishEntry H.Plain H.Line)) → IsInOrder finish
        → IsSerial H.reacts H.writes items (by_number finish) → IsSerial H.reacts H.writes items finish }
    ensures same_items { (items : Items) (finish : List (FinishEntry H.Plain H.Line)) → IsInOrder finish
        → IsSerial H.reacts H.writes items finish
        → items_after items finish ≡ items_after items (by_number finish) }
    ensures committed { (items : Items) (finish : List (FinishEntry H.Plain H.Line))
        → items_after items finish ≡ items_after items (committed_of finish) }
    ensures nothing_left { (items : Items) (e : FinishEntry H.Plain H.Line) → did_commit e.outcome ≡ false
        → applied_all items (changes_kept e) ≡ items }
    ensures within { (items : Items) (e : FinishEntry H.Plain H.Line) → RunsAlone H.reacts H.writes items e
        → AllWithin (scope_of_entry e) (changes_kept e) }
    ensures same_entries { (finish : List (FinishEntry H.Plain H.Line))
        → IsPermutation finish (by_number finish) }
    ensures rises { (finish : List (FinishEntry H.Plain H.Line)) → Rises (by_number finish) }
{
    scope_laws();
}

/// The laws of applying. Where a transaction was made by the schema that its database has where it starts, and committed, its scope
/// is left as its last request left it; and where all were, what each committed one changed finds what it needs.
pub fn applying_laws<H: Handler>()
    ensures leaves { (items : Items) (body : ScriptedBody H.Plain)
        (turns : List (List H.Line)) (changes : List DeltaTree) (kept : Option SchemaData) (by_host : Bool)
        → FitsWhole (part_of (scope_of_body (Scripted body)) items) body
        → ScriptedRun H.reacts H.writes (part_of (scope_of_body (Scripted body)) items) body turns changes
        kept by_host Committed
        → (new : State H.Plain)
        × Runs H.reacts H.writes (fresh_state (front_left body) body.schema
        (part_of (scope_of_body (Scripted body)) items)) step.Idle new (joined_lines turns)
        × (part_of (scope_of_body (Scripted body)) (applied_all items changes) ≡ new.database) }
    ensures applies { (items : Items) (finish : List (FinishEntry H.Plain H.Line)) → EachFits items finish
        → IsSerial H.reacts H.writes items finish → EachApplies items finish }
{
    leaving_laws();
    conversion_laws();
}
