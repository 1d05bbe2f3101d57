// The laws of the limits on databases and stores.
ghost use Rattle.std.specs.Prelude.{◌≡◌, ◌≤◌, ℕ, true, false, List, filter, length, slice_get, Option, Some};
ghost use Rattle.idb_schema.specs.Schemas.{SchemaData};
ghost use Rattle.idb_calls.specs.Deltas.{DeltaTree};
ghost use Rattle.idb_calls.specs.declared.traces.Outcome.{Outcome};
ghost use Rattle.name_queues.specs.Names.{has_place};
ghost use Rattle.name_queues.specs.declared.names.TheConstants.{GREATEST_NAME_COUNT};
ghost use Rattle.idb_desk.specs.Databases.{database_under};
ghost use Rattle.desk_steps.specs.declared.steps.DeskStep.TheVariants as step;
ghost use Rattle.idb_desk.specs.Refusals.{is_allowed};
ghost use Rattle.idb_desk.specs.Steps.{DeskRun, desk_run, IsDeskRun};
ghost use Rattle.desk_facts.specs.Databases.{AreOpenable};
ghost use Rattle.item_changes.specs.Items.{Items};
ghost use Rattle.item_changes.specs.Effects.{applied_all};
ghost use Rattle.item_changes.specs.Scopes.{part_of};
ghost use Rattle.idb_databases.specs.Items.{is_within_limits};
ghost use Rattle.list_machine.specs.declared.limits.TheConstants.{GREATEST_STORE_COUNT};
ghost use Rattle.serial_order.specs.FinishEntries.{ScriptedBody, Scripted, scope_of_body, changes_kept};
ghost use Rattle.serial_order.specs.SerialRuns.{RunsOn};
ghost use Rattle.script_statements.specs.declared.script.ScriptSession.{ScriptSession};
ghost use Rattle.script_handlers.specs.Handling.{Script, ScriptReacts, ScriptWrites};
ghost use Rattle.client_machine.specs.ClientStates.{ClientTx, tx_at};
ghost use Rattle.session_facts.specs.Sessions.{SeatNow, SessionNow};
ghost use Rattle.session_facts.specs.Telling.{RunningTx};
ghost use Rattle.session_facts.specs.UnderWay.{IsInStep};
ghost use Rattle.session_facts.specs.Moves.{entry_ran};
ghost use Rattle.session_facts.specs.Fitting.{AreFew, IsFitting};
ghost use Rattle.session_facts.specs.Showing.{IsShown, IsSoundKept};

use idb_desk::desk_laws;
use session_facts::showing_laws;

/// The laws of limits. In a run of the desk over at most 16 databases at most 16 names have a place; over databases of few stores
/// each database has few, and so has each schema with which a transaction of a client was made. So the databases of a session that
/// shows those of its desk stay within limits, where those of its opening are, also with the changes of a transaction that may
/// leave.
pub fn limit_laws()
    ensures names { (r : DeskRun) → AreOpenable r.opening → length r.opening ≤ GREATEST_NAME_COUNT
        → IsDeskRun r → length (filter has_place (desk_run r).queues.names) ≤ GREATEST_NAME_COUNT }
    ensures stores { (r : DeskRun) (name : List ℕ) (schema : SchemaData) → AreFew r.opening → IsDeskRun r
        → database_under (desk_run r) name ≡ Some schema
        → length schema.entries ≤ GREATEST_STORE_COUNT }
    ensures bodies { (session : ScriptSession) (opening : Items) (now : SessionNow)
        (running : Option RunningTx) (place : ℕ) (seat : SeatNow) (number : ℕ) (tx : ClientTx)
        (body : ScriptedBody Script)
        → IsInStep session opening now running → IsFitting now → slice_get now.seats place ≡ Some seat
        → tx_at seat.client number ≡ Some tx → tx.body ≡ Scripted body
        → length body.schema.entries ≤ GREATEST_STORE_COUNT }
    ensures items { (session : ScriptSession) (opening : Items) (now : SessionNow)
        (running : Option RunningTx)
        → IsInStep session opening now running → IsFitting now → IsShown now
        → is_within_limits opening ≡ true → is_within_limits now.items ≡ true }
    ensures left { (session : ScriptSession) (opening : Items) (now : SessionNow) (t : RunningTx)
        (place : ℕ) (seat : SeatNow) (tx : ClientTx)
        (outcome : Outcome) (kept : Option SchemaData) (changes : List DeltaTree)
        → IsInStep session opening now (Some t) → IsFitting now → IsShown now
        → slice_get now.seats place ≡ Some seat → tx_at seat.client t.number ≡ Some tx
        → is_allowed (desk_run now.run) (step.Leaves seat.client.number t.number outcome kept) ≡ true
        → RunsOn ScriptReacts ScriptWrites (part_of
        (scope_of_body t.body) now.items) t.body t.turns changes kept false outcome
        → IsSoundKept kept → is_within_limits opening ≡ true
        → is_within_limits (applied_all now.items
        (changes_kept (entry_ran t changes kept outcome))) ≡ true }
{
    desk_laws();
    showing_laws();
}
