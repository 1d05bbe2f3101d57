// The laws of a session that shows its databases.
ghost use Rattle.std.specs.Prelude.{◌≡◌, ℕ, true, false, List, [], ◌∷◌, ◌++◌, map, slice_get, Option, Some, None, is_some};
ghost use Rattle.std.specs.FinMap as finite;
ghost use Rattle.idb_schema.specs.Schemas.{SchemaData};
ghost use Rattle.idb_calls.specs.Deltas.{DeltaTree};
ghost use Rattle.idb_calls.specs.declared.traces.Outcome.{Outcome};
ghost use Rattle.name_queues.specs.declared.events.ClientEvent.{ClientEvent};
ghost use Rattle.desk_steps.specs.declared.steps.DeskStep.TheVariants as step;
ghost use Rattle.idb_desk.specs.Databases.{database_under};
ghost use Rattle.idb_desk.specs.Refusals.{is_allowed};
ghost use Rattle.idb_desk.specs.Steps.{DeskRun, desk_run, with_step, IsDeskRun};
ghost use Rattle.desk_facts.specs.Databases.{AreOpenable};
ghost use Rattle.item_changes.specs.Items.{Name, Items};
ghost use Rattle.item_changes.specs.Effects.{applied_all};
ghost use Rattle.item_changes.specs.Scopes.{part_of};
ghost use Rattle.serial_order.specs.FinishEntries.{ScriptedBody, Scripted, Deletion, scope_of_body, changes_kept};
ghost use Rattle.serial_order.specs.NumberOrder.{FitsWhole};
ghost use Rattle.serial_order.specs.SerialRuns.{joined_lines, RunsOn, NeverStarts};
ghost use Rattle.script_statements.specs.declared.script.Client.{Client};
ghost use Rattle.script_statements.specs.declared.script.ScriptSession.{ScriptSession};
ghost use Rattle.script_runs.specs.declared.notes.Note.{Note};
ghost use Rattle.script_runs.specs.declared.notes.Task.{Task};
ghost use Rattle.script_handlers.specs.Handling.{Script, ScriptReacts, ScriptWrites};
ghost use Rattle.client_machine.specs.Acts.{Told, Act, Makes, TakesTurn};
ghost use Rattle.client_machine.specs.ClientStates.{ClientTx, tx_at, without_tx, with_notes};
ghost use Rattle.client_machine.specs.ClientSteps.{Meets, EndsTx, with_tasks};
ghost use Rattle.client_machine.specs.TaskRuns.{RunsNow};
ghost use Rattle.session_states.specs.Histories.{ShowsItems};
ghost use Rattle.session_states.specs.Sessions.{SeatNow, SessionNow, fresh_session, with_seat, with_finished, with_fault};
ghost use Rattle.session_states.specs.Telling.{RunningTx};
ghost use Rattle.session_states.specs.UnderWay.{IsInStep};
ghost use Rattle.session_states.specs.Moves.{Moves, entry_ran, entry_dropped, entry_by_host};
ghost use Rattle.session_facts.specs.Fitting.{IsFitting};
ghost use Rattle.session_facts.specs.Showing.{AgreesAt, IsShown, IsSoundKept};

use idb_desk::desk_laws;
use key_paths::conversion_laws;
use store_requests::leaving_laws;

/// The laws of showing. Before any step the databases of a session are those of its desk; and each step of a client of a fitting
/// session under way keeps it so, where the schema that a finish keeps is one that a program can have: as soon as the transaction
/// leaves the desk has the databases with its changes. Each unfinished
/// transaction is made by the schema that its database has, on the part of the databases that its scope names; and what one deletes
/// exists.
pub fn showing_laws()
    ensures fresh { (session : ScriptSession) (schemas : List SchemaData) (opening : Items)
        → AreOpenable schemas → ShowsItems schemas opening
        → IsShown (fresh_session session.clients schemas opening) }
    ensures task { (session : ScriptSession) (opening : Items) (now : SessionNow) (running : Option RunningTx)
        (place : ℕ) (script : Client) (before seat : SeatNow) (acts : List Act) (r : DeskRun)
        (task : Task) (tasks : List Task)
        → IsInStep session opening now running → IsFitting now → IsShown now
        → Moves session now place script before acts r seat
        → RunsNow script.blocks (with_tasks before.client tasks) task.env (Some task.block) acts seat.client
        → IsShown (with_seat place r seat now) }
    ensures event { (session : ScriptSession) (opening : Items) (now : SessionNow)
        (running : Option RunningTx)
        (place : ℕ) (script : Client) (before seat : SeatNow) (acts : List Act) (r : DeskRun)
        (e : ClientEvent) (told : Told)
        → IsInStep session opening now running → IsFitting now → IsShown now
        → Moves session now place script before (Makes (step.Takes before.client.number) told ∷ acts) r seat
        → told.event ≡ Some e → Meets script.blocks told before.client e acts seat.client
        → IsShown (with_seat place r seat now) }
    ensures start { (session : ScriptSession) (opening : Items) (now : SessionNow)
        (running : Option RunningTx)
        (place : ℕ) (script : Client) (before seat : SeatNow) (r : DeskRun) (number : ℕ) (told : Told)
        → IsInStep session opening now running → IsFitting now → IsShown now
        → Moves session now place script before (Makes
        (step.Starts before.client.number number) told ∷ []) r seat
        → IsShown (with_seat place r seat now) }
    ensures turn { (session : ScriptSession) (opening : Items) (now : SessionNow) (running : Option RunningTx)
        (place : ℕ) (script : Client) (before seat : SeatNow) (r : DeskRun) (number : ℕ) (notes : List Note)
        → IsInStep session opening now running → IsFitting now → IsShown now
        → Moves session now place script before (TakesTurn number notes ∷ []) r seat
        → IsShown (with_seat place r seat now) }
    ensures finish { (session : ScriptSession) (opening : Items) (now : SessionNow) (t : RunningTx)
        (place : ℕ) (script : Client) (before seat : SeatNow) (acts : List Act) (r : DeskRun)
        (told : Told) (tx : ClientTx)
        (outcome : Outcome) (kept : Option SchemaData) (changes : List DeltaTree)
        → IsInStep session opening now (Some t) → IsFitting now → IsShown now
        → Moves session now place script before
        (Makes (step.Leaves before.client.number t.number outcome kept) told ∷ acts) r seat
        → tx_at before.client t.number ≡ Some tx
        → EndsTx script.blocks (without_tx before.client t.number) t.number outcome tx.kind acts seat.client
        → RunsOn ScriptReacts ScriptWrites (part_of
        (scope_of_body t.body) now.items) t.body t.turns changes kept false outcome
        → IsSoundKept kept
        → IsShown (with_finished (entry_ran t changes kept outcome) (with_seat place r seat now)) }
    ensures left { (session : ScriptSession) (opening : Items) (now : SessionNow) (t : RunningTx)
        (place : ℕ) (seat : SeatNow) (tx : ClientTx)
        (outcome : Outcome) (kept : Option SchemaData) (changes : List DeltaTree)
        → IsInStep session opening now (Some t) → IsFitting now → IsShown now
        → slice_get now.seats place ≡ Some seat → tx_at seat.client t.number ≡ Some tx
        → is_allowed (desk_run now.run) (step.Leaves seat.client.number t.number outcome kept) ≡ true
        → RunsOn ScriptReacts ScriptWrites (part_of
        (scope_of_body t.body) now.items) t.body t.turns changes kept false outcome
        → IsSoundKept kept → (name : Name) → AgreesAt name (database_under (desk_run
        (with_step now.run (step.Leaves seat.client.number t.number outcome kept))) name)
        (finite.get (applied_all now.items (changes_kept (entry_ran t changes kept outcome))) name) }
    ensures cancel { (session : ScriptSession) (opening : Items) (now : SessionNow)
        (running : Option RunningTx)
        (place : ℕ) (script : Client) (before seat : SeatNow) (acts : List Act) (r : DeskRun) (number : ℕ)
        (told : Told) (tx : ClientTx) (turns : List (List Note)) (outcome : Outcome)
        → IsInStep session opening now running → IsFitting now → IsShown now
        → Moves session now place script before
        (map (TakesTurn number) turns ++ Makes
        (step.Leaves before.client.number number outcome None) told ∷ acts) r seat
        → tx_at before.client number ≡ Some tx
        → EndsTx script.blocks (with_notes (without_tx before.client number)
        (joined_lines turns)) number outcome tx.kind acts seat.client
        → NeverStarts ScriptReacts ScriptWrites tx.body turns [] None false outcome
        → IsShown (with_finished (entry_dropped number tx.body turns outcome) (with_seat place r seat now)) }
    ensures end_by_host { (session : ScriptSession) (opening : Items) (now : SessionNow)
        (running : Option RunningTx)
        (place : ℕ) (script : Client) (before seat : SeatNow) (acts : List Act) (r : DeskRun) (number : ℕ)
        (told : Told) (tx : ClientTx) (turns : List (List Note)) (outcome : Outcome)
        → IsInStep session opening now running → IsFitting now → IsShown now
        → Moves session now place script before
        (map (TakesTurn number) turns ++ Makes
        (step.Leaves before.client.number number outcome None) told ∷ acts) r seat
        → tx_at before.client number ≡ Some tx
        → EndsTx script.blocks (with_notes (without_tx before.client number)
        (joined_lines turns)) number outcome tx.kind acts seat.client
        → NeverStarts ScriptReacts ScriptWrites tx.body turns [] None true outcome
        → IsShown (with_finished (entry_by_host number tx.body turns outcome) (with_seat place r seat now)) }
    ensures faults { (now : SessionNow) → IsFitting now → IsShown now
        → IsDeskRun (with_step now.run step.Faults) → IsShown (with_fault now) }
    ensures whole { (session : ScriptSession) (opening : Items) (now : SessionNow)
        (running : Option RunningTx) (place : ℕ) (seat : SeatNow) (number : ℕ) (tx : ClientTx) (body : ScriptedBody Script)
        → IsInStep session opening now running → IsFitting now → IsShown now
        → slice_get now.seats place ≡ Some seat → tx_at seat.client number ≡ Some tx → tx.body ≡ Scripted body
        → FitsWhole (part_of (scope_of_body (Scripted body)) now.items) body }
    ensures exists { (session : ScriptSession) (opening : Items) (now : SessionNow)
        (running : Option RunningTx) (place : ℕ) (seat : SeatNow) (number : ℕ) (tx : ClientTx) (name : Name)
        → IsInStep session opening now running → IsFitting now → IsShown now
        → slice_get now.seats place ≡ Some seat → tx_at seat.client number ≡ Some tx → tx.body ≡ Deletion name
        → is_some (finite.get now.items name) ≡ true }
{
    desk_laws();
    leaving_laws();
    conversion_laws();
}
