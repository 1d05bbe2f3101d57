// The laws of fitting: it holds before any step, and after each.
ghost use Rattle.std.specs.Prelude.{◌≡◌, ℕ, List, [], ◌∷◌, ◌++◌, map, Option, Some, None};
ghost use Rattle.idb_schema.specs.Schemas.{SchemaData};
ghost use Rattle.idb_calls.specs.declared.traces.Outcome.{Outcome};
ghost use Rattle.name_queues.specs.declared.events.ClientEvent.{ClientEvent};
ghost use Rattle.desk_steps.specs.declared.steps.DeskStep.TheVariants as step;
ghost use Rattle.idb_desk.specs.Steps.{DeskRun, with_step, IsDeskRun};
ghost use Rattle.desk_facts.specs.Databases.{AreOpenable};
ghost use Rattle.item_changes.specs.Items.{Items};
ghost use Rattle.serial_order.specs.FinishEntries.{FinishEntry};
ghost use Rattle.serial_order.specs.SerialRuns.{joined_lines};
ghost use Rattle.script_statements.specs.declared.script.Client.{Client};
ghost use Rattle.script_statements.specs.declared.script.ScriptSession.{ScriptSession};
ghost use Rattle.script_runs.specs.declared.notes.Note.{Note};
ghost use Rattle.script_runs.specs.declared.notes.Task.{Task};
ghost use Rattle.script_handlers.specs.Handling.{Script};
ghost use Rattle.client_machine.specs.Acts.{Told, Act, Makes, TakesTurn};
ghost use Rattle.client_machine.specs.ClientStates.{ClientTx, tx_at, without_tx, with_started, with_notes};
ghost use Rattle.client_machine.specs.ClientSteps.{Meets, EndsTx, with_tasks};
ghost use Rattle.client_machine.specs.TaskRuns.{RunsNow};
ghost use Rattle.session_states.specs.Sessions.{SeatNow, SessionNow, fresh_session, with_seat, with_finished, with_fault};
ghost use Rattle.session_states.specs.Telling.{RunningTx};
ghost use Rattle.session_states.specs.UnderWay.{IsInStep};
ghost use Rattle.session_states.specs.Moves.{Moves};
ghost use Rattle.session_facts.specs.Fitting.{AreFew, IsFitting};

use idb_desk::desk_laws;

/// The laws of fitting. Before any step a session fits, over databases that a desk can have; and each step of a client of a session
/// in step keeps it fitting, and so does the fault of the host.
pub fn fitting_laws()
    ensures fresh { (session : ScriptSession) (schemas : List SchemaData) (opening : Items)
        → AreOpenable schemas → AreFew schemas → IsFitting (fresh_session session.clients schemas opening) }
    ensures task { (session : ScriptSession) (opening : Items) (now : SessionNow) (running : Option RunningTx)
        (place : ℕ) (script : Client) (before seat : SeatNow) (acts : List Act) (r : DeskRun)
        (task : Task) (tasks : List Task)
        → IsInStep session opening now running → IsFitting now
        → Moves session now place script before acts r seat
        → RunsNow script.blocks (with_tasks before.client tasks) task.env (Some task.block) acts seat.client
        → IsFitting (with_seat place r seat now) }
    ensures event { (session : ScriptSession) (opening : Items) (now : SessionNow)
        (running : Option RunningTx)
        (place : ℕ) (script : Client) (before seat : SeatNow) (acts : List Act) (r : DeskRun)
        (e : ClientEvent) (told : Told)
        → IsInStep session opening now running → IsFitting now
        → Moves session now place script before (Makes (step.Takes before.client.number) told ∷ acts) r seat
        → told.event ≡ Some e → Meets script.blocks told before.client e acts seat.client
        → IsFitting (with_seat place r seat now) }
    ensures start { (session : ScriptSession) (opening : Items) (now : SessionNow)
        (running : Option RunningTx)
        (place : ℕ) (script : Client) (before seat : SeatNow) (r : DeskRun) (number : ℕ) (told : Told)
        → IsInStep session opening now running → IsFitting now
        → Moves session now place script before (Makes
        (step.Starts before.client.number number) told ∷ []) r seat
        → seat.client ≡ with_started before.client number → IsFitting (with_seat place r seat now) }
    ensures turn { (session : ScriptSession) (opening : Items) (now : SessionNow) (running : Option RunningTx)
        (place : ℕ) (script : Client) (before seat : SeatNow) (r : DeskRun) (number : ℕ) (notes : List Note)
        → IsInStep session opening now running → IsFitting now
        → Moves session now place script before (TakesTurn number notes ∷ []) r seat
        → seat.client ≡ with_notes before.client notes → IsFitting (with_seat place r seat now) }
    ensures finish { (session : ScriptSession) (opening : Items) (now : SessionNow)
        (running : Option RunningTx)
        (place : ℕ) (script : Client) (before seat : SeatNow) (acts : List Act) (r : DeskRun) (number : ℕ)
        (told : Told) (tx : ClientTx) (outcome : Outcome) (kept : Option SchemaData)
        (e : FinishEntry Script Note)
        → IsInStep session opening now running → IsFitting now
        → Moves session now place script before
        (Makes (step.Leaves before.client.number number outcome kept) told ∷ acts) r seat
        → tx_at before.client number ≡ Some tx
        → EndsTx script.blocks (without_tx before.client number) number outcome tx.kind acts seat.client
        → IsFitting (with_finished e (with_seat place r seat now)) }
    ensures cancel { (session : ScriptSession) (opening : Items) (now : SessionNow)
        (running : Option RunningTx)
        (place : ℕ) (script : Client) (before seat : SeatNow) (acts : List Act) (r : DeskRun) (number : ℕ)
        (told : Told) (tx : ClientTx) (turns : List (List Note)) (outcome : Outcome)
        (e : FinishEntry Script Note)
        → IsInStep session opening now running → IsFitting now
        → Moves session now place script before
        (map (TakesTurn number) turns ++ Makes
        (step.Leaves before.client.number number outcome None) told ∷ acts) r seat
        → tx_at before.client number ≡ Some tx
        → EndsTx script.blocks (with_notes (without_tx before.client number)
        (joined_lines turns)) number outcome tx.kind acts seat.client
        → IsFitting (with_finished e (with_seat place r seat now)) }
    ensures faults { (now : SessionNow) → IsFitting now → IsDeskRun (with_step now.run step.Faults)
        → IsFitting (with_fault now) }
{
    desk_laws();
}
