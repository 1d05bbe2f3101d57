// The laws of the steps of a session.
ghost use Rattle.std.specs.Prelude.{◌≡◌, ℕ, false, true, List, [], ◌∷◌, ◌++◌, map, Option, Some, None};
ghost use Rattle.idb_schema.specs.Schemas.{SchemaData};
ghost use Rattle.idb_calls.specs.Deltas.{DeltaTree};
ghost use Rattle.idb_calls.specs.declared.traces.Outcome.{Outcome};
ghost use Rattle.name_queues.specs.declared.events.ClientEvent.{ClientEvent};
ghost use Rattle.desk_steps.specs.declared.steps.DeskStep.TheVariants as step;
ghost use Rattle.idb_desk.specs.Steps.{DeskRun, desk_run};
ghost use Rattle.item_changes.specs.Items.{Items};
ghost use Rattle.item_changes.specs.Scopes.{part_of};
ghost use Rattle.client_ties.specs.FinishEntries.{FinishEntry, scope_of_body, did_commit};
ghost use Rattle.client_ties.specs.SerialRuns.{joined_lines, RunsOn, NeverStarts};
ghost use Rattle.script_statements.specs.declared.script.Client.{Client};
ghost use Rattle.script_statements.specs.declared.script.ScriptSession.{ScriptSession};
ghost use Rattle.script_runs.specs.declared.notes.Note.{Note};
ghost use Rattle.script_runs.specs.declared.notes.Task.{Task};
ghost use Rattle.script_handlers.specs.Handling.{Script, ScriptReacts, ScriptWrites};
ghost use Rattle.client_ties.specs.Acts.{Told, Act, Makes, TakesTurn};
ghost use Rattle.client_ties.specs.ClientStates.{ClientTx, tx_at, without_tx, with_started, with_notes};
ghost use Rattle.client_ties.specs.ClientSteps.{Meets, EndsTx, may_begin, with_tasks};
ghost use Rattle.client_ties.specs.TaskRuns.{RunsNow};
ghost use Rattle.client_ties.specs.Unfinished.{least_of};
ghost use Rattle.legal_sessions.specs.Legal.{is_in_doubt, may_write};
ghost use Rattle.session_states.specs.Sessions.{SeatNow, SessionNow, with_seat, with_finished, with_fault};
ghost use Rattle.session_states.specs.Telling.{RunningTx};
ghost use Rattle.session_states.specs.UnderWay.{IsUnderWay};
ghost use Rattle.session_states.specs.Moves.{Moves, entry_ran, entry_dropped, entry_by_host};

use idb_desk::desk_laws;

/// The laws of the steps. A client of a session under way runs its oldest task, or takes an event and meets it; the least unfinished
/// transaction starts, has a turn, and finishes with what its run gives on the databases, or in doubt, where its commit met a fault
/// and the host is faulted by it; one that its body aborted finishes without starting, and in a faulted host so does each other one.
/// Each keeps the session under way. What didn't commit leaves the databases as they were, and is no commit.
pub fn step_laws()
    ensures task { (session : ScriptSession) (opening : Items) (now : SessionNow) (running : Option RunningTx)
        (place : ℕ) (script : Client) (before seat : SeatNow) (acts : List Act) (r : DeskRun)
        (task : Task) (tasks : List Task)
        → IsUnderWay session opening now running → Moves session now place script before acts r seat
        → before.client.tasks ≡ task ∷ tasks
        → RunsNow script.blocks (with_tasks before.client tasks) task.env (Some task.block) acts seat.client
        → IsUnderWay session opening (with_seat place r seat now) running }
    ensures event { (session : ScriptSession) (opening : Items) (now : SessionNow)
        (running : Option RunningTx)
        (place : ℕ) (script : Client) (before seat : SeatNow) (acts : List Act) (r : DeskRun)
        (e : ClientEvent) (told : Told)
        → IsUnderWay session opening now running
        → Moves session now place script before (Makes (step.Takes before.client.number) told ∷ acts) r seat
        → before.client.tasks ≡ [] → told.event ≡ Some e
        → Meets script.blocks told before.client e acts seat.client
        → IsUnderWay session opening (with_seat place r seat now) running }
    ensures start { (session : ScriptSession) (opening : Items) (now : SessionNow)
        (place : ℕ) (script : Client) (before seat : SeatNow) (r : DeskRun) (number : ℕ) (told : Told)
        (tx : ClientTx)
        → IsUnderWay session opening now None
        → Moves session now place script before (Makes
        (step.Starts before.client.number number) told ∷ []) r seat
        → least_of (desk_run now.run) ≡ Some number → before.client.tasks ≡ []
        → tx_at before.client number ≡ Some tx → tx.started ≡ false → may_begin tx.body ≡ true
        → seat.client ≡ with_started before.client number
        → IsUnderWay session opening (with_seat place r seat now)
        (Some (record { number = number; body = tx.body; turns = [] })) }
    ensures turn { (session : ScriptSession) (opening : Items) (now : SessionNow) (t : RunningTx)
        (place : ℕ) (script : Client) (before seat : SeatNow) (r : DeskRun) (notes : List Note)
        (tx : ClientTx)
        → IsUnderWay session opening now (Some t)
        → Moves session now place script before (TakesTurn t.number notes ∷ []) r seat
        → before.client.tasks ≡ []
        → tx_at before.client t.number ≡ Some tx → tx.started ≡ true
        → seat.client ≡ with_notes before.client notes
        → IsUnderWay session opening (with_seat place r seat now) (Some
        (record t { turns = t.turns ++ notes ∷ [] })) }
    ensures finish { (session : ScriptSession) (opening : Items) (now : SessionNow) (t : RunningTx)
        (place : ℕ) (script : Client) (before seat : SeatNow) (acts : List Act) (r : DeskRun)
        (told : Told) (tx : ClientTx)
        (outcome : Outcome) (kept : Option SchemaData) (changes : List DeltaTree)
        → IsUnderWay session opening now (Some t)
        → Moves session now place script before
        (Makes (step.Leaves before.client.number t.number outcome kept) told ∷ acts) r seat
        → before.client.tasks ≡ [] → tx_at before.client t.number ≡ Some tx → tx.started ≡ true
        → EndsTx script.blocks (without_tx before.client t.number) t.number outcome tx.kind acts seat.client
        → RunsOn ScriptReacts ScriptWrites (part_of
        (scope_of_body t.body) now.items) t.body t.turns changes kept false outcome
        → is_in_doubt outcome ≡ false
        → IsUnderWay session opening (with_finished (entry_ran t changes kept outcome)
        (with_seat place r seat now)) None }
    ensures cancel { (session : ScriptSession) (opening : Items) (now : SessionNow)
        (place : ℕ) (script : Client) (before seat : SeatNow) (acts : List Act) (r : DeskRun)
        (told : Told) (tx : ClientTx)
        (number : ℕ) (turns : List (List Note)) (outcome : Outcome) → IsUnderWay session opening now None
        → Moves session now place script before
        (map (TakesTurn number) turns ++ Makes
        (step.Leaves before.client.number number outcome None) told ∷ acts) r seat
        → least_of (desk_run now.run) ≡ Some number → before.client.tasks ≡ []
        → tx_at before.client number ≡ Some tx → tx.started ≡ false
        → EndsTx script.blocks (with_notes (without_tx before.client number)
        (joined_lines turns)) number outcome tx.kind acts
        seat.client
        → NeverStarts ScriptReacts ScriptWrites tx.body turns [] None false outcome
        → IsUnderWay session opening (with_finished (entry_dropped number tx.body turns outcome)
        (with_seat place r seat now)) None }
    ensures doubt { (session : ScriptSession) (opening : Items) (now : SessionNow) (t : RunningTx)
        (place : ℕ) (script : Client) (before seat : SeatNow) (acts : List Act) (r : DeskRun)
        (told : Told) (tx : ClientTx)
        (outcome : Outcome) (kept : Option SchemaData) (changes : List DeltaTree)
        → IsUnderWay session opening now (Some t)
        → Moves session (with_fault now) place script before
        (Makes (step.Leaves before.client.number t.number outcome kept) told ∷ acts) r seat
        → before.client.tasks ≡ [] → tx_at before.client t.number ≡ Some tx → tx.started ≡ true
        → EndsTx script.blocks (without_tx before.client t.number) t.number outcome tx.kind acts seat.client
        → RunsOn ScriptReacts ScriptWrites (part_of
        (scope_of_body t.body) now.items) t.body t.turns changes kept false outcome
        → is_in_doubt outcome ≡ true → may_write t.body ≡ true
        → IsUnderWay session opening (with_finished (entry_ran t changes kept outcome)
        (with_seat place r seat now)) None }
    ensures end_by_host { (session : ScriptSession) (opening : Items) (now : SessionNow)
        (place : ℕ) (script : Client) (before seat : SeatNow) (acts : List Act) (r : DeskRun)
        (told : Told) (tx : ClientTx)
        (number : ℕ) (turns : List (List Note)) (outcome : Outcome) → IsUnderWay session opening now None
        → (desk_run now.run).board.is_faulted ≡ true
        → Moves session now place script before
        (map (TakesTurn number) turns ++ Makes
        (step.Leaves before.client.number number outcome None) told ∷ acts) r seat
        → least_of (desk_run now.run) ≡ Some number → before.client.tasks ≡ []
        → tx_at before.client number ≡ Some tx → tx.started ≡ false
        → EndsTx script.blocks (with_notes (without_tx before.client number)
        (joined_lines turns)) number outcome tx.kind acts
        seat.client
        → NeverStarts ScriptReacts ScriptWrites tx.body turns [] None true outcome
        → IsUnderWay session opening (with_finished (entry_by_host number tx.body turns outcome)
        (with_seat place r seat now)) None }
    ensures undone { (e : FinishEntry Script Note) (now : SessionNow) → did_commit e.outcome ≡ false
        → ((with_finished e now).items ≡ now.items)
        × ((with_finished e now).commits ≡ now.commits) }
{
    desk_laws();
}
