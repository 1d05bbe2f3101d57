// The laws of what a fitting session tells.
ghost use Rattle.std.specs.Prelude.{◌≡◌, ℕ, true, false, List, slice_get, Option, Some, None};
ghost use Rattle.idb_schema.specs.Schemas.{SchemaData};
ghost use Rattle.idb_calls.specs.Deltas.{DeltaTree};
ghost use Rattle.idb_calls.specs.declared.traces.Outcome.{Outcome};
ghost use Rattle.name_queues.specs.Mails.{conn_of};
ghost use Rattle.name_queues.specs.declared.events.ClientEvent.{ClientEvent};
ghost use Rattle.name_queues.specs.declared.events.ClientEvent.TheVariants as event;
ghost use Rattle.name_queues.specs.declared.ids.ConnId.{ConnId};
ghost use Rattle.idb_desk.specs.Refusals.{is_allowed, is_committed};
ghost use Rattle.idb_desk.specs.Steps.{desk_run, event_for};
ghost use Rattle.desk_steps.specs.declared.steps.DeskStep.TheVariants as step;
ghost use Rattle.item_changes.specs.Items.{Database, Items};
ghost use Rattle.request_lists.specs.Fronts.{new_front};
ghost use Rattle.request_lists.specs.Placing.{Becomes};
ghost use Rattle.serial_order.specs.FinishEntries.{ScriptedBody, Scripted, front_left};
ghost use Rattle.serial_order.specs.SerialRuns.{RunsOn, is_aborted_phase};
ghost use Rattle.script_statements.specs.declared.script.Block.{Block as Named};
ghost use Rattle.script_statements.specs.declared.script.ScriptSession.{ScriptSession};
ghost use Rattle.script_runs.specs.declared.environments.Env.{Env};
ghost use Rattle.script_runs.specs.declared.notes.Note.{Note};
ghost use Rattle.script_handlers.specs.Handling.{Script, ScriptReacts, ScriptWrites};
ghost use Rattle.client_machine.specs.Acts.{Act};
ghost use Rattle.client_machine.specs.Answering.{told_by};
ghost use Rattle.client_machine.specs.ClientStates.{OpenAsked, ClientTx, ClientState, open_at, tx_at, with_started, with_notes};
ghost use Rattle.client_machine.specs.ClientSteps.{may_begin};
ghost use Rattle.client_machine.specs.TaskRuns.{RunsNow};
ghost use Rattle.session_states.specs.Sessions.{SeatNow, SessionNow};
ghost use Rattle.session_states.specs.Telling.{RunningTx};
ghost use Rattle.session_states.specs.UnderWay.{IsInStep};
ghost use Rattle.session_facts.specs.Fitting.{IsFitting};

use idb_desk::desk_laws;

/// The laws of what is told. The oldest event of a client is one of an open or a delete that it has; one that begins a transaction
/// comes with its number, and that of an upgrade with a schema. What its body left so that it may not begin, the body aborted. The
/// desk lets a client's transaction leave aborted at any moment, and the one that runs with the outcome of its run and the schema
/// that the run kept. A client goes on holding a transaction through its start, its tasks and the posts of its turns.
pub fn telling_laws()
    ensures opens { (session : ScriptSession) (opening : Items) (now : SessionNow)
        (running : Option RunningTx) (place : ℕ) (seat : SeatNow) (e : ClientEvent)
        → IsInStep session opening now running → IsFitting now → slice_get now.seats place ≡ Some seat
        → event_for (desk_run now.run) seat.client.number ≡ Some e
        → (o : OpenAsked) × (open_at seat.client (conn_of e).request ≡ Some o) }
    ensures upgrades { (session : ScriptSession) (opening : Items) (now : SessionNow)
        (running : Option RunningTx) (place : ℕ) (seat : SeatNow) (who : ConnId) (old new : ℕ)
        → IsInStep session opening now running → IsFitting now → slice_get now.seats place ≡ Some seat
        → event_for (desk_run now.run) seat.client.number ≡ Some (event.Upgrade who old new)
        → (number : ℕ) × ((schema : SchemaData)
        × (((told_by (desk_run now.run) (step.Takes seat.client.number)).number ≡ Some number)
        × ((told_by (desk_run now.run) (step.Takes seat.client.number)).schema ≡ Some schema))) }
    ensures deletions { (session : ScriptSession) (opening : Items) (now : SessionNow)
        (running : Option RunningTx) (place : ℕ) (seat : SeatNow) (who : ConnId) (old : ℕ)
        → IsInStep session opening now running → IsFitting now → slice_get now.seats place ≡ Some seat
        → event_for (desk_run now.run) seat.client.number ≡ Some (event.DeleteReady who old)
        → (number : ℕ)
        × ((told_by (desk_run now.run) (step.Takes seat.client.number)).number ≡ Some number) }
    ensures not_begun { (body : ScriptedBody Script)
        → Becomes (new_front body.mode body.schema body.names) body.front
        → may_begin (Scripted body) ≡ false → is_aborted_phase (front_left body).phase ≡ true }
    ensures aborted { (session : ScriptSession) (opening : Items) (now : SessionNow)
        (running : Option RunningTx)
        (place : ℕ) (seat : SeatNow) (number : ℕ) (tx : ClientTx) (ended : Outcome)
        → IsInStep session opening now running → IsFitting now → slice_get now.seats place ≡ Some seat
        → tx_at seat.client number ≡ Some tx → is_committed ended ≡ false
        → is_allowed (desk_run now.run) (step.Leaves seat.client.number number ended None) ≡ true }
    ensures finishes { (session : ScriptSession) (opening : Items) (now : SessionNow) (t : RunningTx)
        (place : ℕ) (seat : SeatNow) (tx : ClientTx) (part : Option Database) (turns : List (List Note))
        (changes : List DeltaTree) (kept : Option SchemaData) (outcome : Outcome)
        → IsInStep session opening now (Some t) → IsFitting now → slice_get now.seats place ≡ Some seat
        → tx_at seat.client t.number ≡ Some tx
        → RunsOn ScriptReacts ScriptWrites part t.body turns changes kept false outcome
        → is_allowed (desk_run now.run) (step.Leaves seat.client.number t.number outcome kept) ≡ true }
    ensures held_started { (c : ClientState) (number : ℕ) (tx : ClientTx) → tx_at c number ≡ Some tx
        → tx_at (with_started c number) number ≡ Some (record tx { started = true }) }
    ensures held_tasks { (blocks : List Named) (c last : ClientState) (env : Env) (block : Option ℕ)
        (acts : List Act) (number : ℕ) (tx : ClientTx) → RunsNow blocks c env block acts last
        → tx_at c number ≡ Some tx → tx_at last number ≡ Some tx }
    ensures held_posts { (c : ClientState) (notes : List Note) (number : ℕ) (tx : ClientTx)
        → tx_at c number ≡ Some tx → tx_at (with_notes c notes) number ≡ Some tx }
{
    desk_laws();
}
