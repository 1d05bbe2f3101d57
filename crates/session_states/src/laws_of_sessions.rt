// The laws of a session under way: its beginning, what it tells, and its end.
ghost use Rattle.std.specs.Prelude.{◌≡◌, ℕ, ◌+◌, List, Option, Some, None, slice_get};
ghost use Rattle.std.specs.List.{list_any};
ghost use Rattle.idb_schema.specs.Schemas.{SchemaData};
ghost use Rattle.scope_desk.specs.Starts.{may_start};
ghost use Rattle.scope_desk.specs.declared.unfinished.MayStart.TheVariants.{Go};
ghost use Rattle.desk_steps.specs.declared.stands.DrawnTx.{DrawnTx};
ghost use Rattle.idb_desk.specs.Desks.{drawn_at};
ghost use Rattle.idb_desk.specs.Durabilities.{durability_drawn};
ghost use Rattle.idb_desk.specs.Refusals.{has_some};
ghost use Rattle.desk_steps.specs.declared.steps.DeskStep.TheVariants as step;
ghost use Rattle.idb_desk.specs.Steps.{DeskRun, desk_run, with_step, IsDeskRun};
ghost use Rattle.item_changes.specs.Items.{Items};
ghost use Rattle.log_history.specs.Kept.{End};
ghost use Rattle.script_statements.specs.declared.script.Client.{Client};
ghost use Rattle.script_statements.specs.declared.script.ScriptSession.{ScriptSession};
ghost use Rattle.client_ties.specs.Acts.{Act};
ghost use Rattle.client_ties.specs.ClientStates.{ClientTx, tx_at};
ghost use Rattle.client_ties.specs.Unfinished.{least_of};
ghost use Rattle.client_ties.specs.Ties.{IsTied};
ghost use Rattle.legal_sessions.specs.Histories.{ShowsItems};
ghost use Rattle.legal_sessions.specs.Legal.{is_fault, EndsSo, IsLegalReport};
ghost use Rattle.session_states.specs.Sessions.{SeatNow, SessionNow, fresh_session, with_fault, IsAtEnd, report_now};
ghost use Rattle.session_states.specs.Telling.{RunningTx};
ghost use Rattle.session_states.specs.UnderWay.{IsInStep, IsUnderWay};
ghost use Rattle.session_states.specs.Moves.{Moves, HasReady};

use idb_desk::desk_laws;

/// The laws of a session under way. Before any step it is under way, over schemas that are those of the databases. Each of its
/// clients is tied to the desk; the least unfinished transaction is one that its client has, and may start unless the host is
/// faulted. The host is faulted by a step of the order, which moves no client, and is so exactly where a transaction is in doubt.
/// What a client does leaves the durability of its transactions. Where nobody has anything left to do, what was noted, finished and
/// kept is a legal report, with what was logged and how the log ended, and the databases are those at its end.
pub fn under_way_laws()
    ensures fresh { (session : ScriptSession) (schemas : List SchemaData) (opening : Items)
        → ShowsItems schemas opening
        → IsUnderWay session opening (fresh_session session.clients schemas opening) None }
    ensures tied { (session : ScriptSession) (opening : Items) (now : SessionNow) (running : Option RunningTx)
        (place : ℕ) (seat : SeatNow) → IsInStep session opening now running
        → slice_get now.seats place ≡ Some seat
        → IsTied (desk_run now.run) seat.client × (seat.client.number ≡ place + 1) }
    ensures ready { (session : ScriptSession) (opening : Items) (now : SessionNow) (number : ℕ) (t : DrawnTx)
        → IsUnderWay session opening now None → least_of (desk_run now.run) ≡ Some number
        → may_start (desk_run now.run).board.scopes number ≡ Go
        → drawn_at (desk_run now.run).board.drawn number ≡ Some t → HasReady session now number t }
    ensures faulted { (r : DeskRun) → (desk_run r).board.is_faulted ≡ list_any is_fault r.order }
    ensures faults { (session : ScriptSession) (opening : Items) (now : SessionNow)
        (running : Option RunningTx)
        → IsInStep session opening now running → IsDeskRun (with_step now.run step.Faults)
        → IsInStep session opening (with_fault now) running }
    ensures doubted { (session : ScriptSession) (opening : Items) (now : SessionNow)
        (running : Option RunningTx)
        → IsUnderWay session opening now running
        → has_some now.doubts ≡ (desk_run now.run).board.is_faulted }
    ensures durable { (session : ScriptSession) (opening : Items) (now : SessionNow)
        (running : Option RunningTx)
        (place : ℕ) (script : Client) (before seat : SeatNow) (acts : List Act) (r : DeskRun)
        (number : ℕ) (tx : ClientTx) → IsInStep session opening now running
        → Moves session now place script before acts r seat → tx_at before.client number ≡ Some tx
        → durability_drawn r.order number ≡ durability_drawn now.run.order number }
    ensures durable_faulted { (r : DeskRun) (number : ℕ)
        → durability_drawn (with_step r step.Faults).order number ≡ durability_drawn r.order number }
    ensures legal { (session : ScriptSession) (number : ℕ) (opening : Items) (now : SessionNow)
        (running : Option RunningTx)
        (log_end : End) → IsUnderWay session opening now running → IsAtEnd now
        → EndsSo session.drop_end now.doubts log_end
        → IsLegalReport session number opening (report_now number opening now log_end)
        now.commits log_end now.items }
{
    desk_laws();
}
