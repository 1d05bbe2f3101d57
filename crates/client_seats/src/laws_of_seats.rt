// The laws of clients that sit at a desk.
ghost use Rattle.std.specs.Prelude.{◌≡◌, ◌≢◌, true, false, length, ◌++◌, ℕ, List, [], Some, None};
ghost use Rattle.idb_schema.specs.Schemas.{SchemaData};
ghost use Rattle.name_queues.specs.declared.asks.Wants.{Wants};
ghost use Rattle.name_queues.specs.declared.events.ClientEvent.{ClientEvent};
ghost use Rattle.name_queues.specs.Mails.{conn_of};
ghost use Rattle.desk_steps.specs.declared.steps.DeskStep.{DeskStep};
ghost use Rattle.idb_desk.specs.Desks.{asks_of};
ghost use Rattle.idb_desk.specs.Refusals.{is_allowed, refusal_of_step};
ghost use Rattle.idb_desk.specs.Steps.{DeskRun, desk_run, with_step, answer_of};
ghost use Rattle.client_machine.specs.Acts.{Act};
ghost use Rattle.client_machine.specs.Answering.{MadeAtOnce};
ghost use Rattle.client_machine.specs.ClientStates.{OpenAsked, ClientTx, ClientState, fresh_client, open_at, with_open, with_tx, without_tx, with_started};
ghost use Rattle.client_machine.specs.ClientSteps.{after_event_of};
ghost use Rattle.client_seats.specs.Seating.{IsSeated, SitsAlike, ask_step, is_ask_of};

/// The laws of sitting. A client sits at a desk where neither has done anything, and on behind each step; behind an ask of its own
/// with what it asked, behind a step that draws a number with the transaction of that number. What another client does leaves
/// it seated. What the desk doesn't refuse of its asks is allowed.
pub fn seat_laws()
    ensures begins { (number main : ℕ) (opening : List SchemaData)
        → IsSeated (fresh_client number main) (record { opening = opening; order = [] }) }
    ensures counted { (c : ClientState) (r : DeskRun) → IsSeated c r
        → length (asks_of (desk_run r).board.clients c.number) ≡ length c.opens }
    ensures taken { (c : ClientState) (r : DeskRun) (o : OpenAsked) (wants : Wants) → IsSeated c r
        → refusal_of_step (desk_run r) (ask_step c o wants) ≡ None
        → is_allowed (desk_run r) (ask_step c o wants) ≡ true }
    ensures asked { (c : ClientState) (r : DeskRun) (o : OpenAsked) (wants : Wants) → IsSeated c r
        → is_allowed (desk_run r) (ask_step c o wants) ≡ true
        → IsSeated (with_open c o) (with_step r (ask_step c o wants)) }
    ensures later { (c : ClientState) (r : DeskRun) (t : DeskStep) → IsSeated c r
        → is_ask_of c.number t ≡ false → IsSeated c (with_step r t) }
    ensures others { (c : ClientState) (client : ℕ) (r last : DeskRun) (acts : List Act) → c.number ≢ client
        → IsSeated c r → MadeAtOnce client r acts last → IsSeated c last }
    ensures drew { (c : ClientState) (r : DeskRun) (t : DeskStep) (tx : ClientTx) → IsSeated c r
        → is_allowed (desk_run r) t ≡ true → (answer_of (desk_run r) t).number ≡ Some tx.number
        → IsSeated (with_tx c tx) (with_step r t) }
    ensures given { (c : ClientState) (r : DeskRun) (e : ClientEvent) (o : OpenAsked) → IsSeated c r
        → open_at c (conn_of e).request ≡ Some o → IsSeated (after_event_of c o e) r }
    ensures started { (c : ClientState) (r : DeskRun) (number : ℕ) → IsSeated c r
        → IsSeated (with_started c number) r }
    ensures finished { (c : ClientState) (r : DeskRun) (number : ℕ) → IsSeated c r
        → IsSeated (without_tx c number) r }
    ensures alike { (c d : ClientState) (r : DeskRun) → IsSeated c r → SitsAlike c d → IsSeated d r }
{}
