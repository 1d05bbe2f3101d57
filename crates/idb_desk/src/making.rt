// What each step makes of the queues and the board.
ghost use Rattle.std.specs.Prelude.{◌≡◌, ◌<◌, ◌≤◌, ◌+◌, ◌^◌, ◌-◌, ℕ, Bool, true, if◌then◌else◌, is_some, [], ◌∷◌, ◌++◌, Some, None, slice_get, OnOk, OnErr, IfOk, IfSome};
ghost use Rattle.std.specs.Option.{option_copied};
ghost use Rattle.connection_queues.specs.Machine.{faulted_state, unhandled, schema_of, tx_begun, turned_queue, turn_of_name};
ghost use Rattle.name_queues.specs.Names.{conn_in};
ghost use Rattle.desk_steps.specs.DeskRoom.{wants_memory};
ghost use Rattle.desk_steps.specs.Desks.{changes_in, name_asked_by, with_stage};
ghost use Rattle.desk_steps.specs.Numbers.{at_place};
ghost use Rattle.desk_steps.specs.declared.stands.TxStage.TheVariants.{Started};
ghost use Rattle.desk_steps.specs.Handing.{kept_of};
ghost use Rattle.idb_desk.specs.Parts.{board_of, desk_state_of};
ghost use Rattle.desk_steps.specs.Queueing.{settled_at, settled_where, is_moved};
ghost use Rattle.desk_steps.specs.Steps.{after, after_asked, after_take, event_for, after_handled, after_closed, after_created, after_left, left_named, ended_in, queues_left, places_left, clients_left, place_left, answer_of};

use crate::allowing::is_committed;
use crate::board::{Board, Parts};
use crate::clients::{DeskClient, ask, handle_change, request_of, set_stand, stand_of};
use crate::drawing::{draw_plain, drawn_at, finish, note_event, set_stage};
use crate::places::leave_place;
use clone_values::{Text, Texts};
use connection_queues::{Queues, queue_laws};
use desk_steps::{DeskPlace, DeskStep, DrawnTx, Stand, TxKind, TxStage};
use idb_base::NoMemory;
use idb_keys::Mode;
use idb_schema::Schema;
use name_queues::{ClientEvent, ConnId, Turn, Wants};

/// One move of the queue of a name; whether it moved.
fn turn_once(queues: &mut Queues, name: &Text) -> bool
    ensures turned { queues.new ≡ turned_queue queues.old name.now }
    ensures moved { result ≡ is_moved (turn_of_name queues.old name.now) }
{
    matches!(queues.turn(name), Turn::Moved)
}

/// The queue of a name moves as far as it can. It takes no memory.
fn settle(queues: &mut Queues, name: &Text)
    ensures { queues.new ≡ settled_at queues.old name.now }
{
    queue_laws();
    while turn_once(queues, name) {}
}

/// The queue moves of the name that an open or a delete asked. It takes no memory.
fn settle_of(queues: &mut Queues, clients: &[DeskClient], who: ConnId)
    ensures { queues.new ≡ settled_where queues.old (name_asked_by clients.now who) }
{
    if let Some(request) = request_of(clients, who) {
        settle(queues, &request.name);
    }
}

/// An open or a delete is asked.
fn make_ask(parts: &mut Parts, who: ConnId, name: &Text, wants: Wants) -> Result<(), NoMemory>
    ensures made { OnOk result (desk_state_of parts.new
        ≡ after_asked (desk_state_of parts.old) who name.now wants) }
    ensures unchanged { OnErr result (desk_state_of parts.new ≡ desk_state_of parts.old) }
{
    let alloc = parts.board.alloc;
    let own = name.copy(alloc)?;
    let queued = name.copy(alloc)?;
    ask(
        alloc,
        &mut parts.board.clients,
        &mut parts.queues,
        who,
        own,
        queued,
        wants,
    )?;
    settle(&mut parts.queues, name);
    Ok(())
}

/// A client takes its oldest event.
fn make_take(parts: &mut Parts, client: u32) -> Result<Option<ClientEvent>, NoMemory>
    ensures made { OnOk result (desk_state_of parts.new
        ≡ after_take (desk_state_of parts.old) client (event_for (desk_state_of parts.old) client)) }
    ensures event { IfOk result (λ e. e ≡ event_for (desk_state_of parts.old) client) }
    ensures unchanged { OnErr result (desk_state_of parts.new ≡ desk_state_of parts.old) }
{
    match parts.queues.next_event(client) {
        Some(event) => {
            note_event(&mut parts.board, event)?;
            let _ = parts.queues.take(client);
            Ok(Some(event))
        }
        None => Ok(None),
    }
}

/// A client has handled a versionchange event. It takes no memory.
fn make_handle(parts: &mut Parts, client: u32)
    ensures { desk_state_of parts.new ≡ after_handled (desk_state_of parts.old) client
        (unhandled parts.old.queues.names (changes_in parts.old.board.clients.items client)) }
{
    if let Some(who) = handle_change(&mut parts.board.clients, &parts.queues, client) {
        parts.queues.handled(client);
        settle_of(&mut parts.queues, parts.board.clients.as_slice(), who);
    }
}

/// A client closes a connection. It takes no memory.
fn make_close(parts: &mut Parts, who: ConnId)
    ensures { desk_state_of parts.new ≡ after_closed (desk_state_of parts.old) who }
{
    parts.queues.close(who);
    settle_of(&mut parts.queues, parts.board.clients.as_slice(), who);
    set_stand(&mut parts.board.clients, who, Stand::Shut);
}

/// One transaction more can be counted at the connection.
fn can_begin(queues: &Queues, who: ConnId) -> Result<(), NoMemory>
    ensures { OnOk result (IfSome (conn_in queues.now.names who) (λ k. k.txs < 2 ^ 64 - 1)) }
{
    match queues.connection(who) {
        Some(conn) if conn.txs == u64::MAX => Err(NoMemory),
        _ => Ok(()),
    }
}

/// A transaction is created over a known database.
fn create_on(
    queues: &Queues,
    board: &mut Board,
    who: ConnId,
    name: &Text,
    scope: &Texts,
    mode: Mode,
) -> Result<bool, NoMemory>
    ensures drawn { OnOk result (record {
      queues = (if is_some (schema_of queues.now who) then tx_begun queues.now who else queues.now);
      board = board_of board.new;
    } ≡ after_created (record { queues = queues.now; board = board_of board.old })
        who scope.now mode (Some name.now) (schema_of queues.now who)) }
    ensures known { IfOk result (λ known. known ≡ is_some (schema_of queues.now who)) }
    ensures unchanged { OnErr result (board_of board.new ≡ board_of board.old) }
{
    match queues.schema(who) {
        Some(schema) => {
            draw_plain(board, who, name, schema, scope, mode)?;
            Ok(true)
        }
        None => Ok(false),
    }
}

/// A transaction is created.
fn make_create(parts: &mut Parts, who: ConnId, scope: &Texts, mode: Mode) -> Result<(), NoMemory>
    ensures made { OnOk result (desk_state_of parts.new ≡ after_created (desk_state_of parts.old)
        who scope.now mode (name_asked_by parts.old.board.clients.items who) (schema_of parts.old.queues who)) }
    ensures unchanged { OnErr result (desk_state_of parts.new ≡ desk_state_of parts.old) }
{
    let name = match request_of(parts.board.clients.as_slice(), who) {
        Some(request) => request.name.copy(parts.board.alloc)?,
        None => return Ok(()),
    };
    can_begin(&parts.queues, who)?;
    if create_on(&parts.queues, &mut parts.board, who, &name, scope, mode)? {
        parts.queues.tx_begun(who);
    }
    Ok(())
}

/// What a transaction that is finished ends in the queues. It takes no memory.
fn end_in(queues: &mut Queues, name: &Text, t: DrawnTx, committed: bool, kept: Option<Schema>)
    ensures { queues.new ≡ ended_in queues.old name.now t.who t.kind committed kept }
{
    match t.kind {
        TxKind::Plain => queues.tx_done(t.who),
        TxKind::Upgrade { .. } => queues.upgrade_done(name, kept),
        TxKind::Deletion => queues.delete_done(name, committed),
    }
}

/// After its upgrade the connection is its client's, unless that closed it. It takes no memory.
fn give(clients: &mut Vec<DeskClient>, t: DrawnTx)
    ensures { clients.new.items ≡ clients_left t.kind t.who clients.old.items }
{
    if let TxKind::Upgrade { .. } = t.kind {
        if matches!(stand_of(clients, t.who), Stand::Upgrading) {
            set_stand(clients, t.who, Stand::Given);
        }
    }
}

/// The queues and the places after a transaction of a known database is finished. It takes no memory.
fn end_named(
    queues: &mut Queues,
    places: &mut Vec<DeskPlace>,
    name: &Text,
    t: DrawnTx,
    committed: bool,
    kept: Option<Schema>,
)
    ensures queues { queues.new
        ≡ settled_at (ended_in queues.old name.now t.who t.kind committed kept) name.now }
    ensures places { places.new.items ≡ at_place name.now (place_left t.kind committed) places.old.items }
{
    end_in(queues, name, t, committed, kept);
    settle(queues, name);
    leave_place(places, name, t.kind, committed);
}

/// The same where the name of its database is known.
fn end_of(
    queues: &mut Queues,
    places: &mut Vec<DeskPlace>,
    clients: &[DeskClient],
    t: DrawnTx,
    committed: bool,
    kept: Option<Schema>,
)
    ensures queues { queues.new
        ≡ queues_left queues.old (name_asked_by clients.now t.who) t.who t.kind committed kept }
    ensures places { places.new.items
        ≡ places_left places.old.items (name_asked_by clients.now t.who) t.kind committed }
{
    if let Some(request) = request_of(clients, t.who) {
        end_named(queues, places, &request.name, t, committed, kept);
    }
}

/// A transaction is finished. It takes no memory.
fn leave(parts: &mut Parts, number: u64, committed: bool, kept: Option<Schema>, t: DrawnTx)
    ensures { desk_state_of parts.new ≡ left_named (desk_state_of parts.old) number committed kept t
        (name_asked_by parts.old.board.clients.items t.who) }
{
    end_of(
        &mut parts.queues,
        &mut parts.board.places,
        parts.board.clients.as_slice(),
        t,
        committed,
        kept,
    );
    finish(&mut parts.board.scopes, number);
    set_stage(&mut parts.board.drawn, number, TxStage::Finished);
    give(&mut parts.board.clients, t);
}

/// The transaction of this number is finished. It takes no memory.
fn make_leave(parts: &mut Parts, number: u64, committed: bool, kept: Option<Schema>)
    ensures { desk_state_of parts.new ≡ after_left (desk_state_of parts.old) number committed kept
        (Rattle.desk_steps.specs.Desks.drawn_at parts.old.board.drawn.items number) }
{
    if let Some(t) = drawn_at(parts.board.drawn.as_slice(), number) {
        leave(parts, number, committed, kept, t);
    }
}

/// The host is faulted. It takes no memory.
fn make_fault(parts: &mut Parts)
    ensures { desk_state_of parts.new ≡ record {
      queues = faulted_state parts.old.queues;
      board = record (board_of parts.old.board) { is_faulted = true };
    } }
{
    parts.queues.fault();
    parts.board.is_faulted = true;
}

/// The transaction of this number starts. It takes no memory.
fn make_start(parts: &mut Parts, number: u64)
    ensures { desk_state_of parts.new ≡ record {
      queues = parts.old.queues;
      board = record (board_of parts.old.board) { drawn = with_stage Started number parts.old.board.drawn.items };
    } }
{
    set_stage(&mut parts.board.drawn, number, TxStage::Started);
}

/// What a step makes of the queues and the board; the event that it takes.
#[tactic(auto, unfolding(desk_steps::specs::Steps::after))]
pub(crate) fn make(
    parts: &mut Parts,
    step: &DeskStep,
    kept: Option<Schema>,
) -> Result<Option<ClientEvent>, NoMemory>
    requires { kept ≡ kept_of step.now }
    ensures made { OnOk result (desk_state_of parts.new ≡ after (desk_state_of parts.old) step.now) }
    ensures event { IfOk result (λ e. e ≡ (answer_of (desk_state_of parts.old) step.now).event) }
    ensures unchanged { OnErr result (desk_state_of parts.new ≡ desk_state_of parts.old) }
    ensures no_memory { OnErr result (wants_memory step.now ≡ true) }
{
    match step {
        DeskStep::Asks { who, name, wants } => {
            make_ask(parts, *who, name, *wants)?;
        }
        DeskStep::Takes { client } => return make_take(parts, *client),
        DeskStep::Handles { client } => make_handle(parts, *client),
        DeskStep::Closes { who } => make_close(parts, *who),
        DeskStep::Creates {
            who,
            scope,
            mode,
            ..
        } => {
            make_create(parts, *who, scope, *mode)?;
        }
        DeskStep::Starts { number, .. } => make_start(parts, *number),
        DeskStep::Leaves {
            number,
            outcome,
            ..
        } => make_leave(parts, *number, is_committed(outcome), kept),
        DeskStep::Faults => make_fault(parts),
    }
    Ok(None)
}
