// Numbers that are drawn, and transactions that start and end.
ghost use Rattle.std.specs.Prelude.{◌≡◌, ◌<◌, ◌≤◌, ◌+◌, ◌^◌, ◌-◌, ℕ, Bool, not, ◌&&◌, [], ◌∷◌, ◌++◌, Some, None, OnOk, OnErr, IfOk, IfSome};
ghost use Rattle.std.specs.Option.{option_copied};
ghost use Rattle.scope_desk.specs.Starts.{finished, may_start};
ghost use Rattle.idb_keys.specs.declared.names.Mode.TheVariants.{VersionChange};
ghost use Rattle.desk_steps.specs.Desks.{drawn_at, stages_where, with_stage, name_asked_by};
ghost use Rattle.idb_desk.specs.Parts.{board_of};
ghost use Rattle.desk_steps.specs.Placing.{placed_at};
ghost use Rattle.desk_steps.specs.Refusals.{is_go};
ghost use Rattle.name_queues.specs.declared.events.ClientEvent.TheVariants.{Upgrade};
ghost use Rattle.desk_steps.specs.Numbers.{scope_items, place_of_name, with_place};
ghost use Rattle.desk_steps.specs.Steps.{with_drawn, drawn_whole, after_event, created_on};

use crate::board::Board;
use crate::clients::{count_create, created_by, request_of, set_stand, take_change};
use crate::places::{place_to_draw, put_at, scope_items, whole_database};
use clone_values::{Text, Texts};
use desk_steps::{DeskPlace, DrawnTx, Stand, TxKind, TxStage};
use idb_base::NoMemory;
use idb_keys::Mode;
use idb_schema::Schema;
use name_queues::{ClientEvent, ConnId};
use scope_desk::{MayStart, ScopeDesk};

/// The transaction of this number.
pub(crate) fn drawn_at(drawn: &[DrawnTx], number: u64) -> Option<DrawnTx>
    ensures { result ≡ drawn_at drawn.now number }
{
    if number == 0 || number > drawn.len() as u64 {
        None
    } else {
        Some(drawn[(number - 1) as usize])
    }
}

/// The transaction of this number is now so far. It takes no memory.
pub(crate) fn set_stage(drawn: &mut Vec<DrawnTx>, number: u64, stage: TxStage)
    ensures { drawn.new.items ≡ with_stage stage number drawn.old.items }
{
    if 0 < number && number <= drawn.len() as u64 {
        let t = &mut drawn[(number - 1) as usize];
        t.stage = stage;
    }
}

/// A transaction with these items draws the next number.
fn create(scopes: &mut ScopeDesk, items: &[u16], mode: Mode) -> Result<(), NoMemory>
    ensures created { OnOk result (scopes.new
        ≡ Rattle.scope_desk.specs.Starts.created scopes.old items.now mode) }
    ensures unchanged { OnErr result (scopes.new ≡ scopes.old) }
{
    if scopes.next() == u64::MAX {
        return Err(NoMemory);
    }
    scopes.create(items, mode)?;
    Ok(())
}

/// The transaction of this number is finished. It takes no memory.
pub(crate) fn finish(scopes: &mut ScopeDesk, number: u64)
    ensures { scopes.new ≡ finished scopes.old number }
{
    if scopes.has(number) {
        scopes.finish(number);
    }
}

/// No earlier unfinished transaction conflicts.
pub(crate) fn is_go(scopes: &ScopeDesk, number: u64) -> bool
    ensures { result ≡ is_go (may_start scopes.now number) }
{
    !scopes.has(number) || matches!(scopes.may_start(number), MayStart::Go)
}

/// A transaction draws the next number: it stands so in its database's place, which is put there.
fn draw_at(
    board: &mut Board,
    place: usize,
    p: DeskPlace,
    t: DrawnTx,
    items: &[u16],
    mode: Mode,
) -> Result<(), NoMemory>
    ensures drawn { OnOk result (board_of board.new ≡ record {
      scopes = Rattle.scope_desk.specs.Starts.created (board_of board.old).scopes items.now mode;
      places = placed_at place p (board_of board.old).places;
      drawn = (board_of board.old).drawn ++ t ∷ [];
      clients = (board_of board.old).clients;
      is_faulted = (board_of board.old).is_faulted;
    }) }
    ensures unchanged { OnErr result (board_of board.new ≡ board_of board.old) }
{
    board.places.reserve(1)?;
    board.drawn.reserve(1)?;
    create(&mut board.scopes, items, mode)?;
    put_at(&mut board.places, place, p);
    match board.drawn.push(t) {
        Ok(()) => Ok(()),
        Err(_) => unreachable!(),
    }
}

/// An upgrade or a deletion draws the next number.
pub(crate) fn draw_whole(
    board: &mut Board,
    who: ConnId,
    kind: TxKind,
    name: &Text,
) -> Result<(), NoMemory>
    ensures drawn { OnOk result (board_of board.new
        ≡ drawn_whole (board_of board.old) who kind (Some name.now)) }
    ensures unchanged { OnErr result (board_of board.new ≡ board_of board.old) }
{
    let (place, p) = place_to_draw(board.alloc, board.places.as_slice(), name)?;
    let items = whole_database(board.alloc, place)?;
    let stage = TxStage::Created;
    draw_at(
        board,
        place,
        p,
        DrawnTx { who, kind, stage },
        items.as_slice(),
        Mode::VersionChange,
    )
}

/// An upgrade or a deletion draws the next number, where its request is known.
fn draw_of(board: &mut Board, who: ConnId, kind: TxKind) -> Result<(), NoMemory>
    ensures drawn { OnOk result (board_of board.new
        ≡ drawn_whole (board_of board.old) who kind (name_asked_by board.old.clients.items who)) }
    ensures unchanged { OnErr result (board_of board.new ≡ board_of board.old) }
{
    match request_of(board.clients.as_slice(), who) {
        Some(request) => {
            let name = request.name.copy(board.alloc)?;
            draw_whole(board, who, kind, &name)
        }
        None => Ok(()),
    }
}

fn note_upgrade(board: &mut Board, who: ConnId, old: u64, version: u64) -> Result<(), NoMemory>
    ensures noted { OnOk result (board_of board.new
        ≡ after_event (board_of board.old) (Upgrade who old version)) }
    ensures unchanged { OnErr result (board_of board.new ≡ board_of board.old) }
{
    let _ = old;
    draw_of(board, who, TxKind::Upgrade { version })?;
    set_stand(&mut board.clients, who, Stand::Upgrading);
    Ok(())
}

/// What the board keeps of an event that is taken.
pub(crate) fn note_event(board: &mut Board, event: ClientEvent) -> Result<(), NoMemory>
    ensures noted { OnOk result (board_of board.new ≡ after_event (board_of board.old) event) }
    ensures unchanged { OnErr result (board_of board.new ≡ board_of board.old) }
{
    match event {
        ClientEvent::Upgrade { conn, old, new } => note_upgrade(board, conn, old, new),
        ClientEvent::DeleteReady { conn, .. } => draw_of(board, conn, TxKind::Deletion),
        ClientEvent::VersionChange { conn, .. } => take_change(&mut board.clients, conn),
        ClientEvent::Success { conn, .. } => {
            set_stand(&mut board.clients, conn, Stand::Given);
            Ok(())
        }
        ClientEvent::Blocked { .. } | ClientEvent::Error { .. } | ClientEvent::Closed { .. } => Ok(
            (),
        ),
    }
}

/// A transaction that is created draws the next number.
pub(crate) fn draw_plain(
    board: &mut Board,
    who: ConnId,
    name: &Text,
    schema: &Schema,
    scope: &Texts,
    mode: Mode,
) -> Result<(), NoMemory>
    ensures drawn { OnOk result (board_of board.new ≡ created_on (board_of board.old) who name.now
        (scope_items (place_of_name name.now (with_place name.now board.old.places.items)) schema.now scope.now) mode) }
    ensures unchanged { OnErr result (board_of board.new ≡ board_of board.old) }
{
    let (place, p) = place_to_draw(board.alloc, board.places.as_slice(), name)?;
    let items = scope_items(board.alloc, place, schema, scope)?;
    if created_by(board.clients.as_slice(), who.client) == u64::MAX {
        return Err(NoMemory);
    }
    let kind = TxKind::Plain;
    let stage = TxStage::Created;
    draw_at(
        board,
        place,
        p,
        DrawnTx { who, kind, stage },
        items.as_slice(),
        mode,
    )?;
    count_create(&mut board.clients, who.client);
    Ok(())
}
