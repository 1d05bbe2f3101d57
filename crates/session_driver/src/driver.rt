// The driver.
ghost use Rattle.std.specs.Prelude.{◌≡◌, ◌<◌, ◌≤◌, true, false, [], List, map, None, Some, IfOk, OnOk, OnErr, is_some};
ghost use Rattle.std.specs.FinMap as finite;
ghost use Rattle.item_changes.specs.Items.{Items};
ghost use Rattle.idb_databases.specs.Items.{is_within_limits};
ghost use Rattle.idb_desk.specs.Steps.{desk_run};
ghost use Rattle.scope_desk.specs.Starts.{may_start};
ghost use Rattle.scope_desk.specs.declared.unfinished.MayStart.TheVariants.{Go};
ghost use Rattle.edge_traits.specs.Faults.{Rose};
ghost use Rattle.gate_log.specs.Log.{disk_of, failed_at};
ghost use Rattle.log_history.specs.Kept.{Dropped, with_doubt};
ghost use Rattle.report_lines.specs.declared.reports.ReportEnd.TheVariants as end;
ghost use Rattle.legal_sessions.specs.Legal.{has_of, report_end};
ghost use Rattle.session_states.specs.Sessions.{IsAtEnd};
ghost use Rattle.interrupted_sessions.specs.Interrupted.{HasCommits, WasInterrupted};
ghost use Rattle.session_books.specs.States.{HoldsItems};
ghost use Rattle.office_moves.specs.Running.{BookGoesOn};
ghost use Rattle.office_moves.specs.Scenes.{DoneNow, done_of_book, is_open_end};
ghost use Rattle.session_driver.specs.Choosing.{next_move, IsChosen};
ghost use Rattle.session_driver.specs.Measures.{session_left};
ghost use Rattle.session_driver.specs.declared.choosing.NextMove.TheVariants as move;
ghost use Rattle.session_driver.specs.Ending.{BeginsOn, RanTo, ReportsOn, StopsOn};
ghost use Rattle.session_driver.specs.Seats.{session_seen, IsDriving};

use crate::choosing::{NextMove, next_move};
use crate::ending::end_log;
use crate::reporting::report_of;
use crate::seats::{Seat, put_back, seats_of, shared};
use disk_trait::Disk;
use edge_traits::Gate;
use idb_base::NoMemory;
use idb_databases::Databases;
use idb_desk::{Desk, desk_laws};
use idb_recovery::Opened;
use index_tables::Tables;
use interrupted_sessions::interruption_laws;
use office_moves::{Office, fitting_laws, make_move, showing_laws};
use report_lines::{Opening, Report, ReportEnd};
use script_statements::ScriptSession;
use session_books::SessionBook;
use session_databases::SessionDatabases;
use session_openings::{SessionOpening, open_databases};
use session_states::under_way_laws;
use std::alloc::Global;
use std::snapshot::Snapshot;

/// What is reported of a session at its end, but for the numbers of its transactions.
#[derive(Drop)]
struct Ran {
    desk: Desk,
    seats: Vec<Seat>,
    opening: Opening,
    end: ReportEnd,
}

/// The client of this place makes a move.
fn move_client<T: Tables, D: Disk, G: Gate>(
    alloc: Global,
    gate: &G,
    of: &Snapshot<ScriptSession>,
    desk: Desk,
    place: usize,
    number: Option<u64>,
    seats: &mut Vec<Seat>,
    databases: &mut SessionDatabases<T>,
    book: &mut SessionBook<D, T>,
) -> Result<Desk, NoMemory>
    requires driving { IsDriving of.now.value desk seats.old.items (done_of_book book.old) databases.old }
    requires chosen { IsChosen desk seats.old.items place number }
    requires open { is_open_end book.old.end ≡ true }
    ensures driving { IfOk result (λ last.
        IsDriving of.now.value last seats.new.items (done_of_book book.new) databases.new) }
    ensures less { OnOk result
        (session_left seats.new.items book.new.finished < session_left seats.old.items book.old.finished) }
    ensures open { OnOk result (is_open_end book.new.end ≡ true) }
    ensures stops { OnErr result (HasCommits of.now.value book.new.opening book.new.commits
        (with_doubt [] book.new.end)) }
    ensures goes { BookGoesOn D.shows book.old book.new }
{
    interruption_laws();
    let seat = seats.remove(place);
    let Seat {
        script,
        client,
        notes,
    } = seat;
    let mut notes = notes;
    let again = shared(&script)?;
    let mut office = Office::new(desk, client, again);
    make_move(
        alloc,
        gate,
        &mut office,
        number,
        &mut notes,
        databases,
        book,
    )?;
    let (desk, client) = office.into_parts();
    put_back(
        seats,
        place,
        Seat {
            script,
            client,
            notes,
        },
    )?;
    Ok(desk)
}

/// The place of the client whose transaction is the least that isn't finished.
fn place_of(of: &Snapshot<ScriptSession>, desk: &Desk, seats: &[Seat], number: u64) -> usize
    requires driving { (done : DoneNow) × ((items : Items)
        × IsDriving of.now.value desk.now seats.now done items) }
    requires next { next_move (desk_run desk.now) seats.now ≡ move.Transaction number }
    requires may_start { may_start (desk_run desk.now).board.scopes number ≡ Go }
    ensures { IsChosen desk.now seats.now result (Some number) }
{
    desk_laws();
    under_way_laws();
    match desk.drawn(number) {
        Some(tx) => tx.who.client as usize - 1,
        None => unreachable!(),
    }
}

/// The next move is made; none where nothing is left.
fn advance<T: Tables, D: Disk, G: Gate>(
    alloc: Global,
    gate: &G,
    of: &Snapshot<ScriptSession>,
    desk: Desk,
    seats: &mut Vec<Seat>,
    databases: &mut SessionDatabases<T>,
    book: &mut SessionBook<D, T>,
) -> Result<(Desk, bool), NoMemory>
    requires driving { IsDriving of.now.value desk seats.old.items (done_of_book book.old) databases.old }
    requires open { is_open_end book.old.end ≡ true }
    ensures driving { IfOk result (λ r.
        IsDriving of.now.value r.0 seats.new.items (done_of_book book.new) databases.new) }
    ensures end { IfOk result (λ r. r.1 ≡ false → next_move (desk_run r.0) seats.new.items ≡ move.Nothing) }
    ensures less { IfOk result (λ r. r.1 ≡ true
        → session_left seats.new.items book.new.finished < session_left seats.old.items book.old.finished) }
    ensures open { OnOk result (is_open_end book.new.end ≡ true) }
    ensures stops { OnErr result (HasCommits of.now.value book.new.opening book.new.commits
        (with_doubt [] book.new.end)) }
    ensures goes { BookGoesOn D.shows book.old book.new }
{
    match next_move(&desk, seats.as_slice()) {
        NextMove::Client(place) => Ok((
            move_client(alloc, gate, of, desk, place, None, seats, databases, book)?,
            true,
        )),
        NextMove::Transaction(number) => {
            let place = place_of(of, &desk, seats.as_slice(), number);
            Ok((
                move_client(
                    alloc,
                    gate,
                    of,
                    desk,
                    place,
                    Some(number),
                    seats,
                    databases,
                    book,
                )?,
                true,
            ))
        }
        NextMove::Nothing => Ok((desk, false)),
    }
}

/// Moves are made until nothing is left.
fn drive<T: Tables, D: Disk, G: Gate>(
    alloc: Global,
    gate: &G,
    of: &Snapshot<ScriptSession>,
    desk: Desk,
    seats: &mut Vec<Seat>,
    databases: &mut SessionDatabases<T>,
    book: &mut SessionBook<D, T>,
) -> Result<Desk, NoMemory>
    requires driving { IsDriving of.now.value desk seats.old.items (done_of_book book.old) databases.old }
    requires open { is_open_end book.old.end ≡ true }
    ensures driving { IfOk result (λ last.
        IsDriving of.now.value last seats.new.items (done_of_book book.new) databases.new) }
    ensures end { IfOk result (λ last.
        IsAtEnd (session_seen last seats.new.items (done_of_book book.new) databases.new)) }
    ensures open { OnOk result (is_open_end book.new.end ≡ true) }
    ensures stops { OnErr result (HasCommits of.now.value book.new.opening book.new.commits
        (with_doubt [] book.new.end)) }
    ensures goes { BookGoesOn D.shows book.old book.new }
{
    let mut desk = desk;
    'moves: loop {
        let (last, goes) = advance(alloc, gate, of, desk, seats, databases, book)?;
        if !goes {
            return Ok(last);
        }
        desk = last;
    }
}

/// The session is driven to its end, and its log is ended; what is reported of it, but for the numbers of its transactions.
fn run_to_end<T: Tables, D: Disk, G: Gate>(
    alloc: Global,
    gate: &G,
    session: ScriptSession,
    opening: SessionOpening<T>,
    book: &mut SessionBook<D, T>,
) -> Result<Ran, NoMemory>
    requires fresh { BeginsOn opening.databases opening.schemas opening.lines (done_of_book book.old) }
    requires open { is_open_end book.old.end ≡ true }
    ensures ends { IfOk result (λ r. (items : Items)
        × RanTo session r.desk r.seats.items (done_of_book book.new) items book.new.end) }
    ensures lines { IfOk result (λ r. r.opening ≡ map has_of (finite.entries book.new.opening)) }
    ensures end { IfOk result (λ r. r.end ≡ report_end book.new.end) }
    ensures stops { OnErr result (WasInterrupted session book.new.opening book.new.commits
        (with_doubt [] book.new.end)) }
    ensures goes { BookGoesOn D.shows book.old book.new }
{
    under_way_laws();
    interruption_laws();
    fitting_laws();
    showing_laws();
    let of = Snapshot::of(&session);
    let drop_end = session.drop_end;
    let SessionOpening {
        databases,
        schemas,
        lines,
    } = opening;
    let mut databases = databases;
    let mut seats = seats_of(alloc, session.clients)?;
    let desk = Desk::new(alloc, schemas)?;
    let desk = drive(alloc, gate, &of, desk, &mut seats, &mut databases, book)?;
    let end = end_log(book, drop_end)?;
    Ok(Ran {
        desk,
        seats,
        opening: lines,
        end,
    })
}

/// The session begins on the databases, and is run to its end.
fn open_and_run<T: Tables, D: Disk, G: Gate>(
    alloc: Global,
    gate: &G,
    session: ScriptSession,
    databases: Databases<T>,
    book: &mut SessionBook<D, T>,
) -> Result<Ran, NoMemory>
    requires items { databases ≡ book.old.opening }
    requires fresh { (book.old.finished ≡ []) × (book.old.commits ≡ []) }
    requires within { is_within_limits databases ≡ true }
    requires runs { book.old.end ≡ Dropped }
    ensures ends { IfOk result (λ r. (items : Items)
        × RanTo session r.desk r.seats.items (done_of_book book.new) items book.new.end) }
    ensures lines { IfOk result (λ r. r.opening ≡ map has_of (finite.entries book.new.opening)) }
    ensures end { IfOk result (λ r. r.end ≡ report_end book.new.end) }
    ensures stops { OnErr result (WasInterrupted session book.new.opening book.new.commits
        (with_doubt [] book.new.end)) }
    ensures goes { BookGoesOn D.shows book.old book.new }
{
    let opening = open_databases(alloc, databases)?;
    run_to_end(alloc, gate, session, opening, book)
}

/// Runs a session whole, on the databases that a log gave: the least client that has a task or an event goes first, its oldest task
/// before its oldest event; where none has, the least transaction that isn't finished is run to its end, with its client's tasks
/// between its turns, and entered in a book over the log. The gate is told of each request before it runs. What the session reports at
/// its end is a legal report, and each image of the disk is found as so many of its commits as may be kept. Where the disk fails as a
/// commit is written, that transaction is in doubt and the host is faulted, and where it fails at the last flush the session ends by
/// that; the disk has counted the fault then. Only want of memory stops a session, as which more than 2^32 - 1 clients count; each
/// image is then found as so many of the commits that it had made as may be kept.
pub fn run_session<T: Tables, D: Disk, G: Gate>(
    alloc: Global,
    gate: &G,
    session: ScriptSession,
    number: u32,
    opened: Opened<D, T>,
) -> (Result<Report, NoMemory>, D)
    requires gives { HoldsItems D.shows opened.log opened.items }
    requires faultless { failed_at opened.log ≡ None }
    requires within { is_within_limits opened.items ≡ true }
    ensures reports { IfOk result.0 (λ report.
        ReportsOn session number opened.items report (D.shows result.1)) }
    ensures stops { OnErr result.0
        (StopsOn session opened.items (D.shows (disk_of opened.log)) (D.shows result.1)) }
    ensures fault { IfOk result.0 (λ report. report.end ≡ end.Fault
        → Rose (D.shows (disk_of opened.log)).faults (D.shows result.1).faults) }
    ensures count { (D.shows (disk_of opened.log)).faults ≤ (D.shows result.1).faults }
    ensures started { (D.shows result.1).starts ≡ (D.shows (disk_of opened.log)).starts }
    ensures told { is_some (D.shows result.1).reads ≡ is_some (D.shows (disk_of opened.log)).reads }
{
    under_way_laws();
    interruption_laws();
    let (book, databases) = SessionBook::new(alloc, opened);
    let mut book = book;
    let ran = open_and_run(alloc, gate, session, databases, &mut book);
    let (disk, finish, commits) = book.into_parts();
    match ran {
        Ok(ran) => {
            let Ran {
                desk,
                seats,
                opening,
                end,
            } = ran;
            let told = report_of(alloc, desk, seats, opening, finish, commits, number, end);
            match told {
                Ok(report) => (Ok(report), disk),
                Err(NoMemory) => (Err(NoMemory), disk),
            }
        }
        Err(NoMemory) => (Err(NoMemory), disk),
    }
}
