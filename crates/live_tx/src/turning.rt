// One turn of the list machine, over the handlers themselves.
ghost use Rattle.std.specs.Prelude.{◌≡◌, ◌≢◌, None, Some, IsSome};
ghost use Rattle.request_lists.specs.Placing.{IsEvent};
ghost use Rattle.list_machine.specs.declared.steps.Step.TheVariants as steps;
ghost use Rattle.list_machine.specs.Machine.{number_in};
ghost use Rattle.list_machine.specs.Seeing.{pulled_reacts, pulled_writes};
ghost use Rattle.placed_calls.specs.Fitting.{AreFit};
ghost use Rattle.handler_calls.specs.Attending.{HasOwnCursor, IsAttended};
ghost use Rattle.entry_runs.specs.Courses.{state_with, restored};
ghost use Rattle.live_tx.specs.declared.next.Next.TheVariants as next;
ghost use Rattle.live_tx.specs.Telling.{TurnsInto};
ghost use Rattle.live_tx.specs.Live.{standing_after, IsReadyState, StandsSo};
ghost use Rattle.live_tx.specs.Turning.{error_of_phase, first_kind, CancelsInto, AnswersInto};

use crate::ending::abort_all;
use crate::entries::{change_first, request_first, turn_taken};
use crate::next::{Next, error_of_phase, first_kind};
use entry_runs::Course;
use handler_calls::{handle, verdict};
use idb_calls::{Event, Events};
use idb_keys::ErrorName;
use index_tables::Tables;
use key_paths::conversion_laws;
use list_machine::Step;
use request_lists::{Handler, HandlerEnd, ListEntry, TxFront};
use store_requests::leaving_laws;

/// One turn. Where memory ran out nothing is known of the front, and of the stores that those before can be given back.
pub(crate) fn turn<T: Tables, H: Handler>(
    front: &mut TxFront<H>,
    course: &mut Course<T>,
    told: &mut Events,
    notes: &mut H::Notes,
) -> Step
    requires { IsReadyState (state_with front.old course.old) }
    ensures turned { result ≢ steps.NoMemory → TurnsInto (pulled_reacts H.plain H.reacts)
        (pulled_writes H.plain H.writes)
        (state_with front.old course.old) result (state_with front.new course.new)
        (H.lines notes.old) (H.lines notes.new) told.old told.new }
    ensures stands { StandsSo (standing_after result) (state_with front.new course.new) }
    ensures before { course.new.before ≡ course.old.before }
{
    leaving_laws();
    conversion_laws();
    turn_any(front, course, told, notes)
}

/// The same, of a transaction that had aborted or of the entry that is first.
fn turn_any<T: Tables, H: Handler>(
    front: &mut TxFront<H>,
    course: &mut Course<T>,
    told: &mut Events,
    notes: &mut H::Notes,
) -> Step
    requires { IsReadyState (state_with front.old course.old) }
    ensures turned { result ≢ steps.NoMemory → TurnsInto (pulled_reacts H.plain H.reacts)
        (pulled_writes H.plain H.writes)
        (state_with front.old course.old) result (state_with front.new course.new)
        (H.lines notes.old) (H.lines notes.new) told.old told.new }
    ensures attended { result ≡ steps.Did → IsAttended front.new }
    ensures fit { result ≡ steps.Did → AreFit front.new }
    ensures before { course.new.before ≡ course.old.before }
{
    match error_of_phase(front.phase()) {
        Some(error) => return abort_turn(front, course, error, told, notes),
        None => return turn_first(front, course, told, notes),
    }
}

/// The first entry is run.
fn turn_first<T: Tables, H: Handler>(
    front: &mut TxFront<H>,
    course: &mut Course<T>,
    told: &mut Events,
    notes: &mut H::Notes,
) -> Step
    requires ready { IsReadyState (state_with front.old course.old) }
    requires goes_on { error_of_phase front.old.phase ≡ None }
    ensures turned { result ≢ steps.NoMemory → TurnsInto (pulled_reacts H.plain H.reacts)
        (pulled_writes H.plain H.writes)
        (state_with front.old course.old) result (state_with front.new course.new)
        (H.lines notes.old) (H.lines notes.new) told.old told.new }
    ensures attended { result ≡ steps.Did → IsAttended front.new }
    ensures fit { result ≡ steps.Did → AreFit front.new }
    ensures before { course.new.before ≡ course.old.before }
{
    match first_kind(front) {
        Next::Nothing => return Step::Idle,
        Next::Request => return turn_request(front, course, told, notes),
        Next::Turn => return turn_cursor(front, course, told, notes),
        Next::Change => return turn_change(front, course, told, notes),
    }
}

/// The transaction aborts with this error.
fn abort_turn<T: Tables, H: Handler>(
    front: &mut TxFront<H>,
    course: &mut Course<T>,
    error: Option<ErrorName>,
    told: &mut Events,
    notes: &mut H::Notes,
) -> Step
    requires { IsAttended front.old }
    ensures step { result ≢ steps.NoMemory → result ≡ steps.Aborted error }
    ensures told { result ≢ steps.NoMemory → CancelsInto (pulled_reacts H.plain H.reacts)
        (pulled_writes H.plain H.writes)
        front.old error front.new (H.lines notes.old) (H.lines notes.new) told.old told.new }
    ensures over { result ≢ steps.Did }
    ensures course { course.new ≡ restored course.old }
{
    match abort_all(front, course, error, told, notes) {
        Ok(()) => return Step::Aborted { error },
        Err(_) => return Step::NoMemory,
    }
}

/// The event of an entry that was taken goes to its handler, and then the transaction goes on or aborts.
fn answer<T: Tables, H: Handler>(
    front: &mut TxFront<H>,
    course: &mut Course<T>,
    entry: ListEntry<H>,
    event: Event,
    told: &mut Events,
    notes: &mut H::Notes,
) -> Step
    requires event { IsEvent event }
    requires numbered { IsSome (number_in entry) }
    requires attended { IsAttended front.old }
    requires own { HasOwnCursor front.old.cursors entry }
    requires fit { AreFit front.old }
    ensures answered { result ≢ steps.NoMemory → AnswersInto (pulled_reacts H.plain H.reacts)
        (pulled_writes H.plain H.writes)
        (state_with front.old course.old) entry event result (state_with front.new course.new)
        (H.lines notes.old) (H.lines notes.new) told.old told.new }
    ensures attended { result ≡ steps.Did → IsAttended front.new }
    ensures fit { result ≡ steps.Did → AreFit front.new }
    ensures before { course.new.before ≡ course.old.before }
{
    let how = match handle(front, entry, &event, notes) {
        HandlerEnd::NoMemory => return Step::NoMemory,
        how => how,
    };
    let after = verdict(front.phase(), &event, how);
    match told.push(event) {
        Ok(()) => {}
        Err(_) => return Step::NoMemory,
    }
    match after {
        None => return Step::Did,
        Some(error) => return abort_turn(front, course, error, told, notes),
    }
}

/// A request is run, and where it would have passed a limit it waits still.
fn turn_request<T: Tables, H: Handler>(
    front: &mut TxFront<H>,
    course: &mut Course<T>,
    told: &mut Events,
    notes: &mut H::Notes,
) -> Step
    requires ready { IsReadyState (state_with front.old course.old) }
    requires goes_on { error_of_phase front.old.phase ≡ None }
    requires first { first_kind front.old.waiting ≡ next.Request }
    ensures turned { result ≢ steps.NoMemory → TurnsInto (pulled_reacts H.plain H.reacts)
        (pulled_writes H.plain H.writes)
        (state_with front.old course.old) result (state_with front.new course.new)
        (H.lines notes.old) (H.lines notes.new) told.old told.new }
    ensures attended { result ≡ steps.Did → IsAttended front.new }
    ensures fit { result ≡ steps.Did → AreFit front.new }
    ensures before { course.new.before ≡ course.old.before }
{
    match request_first(front, course) {
        Ok(Some(event)) => match front.take_first() {
            Some(entry) => return answer(front, course, entry, event, told, notes),
            None => unreachable!(),
        },
        Ok(None) => {
            return abort_turn(
                front,
                course,
                Some(ErrorName::QuotaExceededError),
                told,
                notes,
            );
        }
        Err(_) => return Step::NoMemory,
    }
}

/// The request of a cursor is taken before it is run, since its cursor moves in the front; where it would pass a limit it waits still.
fn turn_cursor<T: Tables, H: Handler>(
    front: &mut TxFront<H>,
    course: &mut Course<T>,
    told: &mut Events,
    notes: &mut H::Notes,
) -> Step
    requires ready { IsReadyState (state_with front.old course.old) }
    requires goes_on { error_of_phase front.old.phase ≡ None }
    requires first { first_kind front.old.waiting ≡ next.Turn }
    ensures turned { result ≢ steps.NoMemory → TurnsInto (pulled_reacts H.plain H.reacts)
        (pulled_writes H.plain H.writes)
        (state_with front.old course.old) result (state_with front.new course.new)
        (H.lines notes.old) (H.lines notes.new) told.old told.new }
    ensures attended { result ≡ steps.Did → IsAttended front.new }
    ensures fit { result ≡ steps.Did → AreFit front.new }
    ensures before { course.new.before ≡ course.old.before }
{
    if course.is_full() {
        return abort_turn(
            front,
            course,
            Some(ErrorName::QuotaExceededError),
            told,
            notes,
        );
    }
    match front.take_first() {
        Some(entry) => match turn_taken(front, course, &entry) {
            Ok(event) => return answer(front, course, entry, event, told, notes),
            Err(_) => return Step::NoMemory,
        },
        None => unreachable!(),
    }
}

/// A call of an upgrade is run, and where it aborts the upgrade it waits still.
fn turn_change<T: Tables, H: Handler>(
    front: &mut TxFront<H>,
    course: &mut Course<T>,
    told: &mut Events,
    notes: &mut H::Notes,
) -> Step
    requires ready { IsReadyState (state_with front.old course.old) }
    requires goes_on { error_of_phase front.old.phase ≡ None }
    requires first { first_kind front.old.waiting ≡ next.Change }
    ensures turned { result ≢ steps.NoMemory → TurnsInto (pulled_reacts H.plain H.reacts)
        (pulled_writes H.plain H.writes)
        (state_with front.old course.old) result (state_with front.new course.new)
        (H.lines notes.old) (H.lines notes.new) told.old told.new }
    ensures attended { result ≡ steps.Did → IsAttended front.new }
    ensures fit { result ≡ steps.Did → AreFit front.new }
    ensures before { course.new.before ≡ course.old.before }
{
    match change_first(front, course) {
        Ok(None) => {
            let _ = front.take_first();
            return Step::Did;
        }
        Ok(Some(error)) => return abort_turn(front, course, Some(error), told, notes),
        Err(_) => return Step::NoMemory,
    }
}
