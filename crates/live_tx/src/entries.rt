// The first entry of the list is run: a request, the request of a cursor, or a call of an upgrade.
ghost use Rattle.std.specs.Prelude.{◌≡◌, ◌∷◌, [], true, false, IfOk, IfSome};
ghost use Rattle.request_lists.specs.Placing.{IsEvent};
ghost use Rattle.placed_calls.specs.Fitting.{IsFitEntry, AreFit};
ghost use Rattle.entry_runs.specs.Courses.{state_with, is_past};
ghost use Rattle.entry_runs.specs.Replies.{IsFormed};
ghost use Rattle.handler_calls.specs.Attending.{HasOwnCursor, IsAttended};
ghost use Rattle.live_tx.specs.declared.next.Next.TheVariants as next;
ghost use Rattle.live_tx.specs.Live.{IsReadyState};
ghost use Rattle.live_tx.specs.Turning.{event_of, kind_of_entry, first_kind, FirstCame, FirstChanged, Results};

use entry_runs::{Course, Reply, run_change, run_request, run_turn};
use idb_base::NoMemory;
use idb_calls::Event;
use idb_keys::ErrorName;
use index_tables::Tables;
use request_lists::{ListEntry, TxFront};

/// The event that tells the reply to the request of this number; `None` where it would have passed a limit.
fn event_of(request: u32, reply: Reply) -> Option<Event>
    ensures told { result ≡ event_of request reply }
{
    match reply {
        Reply::PastLimit => None,
        Reply::Answered(result) => Some(Event::Success { request, result }),
        Reply::Failed => Some(Event::Error {
            request,
            name: ErrorName::ConstraintError,
        }),
    }
}

/// The request that is first is run, while it waits still. `None` where it would have passed a limit: then what it did can be undone.
pub(crate) fn request_first<T: Tables, H: Drop>(
    front: &TxFront<H>,
    course: &mut Course<T>,
) -> Result<Option<Event>, NoMemory>
    requires ready { IsReadyState (state_with front.now course.old) }
    requires first { first_kind front.now.waiting ≡ next.Request }
    ensures came { IfOk result (λ event. FirstCame (state_with front.now course.old) event course.new) }
    ensures formed { IfOk result (λ event. IfSome event IsEvent) }
    ensures before { course.new.before ≡ course.old.before }
{
    match front.first() {
        Some(entry) => match entry {
            ListEntry::Request { request, call, .. } => {
                let reply = run_request(course, front, call)?;
                return Ok(event_of(*request, reply));
            }
            ListEntry::Turn { .. } => unreachable!(),
            ListEntry::Change { .. } => unreachable!(),
        },
        None => unreachable!(),
    }
}

/// The request of a cursor, which was taken off the list of the front, is run.
pub(crate) fn turn_taken<T: Tables, H: Drop>(
    front: &mut TxFront<H>,
    course: &mut Course<T>,
    entry: &ListEntry<H>,
) -> Result<Event, NoMemory>
    requires kind { kind_of_entry entry.now ≡ next.Turn }
    requires attended { IsAttended front.old }
    requires own { HasOwnCursor front.old.cursors entry.now }
    requires fit { AreFit front.old × IsFitEntry entry.now }
    requires room { is_past course.old 1 0 0 ≡ false }
    ensures came { IfOk result (λ event. Results (state_with front.old course.old) entry.now event
        (state_with front.new course.new)) }
    ensures formed { IfOk result IsEvent }
    ensures attended { IfOk result (λ event. IsAttended front.new) }
    ensures own { IfOk result (λ event. HasOwnCursor front.new.cursors entry.now) }
    ensures fit { IfOk result (λ event. AreFit front.new) }
    ensures before { course.new.before ≡ course.old.before }
{
    match entry {
        ListEntry::Turn { cursor, call } => {
            let reply = run_turn(course, front, *cursor, call)?;
            match event_of(*cursor, reply) {
                Some(event) => return Ok(event),
                None => unreachable!(),
            }
        }
        ListEntry::Request { .. } => unreachable!(),
        ListEntry::Change { .. } => unreachable!(),
    }
}

/// The call of an upgrade that is first is run, while it waits still. The error with which it aborts the upgrade, if it does: then
/// what it did can be undone.
pub(crate) fn change_first<T: Tables, H: Drop>(
    front: &TxFront<H>,
    course: &mut Course<T>,
) -> Result<Option<ErrorName>, NoMemory>
    requires ready { IsReadyState (state_with front.now course.old) }
    requires first { first_kind front.now.waiting ≡ next.Change }
    ensures came { IfOk result (λ stop. FirstChanged (state_with front.now course.old) stop course.new) }
    ensures before { course.new.before ≡ course.old.before }
{
    match front.first() {
        Some(entry) => match entry {
            ListEntry::Change { call } => {
                let stop = run_change(course, front, call)?;
                return Ok(stop);
            }
            ListEntry::Request { .. } => unreachable!(),
            ListEntry::Turn { .. } => unreachable!(),
        },
        None => unreachable!(),
    }
}
