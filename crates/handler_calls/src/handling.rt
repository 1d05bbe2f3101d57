// The handler of an entry is lent the front, and put back.
ghost use Rattle.std.specs.Prelude.{◌≡◌, ◌≢◌, [], ◌∷◌, ◌++◌, true, List, IsSome, OnOk};
ghost use Rattle.request_lists.specs.declared.handlers.HandlerEnd.TheVariants as end;
ghost use Rattle.request_lists.specs.Fronts.{is_finished};
ghost use Rattle.request_lists.specs.Placing.{IsEvent};
ghost use Rattle.list_machine.specs.Machine.{Handles, Cancels, number_in};
ghost use Rattle.list_machine.specs.Seeing.{pulled_reacts, pulled_writes};
ghost use Rattle.handler_calls.specs.Attending.{HasOwnCursor, IsAttended};
ghost use Rattle.handler_calls.specs.Telling.{abort_events, ToldFirst};

use idb_base::NoMemory;
use idb_calls::{Event, Events};
use idb_keys::ErrorName;
use request_lists::{Handler, HandlerEnd, ListEntry, TxFront};

/// The handler of the entry handles the event. The front is lent to it, active unless it is committing or finished; what the
/// handler placed stands at the end of the list then, and a cursor's handler is put back. Where the handler ran out of memory,
/// nothing is said but that each entry has its handler still.
pub fn handle<H: Handler>(
    front: &mut TxFront<H>,
    entry: ListEntry<H>,
    event: &Event,
    notes: &mut H::Notes,
) -> HandlerEnd
    requires event { IsEvent event.now }
    requires numbered { IsSome (number_in entry) }
    requires attended { IsAttended front.old }
    requires own { HasOwnCursor front.old.cursors entry }
    ensures handled { result ≢ end.NoMemory → (ls : List H.Line)
        × Handles (pulled_reacts H.plain H.reacts) (pulled_writes H.plain H.writes)
        front.old entry event.now front.new result ls
        × (H.lines notes.new ≡ H.lines notes.old ++ ls) }
    ensures attended { IsAttended front.new }
{
    front.wake();
    match entry {
        ListEntry::Request { handler, .. } => {
            let mut handler = handler;
            let end = handler.on_event(front, event, notes);
            front.rest();
            end
        }
        ListEntry::Turn { cursor, .. } => match front.lend_handler(cursor) {
            Some(handler) => {
                let mut handler = handler;
                let end = handler.on_event(front, event, notes);
                front.return_handler(cursor, handler);
                front.rest();
                end
            }
            None => unreachable!(),
        },
        ListEntry::Change { .. } => unreachable!(),
    }
}

/// Each request that waits in the front of a transaction that has aborted is told so, in order, and what it is told is noted; the
/// calls of an upgrade are told nothing. It takes no memory but for the notes and what the handlers take: after `NoMemory` those
/// behind the request at which it ran out still wait.
pub fn cancel_all<H: Handler>(
    front: &mut TxFront<H>,
    told: &mut Events,
    notes: &mut H::Notes,
) -> Result<(), NoMemory>
    requires finished { is_finished front.old ≡ true }
    requires attended { IsAttended front.old }
    ensures told { OnOk result ((ls : List H.Line)
        × Cancels (pulled_reacts H.plain H.reacts) (pulled_writes H.plain H.writes)
        front.old.waiting front.old front.new ls
        × (H.lines notes.new ≡ H.lines notes.old ++ ls)) }
    ensures noted { OnOk result (told.new ≡ told.old ++ abort_events front.old.waiting) }
    ensures attended { IsAttended front.new }
{
    while let Some(entry) = front.take_first() {
        match tell(front, entry, told, notes) {
            Ok(()) => {}
            Err(NoMemory) => return Err(NoMemory),
        }
    }
    Ok(())
}

/// The first entry, which was taken, is told that the transaction aborted.
fn tell<H: Handler>(
    front: &mut TxFront<H>,
    entry: ListEntry<H>,
    told: &mut Events,
    notes: &mut H::Notes,
) -> Result<(), NoMemory>
    requires finished { is_finished front.old ≡ true }
    requires attended { IsAttended front.old }
    requires own { HasOwnCursor front.old.cursors entry }
    ensures told { OnOk result (ToldFirst (pulled_reacts H.plain H.reacts) (pulled_writes H.plain H.writes)
        entry front.old front.new (H.lines notes.old) (H.lines notes.new)) }
    ensures noted { OnOk result (told.new ≡ told.old ++ abort_events (entry ∷ [])) }
    ensures attended { IsAttended front.new }
{
    match number_of(&entry) {
        Some(request) => {
            let event = Event::Error {
                request,
                name: ErrorName::AbortError,
            };
            match handle(front, entry, &event, notes) {
                HandlerEnd::NoMemory => return Err(NoMemory),
                HandlerEnd::Returned { .. } => {
                    told.push(event)?;
                    return Ok(());
                }
                HandlerEnd::Threw => {
                    told.push(event)?;
                    return Ok(());
                }
            }
        }
        None => Ok(()),
    }
}

/// The number of the request that the entry is of.
fn number_of<H>(entry: &ListEntry<H>) -> Option<u32>
    ensures { result ≡ number_in entry.now }
{
    match entry {
        ListEntry::Request { request, .. } => Some(*request),
        ListEntry::Turn { cursor, .. } => Some(*cursor),
        ListEntry::Change { .. } => None,
    }
}
