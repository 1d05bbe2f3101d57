// The calls on names and inboxes together.
ghost use Rattle.std.specs.Prelude.{◌≡◌, ◌≤◌, ◌<◌, ◌+◌, ℕ, Bool, [], ◌∷◌, ◌++◌, Some, None, slice_get, position, OnOk, OnErr, length, drop};
ghost use Rattle.std.specs.List.{list_any};
ghost use Rattle.name_queues.specs.Names.{at_first, conn_in, holds};
ghost use Rattle.name_queues.specs.Moves.{closed_conn};
ghost use Rattle.connection_queues.specs.Machine.{after_ask, taken, handled, enqueued, sent_at, names_after_event, unhandled};
ghost use Rattle.name_queues.specs.Mails.{events_of, taken_of, taken_mail, with_taken};
ghost use Rattle.name_queues.specs.Room.{HasOwedRoom, mails_of, is_box, with_more, with_mail_of, with_mail_changed, put_event, put_events, room_of};
ghost use Rattle.connection_queues.specs.States.{state_of, lose_boxes};
ghost use Rattle.name_queues.specs.declared.events.ClientEvent.TheVariants.{Error};

use crate::admitting::{enqueue, is_admitted};
use crate::steps::{close_at, conn_of, is_taken, mark_at};
use clone_values::Text;
use idb_base::NoMemory;
use idb_keys::ErrorName;
use name_queues::{Ask, Change, ClientEvent, ConnId, Inbox, Named, box_place, lose, promise, send};
use std::alloc::Global;

/// The room that a request takes: for being blocked, its upgrade and its end, and for a change and the closing of its
/// connection.
const ROOM: u8 = 5;

/// The request fails at once.
fn refuse(
    alloc: Global,
    boxes: &mut Vec<Inbox>,
    who: ConnId,
    name: ErrorName,
) -> Result<(), NoMemory>
    ensures refused { OnOk result (boxes.new.items
        ≡ put_event (Error who name) (with_mail_of who.client 1 boxes.old.items)) }
    ensures unchanged { OnErr result (boxes.new.items ≡ boxes.old.items) }
{
    promise(alloc, boxes, who.client, 1)?;
    send(boxes, ClientEvent::Error { conn: who, name });
    Ok(())
}

/// The request stands in its queue, and its client, whose inbox stands at this place, has room for all that can come of it.
fn admit_at(
    alloc: Global,
    names: &mut Vec<Named>,
    boxes: &mut Vec<Inbox>,
    place: usize,
    name: Text,
    ask: Ask,
) -> Result<(), NoMemory>
    requires { Some place ≡ position (is_box ask.who.client) boxes.old.items }
    ensures names { OnOk result (names.new.items ≡ enqueued name ask names.old.items) }
    ensures boxes { OnOk result (boxes.new.items
        ≡ at_first (is_box ask.who.client) (with_more 5) boxes.old.items) }
    ensures unchanged { OnErr result (names.new.items ≡ names.old.items) }
    ensures mails { OnErr result (mails_of boxes.new.items ≡ mails_of boxes.old.items) }
    ensures room { OnErr result ((c : ℕ) → room_of c boxes.old.items ≤ room_of c boxes.new.items) }
{
    promise_at(boxes, place, ROOM)?;
    enqueue(alloc, names, name, ask)
}

/// Makes room in the inbox at this place.
fn promise_at(boxes: &mut Vec<Inbox>, place: usize, more: u8) -> Result<(), NoMemory>
    requires { place < length boxes.old.items }
    ensures more { OnOk result ((client : ℕ) → Some place ≡ position (is_box client) boxes.old.items
        → boxes.new.items ≡ at_first (is_box client) (with_more more) boxes.old.items) }
    ensures unchanged { OnErr result (boxes.new.items ≡ boxes.old.items) }
{
    let inbox = &mut boxes[place];
    inbox.promise(more)
}

/// The same for a client that has no inbox yet.
fn admit_new(
    alloc: Global,
    names: &mut Vec<Named>,
    boxes: &mut Vec<Inbox>,
    name: Text,
    ask: Ask,
) -> Result<(), NoMemory>
    ensures names { OnOk result (names.new.items ≡ enqueued name ask names.old.items) }
    ensures boxes { OnOk result (boxes.new.items ≡ boxes.old.items
        ++ record { mail = record { client = ask.who.client; events = []; taken = [] }; room = 0 + 5 } ∷ []) }
    ensures unchanged { OnErr result (names.new.items ≡ names.old.items) }
    ensures same_boxes { OnErr result (boxes.new.items ≡ boxes.old.items) }
{
    let mut inbox = Inbox::new(alloc, ask.who.client);
    inbox.promise(ROOM)?;
    boxes.reserve(1)?;
    enqueue(alloc, names, name, ask)?;
    match boxes.push(inbox) {
        Ok(()) => Ok(()),
        Err(_) => unreachable!(),
    }
}

/// The request stands in its queue, and its client has room for all that can come of it.
fn admit(
    alloc: Global,
    names: &mut Vec<Named>,
    boxes: &mut Vec<Inbox>,
    name: Text,
    ask: Ask,
) -> Result<(), NoMemory>
    ensures names { OnOk result (names.new.items ≡ enqueued name ask names.old.items) }
    ensures boxes { OnOk result (boxes.new.items ≡ with_mail_of ask.who.client 5 boxes.old.items) }
    ensures unchanged { OnErr result (names.new.items ≡ names.old.items) }
    ensures mails { OnErr result (mails_of boxes.new.items ≡ mails_of boxes.old.items) }
    ensures room { OnErr result ((c : ℕ) → room_of c boxes.old.items ≤ room_of c boxes.new.items) }
{
    match box_place(boxes, ask.who.client) {
        Some(place) => admit_at(alloc, names, boxes, place, name, ask),
        None => admit_new(alloc, names, boxes, name, ask),
    }
}

/// An open or a delete is asked.
pub(crate) fn ask(
    alloc: Global,
    names: &mut Vec<Named>,
    boxes: &mut Vec<Inbox>,
    is_faulted: bool,
    name: Text,
    ask: Ask,
) -> Result<(), NoMemory>
    requires { HasOwedRoom names.old.items boxes.old.items }
    ensures after_ask { OnOk result (state_of names.new.items boxes.new.items is_faulted
        ≡ after_ask (state_of names.old.items boxes.old.items is_faulted) ask.who name ask.wants) }
    ensures unchanged { OnErr result (state_of names.new.items boxes.new.items is_faulted
        ≡ state_of names.old.items boxes.old.items is_faulted) }
    ensures room { HasOwedRoom names.new.items boxes.new.items }
{
    if is_faulted {
        return refuse(alloc, boxes, ask.who, ErrorName::UnknownError);
    }
    if !is_admitted(names, name.as_str()) {
        return refuse(alloc, boxes, ask.who, ErrorName::QuotaExceededError);
    }
    admit(alloc, names, boxes, name, ask)
}

/// The versionchange event of a connection is lost, where it wasn't taken.
fn lose_if(names: &[Named], boxes: &mut Vec<Inbox>, who: ConnId)
    ensures { boxes.new.items ≡ lose_boxes who (conn_in names.now who) boxes.old.items }
{
    match conn_of(names, who) {
        Some(conn) if !conn.is_closing && matches!(conn.change, Change::Sent) => lose(boxes, who),
        _ => {}
    }
}

/// A client closes a connection.
pub(crate) fn close(names: &mut Vec<Named>, boxes: &mut Vec<Inbox>, who: ConnId)
    requires { HasOwedRoom names.old.items boxes.old.items }
    ensures names { names.new.items ≡ at_first (holds who) (λ n. (closed_conn who n).named) names.old.items }
    ensures sent { boxes.new.items ≡ put_events (sent_at (holds who) (closed_conn who) names.old.items)
        (lose_boxes who (conn_in names.old.items who) boxes.old.items) }
{
    lose_if(names, boxes, who);
    close_at(names, boxes, who);
}

/// The oldest event of a client.
pub(crate) fn first_event(boxes: &[Inbox], client: u32) -> Option<ClientEvent>
    ensures { result ≡ slice_get (events_of (mails_of boxes.now) client) 0 }
{
    match box_place(boxes, client) {
        Some(place) => boxes[place].first(),
        None => None,
    }
}

/// Its connection was told of a change, where the event does that.
fn note_taken(names: &mut Vec<Named>, event: ClientEvent)
    ensures { names.new.items ≡ names_after_event event names.old.items }
{
    if event.is_change() {
        mark_at(names, event.conn(), Change::Taken);
    }
}

/// The oldest event of a client goes.
fn take_out(boxes: &mut Vec<Inbox>, client: u32)
    ensures { boxes.new.items ≡ at_first (is_box client) (with_mail_changed taken_mail) boxes.old.items }
{
    if let Some(place) = box_place(boxes, client) {
        let inbox = &mut boxes[place];
        inbox.take();
    }
}

/// The client takes its oldest event.
pub(crate) fn take(
    names: &mut Vec<Named>,
    boxes: &mut Vec<Inbox>,
    client: u32,
) -> Option<ClientEvent>
    requires { HasOwedRoom names.old.items boxes.old.items }
    ensures event { result ≡ slice_get (events_of (mails_of boxes.old.items) client) 0 }
    ensures taken { (f : Bool) → state_of names.new.items boxes.new.items f
        ≡ taken (state_of names.old.items boxes.old.items f) client }
    ensures room { HasOwedRoom names.new.items boxes.new.items }
{
    match first_event(boxes, client) {
        Some(event) => {
            note_taken(names, event);
            take_out(boxes, client);
            Some(event)
        }
        None => None,
    }
}

/// The oldest versionchange event that was taken, of those whose connections aren't closed; it goes, with all before it.
fn next_taken(names: &[Named], inbox: &mut Inbox) -> Option<ConnId>
    ensures first { result ≡ slice_get (unhandled names.now inbox.old.mail.taken) 0 }
    ensures left { inbox.new
        ≡ with_mail_changed (with_taken (drop 1 (unhandled names.now inbox.old.mail.taken))) inbox.old }
{
    while let Some(who) = inbox.first_taken() {
        inbox.next_taken();
        if is_taken(names, who) {
            return Some(who);
        }
    }
    None
}

/// The same in the inbox of a client.
fn next_taken_at(names: &[Named], boxes: &mut Vec<Inbox>, client: u32) -> Option<ConnId>
    ensures first { result ≡ slice_get (unhandled names.now (taken_of (mails_of boxes.old.items) client)) 0 }
    ensures left { boxes.new.items ≡ at_first (is_box client) (with_mail_changed (with_taken
        (drop 1 (unhandled names.now (taken_of (mails_of boxes.old.items) client))))) boxes.old.items }
{
    match box_place(boxes, client) {
        Some(place) => {
            let inbox = &mut boxes[place];
            next_taken(names, inbox)
        }
        None => None,
    }
}

/// The client has handled the oldest versionchange event that it took.
pub(crate) fn handle(names: &mut Vec<Named>, boxes: &mut Vec<Inbox>, client: u32)
    requires { HasOwedRoom names.old.items boxes.old.items }
    ensures handled { (f : Bool) → state_of names.new.items boxes.new.items f
        ≡ handled (state_of names.old.items boxes.old.items f) client }
    ensures room { HasOwedRoom names.new.items boxes.new.items }
{
    if let Some(who) = next_taken_at(names, boxes, client) {
        mark_at(names, who, Change::Heard);
    }
}
