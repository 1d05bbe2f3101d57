// The inboxes of the clients, with room for all that is still owed to them.
ghost use Rattle.std.specs.Prelude.{◌≡◌, ◌≤◌, ◌<◌, ◌+◌, ◌-◌, ℕ, [], ◌∷◌, ◌++◌, position, slice_get, filter, not, Some, None, OnOk, OnErr, drop, length};
ghost use Rattle.std.specs.Option.{option_to_list};
ghost use Rattle.std.specs.VecDeque.{deque_len, deque_capacity};
ghost use Rattle.name_queues.specs.Mails.{conn_of, is_change, is_change_of, taken_mail, lost_change, lost_changes, with_taken, posted};
ghost use Rattle.name_queues.specs.Names.{at_first};
ghost use Rattle.name_queues.specs.Room.{Box, is_box, with_event, put_event, put_events, room_of, HasEventRoom, with_mail_of, with_mail_changed};

use crate::events::ClientEvent;
use crate::ids::ConnId;
use idb_base::NoMemory;
use std::alloc::Global;
use std::collections::VecDeque;
use std::marker::Model;

/// The inbox of a client.
#[derive(Drop)]
pub struct Inbox {
    client: u32,
    events: VecDeque<ClientEvent>,
    taken: VecDeque<ConnId>,
    room: usize,
}

impl Model for Inbox {
    ghost use Rattle.std.specs.Prelude.{◌≤◌, ◌+◌};
    ghost use Rattle.std.specs.VecDeque.{deque_len, deque_capacity};
    ghost use Rattle.name_queues.specs.Room.{Box};

    ghost Value = { Box };

    ghost view = { λ a. record {
      mail = record { client = a.client; events = a.events.items; taken = a.taken.items };
      room = a.room;
    } };

    ghost invariant = { λ a. (deque_len a.events + deque_len a.taken + a.room ≤ deque_capacity a.events)
        × (deque_len a.events + deque_len a.taken + a.room ≤ deque_capacity a.taken) };
}

impl Inbox {
    /// The empty inbox of a client; it takes no memory.
    pub fn new(alloc: Global, client: u32) -> Inbox
        ensures { result ≡ record { mail = record { client = client; events = []; taken = [] }; room = 0 } }
    {
        Inbox {
            client,
            events: VecDeque::new(alloc),
            taken: VecDeque::new(alloc),
            room: 0,
        }
    }

    /// The inbox is this client's.
    pub fn is_of(&self, client: u32) -> bool
        ensures { result ≡ is_box client self.now }
    {
        self.client == client
    }

    /// Makes room for so many events more.
    pub fn promise(&mut self, more: u8) -> Result<(), NoMemory>
        ensures more { OnOk result (self.new ≡ record { mail = self.old.mail; room = self.old.room + more }) }
        ensures unchanged { OnErr result (self.new ≡ self.old) }
    {
        let more = usize::from(more);
        let needed = match (self.events.len() + self.taken.len()).checked_add(self.room) {
            Some(all) => match all.checked_add(more) {
                Some(needed) => needed,
                None => return Err(NoMemory),
            },
            None => return Err(NoMemory),
        };
        self.events.reserve(needed)?;
        self.taken.reserve(needed)?;
        self.room += more;
        Ok(())
    }

    /// Puts an event behind the others, for which there is room.
    pub fn put(&mut self, event: ClientEvent)
        requires { 1 ≤ self.old.room }
        ensures { self.new ≡ with_event event self.old }
    {
        match self.events.push_back(event) {
            Ok(()) => self.room -= 1,
            Err(_) => unreachable!(),
        }
    }

    /// The oldest event.
    pub fn first(&self) -> Option<ClientEvent>
        ensures { result ≡ slice_get self.now.mail.events 0 }
    {
        self.events.front().copied()
    }

    /// Takes the oldest event out, and notes where it is a versionchange event.
    pub fn take(&mut self)
        ensures { self.new ≡ with_mail_changed taken_mail self.old }
    {
        if let Some(event) = self.events.pop_front() {
            if event.is_change() {
                match self.taken.push_back(event.conn()) {
                    Ok(()) => {}
                    Err(_) => unreachable!(),
                }
            }
        }
    }

    /// The connection whose versionchange event was taken first.
    pub fn first_taken(&self) -> Option<ConnId>
        ensures { result ≡ slice_get self.now.mail.taken 0 }
    {
        self.taken.front().copied()
    }

    /// That one was handled, or its connection is closed.
    pub fn next_taken(&mut self)
        ensures { self.new ≡ with_mail_changed (with_taken (drop 1 self.old.mail.taken)) self.old }
    {
        let _ = self.taken.pop_front();
    }

    /// The versionchange event of this connection is lost.
    pub fn lose(&mut self, who: ConnId)
        ensures { self.new ≡ with_mail_changed (lost_change who) self.old }
    {
        lose_one(&mut self.events, who);
    }

    /// Every versionchange event is lost.
    pub fn lose_all(&mut self)
        ensures { self.new ≡ with_mail_changed lost_changes self.old }
    {
        lose_each(&mut self.events);
    }
}

fn lose_one(events: &mut VecDeque<ClientEvent>, who: ConnId)
    ensures left { events.new.items ≡ filter (λ e. not (is_change_of who e)) events.old.items }
    ensures bound { deque_len events.new ≤ deque_len events.old }
    ensures capacity { deque_capacity events.new ≡ deque_capacity events.old }
{
    events.retain(|e| !e.is_change_of(who));
}

fn lose_each(events: &mut VecDeque<ClientEvent>)
    ensures left { events.new.items ≡ filter (λ e. not (is_change e)) events.old.items }
    ensures bound { deque_len events.new ≤ deque_len events.old }
    ensures capacity { deque_capacity events.new ≡ deque_capacity events.old }
{
    events.retain(|e| !e.is_change());
}

/// Where the inbox of a client stands.
pub fn box_place(boxes: &[Inbox], client: u32) -> Option<usize>
    ensures { result ≡ position (is_box client) boxes.now }
{
    boxes.iter().position(|b| b.is_of(client))
}

/// Sends an event to its client, for which there is room.
pub fn send(boxes: &mut Vec<Inbox>, event: ClientEvent)
    requires { 1 ≤ room_of (conn_of event).client boxes.old.items }
    ensures { boxes.new.items ≡ put_event event boxes.old.items }
{
    match box_place(boxes, event.conn().client) {
        Some(place) => {
            let inbox = &mut boxes[place];
            inbox.put(event);
        }
        None => unreachable!(),
    }
}

/// Sends an event, where there is one.
pub fn send_if(boxes: &mut Vec<Inbox>, event: Option<ClientEvent>)
    requires { HasEventRoom (option_to_list event) boxes.old.items }
    ensures { boxes.new.items ≡ put_events (option_to_list event) boxes.old.items }
{
    if let Some(event) = event {
        send(boxes, event);
    }
}

/// The client has an inbox with room for so many events more.
pub fn promise(alloc: Global, boxes: &mut Vec<Inbox>, client: u32, more: u8) -> Result<(), NoMemory>
    ensures more { OnOk result (boxes.new.items ≡ with_mail_of client more boxes.old.items) }
    ensures unchanged { OnErr result (boxes.new.items ≡ boxes.old.items) }
{
    match box_place(boxes, client) {
        Some(place) => {
            let inbox = &mut boxes[place];
            inbox.promise(more)
        }
        None => {
            let mut inbox = Inbox::new(alloc, client);
            inbox.promise(more)?;
            boxes.push(inbox)?;
            Ok(())
        }
    }
}

/// The versionchange event of a connection is lost.
pub fn lose(boxes: &mut Vec<Inbox>, who: ConnId)
    ensures { boxes.new.items
        ≡ at_first (is_box who.client) (with_mail_changed (lost_change who)) boxes.old.items }
{
    if let Some(place) = box_place(boxes, who.client) {
        let inbox = &mut boxes[place];
        inbox.lose(who);
    }
}
