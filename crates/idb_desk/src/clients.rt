// What each client asked and created.
ghost use Rattle.std.specs.Prelude.{◌≡◌, ◌<◌, ◌≤◌, ◌+◌, ◌^◌, ◌-◌, ℕ, List, [], ◌∷◌, ◌++◌, length, position, drop, slice_get, Some, None, OnOk, OnErr, IfOk, IfSome};
ghost use Rattle.std.specs.Option.{option_copied};
ghost use Rattle.name_queues.specs.Names.{at_first};
ghost use Rattle.desk_steps.specs.Desks.{ClientStand, is_client, new_client, request_in, stands_where, request_at, with_stand, stood, stand_of, asks_of, creates_of, changes_in, at_desk_client, with_desk_client};
ghost use Rattle.connection_queues.specs.Machine.{unhandled, after_ask};
ghost use Rattle.desk_steps.specs.Steps.{asked_more, created_more, change_taken, changes_left};

use crate::changes::next_unhandled;
use clone_values::Text;
use connection_queues::Queues;
use desk_steps::{DeskRequest, Stand};
use idb_base::NoMemory;
use name_queues::{ConnId, Wants};
use std::alloc::Global;
use std::collections::VecDeque;
use std::marker::Model;

/// What a client asked and created, and the versionchange events that it took.
#[derive(Drop)]
pub(crate) struct DeskClient {
    client: u32,
    requests: Vec<DeskRequest>,
    created: u64,
    changes: VecDeque<ConnId>,
}

impl Model for DeskClient {
    ghost use Rattle.desk_steps.specs.Desks.{ClientStand};

    ghost Value = { ClientStand };

    ghost view = { λ a. record {
      client = a.client;
      requests = a.requests.items;
      created = a.created;
      changes = a.changes.items;
    } };
}

impl DeskClient {
    /// A client that did nothing yet. It takes no memory.
    pub fn new(alloc: Global, client: u32) -> DeskClient
        ensures { result ≡ new_client client }
    {
        DeskClient {
            client,
            requests: Vec::new(alloc),
            created: 0,
            changes: VecDeque::new(alloc),
        }
    }

    /// It is this client.
    pub fn is_of(&self, client: u32) -> bool
        ensures { result ≡ is_client client self.now }
    {
        self.client == client
    }

    /// How many opens and deletes it asked.
    pub fn asked(&self) -> usize
        ensures { result ≡ length self.now.requests }
    {
        self.requests.len()
    }

    /// How many transactions it created.
    pub fn created(&self) -> u64
        ensures { result ≡ self.now.created }
    {
        self.created
    }

    /// The open or delete of this number, counted from 1.
    pub fn request(&self, number: u32) -> Option<&DeskRequest>
        ensures { option_copied result ≡ request_in self.now.requests number }
    {
        if number == 0 {
            None
        } else {
            self.requests.get(number as usize - 1)
        }
    }

    /// The open or delete of this number now stands so. It takes no memory.
    pub fn set_stand(&mut self, who: ConnId, stand: Stand)
        ensures { self.new ≡ with_stand stand who self.old }
    {
        set_stand_in(&mut self.requests, who.request, stand);
    }

    /// One open or delete more, which stands in its queue; `own` is the same name. After a refusal all is as before.
    pub fn ask(
        &mut self,
        queues: &mut Queues,
        who: ConnId,
        own: Text,
        name: Text,
        wants: Wants,
    ) -> Result<(), NoMemory>
        ensures asked { OnOk result (self.new ≡ asked_more own self.old) }
        ensures queued { OnOk result (queues.new ≡ after_ask queues.old who name wants) }
        ensures unchanged { OnErr result (self.new ≡ self.old) }
        ensures same_queues { OnErr result (queues.new ≡ queues.old) }
    {
        self.requests.reserve(1)?;
        ask_queue(queues, who, name, wants)?;
        let request = DeskRequest {
            name: own,
            stand: Stand::Asked,
        };
        match self.requests.push(request) {
            Ok(()) => Ok(()),
            Err(_) => unreachable!(),
        }
    }

    /// One transaction more.
    pub fn create(&mut self)
        requires { self.old.created < 2 ^ 64 - 1 }
        ensures { self.new ≡ created_more self.old }
    {
        self.created += 1;
    }

    /// It took the versionchange event of a connection.
    pub fn take_change(&mut self, who: ConnId) -> Result<(), NoMemory>
        ensures taken { OnOk result (self.new ≡ change_taken who self.old) }
        ensures unchanged { OnErr result (self.new ≡ self.old) }
    {
        self.changes.push_back(who)?;
        Ok(())
    }

    /// It has handled the first versionchange event that it took and hasn't handled, whose connection isn't closed; that
    /// connection. It takes no memory.
    pub fn handle(&mut self, queues: &Queues) -> Option<ConnId>
        ensures first { result ≡ slice_get (unhandled queues.now.names self.old.changes) 0 }
        ensures left { self.new
            ≡ changes_left (drop 1 (unhandled queues.now.names self.old.changes)) self.old }
    {
        next_unhandled(queues, &mut self.changes)
    }

    /// The connections whose versionchange event it took and hasn't handled.
    pub fn changes(&self) -> &VecDeque<ConnId>
        ensures { result.now.items ≡ self.now.changes }
    {
        &self.changes
    }
}

fn ask_queue(queues: &mut Queues, who: ConnId, name: Text, wants: Wants) -> Result<(), NoMemory>
    ensures queued { OnOk result (queues.new ≡ after_ask queues.old who name wants) }
    ensures unchanged { OnErr result (queues.new ≡ queues.old) }
{
    match wants {
        Wants::Open { version } => queues.ask_open(who, name, version),
        Wants::Delete => queues.ask_delete(who, name),
    }
}

fn set_stand_in(requests: &mut Vec<DeskRequest>, number: u32, stand: Stand)
    ensures { requests.new.items
        ≡ stands_where requests.old.items number stand (request_in requests.old.items number) }
{
    let place = number as usize;
    if 0 < place && place <= requests.len() {
        let request = &mut requests[place - 1];
        request.stand = stand;
    }
}

/// Where a client stands.
pub(crate) fn client_place(clients: &[DeskClient], client: u32) -> Option<usize>
    ensures { result ≡ position (is_client client) clients.now }
{
    clients.iter().position(|c| c.is_of(client))
}

/// The open or delete of this client and number.
pub(crate) fn request_of(clients: &[DeskClient], who: ConnId) -> Option<&DeskRequest>
    ensures { option_copied result ≡ request_at clients.now who }
{
    match client_place(clients, who.client) {
        Some(place) => clients[place].request(who.request),
        None => None,
    }
}

/// How an open or a delete stands.
pub(crate) fn stand_of(clients: &[DeskClient], who: ConnId) -> Stand
    ensures { result ≡ Rattle.desk_steps.specs.Desks.stand_of clients.now who }
{
    match request_of(clients, who) {
        Some(request) => request.stand,
        None => Stand::Shut,
    }
}

/// How many opens and deletes a client asked.
pub(crate) fn asked_by(clients: &[DeskClient], client: u32) -> usize
    ensures { result ≡ length (asks_of clients.now client) }
{
    match client_place(clients, client) {
        Some(place) => clients[place].asked(),
        None => 0,
    }
}

/// How many transactions a client created.
pub(crate) fn created_by(clients: &[DeskClient], client: u32) -> u64
    ensures { result ≡ creates_of clients.now client }
{
    match client_place(clients, client) {
        Some(place) => clients[place].created(),
        None => 0,
    }
}

/// An open or a delete now stands so. It takes no memory.
pub(crate) fn set_stand(clients: &mut Vec<DeskClient>, who: ConnId, stand: Stand)
    ensures { clients.new.items ≡ stood stand who clients.old.items }
{
    if let Some(place) = client_place(clients, who.client) {
        let c = &mut clients[place];
        c.set_stand(who, stand);
    }
}

/// A client took the versionchange event of a connection.
pub(crate) fn take_change(clients: &mut Vec<DeskClient>, who: ConnId) -> Result<(), NoMemory>
    ensures taken { OnOk result (clients.new.items
        ≡ at_desk_client who.client (change_taken who) clients.old.items) }
    ensures unchanged { OnErr result (clients.new.items ≡ clients.old.items) }
{
    match client_place(clients, who.client) {
        Some(place) => {
            let c = &mut clients[place];
            c.take_change(who)
        }
        None => Ok(()),
    }
}

/// A client created one transaction more.
pub(crate) fn count_create(clients: &mut Vec<DeskClient>, client: u32)
    requires { creates_of clients.old.items client < 2 ^ 64 - 1 }
    ensures { clients.new.items ≡ at_desk_client client created_more clients.old.items }
{
    if let Some(place) = client_place(clients, client) {
        let c = &mut clients[place];
        c.create();
    }
}

/// A client has handled the first versionchange event that it took and hasn't handled; its connection. It takes no memory.
pub(crate) fn handle_change(
    clients: &mut Vec<DeskClient>,
    queues: &Queues,
    client: u32,
) -> Option<ConnId>
    ensures first { result ≡ slice_get (unhandled queues.now.names (changes_in clients.old.items client)) 0 }
    ensures left { clients.new.items ≡ at_desk_client client
        (changes_left (drop 1 (unhandled queues.now.names (changes_in clients.old.items client)))) clients.old.items }
{
    match client_place(clients, client) {
        Some(place) => {
            let c = &mut clients[place];
            c.handle(queues)
        }
        None => None,
    }
}

/// A client that asks for the first time.
fn ask_first(
    alloc: Global,
    clients: &mut Vec<DeskClient>,
    queues: &mut Queues,
    who: ConnId,
    own: Text,
    name: Text,
    wants: Wants,
) -> Result<(), NoMemory>
    ensures asked { OnOk result (clients.new.items
        ≡ clients.old.items ++ asked_more own (new_client who.client) ∷ []) }
    ensures queued { OnOk result (queues.new ≡ after_ask queues.old who name wants) }
    ensures unchanged { OnErr result (clients.new.items ≡ clients.old.items) }
    ensures same_queues { OnErr result (queues.new ≡ queues.old) }
{
    let mut c = DeskClient::new(alloc, who.client);
    clients.reserve(1)?;
    c.ask(queues, who, own, name, wants)?;
    match clients.push(c) {
        Ok(()) => Ok(()),
        Err(_) => unreachable!(),
    }
}

/// A client asks an open or a delete, which stands in its queue; `own` is the same name. After a refusal all is as before.
pub(crate) fn ask(
    alloc: Global,
    clients: &mut Vec<DeskClient>,
    queues: &mut Queues,
    who: ConnId,
    own: Text,
    name: Text,
    wants: Wants,
) -> Result<(), NoMemory>
    ensures asked { OnOk result (clients.new.items ≡ at_desk_client who.client (asked_more own)
        (with_desk_client who.client clients.old.items)) }
    ensures queued { OnOk result (queues.new ≡ after_ask queues.old who name wants) }
    ensures unchanged { OnErr result (clients.new.items ≡ clients.old.items) }
    ensures same_queues { OnErr result (queues.new ≡ queues.old) }
{
    match client_place(clients, who.client) {
        Some(place) => {
            let c = &mut clients[place];
            c.ask(queues, who, own, name, wants)
        }
        None => ask_first(alloc, clients, queues, who, own, name, wants),
    }
}
