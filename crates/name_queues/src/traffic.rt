// The requests that wait for a name, and its connections that aren't closed.
ghost use Rattle.std.specs.Prelude.{◌≡◌, ◌<◌, ◌≤◌, ◌+◌, [], ◌∷◌, ◌++◌, length, drop, remove, slice_get, option_map, Some, OnOk, OnErr};
ghost use Rattle.std.specs.FinMap.Entries.{find, put};
ghost use Rattle.sorted_table.specs.Tables.{without, with_value};
ghost use Rattle.name_queues.specs.Ids.{by_id_order};
ghost use Rattle.name_queues.specs.Traffic.{TrafficData};
ghost use Rattle.name_queues.specs.Names.{kept_conn};

use crate::asks::Ask;
use crate::connections::Conn;
use crate::ids::ConnId;
use idb_base::NoMemory;
use sorted_table::{FlatTable, OrderedTable, find_place, table_laws};
use std::alloc::Global;
use std::collections::VecDeque;
use std::marker::Model;

/// The connections by client and request.
type Table = FlatTable<ConnId, Conn>;

/// Each request that waits has room for its connection.
#[derive(Drop)]
pub struct Traffic {
    queue: VecDeque<Ask>,
    conns: Table,
}

impl Model for Traffic {
    ghost use Rattle.std.specs.Prelude.{◌≤◌, length};
    ghost use Rattle.name_queues.specs.Traffic.{TrafficData};

    ghost Value = { TrafficData };

    ghost view = { λ a. record {
      queue = a.queue.items;
      conns = ⟦<FlatTable<ConnId, Conn> as OrderedTable<ConnId, Conn>>⟧.entries a.conns;
    } };

    ghost invariant = { λ a. length a.queue.items
        ≤ ⟦<FlatTable<ConnId, Conn> as OrderedTable<ConnId, Conn>>⟧.spare a.conns };
}

impl Traffic {
    /// No request and no connection; it takes no memory.
    pub fn new(alloc: Global) -> Traffic
        ensures { result ≡ record { queue = []; conns = [] } }
    {
        Traffic {
            queue: VecDeque::new(alloc),
            conns: FlatTable::new(alloc),
        }
    }

    /// Puts a request behind those that wait, with room for its connection.
    pub fn push(&mut self, ask: Ask) -> Result<(), NoMemory>
        ensures pushed { OnOk result (self.new
            ≡ record { queue = self.old.queue ++ ask ∷ []; conns = self.old.conns }) }
        ensures unchanged { OnErr result (self.new ≡ self.old) }
    {
        self.conns.reserve(self.queue.len() + 1)?;
        self.queue.push_back(ask)?;
        Ok(())
    }

    /// The request at the front.
    pub fn front(&self) -> Option<Ask>
        ensures { result ≡ slice_get self.now.queue 0 }
    {
        self.queue.front().copied()
    }

    /// The requests that wait, in the order asked.
    pub fn asks(&self) -> &VecDeque<Ask>
        ensures { result.now.items ≡ self.now.queue }
    {
        &self.queue
    }

    /// The request at the front goes.
    pub fn next(&mut self)
        ensures { self.new ≡ record { queue = drop 1 self.old.queue; conns = self.old.conns } }
    {
        let _ = self.queue.pop_front();
    }

    /// The request at the front goes, and this connection comes.
    pub fn open(&mut self, who: ConnId, conn: Conn)
        requires { 0 < length self.old.queue }
        ensures { self.new
            ≡ record { queue = drop 1 self.old.queue; conns = put by_id_order who conn self.old.conns } }
    {
        let _ = self.queue.pop_front();
        put_conn(&mut self.conns, who, conn);
    }

    /// Keeps this of the connection, where it isn't closed.
    pub fn set(&mut self, who: ConnId, conn: Conn)
        ensures { self.new ≡ record { queue = self.old.queue; conns = kept_conn who conn self.old.conns } }
    {
        set_conn(&mut self.conns, who, conn);
    }

    /// Keeps this of the connection at this place.
    pub fn set_at(&mut self, place: usize, conn: Conn)
        requires { place < length self.old.conns }
        ensures { self.new ≡ record { queue = self.old.queue; conns = with_value self.old.conns place conn } }
    {
        let _ = self.conns.replace(place, conn);
    }

    /// The connection at this place is closed.
    pub fn remove_at(&mut self, place: usize)
        requires { place < length self.old.conns }
        ensures { self.new ≡ record { queue = self.old.queue; conns = remove self.old.conns place } }
    {
        let _ = self.conns.remove(place);
    }

    /// The connection is closed.
    pub fn remove(&mut self, who: ConnId)
        ensures { self.new
            ≡ record { queue = self.old.queue; conns = without by_id_order who self.old.conns } }
    {
        remove_conn(&mut self.conns, who);
    }

    /// The least connection.
    pub fn least(&self) -> Option<ConnId>
        ensures { result ≡ option_map (λ e. e.0) (slice_get self.now.conns 0) }
    {
        match self.conns.nth(0) {
            Some((who, _)) => Some(*who),
            None => None,
        }
    }

    /// How many connections there are.
    pub fn len(&self) -> usize
        ensures { result ≡ length self.now.conns }
    {
        self.conns.len()
    }

    /// The connection at this place, counted from 0.
    pub fn entry(&self, place: usize) -> (ConnId, Conn)
        requires { place < length self.now.conns }
        ensures { slice_get self.now.conns place ≡ Some result }
    {
        match self.conns.nth(place) {
            Some((who, conn)) => (*who, *conn),
            None => unreachable!(),
        }
    }

    /// What is kept of the connection, where it isn't closed. It halves.
    pub fn conn(&self, who: ConnId) -> Option<Conn>
        ensures { result ≡ find by_id_order who self.now.conns }
    {
        find_conn(&self.conns, who)
    }
}

/// Puts a connection in, or keeps this of it.
fn put_conn(conns: &mut Table, who: ConnId, conn: Conn)
    requires { 0 < ⟦<FlatTable<ConnId, Conn> as OrderedTable<ConnId, Conn>>⟧.spare conns.old }
    ensures entries { ⟦<FlatTable<ConnId, Conn> as OrderedTable<ConnId, Conn>>⟧.entries conns.new
        ≡ put by_id_order who conn (⟦<FlatTable<ConnId, Conn> as OrderedTable<ConnId, Conn>>⟧.entries conns.old) }
    ensures spare { ⟦<FlatTable<ConnId, Conn> as OrderedTable<ConnId, Conn>>⟧.spare conns.old
        ≤ ⟦<FlatTable<ConnId, Conn> as OrderedTable<ConnId, Conn>>⟧.spare conns.new + 1 }
{
    table_laws::<ConnId, Conn>();
    match find_place(conns, &who) {
        Ok(place) => {
            let _ = conns.replace(place, conn);
        }
        Err(place) => conns.insert_at(place, who, conn),
    }
}

/// Keeps this of a connection, where it is there.
fn set_conn(conns: &mut Table, who: ConnId, conn: Conn)
    ensures entries { ⟦<FlatTable<ConnId, Conn> as OrderedTable<ConnId, Conn>>⟧.entries conns.new
        ≡ kept_conn who conn (⟦<FlatTable<ConnId, Conn> as OrderedTable<ConnId, Conn>>⟧.entries conns.old) }
    ensures spare { ⟦<FlatTable<ConnId, Conn> as OrderedTable<ConnId, Conn>>⟧.spare conns.new
        ≡ ⟦<FlatTable<ConnId, Conn> as OrderedTable<ConnId, Conn>>⟧.spare conns.old }
{
    table_laws::<ConnId, Conn>();
    match find_place(conns, &who) {
        Ok(place) => {
            let _ = conns.replace(place, conn);
        }
        Err(_) => {}
    }
}

/// Takes a connection out, where it is there.
fn remove_conn(conns: &mut Table, who: ConnId)
    ensures entries { ⟦<FlatTable<ConnId, Conn> as OrderedTable<ConnId, Conn>>⟧.entries conns.new
        ≡ without by_id_order who (⟦<FlatTable<ConnId, Conn> as OrderedTable<ConnId, Conn>>⟧.entries conns.old) }
    ensures spare { ⟦<FlatTable<ConnId, Conn> as OrderedTable<ConnId, Conn>>⟧.spare conns.old
        ≤ ⟦<FlatTable<ConnId, Conn> as OrderedTable<ConnId, Conn>>⟧.spare conns.new }
{
    table_laws::<ConnId, Conn>();
    match find_place(conns, &who) {
        Ok(place) => {
            let _ = conns.remove(place);
        }
        Err(_) => {}
    }
}

/// What is kept of a connection, where it is there.
fn find_conn(conns: &Table, who: ConnId) -> Option<Conn>
    ensures { result ≡ find by_id_order who
        (⟦<FlatTable<ConnId, Conn> as OrderedTable<ConnId, Conn>>⟧.entries conns.now) }
{
    table_laws::<ConnId, Conn>();
    match find_place(conns, &who) {
        Ok(place) => match conns.nth(place) {
            Some((_, conn)) => Some(*conn),
            None => unreachable!(),
        },
        Err(_) => None,
    }
}
