// What is kept for the name of a database, and how its queue moves.
ghost use Rattle.std.specs.Prelude.{◌≡◌, ◌<◌, ◌≤◌, ◌^◌, ◌-◌, ℕ, true, [], ◌∷◌, ◌++◌, drop, slice_get, Some, None, is_some, OnOk, OnErr, IfOk};
ghost use Rattle.std.specs.Option.{option_to_list};
ghost use Rattle.idb_schema.specs.Schemas.{SchemaData, new_schema};
ghost use Rattle.name_queues.specs.Traffic.{TrafficData};
ghost use Rattle.name_queues.specs.Names.{name_of, version_of, is_name, conn_at, holds, is_upgraded_for, has_place, with_conn, asked_by, queued, blank_name, noted_change, one_tx_more, schema_of_name};
ghost use Rattle.name_queues.specs.Moves.{Moved, is_over, left_conn, closed_conn, tx_ended, upgrade_ended, deletion_ended, asked_version, open_failed, told_closed};

use crate::asks::{Ask, Stage, Wants};
use crate::connections::{Change, Conn};
use crate::events::ClientEvent;
use crate::ids::ConnId;
use crate::traffic::Traffic;
use clone_values::Text;
use idb_base::NoMemory;
use idb_keys::ErrorName;
use idb_schema::{Schema, StoreInfos};
use std::alloc::Global;

/// The greatest number of names that have a place at once.
pub const GREATEST_NAME_COUNT: usize = 16;

/// The name of a database, and what is kept for it.
#[derive(Drop)]
pub struct Named {
    /// The name, and the schema where there is no database.
    pub blank: Schema,
    /// The schema as the last finished upgrade left it.
    pub database: Option<Schema>,
    /// The open or delete whose upgrade or deletion isn't finished.
    pub running: Option<Ask>,
    /// How far the request at the front is.
    pub stage: Stage,
    pub traffic: Traffic,
}

/// A name with nothing but its database.
pub fn blank_name(alloc: Global, name: Text, database: Option<Schema>) -> Result<Named, NoMemory>
    ensures { IfOk result (λ n. n ≡ blank_name name database) }
{
    let blank = Schema::new(alloc, name, 0, StoreInfos::new(alloc))?;
    Ok(Named {
        blank,
        database,
        running: None,
        stage: Stage::Fresh,
        traffic: Traffic::new(alloc),
    })
}

/// The version of a database; 0 where there is none.
fn schema_version(database: &Option<Schema>) -> u64
    ensures { result ≡ Rattle.name_queues.specs.Names.schema_version database.now }
{
    match database {
        Some(schema) => schema.version(),
        None => 0,
    }
}

/// The version that an open asks for.
pub fn asked_version(old: u64, version: Option<u64>) -> u64
    ensures { result ≡ asked_version old version }
{
    match version {
        Some(version) => version,
        None => { if old == 0 { 1 } else { old } }
    }
}

impl Named {
    /// The version of the database; 0 where there is none.
    pub fn version(&self) -> u64
        ensures { result ≡ version_of self.now }
    {
        schema_version(&self.database)
    }

    /// The name is this one.
    pub fn is_name(&self, name: &str) -> bool
        ensures { result ≡ is_name name.now self.now }
    {
        self.blank.name().as_str() == name
    }

    /// The connection is one to this database, and isn't closed.
    pub fn holds(&self, who: ConnId) -> bool
        ensures { result ≡ holds who self.now }
    {
        self.traffic.conn(who).is_some()
    }

    /// The upgrade that this open began isn't finished.
    pub fn is_upgraded_for(&self, who: ConnId) -> bool
        ensures { result ≡ is_upgraded_for self.now who }
    {
        match &self.running {
            Some(ask) => ask.who == who,
            None => false,
        }
    }

    /// The name has a place among the names.
    pub fn has_place(&self) -> bool
        ensures { result ≡ has_place self.now }
    {
        0 < self.version()
            || self.running.is_some()
            || self.traffic.front().is_some()
            || self.traffic.least().is_some()
    }

    /// The schema of the database; one of version 0 where there is none.
    pub fn schema(&self) -> &Schema
        ensures { result.now ≡ schema_of_name self.now self.now.database }
    {
        match &self.database {
            Some(schema) => schema,
            None => &self.blank,
        }
    }

    /// Whether a connection has close pending and nothing left to finish.
    pub fn is_over(&self, who: ConnId, conn: Conn) -> bool
        ensures { result ≡ is_over self.now who conn }
    {
        conn.is_closing && conn.txs == 0 && !self.is_upgraded_for(who)
    }
}

/// Puts a request behind those that wait.
pub fn push(n: &mut Named, ask: Ask) -> Result<(), NoMemory>
    ensures pushed { OnOk result (n.new ≡ queued ask n.old) }
    ensures unchanged { OnErr result (n.new ≡ n.old) }
{
    n.traffic.push(ask)
}

/// The connection after a change of it: it is closed where it is over.
pub fn leave(n: &mut Named, who: ConnId, conn: Conn) -> Option<ClientEvent>
    ensures { record { named = n.new; sent = option_to_list result } ≡ left_conn n.old who conn }
{
    if n.is_over(who, conn) {
        n.traffic.remove(who);
        if conn.tells {
            Some(ClientEvent::Closed { conn: who })
        } else {
            None
        }
    } else {
        n.traffic.set(who, conn);
        None
    }
}

/// The connection gets close pending, and is closed where it is over.
pub fn close(n: &mut Named, who: ConnId) -> Option<ClientEvent>
    ensures { record { named = n.new; sent = option_to_list result } ≡ closed_conn who n.old }
{
    match n.traffic.conn(who) {
        Some(conn) if !conn.is_closing => leave(n, who, conn.closing(false)),
        _ => None,
    }
}

/// A transaction of the connection begins.
pub fn begin_tx(n: &mut Named, who: ConnId)
    requires { (k : Conn) → conn_at n.old who ≡ Some k → k.txs < 2 ^ 64 - 1 }
    ensures { n.new ≡ with_conn who one_tx_more n.old }
{
    if let Some(conn) = n.traffic.conn(who) {
        let txs = conn.txs + 1;
        n.traffic.set(who, Conn { txs, ..conn });
    }
}

/// A transaction of the connection is finished.
pub fn end_tx(n: &mut Named, who: ConnId) -> Option<ClientEvent>
    ensures { record { named = n.new; sent = option_to_list result } ≡ tx_ended who n.old }
{
    match n.traffic.conn(who) {
        Some(conn) => {
            let txs = conn.txs.saturating_sub(1);
            leave(n, who, Conn { txs, ..conn })
        }
        None => None,
    }
}

/// The versionchange event of the connection is now this.
pub fn mark(n: &mut Named, who: ConnId, change: Change)
    ensures { n.new ≡ with_conn who (noted_change change) n.old }
{
    if let Some(conn) = n.traffic.conn(who) {
        n.traffic.set(who, conn.noted_change(change));
    }
}
