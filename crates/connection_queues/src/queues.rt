// The queues, the connections and the inboxes.
ghost use Rattle.std.specs.Prelude.{◌≡◌, ◌<◌, ◌^◌, ◌-◌, [], Some, None, slice_get, IfSome, OnOk, OnErr, IfOk};
ghost use Rattle.std.specs.Option.{option_copied};
ghost use Rattle.name_queues.specs.Names.{conn_in};
ghost use Rattle.name_queues.specs.Mails.{events_of, taken_of};
ghost use Rattle.connection_queues.specs.Machine.{QueueState, new_state, after_ask, turned_queue, turn_of_name, closed, taken, handled, tx_begun, tx_done, upgrade_done, delete_done, faulted_state, schema_of, unhandled};
ghost use Rattle.name_queues.specs.declared.asks.Wants.TheVariants.{Open, Delete};

use crate::admitting::names_of_schemas;
use crate::calls::{ask, close, first_event, handle, take};
use crate::faulting::{fault_names, lose_changes};
use crate::steps::{
    begin_tx_at, conn_of, conn_place, end_deletion_at, end_tx_at, end_upgrade_at, turn_at,
};
use clone_values::Text;
use idb_base::NoMemory;
use idb_schema::{Schema, Schemas};
use name_queues::{Ask, ClientEvent, Conn, ConnId, Inbox, Named, Turn, Wants};
use std::alloc::Global;
use std::marker::Model;

/// The queues of opens and deletes, the connections that aren't closed, and the inboxes of the clients.
#[derive(Drop)]
pub struct Queues {
    alloc: Global,
    names: Vec<Named>,
    boxes: Vec<Inbox>,
    is_faulted: bool,
}

impl Model for Queues {
    ghost use Rattle.connection_queues.specs.Machine.{QueueState};
    ghost use Rattle.connection_queues.specs.States.{state_of};
    ghost use Rattle.name_queues.specs.Room.{HasOwedRoom};

    ghost Value = { QueueState };

    ghost view = { λ a. state_of a.names.items a.boxes.items a.is_faulted };

    ghost invariant = { λ a. HasOwedRoom a.names.items a.boxes.items };
}

impl Queues {
    /// The state over these databases.
    pub fn new(alloc: Global, schemas: Schemas) -> Result<Queues, NoMemory>
        ensures { IfOk result (λ r. r ≡ new_state schemas) }
    {
        Ok(Queues {
            alloc,
            names: names_of_schemas(alloc, schemas)?,
            boxes: Vec::new(alloc),
            is_faulted: false,
        })
    }

    /// An open is asked, of the current version where none is given. It takes the room for all that can come of it.
    pub fn ask_open(
        &mut self,
        who: ConnId,
        name: Text,
        version: Option<u64>,
    ) -> Result<(), NoMemory>
        ensures after_ask { OnOk result (self.new ≡ after_ask self.old who name (Open version)) }
        ensures unchanged { OnErr result (self.new ≡ self.old) }
    {
        ask(
            self.alloc,
            &mut self.names,
            &mut self.boxes,
            self.is_faulted,
            name,
            Ask {
                who,
                wants: Wants::Open { version },
            },
        )
    }

    /// A delete is asked. It takes the room for all that can come of it.
    pub fn ask_delete(&mut self, who: ConnId, name: Text) -> Result<(), NoMemory>
        ensures after_ask { OnOk result (self.new ≡ after_ask self.old who name Delete) }
        ensures unchanged { OnErr result (self.new ≡ self.old) }
    {
        ask(
            self.alloc,
            &mut self.names,
            &mut self.boxes,
            self.is_faulted,
            name,
            Ask {
                who,
                wants: Wants::Delete,
            },
        )
    }

    /// One move of the queue of a name, or what it waits for. It takes no memory.
    pub fn turn(&mut self, name: &Text) -> Turn
        ensures turn { result ≡ turn_of_name self.old name.now }
        ensures moved { self.new ≡ turned_queue self.old name.now }
    {
        turn_at(&mut self.names, &mut self.boxes, name.as_str())
    }

    /// A client closes a connection; one that has close pending, is closed or was never there stays so. It takes no memory.
    pub fn close(&mut self, who: ConnId)
        ensures { self.new ≡ closed self.old who }
    {
        close(&mut self.names, &mut self.boxes, who);
    }

    /// A client takes its oldest event; `None` where it has none. It takes no memory.
    pub fn take(&mut self, client: u32) -> Option<ClientEvent>
        ensures event { result ≡ slice_get (events_of self.old.mails client) 0 }
        ensures taken { self.new ≡ taken self.old client }
    {
        take(&mut self.names, &mut self.boxes, client)
    }

    /// The client's oldest event, which stays.
    pub fn next_event(&self, client: u32) -> Option<ClientEvent>
        ensures { result ≡ slice_get (events_of self.now.mails client) 0 }
    {
        first_event(&self.boxes, client)
    }

    /// A client has handled its oldest versionchange event that it took, of those whose connections aren't closed. It takes no
    /// memory.
    pub fn handled(&mut self, client: u32)
        ensures { self.new ≡ handled self.old client }
    {
        handle(&mut self.names, &mut self.boxes, client);
    }

    /// The names, in the order of their bytes.
    pub fn names(&self) -> &[Named]
        ensures { result.now ≡ self.now.names }
    {
        self.names.as_slice()
    }

    /// The connection, where it isn't closed.
    pub fn connection(&self, who: ConnId) -> Option<Conn>
        ensures { result ≡ conn_in self.now.names who }
    {
        conn_of(&self.names, who)
    }

    /// The schema of the connection's database as its last finished upgrade left it; `None` where the connection is closed.
    pub fn schema(&self, who: ConnId) -> Option<&Schema>
        ensures { option_copied result ≡ schema_of self.now who }
    {
        match conn_place(&self.names, who) {
            Some(place) => Some(self.names[place].schema()),
            None => None,
        }
    }

    /// A transaction of the connection begins. It takes no memory.
    pub fn tx_begun(&mut self, who: ConnId)
        requires { IfSome (conn_in self.old.names who) (λ k. k.txs < 2 ^ 64 - 1) }
        ensures { self.new ≡ tx_begun self.old who }
    {
        begin_tx_at(&mut self.names, who);
    }

    /// A transaction of the connection is finished. It takes no memory.
    pub fn tx_done(&mut self, who: ConnId)
        ensures { self.new ≡ tx_done self.old who }
    {
        end_tx_at(&mut self.names, &mut self.boxes, who);
    }

    /// The upgrade of a name that runs is finished; the schema is given where it committed. It takes no memory.
    pub fn upgrade_done(&mut self, name: &Text, kept: Option<Schema>)
        ensures { self.new ≡ upgrade_done self.old name.now kept }
    {
        end_upgrade_at(&mut self.names, &mut self.boxes, name.as_str(), kept);
    }

    /// The deletion of a name that runs is finished, and whether it committed. It takes no memory.
    pub fn delete_done(&mut self, name: &Text, kept: bool)
        ensures { self.new ≡ delete_done self.old name.now kept }
    {
        end_deletion_at(&mut self.names, &mut self.boxes, name.as_str(), kept);
    }

    /// The host is faulted. It takes no memory.
    pub fn fault(&mut self)
        ensures { self.new ≡ faulted_state self.old }
    {
        lose_changes(&mut self.boxes);
        fault_names(&mut self.names, &mut self.boxes);
        self.is_faulted = true;
    }
}
