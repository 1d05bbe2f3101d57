// What ends an upgrade or a deletion, and what a fault of the host does to a name.
ghost use Rattle.std.specs.Prelude.{◌≡◌, ◌∷◌, [], ◌++◌, Some};
ghost use Rattle.std.specs.Option.{option_to_list};
ghost use Rattle.idb_schema.specs.Schemas.{SchemaData};
ghost use Rattle.name_queues.specs.Moves.{open_failed, upgrade_kept, upgrade_ended, deletion_ended, is_conn_open, faulted_conn};
ghost use Rattle.name_queues.specs.Names.{conn_at};

use crate::connections::Conn;
use crate::events::ClientEvent;
use crate::ids::ConnId;
use crate::names::{Named, leave};
use idb_keys::ErrorName;
use idb_schema::Schema;

/// The open fails, and its connection is closed.
fn fail_open(n: &mut Named, who: ConnId) -> ClientEvent
    ensures { record { named = n.new; sent = result ∷ [] } ≡ open_failed n.old who }
{
    if let Some(conn) = n.traffic.conn(who) {
        let _ = leave(n, who, conn.closing(false));
    }
    ClientEvent::Error {
        conn: who,
        name: ErrorName::AbortError,
    }
}

/// The connection isn't closed and has no close pending.
fn is_conn_open(n: &Named, who: ConnId) -> bool
    ensures { result ≡ is_conn_open (conn_at n.now who) }
{
    match n.traffic.conn(who) {
        Some(conn) => !conn.is_closing,
        None => false,
    }
}

/// The upgrade committed.
fn keep_upgrade(n: &mut Named, who: ConnId, version: u64) -> ClientEvent
    ensures { (schema : SchemaData) → schema.version ≡ version
        → record { named = n.new; sent = result ∷ [] } ≡ upgrade_kept n.old who schema }
{
    if is_conn_open(n, who) {
        ClientEvent::Success { conn: who, version }
    } else {
        fail_open(n, who)
    }
}

/// The upgrade that runs is finished; a schema is given where it committed.
pub fn end_upgrade(n: &mut Named, kept: Option<Schema>) -> Option<ClientEvent>
    ensures { record { named = n.new; sent = option_to_list result } ≡ upgrade_ended kept n.old }
{
    match n.running {
        None => None,
        Some(ask) => {
            n.running = None;
            match kept {
                None => Some(fail_open(n, ask.who)),
                Some(schema) => {
                    let version = schema.version();
                    n.database = Some(schema);
                    Some(keep_upgrade(n, ask.who, version))
                }
            }
        }
    }
}

/// The deletion that runs is finished, and whether it committed.
pub fn end_deletion(n: &mut Named, kept: bool) -> Option<ClientEvent>
    ensures { record { named = n.new; sent = option_to_list result } ≡ deletion_ended kept n.old }
{
    match n.running {
        None => None,
        Some(ask) => {
            n.running = None;
            if kept {
                let version = n.version();
                n.database = None;
                Some(ClientEvent::Success {
                    conn: ask.who,
                    version,
                })
            } else {
                Some(ClientEvent::Error {
                    conn: ask.who,
                    name: ErrorName::UnknownError,
                })
            }
        }
    }
}

/// What a fault of the host makes of a connection.
pub fn fault_conn(n: &Named, who: ConnId, conn: Conn) -> Conn
    ensures { result ≡ faulted_conn n.now who conn }
{
    if conn.is_closing {
        conn
    } else {
        let tells = !n.is_upgraded_for(who);
        conn.closing(tells)
    }
}
