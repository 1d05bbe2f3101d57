// A transaction of a session begins.
ghost use Rattle.std.specs.Prelude.{◌≡◌, [], None, OnOk, IfOk};
ghost use Rattle.std.specs.FinMap as finite;
ghost use Rattle.item_changes.specs.Scopes.{part_of};
ghost use Rattle.request_lists.specs.Fronts.{new_front};
ghost use Rattle.request_lists.specs.Placing.{Becomes};
ghost use Rattle.serial_order.specs.NumberOrder.{FitsWhole};
ghost use Rattle.live_stores.specs.Live.{database_at};
ghost use Rattle.session_databases.specs.Parts.{without_part};
ghost use Rattle.client_parts.specs.Begun.{scripted_body};
ghost use Rattle.session_txs.specs.Running.{scope_of_scripted, begun_tx, IsLoggableBody};

use crate::fronts::left_front;
use crate::session_tx::SessionTx;
use client_parts::{BegunParts, BegunTx};
use idb_base::NoMemory;
use index_tables::Tables;
use live_stores::{LiveStores, Stores};
use live_tx::{LiveTx, live_laws};
use loggable_changes::loggable_change_laws;
use machine_laws::limit_laws;
use script_handlers::ScriptHandler;
use session_databases::SessionDatabases;
use std::alloc::Global;
use std::snapshot::Snapshot;
use tx_courses::{Course, opening_changes};

/// A transaction whose body has run begins: the part of the databases that its scope names is taken out of them. No store is copied.
/// It was made by the schema of that part, and what it changes can be logged. After `NoMemory` nothing is said of the databases.
pub fn begin<T: Tables>(
    alloc: Global,
    databases: &mut SessionDatabases<T>,
    number: u64,
    begun: BegunTx,
) -> Result<SessionTx<T>, NoMemory>
    requires fits { FitsWhole (part_of (scope_of_scripted begun.body) databases.old) begun.body }
    requires loggable { IsLoggableBody begun.body }
    ensures begins { IfOk result (λ tx. tx ≡ begun_tx number begun.body databases.old) }
    ensures left { OnOk result
        (databases.new ≡ without_part (scope_of_scripted begun.body) databases.old) }
{
    let parts = begun.into_parts();
    let (version, stores) = databases.take(parts.mode, parts.schema.name(), &parts.names)?;
    let tx = running(alloc, number, parts, version, stores)?;
    Ok(tx)
}

/// The transaction on its part of the databases.
fn running<T: Tables>(
    alloc: Global,
    number: u64,
    parts: BegunParts,
    version: Option<u64>,
    stores: Stores<T>,
) -> Result<SessionTx<T>, NoMemory>
    requires placed { Becomes (new_front parts.mode parts.schema parts.names) parts.front }
    requires none { version ≡ None → stores ≡ finite.empty }
    requires fits { FitsWhole (database_at version stores)
        (scripted_body parts.mode parts.schema parts.names parts.front parts.threw) }
    requires loggable { IsLoggableBody
        (scripted_body parts.mode parts.schema parts.names parts.front parts.threw) }
    ensures { IfOk result (λ tx. tx ≡ record {
      number = number;
      body = scripted_body parts.mode parts.schema parts.names parts.front parts.threw;
      part = database_at version stores;
      turns = [];
      end = None;
    }) }
{
    let name = parts.schema.name().copy(alloc)?;
    let changes = opening_changes(alloc, parts.mode, &parts.schema)?;
    live_laws::<ScriptHandler>();
    loggable_change_laws();
    limit_laws::<ScriptHandler>();
    let BegunParts {
        mode,
        durability,
        schema,
        names,
        front,
        threw,
    } = parts;
    let front_before = Snapshot::of(&front);
    let schema_before = Snapshot::of(&schema);
    let front = left_front(front, threw);
    let stores = LiveStores::new(alloc, version, stores);
    let course = Course::new(alloc, mode, schema, stores, changes);
    let live = LiveTx::new(alloc, number, durability, front, course);
    Ok(SessionTx {
        mode,
        name,
        names,
        threw,
        schema: schema_before,
        front: front_before,
        live,
        turns: Vec::new(alloc),
        is_stuck: false,
        end: None,
    })
}
