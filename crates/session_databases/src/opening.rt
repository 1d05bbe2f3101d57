// Databases that stand when a session begins.
ghost use Rattle.std.specs.Prelude.{◌≡◌, IfOk, OnOk};
ghost use Rattle.std.specs.FinMap as finite;
ghost use Rattle.sorted_table.specs.Tables.{IsSorted};
ghost use Rattle.item_changes.specs.Items.{name_cmp};
ghost use Rattle.idb_databases.specs.Named.{with_values};
ghost use Rattle.idb_databases.specs.Views.{database_alone};
ghost use Rattle.session_databases.specs.Sessions.{database_seen, session_items, all_inserted};

use crate::entries::SessionDatabase;
use clone_values::Text;
use idb_base::NoMemory;
use idb_databases::{Database, Databases, Versions};
use index_tables::Tables;
use live_stores::{Held, Stores};
use object_stores::StoreVersion;
use std::alloc::Global;

/// The databases in the order of their names. Stores move, and none is copied.
pub(crate) fn session_entries<T: Tables>(
    alloc: Global,
    databases: Databases<T>,
) -> Result<Vec<(Text, SessionDatabase<T>)>, NoMemory>
    ensures same { IfOk result (λ items. session_items items.items ≡ databases) }
    ensures sorted { IfOk result (λ items. IsSorted name_cmp items.items) }
{
    let databases = databases.into_vec();
    let items = opened_entries(alloc, databases)?;
    Ok(items)
}

fn opened_entries<T: Tables>(
    alloc: Global,
    databases: Vec<(Text, Database<T>)>,
) -> Result<Vec<(Text, SessionDatabase<T>)>, NoMemory>
    ensures { IfOk result (λ items. with_values database_seen items.items
        ≡ with_values database_alone databases.items) }
{
    let mut items = Vec::new(alloc);
    for (name, database) in databases {
        let opened = session_database(alloc, database)?;
        items.push((name, opened))?;
    }
    Ok(items)
}

fn session_database<T: Tables>(
    alloc: Global,
    database: Database<T>,
) -> Result<SessionDatabase<T>, NoMemory>
    ensures { IfOk result (λ opened. database_seen opened ≡ database_alone database) }
{
    let Database {
        name: _,
        version,
        stores,
    } = database;
    let stores = held_stores(alloc, stores)?;
    Ok(SessionDatabase { version, stores })
}

/// The stores as a transaction is handed them.
fn held_stores<T: Tables>(alloc: Global, stores: Versions<T>) -> Result<Stores<T>, NoMemory>
    ensures { IfOk result (λ held. held ≡ stores) }
{
    let _count = stores.len();
    let stores = stores.into_vec();
    let held = hold_all(alloc, stores)?;
    Ok(held)
}

fn hold_all<T: Tables>(
    alloc: Global,
    stores: Vec<(Text, StoreVersion<T>)>,
) -> Result<Stores<T>, NoMemory>
    ensures { IfOk result (λ held. held ≡ all_inserted stores.items finite.empty) }
{
    let mut held = Stores::new(alloc);
    for (_, store) in stores {
        hold_one(&mut held, store)?;
    }
    Ok(held)
}

fn hold_one<T: Tables>(held: &mut Stores<T>, store: StoreVersion<T>) -> Result<(), NoMemory>
    ensures { OnOk result (held.new ≡ finite.insert held.old store.store.info.name store.store) }
{
    match held.insert(Held::Own(store)) {
        Ok(()) => return Ok(()),
        Err(_) => return Err(NoMemory),
    }
}
