// Databases in the order of their names, out of which a part is taken, and into which it comes back.
ghost use Rattle.std.specs.Prelude.{◌≡◌, None, option_map, IfOk, OnOk, OnErr};
ghost use Rattle.std.specs.FinMap as finite;
ghost use Rattle.std.specs.FinMap.{find, put};
ghost use Rattle.std.specs.List.{AllByRecursion};
ghost use Rattle.sorted_table.specs.Tables.{IsSorted, without};
ghost use Rattle.item_changes.specs.Items.{name_cmp, changed_at, stood_at};
ghost use Rattle.item_changes.specs.Scopes.{with_stores_among};
ghost use Rattle.idb_databases.specs.Stores.{AreStores};
ghost use Rattle.live_stores.specs.Live.{database_at};
ghost use Rattle.session_databases.specs.Parts.{without_stores_among, joined_with};
ghost use Rattle.session_databases.specs.Sessions.{session_items};

use crate::moving::move_stores;
use clone_values::{Text, Texts};
use idb_base::NoMemory;
use idb_databases::{find_in, place_in};
use index_tables::Tables;
use live_stores::Stores;
use std::alloc::Global;

/// A database: its version, and its stores.
#[derive(Drop)]
pub(crate) struct SessionDatabase<T: Tables> {
    pub(crate) version: u64,
    pub(crate) stores: Stores<T>,
}

/// Puts a thing in its place, where it takes that of one with the same name.
fn put_in<V: Drop>(items: &mut Vec<(Text, V)>, name: Text, item: V) -> Result<(), NoMemory>
    requires { IsSorted name_cmp items.old.items }
    ensures stored { OnOk result (items.new.items ≡ put name_cmp name item items.old.items) }
    ensures sorted { IsSorted name_cmp items.new.items }
{
    match place_in(items, &name) {
        Ok(place) => {
            items[place].1 = item;
            Ok(())
        }
        Err(place) => {
            items.insert(place, (name, item))?;
            Ok(())
        }
    }
}

/// Takes what has the name out; `None` where nothing has. It takes no memory.
fn take_from<V: Drop>(items: &mut Vec<(Text, V)>, name: &Text) -> Option<V>
    requires { IsSorted name_cmp items.old.items }
    ensures taken { result ≡ find name_cmp name.now items.old.items }
    ensures left { items.new.items ≡ without name_cmp name.now items.old.items }
    ensures sorted { IsSorted name_cmp items.new.items }
{
    match place_in(items, name) {
        Ok(place) => Some(items.remove(place).1),
        Err(_) => None,
    }
}

/// The version of the database of this name; `None` where there is none.
pub(crate) fn version_in<T: Tables>(
    items: &[(Text, SessionDatabase<T>)],
    name: &Text,
) -> Option<u64>
    requires { IsSorted name_cmp items.now }
    ensures { result ≡ option_map (λ d. d.version) (finite.get (session_items items.now) name.now) }
{
    match find_in(items, name) {
        Some(d) => Some(d.version),
        None => None,
    }
}

/// A look at each database, by which each of its stores is as the standard asks.
pub(crate) fn look_at_stores<T: Tables>(items: &[(Text, SessionDatabase<T>)])
    ensures { AllByRecursion (λ e. AreStores e.1.stores) items.now }
{
    for entry in items {
        let _count = entry.1.stores.len();
    }
}

/// Takes the whole database of this name. It takes no memory.
pub(crate) fn take_whole<T: Tables>(
    alloc: Global,
    items: &mut Vec<(Text, SessionDatabase<T>)>,
    name: &Text,
) -> (Option<u64>, Stores<T>)
    requires { IsSorted name_cmp items.old.items }
    ensures part { database_at result.0 result.1 ≡ finite.get (session_items items.old.items) name.now }
    ensures none { result.0 ≡ None → result.1 ≡ finite.empty }
    ensures left { session_items items.new.items ≡ finite.remove (session_items items.old.items) name.now }
    ensures sorted { IsSorted name_cmp items.new.items }
{
    match take_from(items, name) {
        Some(d) => {
            let SessionDatabase { version, stores } = d;
            return (Some(version), stores);
        }
        None => return (None, Stores::new(alloc)),
    }
}

/// Takes the stores of these names out of the database of this name.
pub(crate) fn take_some<T: Tables>(
    alloc: Global,
    items: &mut Vec<(Text, SessionDatabase<T>)>,
    name: &Text,
    names: &Texts,
) -> Result<(Option<u64>, Stores<T>), NoMemory>
    requires { IsSorted name_cmp items.old.items }
    ensures part { IfOk result (λ r. database_at r.0 r.1
        ≡ option_map (with_stores_among names.now) (finite.get (session_items items.old.items) name.now)) }
    ensures none { IfOk result (λ r. r.0 ≡ None → r.1 ≡ finite.empty) }
    ensures left { OnOk result (session_items items.new.items
        ≡ changed_at (session_items items.old.items) name.now (option_map (without_stores_among names.now))) }
    ensures sorted { IsSorted name_cmp items.new.items }
{
    match take_from(items, name) {
        Some(d) => {
            let SessionDatabase { version, stores } = d;
            let mut stores = stores;
            let mut part = Stores::new(alloc);
            move_stores(names, &mut stores, &mut part)?;
            put_in(
                items,
                name.copy(alloc)?,
                SessionDatabase { version, stores },
            )?;
            return Ok((Some(version), part));
        }
        None => return Ok((None, Stores::new(alloc))),
    }
}

/// Puts the whole database back under this name; without a version it is gone.
pub(crate) fn give_whole<T: Tables>(
    alloc: Global,
    items: &mut Vec<(Text, SessionDatabase<T>)>,
    name: &Text,
    version: Option<u64>,
    stores: Stores<T>,
) -> Result<(), NoMemory>
    requires { IsSorted name_cmp items.old.items }
    ensures given { OnOk result (session_items items.new.items
        ≡ stood_at (session_items items.old.items) name.now (database_at version stores)) }
    ensures sorted { IsSorted name_cmp items.new.items }
{
    match version {
        Some(version) => {
            put_in(
                items,
                name.copy(alloc)?,
                SessionDatabase { version, stores },
            )?;
            return Ok(());
        }
        None => {
            let _ = take_from(items, name);
            return Ok(());
        }
    }
}

/// Puts stores of these names back into the database of this name, if it is there.
pub(crate) fn give_some<T: Tables>(
    alloc: Global,
    items: &mut Vec<(Text, SessionDatabase<T>)>,
    name: &Text,
    names: &Texts,
    part: Stores<T>,
) -> Result<(), NoMemory>
    requires { IsSorted name_cmp items.old.items }
    ensures given { OnOk result (session_items items.new.items
        ≡ changed_at (session_items items.old.items) name.now (option_map (joined_with names.now part))) }
    ensures sorted { IsSorted name_cmp items.new.items }
{
    match take_from(items, name) {
        Some(d) => {
            let SessionDatabase { version, stores } = d;
            let mut stores = stores;
            let mut part = part;
            move_stores(names, &mut part, &mut stores)?;
            put_in(
                items,
                name.copy(alloc)?,
                SessionDatabase { version, stores },
            )?;
            return Ok(());
        }
        None => return Ok(()),
    }
}
