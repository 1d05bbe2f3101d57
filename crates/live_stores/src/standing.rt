// The stores under their names.
ghost use Rattle.std.specs.Prelude.{◌≡◌, ◌<◌, Some, None, length, remove, option_map, IfOk, IfSome, IsErrOf, OnOk, OnErr};
ghost use Rattle.std.specs.Option.{option_copied};
ghost use Rattle.std.specs.FinMap as finite;
ghost use Rattle.clone_values.specs.View.{tree_of};
ghost use Rattle.idb_schema.specs.Definitions.{IsStoreInfo};
ghost use Rattle.item_changes.specs.Effects.{new_store};
ghost use Rattle.idb_databases.specs.Stores.{store_alone, IsStoreNamed};
ghost use Rattle.live_stores.specs.Slots.{stores_now, stores_before, AreSlots, AreGiven};
ghost use Rattle.live_stores.specs.Changing.{change_run, CanRunOn, HasChanged};

use crate::changing::{StoreChange, run_here};
use crate::held::Held;
use crate::slots::{Slot, drop_here, held_now, is_vacant, make_here, restore_here, settle_here};
use clone_values::{Text, Value};
use idb_base::NoMemory;
use idb_calls::Deltas;
use idb_databases::{find_in, place_in};
use idb_schema::{IndexInfos, StoreInfo};
use index_tables::Tables;
use object_stores::{StoreError, StoreVersion};
use path_grammar::KeyPath;
use std::alloc::Global;
use store_requests::StoreNames;

/// The store that stands under this name now; `None` where none does.
pub(crate) fn find_now<'a, T: Tables>(
    items: &'a [(Text, Slot<T>)],
    name: &Text,
) -> Option<&'a StoreVersion<T>>
    requires { AreSlots items.now }
    ensures store { option_map store_alone (option_copied result)
        ≡ finite.get (stores_now items.now) name.now }
    ensures named { IfSome result (λ store. IsStoreNamed name.now store.now.store) }
{
    match find_in(items, name) {
        Some(slot) => match held_now(slot) {
            Some(held) => return Some(held.store()),
            None => return None,
        },
        None => return None,
    }
}

/// Does it on the store that stands under this name, if one does.
pub(crate) fn change_in<T: Tables>(
    alloc: Global,
    items: &mut Vec<(Text, Slot<T>)>,
    names: &StoreNames,
    change: StoreChange,
    changes: &mut Deltas,
) -> Result<Value, StoreError>
    requires slots { AreSlots items.old.items }
    requires can { CanRunOn change (finite.get (stores_now items.old.items) names.now.store) }
    ensures ran { IfOk result (λ v. HasChanged (change_run change.entry names.now) names.now.store
        (stores_now items.old.items) (Some (tree_of v)) (stores_now items.new.items) changes.old changes.new) }
    ensures refused { IsErrOf result StoreError.Constraint
        → HasChanged (change_run change.entry names.now) names.now.store
        (stores_now items.old.items) None (stores_now items.new.items) changes.old changes.new }
    ensures unchanged { OnErr result (stores_now items.new.items ≡ stores_now items.old.items) }
    ensures before { stores_before items.new.items ≡ stores_before items.old.items }
    ensures none { stores_now items.old.items ≡ finite.empty → stores_now items.new.items ≡ finite.empty }
    ensures slots { AreSlots items.new.items }
{
    match place_in(items, &names.store) {
        Ok(place) => {
            let slot = &mut items[place].1;
            return run_here(alloc, slot, names, change, changes);
        }
        Err(_) => {
            drop(change);
            return Ok(Value::Undefined);
        }
    }
}

/// Puts a new store under its name.
fn make_in<T: Tables>(
    items: &mut Vec<(Text, Slot<T>)>,
    name: Text,
    store: StoreVersion<T>,
) -> Result<(), NoMemory>
    requires slots { AreSlots items.old.items }
    requires named { IsStoreNamed name store.store }
    ensures made { OnOk result (stores_now items.new.items
        ≡ finite.insert (stores_now items.old.items) name store.store) }
    ensures unchanged { OnErr result (stores_now items.new.items ≡ stores_now items.old.items) }
    ensures before { stores_before items.new.items ≡ stores_before items.old.items }
    ensures slots { AreSlots items.new.items }
{
    match place_in(items, &name) {
        Ok(place) => {
            make_here(&mut items[place].1, Held::Own(store));
            return Ok(());
        }
        Err(place) => {
            items.insert(place, (name, Slot::Made(Held::Own(store))))?;
            return Ok(());
        }
    }
}

/// Makes a store of this name, without records.
pub(crate) fn create_in<T: Tables>(
    alloc: Global,
    items: &mut Vec<(Text, Slot<T>)>,
    name: &Text,
    path: Option<KeyPath>,
    auto: bool,
) -> Result<(), NoMemory>
    requires slots { AreSlots items.old.items }
    requires sound { IsStoreInfo (new_store name.now path auto).info }
    ensures made { OnOk result (stores_now items.new.items
        ≡ finite.insert (stores_now items.old.items) name.now (new_store name.now path auto)) }
    ensures unchanged { OnErr result (stores_now items.new.items ≡ stores_now items.old.items) }
    ensures before { stores_before items.new.items ≡ stores_before items.old.items }
    ensures slots { AreSlots items.new.items }
{
    match new_version(alloc, name, path, auto) {
        Ok((own, store)) => return make_in(items, own, store),
        Err(NoMemory) => return Err(NoMemory),
    }
}

/// A new store, and its name.
fn new_version<T: Tables>(
    alloc: Global,
    name: &Text,
    path: Option<KeyPath>,
    auto: bool,
) -> Result<(Text, StoreVersion<T>), NoMemory>
    requires { IsStoreInfo (new_store name.now path auto).info }
    ensures { IfOk result (λ r. (r.0 ≡ name.now) × (r.1.store ≡ new_store name.now path auto)
        × IsStoreNamed r.0 r.1.store) }
{
    let own = name.copy(alloc)?;
    let info = StoreInfo {
        name: name.copy(alloc)?,
        path,
        auto,
        indexes: IndexInfos::new(alloc),
    };
    let store = StoreVersion::new(alloc, info);
    let _ = store.info();
    Ok((own, store))
}

/// The store under this name goes. It takes no memory.
pub(crate) fn drop_in<T: Tables>(items: &mut Vec<(Text, Slot<T>)>, name: &Text)
    requires { AreSlots items.old.items }
    ensures dropped { stores_now items.new.items ≡ finite.remove (stores_now items.old.items) name.now }
    ensures before { stores_before items.new.items ≡ stores_before items.old.items }
    ensures slots { AreSlots items.new.items }
{
    match place_in(items, name) {
        Ok(place) => {
            drop_here(&mut items[place].1);
            free_if_vacant(items, place);
        }
        Err(_) => {}
    }
}

/// Frees the place of a name under which no store stands, and none stood before.
fn free_if_vacant<T: Tables>(items: &mut Vec<(Text, Slot<T>)>, place: usize)
    requires slots { AreSlots items.old.items }
    requires within { place < length items.old.items }
    ensures here { stores_now items.new.items ≡ stores_now items.old.items }
    ensures before { stores_before items.new.items ≡ stores_before items.old.items }
    ensures slots { AreSlots items.new.items }
{
    if is_vacant(&items[place].1) {
        remove_at(items, place);
    }
}

fn remove_at<T: Tables>(items: &mut Vec<(Text, Slot<T>)>, place: usize)
    requires { place < length items.old.items }
    ensures { items.new.items ≡ remove items.old.items place }
{
    drop(items.remove(place));
}

/// Puts each store back that stood before, as it was then. It takes no memory.
pub(crate) fn restore_all<T: Tables>(items: &mut Vec<(Text, Slot<T>)>)
    requires { AreSlots items.old.items }
    ensures restored { stores_now items.new.items ≡ stores_before items.old.items }
    ensures before { stores_before items.new.items ≡ stores_before items.old.items }
    ensures slots { AreSlots items.new.items }
{
    for place in 0..items.len() {
        restore_here(&mut items[place].1);
    }
}

/// Leaves the stores that stand now, and forgets what could be undone. It takes no memory.
pub(crate) fn settle_all<T: Tables>(items: &mut Vec<(Text, Slot<T>)>)
    requires { AreSlots items.old.items }
    ensures stores { stores_now items.new.items ≡ stores_now items.old.items }
    ensures given { AreGiven items.new.items }
{
    let mut place = 0;
    while place < items.len() {
        settle_here(&mut items[place].1);
        if is_vacant(&items[place].1) {
            remove_at(items, place);
        } else {
            place += 1;
        }
    }
}
