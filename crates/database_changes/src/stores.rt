// One change of the stores of a database.
ghost use Rattle.std.specs.Prelude.{◌≡◌, true, false, Some, None, is_some, IfSome, IfNone, OnOk, IsErrOf};
ghost use Rattle.std.specs.FinMap as finite;
ghost use Rattle.idb_schema.specs.Definitions.{IsStoreInfo};
ghost use Rattle.idb_calls.specs.View.{delta_of};
ghost use Rattle.item_changes.specs.Effects.{effect_of};
ghost use Rattle.object_stores.specs.Store.{Store};
ghost use Rattle.store_changes.specs.Making.{CanMake, is_found_in, left_of, breaks};
ghost use Rattle.database_changes.specs.StoreChanges.{IsOf, stores_find, stores_made, store_made};

use clone_values::Text;
use idb_base::NoMemory;
use idb_calls::Delta;
use idb_databases::Versions;
use idb_schema::StoreInfo;
use index_tables::Tables;
use object_stores::StoreVersion;
use std::alloc::Global;
use store_changes::{ChangeError, make_change};

/// Takes the store of this name out; `None` where there is none, and the stores are as they were.
#[tactic(auto, using(crate::proofs::Back::was_absent))]
pub(crate) fn take_store<T: Tables>(
    stores: &mut Versions<T>,
    name: &Text,
) -> Option<StoreVersion<T>>
    ensures there { IfSome result (λ s. finite.get stores.old name.now ≡ Some s.store) }
    ensures named { IfSome result (λ s. s.store.info.name ≡ name.now) }
    ensures left { IfSome result (λ s. stores.new ≡ finite.remove stores.old name.now) }
    ensures absent { IfNone result (finite.get stores.old name.now ≡ None) }
    ensures same { IfNone result (stores.new ≡ stores.old) }
{
    let _named = stores.len();
    match stores.remove(name) {
        Some(store) => Some(store),
        None => None,
    }
}

/// The store of this name goes; whether there was one.
pub(crate) fn drop_from<T: Tables>(stores: &mut Versions<T>, name: &Text) -> bool
    ensures was { result ≡ is_some (finite.get stores.old name.now) }
    ensures left { stores.new ≡ finite.remove stores.old name.now }
{
    match stores.remove(name) {
        Some(store) => {
            drop(store);
            true
        }
        None => false,
    }
}

/// Whether there is a store of this name.
pub(crate) fn has_store<T: Tables>(stores: &Versions<T>, name: &Text) -> bool
    ensures { result ≡ is_some (finite.get stores.now name.now) }
{
    match stores.find(name) {
        Some(_) => true,
        None => false,
    }
}

/// Puts a new store under its name.
pub(crate) fn put_new<T: Tables>(
    alloc: Global,
    stores: &mut Versions<T>,
    info: StoreInfo,
) -> Result<(), NoMemory>
    requires { IsStoreInfo info }
    ensures { OnOk result (stores.new ≡ finite.insert stores.old info.name
        (record { info = info; records = finite.empty; current = 1 })) }
{
    stores.insert(StoreVersion::new(alloc, info))
}

/// Puts a store that was taken out, or what became of it, in its place.
fn put_store<T: Tables>(
    stores: &mut Versions<T>,
    name: &Text,
    store: StoreVersion<T>,
) -> Result<(), NoMemory>
    requires named { store.store.info.name ≡ name.now }
    ensures { OnOk result (stores.new ≡ finite.insert stores.old name.now store.store) }
{
    let _ = name;
    stores.insert(store)
}

/// Changes what is in the store of this name. After want of memory the store may be gone.
pub(crate) fn change_store<T: Tables>(
    alloc: Global,
    stores: &mut Versions<T>,
    name: &Text,
    change: Delta,
) -> Result<(), ChangeError>
    requires can { CanMake (delta_of change) }
    requires name { IsOf name.now (effect_of (delta_of change)) }
    ensures made { OnOk result (stores.new ≡ stores_made (effect_of (delta_of change)) stores.old) }
    ensures found { OnOk result (stores_find (effect_of (delta_of change)) stores.old ≡ true) }
    ensures missing { IsErrOf result ChangeError.Missing
        → stores_find (effect_of (delta_of change)) stores.old ≡ false }
    ensures broken { IsErrOf result ChangeError.Constraint
        → breaks (store_made (effect_of (delta_of change)) stores.old) ≡ true }
    ensures unmissed { IsErrOf result ChangeError.Missing → stores.new ≡ stores.old }
    ensures unbroken { IsErrOf result ChangeError.Constraint → stores.new ≡ stores.old }
{
    match take_store(stores, name) {
        None => {
            drop(change);
            Err(ChangeError::Missing)
        }
        Some(store) => change_taken(alloc, stores, name, store, change),
    }
}

/// Changes a store that was taken out, and puts it back.
fn change_taken<T: Tables>(
    alloc: Global,
    stores: &mut Versions<T>,
    name: &Text,
    store: StoreVersion<T>,
    change: Delta,
) -> Result<(), ChangeError>
    requires can { CanMake (delta_of change) }
    requires named { store.store.info.name ≡ name.now }
    ensures made { OnOk result ((new : Store) × (left_of (effect_of (delta_of change)) store.store ≡ Some new)
        × (stores.new ≡ finite.insert stores.old name.now new)) }
    ensures found { OnOk result (is_found_in (effect_of (delta_of change)) store.store ≡ true) }
    ensures missing { IsErrOf result ChangeError.Missing
        → is_found_in (effect_of (delta_of change)) store.store ≡ false }
    ensures broken { IsErrOf result ChangeError.Constraint
        → breaks (left_of (effect_of (delta_of change)) store.store) ≡ true }
    ensures unmissed { IsErrOf result ChangeError.Missing
        → stores.new ≡ finite.insert stores.old name.now store.store }
    ensures unbroken { IsErrOf result ChangeError.Constraint
        → stores.new ≡ finite.insert stores.old name.now store.store }
{
    let mut store = store;
    let said = make_change(alloc, &mut store, change);
    store.settle();
    put_store(stores, name, store)?;
    said
}
