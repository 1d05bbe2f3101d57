// One change of a store.
ghost use Rattle.std.specs.Prelude.{◌≡◌, true, false, Some, OnOk, OnErr, IsErrOf};
ghost use Rattle.idb_calls.specs.View.{delta_of};
ghost use Rattle.object_stores.specs.Store.{KeepsPast};
ghost use Rattle.item_changes.specs.Effects.{effect_of};
ghost use Rattle.store_changes.specs.Making.{CanMake, is_found_in, left_of, breaks};

use crate::error::ChangeError;
use crate::indexes::{drop_index, make_index};
use crate::records::{clear, remove_record, set_number, set_record};
use idb_calls::Delta;
use idb_schema::IndexInfo;
use index_tables::Tables;
use object_stores::StoreVersion;
use std::alloc::Global;

/// Makes a change of what is in the store, whichever store it names. A change that the store lacks something for, and one
/// after which a unique index would have two rows of one key, leave it as it was, and so does want of memory.
pub fn make_change<T: Tables>(
    alloc: Global,
    store: &mut StoreVersion<T>,
    change: Delta,
) -> Result<(), ChangeError>
    requires { CanMake (delta_of change) }
    ensures made { OnOk result (left_of (effect_of (delta_of change)) store.old.store
        ≡ Some store.new.store) }
    ensures found { OnOk result (is_found_in (effect_of (delta_of change)) store.old.store ≡ true) }
    ensures missing { IsErrOf result ChangeError.Missing
        → is_found_in (effect_of (delta_of change)) store.old.store ≡ false }
    ensures broken { IsErrOf result ChangeError.Constraint
        → breaks (left_of (effect_of (delta_of change)) store.old.store) ≡ true }
    ensures unchanged { OnErr result (store.new.store ≡ store.old.store) }
    ensures past { KeepsPast store.old store.new }
{
    match change {
        Delta::CreateIndex {
            db: _,
            store: _,
            index,
            path,
            unique,
            multi,
        } => make_index(
            store,
            IndexInfo {
                name: index,
                path,
                unique,
                multi,
            },
        ),
        Delta::DropIndex {
            db: _,
            store: _,
            index,
        } => drop_index(store, &index),
        Delta::Put {
            db: _,
            store: _,
            key,
            value,
        } => set_record(store, key, value),
        Delta::Remove {
            db: _,
            store: _,
            key,
        } => remove_record(alloc, store, key),
        Delta::Clear { db: _, store: _ } => clear(store),
        Delta::Current {
            db: _,
            store: _,
            current,
        } => set_number(store, current),
        Delta::Version { db: _, version: _ } => unreachable!(),
        Delta::DropDatabase { db: _ } => unreachable!(),
        Delta::CreateStore {
            db: _,
            store: _,
            path: _,
            auto: _,
        } => unreachable!(),
        Delta::DropStore { db: _, store: _ } => unreachable!(),
    }
}
