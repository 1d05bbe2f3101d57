// Changes of the indexes of a store.
ghost use Rattle.std.specs.Prelude.{◌≡◌, ◌<◌, length, Some, true, false, is_some, is_none, OnOk, OnErr, IfSome, IsErrOf};
ghost use Rattle.idb_schema.specs.Definitions.{IsIndexInfo, index_named};
ghost use Rattle.object_stores.specs.Changed.{store_with_index};
ghost use Rattle.object_stores.specs.Store.{KeepsPast};
ghost use Rattle.item_changes.specs.Effects.{store_without_index_named};
ghost use Rattle.store_changes.specs.Making.{breaks};

use crate::error::ChangeError;
use clone_values::Text;
use idb_schema::{IndexInfo, IndexInfos};
use index_tables::Tables;
use object_stores::{IndexError, StoreVersion, mark_laws};

/// The place of the index of this name; `None` where there is none.
fn place_of(indexes: &IndexInfos, name: &Text) -> Option<usize>
    ensures value { result ≡ index_named indexes.now name.now }
    ensures within { IfSome result (λ place. place < length indexes.now) }
{
    let name = name.as_str();
    indexes
        .as_slice()
        .iter()
        .position(|i| i.name.as_str() == name)
}

/// A new index, the last one.
pub(crate) fn make_index<T: Tables>(
    store: &mut StoreVersion<T>,
    info: IndexInfo,
) -> Result<(), ChangeError>
    requires { IsIndexInfo info }
    ensures added { OnOk result (store.new.store ≡ store_with_index store.old.store info) }
    ensures found { OnOk result (is_none (index_named store.old.store.info.indexes info.name) ≡ true) }
    ensures missing { IsErrOf result ChangeError.Missing
        → is_none (index_named store.old.store.info.indexes info.name) ≡ false }
    ensures broken { IsErrOf result ChangeError.Constraint
        → breaks (Some (store_with_index store.old.store info)) ≡ true }
    ensures unchanged { OnErr result (store.new.store ≡ store.old.store) }
    ensures past { KeepsPast store.old store.new }
{
    mark_laws();
    match place_of(&store.info().indexes, &info.name) {
        Some(_) => {
            drop(info);
            Err(ChangeError::Missing)
        }
        None => match store.add_index(info) {
            Ok(()) => Ok(()),
            Err(IndexError::Constraint { key }) => {
                drop(key);
                Err(ChangeError::Constraint)
            }
            Err(IndexError::NoMemory) => Err(ChangeError::NoMemory),
        },
    }
}

/// The index of this name goes.
pub(crate) fn drop_index<T: Tables>(
    store: &mut StoreVersion<T>,
    name: &Text,
) -> Result<(), ChangeError>
    ensures dropped { OnOk result (store.new.store ≡ store_without_index_named name.now store.old.store) }
    ensures found { OnOk result (is_some (index_named store.old.store.info.indexes name.now) ≡ true) }
    ensures missing { IsErrOf result ChangeError.Missing
        → is_some (index_named store.old.store.info.indexes name.now) ≡ false }
    ensures kept { IsErrOf result ChangeError.Constraint → ⊥ }
    ensures unchanged { OnErr result (store.new.store ≡ store.old.store) }
    ensures past { KeepsPast store.old store.new }
{
    mark_laws();
    match place_of(&store.info().indexes, name) {
        Some(place) => {
            store.drop_index(place)?;
            Ok(())
        }
        None => Err(ChangeError::Missing),
    }
}
