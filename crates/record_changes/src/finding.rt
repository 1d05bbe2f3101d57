// Stores, found by the names of their databases and their own.
ghost use Rattle.std.specs.Prelude.{◌≡◌, option_map, is_some};
ghost use Rattle.std.specs.List.{list_any};
ghost use Rattle.std.specs.Option.{option_copied};
ghost use Rattle.idb_databases.specs.Stores.{store_alone};
ghost use Rattle.item_changes.specs.Items.{store_at};
ghost use Rattle.record_changes.specs.Loosened.{has_unique};

use clone_values::Text;
use idb_databases::Databases;
use idb_schema::IndexInfos;
use index_tables::Tables;
use object_stores::StoreVersion;

/// The store of this name in the database of this name; `None` where there is none.
pub(crate) fn store_of<'a, T: Tables>(
    items: &'a Databases<T>,
    db: &Text,
    name: &Text,
) -> Option<&'a StoreVersion<T>>
    ensures { option_map store_alone (option_copied result) ≡ store_at items.now db.now name.now }
{
    match items.find(db) {
        Some(database) => database.stores.find(name),
        None => None,
    }
}

/// Whether there is such a store.
pub(crate) fn has_store<T: Tables>(items: &Databases<T>, db: &Text, name: &Text) -> bool
    ensures { result ≡ is_some (store_at items.now db.now name.now) }
{
    match store_of(items, db, name) {
        Some(_) => true,
        None => false,
    }
}

/// Whether one of them is unique.
fn one_is_unique(indexes: &IndexInfos) -> bool
    ensures { result ≡ list_any (λ index. index.unique) indexes.now }
{
    indexes.as_slice().iter().any(|index| index.unique)
}

/// Whether there is such a store, and one of its indexes is unique.
pub(crate) fn has_unique<T: Tables>(items: &Databases<T>, db: &Text, name: &Text) -> bool
    ensures { result ≡ has_unique (store_at items.now db.now name.now) }
{
    match store_of(items, db, name) {
        Some(store) => one_is_unique(&store.info().indexes),
        None => false,
    }
}
