// What names and numbers name.
ghost use Rattle.std.specs.Prelude.{◌≡◌};
ghost use Rattle.std.specs.Option.{option_copied};
ghost use Rattle.idb_schema.specs.Definitions.{has_name};
ghost use Rattle.idb_schema.specs.Schemas.{store_of};
ghost use Rattle.request_lists.specs.Fronts.{is_store_deleted, is_index_deleted, is_deleted};

use clone_values::{Text, Texts};
use idb_calls::Target;
use idb_schema::{IndexId, Schema, StoreId, StoreInfo};

/// Whether the store that the id names is deleted.
pub(crate) fn is_store_deleted(schema: &Schema, store: StoreId) -> bool
    ensures { result ≡ is_store_deleted schema.now store }
{
    schema.place_of(store).is_none()
}

fn is_index_deleted(schema: &Schema, index: Option<IndexId>) -> bool
    ensures { result ≡ is_index_deleted schema.now index }
{
    match index {
        Some(index) => schema.places_of(index).is_none(),
        None => false,
    }
}

/// Whether what is read, or its store, is deleted.
pub(crate) fn is_deleted(schema: &Schema, target: Target) -> bool
    ensures { result ≡ is_deleted schema.now target }
{
    is_store_deleted(schema, target.store) || is_index_deleted(schema, target.index)
}

/// The definition that the id names; `None` where it is deleted.
pub(crate) fn store_of(schema: &Schema, store: StoreId) -> Option<&StoreInfo>
    ensures { option_copied result ≡ store_of schema.now store }
{
    match schema.place_of(store) {
        Some(place) => schema.store(place),
        None => None,
    }
}

/// Whether the name is among these.
pub(crate) fn has_name(name: &Text, names: &Texts) -> bool
    ensures { result ≡ has_name name.now names.now }
{
    for place in 0..names.len() {
        if let Some(other) = names.at(place) {
            if other.as_str() == name.as_str() {
                return true;
            }
        }
    }
    false
}
