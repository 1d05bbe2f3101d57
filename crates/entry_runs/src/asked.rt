// What entries ask for: the names of a store, where an index stands, a key, and the place of a cursor.
ghost use Rattle.std.specs.Prelude.{◌≡◌, option_map, IfOk};
ghost use Rattle.std.specs.Option.{option_copied};
ghost use Rattle.clone_values.specs.View.{key_tree_of};
ghost use Rattle.idb_schema.specs.Schemas.{store_of};
ghost use Rattle.request_lists.specs.Fronts.{cursor_of};
ghost use Rattle.request_lists.specs.Placing.{over_of};
ghost use Rattle.list_machine.specs.Requests.{key_said};
ghost use Rattle.entry_runs.specs.Asked.{names_asked, place_here};

use clone_values::{Key, Value};
use idb_base::NoMemory;
use idb_keys::Over;
use idb_schema::{IndexId, Schema, StoreId, StoreInfo};
use index_tables::Tables;
use key_paths::to_key;
use request_lists::TxFront;
use std::alloc::Global;
use store_requests::StoreNames;
use tx_courses::Course;

/// The definition that the id names; `None` where it is deleted.
pub(crate) fn store_of(schema: &Schema, store: StoreId) -> Option<&StoreInfo>
    ensures { option_copied result ≡ store_of schema.now store }
{
    match schema.place_of(store) {
        Some(place) => schema.store(place),
        None => None,
    }
}

/// The names by which changes speak of the store; `None` where it is deleted.
pub(crate) fn names_asked<T: Tables>(
    course: &Course<T>,
    store: StoreId,
) -> Result<Option<StoreNames>, NoMemory>
    ensures { IfOk result (λ r. r ≡ names_asked course.now store) }
{
    match store_of(course.schema(), store) {
        Some(info) => {
            let database = course.schema().name().copy(course.alloc())?;
            let store = info.name.copy(course.alloc())?;
            return Ok(Some(StoreNames { database, store }));
        }
        None => return Ok(None),
    }
}

/// Where the index stands in the schema; the store itself where none is read.
pub(crate) fn over_of(schema: &Schema, index: Option<IndexId>) -> Over
    ensures { result ≡ over_of schema.now index }
{
    match index {
        Some(index) => match schema.places_of(index) {
            Some((_, place)) => Over::Index(place),
            None => Over::Store,
        },
        None => Over::Store,
    }
}

/// The key that is given, if one is.
pub(crate) fn key_said(alloc: Global, key: &Option<Value>) -> Result<Option<Key>, NoMemory>
    ensures { IfOk result (λ r. option_map key_tree_of r ≡ key_said key.now) }
{
    match key {
        Some(key) => to_key(alloc, key),
        None => Ok(None),
    }
}

/// The store and the primary key of the place of the cursor of this number; `None` where it has taken no member.
pub(crate) fn place_here<H: Drop>(
    alloc: Global,
    front: &TxFront<H>,
    number: u32,
) -> Result<Option<(StoreId, Key)>, NoMemory>
    ensures { IfOk result (λ r. option_map (λ place. (place.0, key_tree_of place.1)) r
        ≡ place_here (cursor_of front.now number)) }
{
    let Some(cursor) = front.cursor_of(number) else {
        return Ok(None);
    };
    match cursor.cursor.place() {
        Some((_, primary)) => return Ok(Some((cursor.target.store, primary.copy(alloc)?))),
        None => return Ok(None),
    }
}
