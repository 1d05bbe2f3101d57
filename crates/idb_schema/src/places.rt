// Where names and numbers stand among the stores of a schema.
ghost use Rattle.std.specs.Prelude.{◌≡◌, true, ◌==◌, ◌<◌, length, position, None, Some, IfOk, IfErr, IfSome};
ghost use Rattle.idb_schema.specs.Definitions.{store_named};
ghost use Rattle.idb_schema.specs.Schemas.{AreEntries, FitsAt, entry_names, infos_of, indexes_of_entry, index_id_of, place_in_store};
ghost use Rattle.clone_values.specs.Names.{is_rising};

use crate::entries::StoreEntry;
use crate::identities::{IndexId, StoreId, place_of_id};
use std::cmp::Ordering;

/// The place of the store of this name, or the place where it would stand.
pub(crate) fn place_in(entries: &[StoreEntry], name: &str) -> Result<usize, usize>
    requires { is_rising (entry_names entries.now) ≡ true }
    ensures found { IfOk result (λ i. store_named (infos_of entries.now) name.now ≡ Some i) }
    ensures absent { IfErr result (λ i. store_named (infos_of entries.now) name.now ≡ None) }
    ensures fits { IfErr result (λ i. FitsAt entries.now i name.now) }
{
    let mut low = 0;
    let mut high = entries.len();
    while low < high {
        let middle = low + (high - low) / 2;
        match name.cmp(entries[middle].info.name.as_str()) {
            Ordering::Less => high = middle,
            Ordering::Equal => return Ok(middle),
            Ordering::Greater => low = middle + 1,
        }
    }
    Err(low)
}

/// The place of the store of this number.
pub(crate) fn place_of_number(entries: &[StoreEntry], number: u64) -> Option<usize>
    ensures { result ≡ position (λ e. e.id == number) entries.now }
{
    entries.iter().position(|e| e.id == number)
}

/// What names the index at this place of the store at this place.
pub(crate) fn index_id_in(
    entries: &[StoreEntry],
    next_id: u64,
    store: usize,
    place: usize,
) -> IndexId
    requires valid { AreEntries entries.now next_id }
    requires in_range { place < length (indexes_of_entry entries.now store) }
    ensures { index_id_of entries.now store place ≡ Some result }
{
    let entry = &entries[store];
    IndexId {
        store: StoreId { number: entry.id },
        number: entry.index_ids.as_slice()[place],
    }
}

/// The place of the number among the indexes of the store at this place.
pub(crate) fn place_in_store(
    entries: &[StoreEntry],
    next_id: u64,
    store: usize,
    number: u64,
) -> Option<usize>
    requires { AreEntries entries.now next_id }
    ensures value { result ≡ place_in_store entries.now store number }
    ensures in_range { IfSome result (λ place. place < length (indexes_of_entry entries.now store)) }
{
    match entries.get(store) {
        Some(entry) => place_of_id(&entry.index_ids, number),
        None => None,
    }
}
