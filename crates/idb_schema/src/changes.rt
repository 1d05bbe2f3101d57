// Changes of the stores of a schema.
ghost use Rattle.std.specs.Prelude.{◌≡◌, ◌+◌, ◌<◌, length, remove, None, OnOk, OnErr, IfOk};
ghost use Rattle.idb_schema.specs.Definitions.{store_named};
ghost use Rattle.idb_schema.specs.Schemas.{AreEntries, entries_from, new_entry, infos_of, put_in_order, change_at, entry_with_index, entry_without_index, indexes_of_entry};

use crate::definitions::{IndexInfo, StoreInfo};
use crate::entries::{StoreEntry, new_entry};
use crate::places::place_in;
use idb_base::NoMemory;
use std::alloc::Global;

/// The stores, numbered from 0.
pub(crate) fn numbered(alloc: Global, infos: Vec<StoreInfo>) -> Result<Vec<StoreEntry>, NoMemory>
    ensures { IfOk result (λ r. r.items ≡ entries_from 0 infos.items) }
{
    let mut entries = Vec::new(alloc);
    for info in infos {
        let entry = new_entry(alloc, info, entries.len() as u64)?;
        entries.push(entry)?;
    }
    Ok(entries)
}

/// Puts a store in its place, with the next number. A schema that has had 2^64 - 1 stores takes no more.
pub(crate) fn put_store(
    alloc: Global,
    entries: &mut Vec<StoreEntry>,
    next_id: &mut u64,
    info: StoreInfo,
) -> Result<(), NoMemory>
    requires valid { AreEntries entries.old.items next_id.old }
    requires absent { store_named (infos_of entries.old.items) info.name ≡ None }
    ensures valid { AreEntries entries.new.items next_id.new }
    ensures added { OnOk result (entries.new.items
        ≡ put_in_order entries.old.items (new_entry info next_id.old)) }
    ensures counted { OnOk result (next_id.new ≡ next_id.old + 1) }
    ensures unchanged { OnErr result (entries.new.items ≡ entries.old.items) }
    ensures same_count { OnErr result (next_id.new ≡ next_id.old) }
{
    let id = *next_id;
    if id == u64::MAX {
        return Err(NoMemory);
    }
    match place_in(entries, info.name.as_str()) {
        Ok(_) => unreachable!(),
        Err(place) => {
            let entry = new_entry(alloc, info, id)?;
            entries.insert(place, entry)?;
            *next_id = id + 1;
            Ok(())
        }
    }
}

/// Takes the store at this place out.
pub(crate) fn take_store(entries: &mut Vec<StoreEntry>, next_id: u64, place: usize)
    requires valid { AreEntries entries.old.items next_id }
    requires in_range { place < length entries.old.items }
    ensures valid { AreEntries entries.new.items next_id }
    ensures left { entries.new.items ≡ remove entries.old.items place }
{
    let _ = entries.remove(place);
}

/// Puts an index at the end of the indexes of the store at this place.
pub(crate) fn put_index(
    entries: &mut Vec<StoreEntry>,
    next_id: u64,
    store: usize,
    index: IndexInfo,
) -> Result<(), NoMemory>
    requires valid { AreEntries entries.old.items next_id }
    requires in_range { store < length entries.old.items }
    ensures valid { AreEntries entries.new.items next_id }
    ensures added { OnOk result (entries.new.items ≡ change_at entries.old.items store
        (λ e. entry_with_index e index)) }
    ensures unchanged { OnErr result (entries.new.items ≡ entries.old.items) }
{
    entries[store].add_index(index)
}

/// Takes the index at this place out of the store at this place.
pub(crate) fn take_index(entries: &mut Vec<StoreEntry>, next_id: u64, store: usize, place: usize)
    requires valid { AreEntries entries.old.items next_id }
    requires in_range { store < length entries.old.items }
    requires index_in_range { place < length (indexes_of_entry entries.old.items store) }
    ensures valid { AreEntries entries.new.items next_id }
    ensures left { entries.new.items ≡ change_at entries.old.items store (λ e. entry_without_index e place) }
{
    entries[store].drop_index(place);
}
