// A store as it stands in a schema, with the numbers that name it and its indexes.
ghost use Rattle.std.specs.Prelude.{◌≡◌, ◌<◌, length, OnOk, OnErr, IfOk};
ghost use Rattle.idb_schema.specs.Schemas.{new_entry, entry_with_index, entry_without_index};

use crate::definitions::{IndexInfo, StoreInfo};
use crate::identities::{Ids, ids_below};
use idb_base::NoMemory;
use std::alloc::Global;

#[derive(Debug, Drop)]
pub(crate) struct StoreEntry {
    pub(crate) info: StoreInfo,
    /// No other store of the schema has or had this number.
    pub(crate) id: u64,
    /// The numbers of the store's indexes, beside these.
    pub(crate) index_ids: Ids,
    /// The number of the next index; no index of the store has or had it.
    pub(crate) next_index: u64,
}

/// The store, its indexes numbered from 0.
pub(crate) fn new_entry(alloc: Global, info: StoreInfo, id: u64) -> Result<StoreEntry, NoMemory>
    ensures { IfOk result (λ r. r ≡ new_entry info id) }
{
    let count = info.indexes.len();
    let index_ids = ids_below(alloc, count)?;
    Ok(StoreEntry {
        info,
        id,
        index_ids,
        next_index: count as u64,
    })
}

impl StoreEntry {
    pub(crate) fn copy(&self, alloc: Global) -> Result<StoreEntry, NoMemory>
        ensures { IfOk result (λ r. r ≡ self.now) }
    {
        Ok(StoreEntry {
            info: self.info.copy(alloc)?,
            id: self.id,
            index_ids: self.index_ids.copy(alloc)?,
            next_index: self.next_index,
        })
    }

    /// Puts an index at the end. A store that has had 2^64 - 1 indexes takes no more.
    pub(crate) fn add_index(&mut self, index: IndexInfo) -> Result<(), NoMemory>
        ensures added { OnOk result (self.new ≡ entry_with_index self.old index) }
        ensures unchanged { OnErr result (self.new ≡ self.old) }
    {
        if self.next_index == u64::MAX {
            return Err(NoMemory);
        }
        self.index_ids.push(self.next_index)?;
        if self.info.indexes.push(index).is_err() {
            self.index_ids.remove_at(self.index_ids.len() - 1);
            return Err(NoMemory);
        }
        self.next_index += 1;
        Ok(())
    }

    /// Takes the index at this place out.
    pub(crate) fn drop_index(&mut self, place: usize)
        requires in_range { place < length self.old.info.indexes }
        requires numbered { length self.old.index_ids ≡ length self.old.info.indexes }
        ensures { self.new ≡ entry_without_index self.old place }
    {
        let _ = self.info.indexes.remove_at(place);
        let _ = self.index_ids.remove_at(place);
    }
}
