// Records and the tables of their rows.
ghost use Rattle.std.specs.Prelude.{◌≡◌, ◌≤◌, not, [], length, take, drop, slice_get, option_map, IfOk, IfErr, IfSome, IfNone};
ghost use Rattle.std.specs.FinMap as finite;
ghost use Rattle.clone_values.specs.Tree.{Tree};
ghost use Rattle.clone_values.specs.View.{key_tree_of};
ghost use Rattle.idb_keys.specs.declared.names.Over.TheVariants.{Store, Index};
ghost use Rattle.index_tables.specs.View.{rows_in, bound_seen};
ghost use Rattle.store_contents.specs.Contents.{IsRecordAt, IsGapOf};
ghost use Rattle.store_contents.specs.Ends.{IsFirstFrom};
ghost use Rattle.store_contents.specs.Reading.{members_in, keys_seen, value_seen};
ghost use Rattle.store_contents.specs.View.{record_seen, own_rows};

mod indexing;
mod writing;

use crate::reading::{
    count_records, first_record, first_row, record_near, record_nth, records_in_order, shown_at,
    shown_count, table_at, value_found,
};
use clone_values::{Key, Value};
use idb_keys::Over;
use idb_schema::StoreInfo;
use index_tables::{IndexTable, Tables};
use sorted_table::OrderedTable;
use std::alloc::Global;
use std::marker::Model;

/// The records of an object store and the rows of its indexes. Contracts see the definition of the store, the records by
/// key, and how many more records, and rows of each index, can be added without memory. `behind` is the place behind the last
/// record that was put in or changed, where records that come in order are found at once; nothing else rests on it.
#[derive(Drop)]
pub struct IndexedRecords<T: Tables> {
    alloc: Global,
    info: StoreInfo,
    records: T::Records,
    tables: Vec<IndexTable<T>>,
    row_spare: usize,
    behind: usize,
}

impl<T: Tables> Model for IndexedRecords<T> {
    ghost use Rattle.std.specs.Coded.{codes};
    ghost use Rattle.store_contents.specs.Contents.{Indexed, records_code};

    ghost Value = { Indexed };

    ghost coded = { Prim.hlevel (codes, records_code) };

    ghost use Rattle.store_contents.specs.View.{records_of};
    ghost use Rattle.store_contents.specs.Matches.{InStep};

    ghost view = { λ a. record {
      info = a.info;
      records = records_of (T.Records.entries a.records);
      record_spare = T.Records.spare a.records;
      row_spare = a.row_spare;
    } };

    ghost invariant = { λ a. InStep a.info.indexes a.tables.items
        (records_of (T.Records.entries a.records)) a.row_spare };
}

impl<T: Tables> IndexedRecords<T> {
    /// A store without records. It takes no memory: the tables of its indexes are made where they are wanted.
    pub fn new(alloc: Global, info: StoreInfo) -> Self
        ensures info { result.info ≡ info }
        ensures records { result.records ≡ finite.empty }
        ensures spare { result.record_spare ≡ 0 }
        ensures row_spare { result.row_spare ≡ 0 }
    {
        IndexedRecords {
            alloc,
            info,
            records: T::records(alloc),
            tables: Vec::new(alloc),
            row_spare: 0,
            behind: 0,
        }
    }

    /// What the store is.
    pub fn info(&self) -> &StoreInfo
        ensures { result.now ≡ self.now.info }
    {
        &self.info
    }

    /// How many records there are.
    pub fn len(&self) -> usize
        ensures { result ≡ finite.len self.now.records }
    {
        count_records(&self.records)
    }

    /// The record at this place of the order of keys, counted from 0; `None` past the end.
    pub fn record_at(&self, place: usize) -> Option<(&Key, &Value)>
        ensures { option_map record_seen result ≡ slice_get (finite.entries self.now.records) place }
    {
        record_nth(&self.records, place)
    }

    /// How many records the store has, or how many rows this index; an index that isn't there has none.
    pub fn row_count(&self, over: Over) -> usize
        ensures { result ≡ length (members_in self.now.info.indexes self.now.records over) }
    {
        shown_count(&self.records, &self.tables, over)
    }

    /// The key and the primary key of the record or row at this place, counted from 0; `None` past the end.
    pub fn row(&self, over: Over, place: usize) -> Option<(&Key, &Key)>
        ensures { option_map keys_seen result
            ≡ slice_get (members_in self.now.info.indexes self.now.records over) place }
    {
        shown_at(&self.records, &self.tables, over, place)
    }

    /// The table of the records, for those who walk over it.
    pub fn record_table(&self) -> &T::Records
        ensures { own_rows (T.Records.entries result.now)
            ≡ members_in self.now.info.indexes self.now.records Store }
    {
        records_in_order(&self.records)
    }

    /// The table of the rows of the index at this place; `None` where there is none, and then the index shows no rows.
    pub fn row_table(&self, place: usize) -> Option<&T::Rows>
        ensures rows { IfSome result (λ table. rows_in (T.Rows.entries table.now)
            ≡ members_in self.now.info.indexes self.now.records (Index place)) }
        ensures none { IfNone result (members_in self.now.info.indexes self.now.records (Index place) ≡ []) }
    {
        match table_at(&self.tables, place) {
            Some(table) => Some(table.table()),
            None => None,
        }
    }

    /// The place of the record of this key, or the place where it would stand: found at once where it is the record that was
    /// last put in or changed, or the next one, and else by halving. It takes no memory.
    pub fn find(&self, key: &Key) -> Result<usize, usize>
        ensures found { IfOk result (λ place. (value : Tree)
            × IsRecordAt self.now.records place (key_tree_of key.now) value) }
        ensures absent { IfErr result (λ place. IsGapOf self.now.records place (key_tree_of key.now)) }
    {
        record_near(&self.records, self.behind, key)
    }

    /// The value of the record of this key; `None` where there is none. It takes no memory.
    pub fn value_of(&self, key: &Key) -> Option<&Value>
        ensures { option_map value_seen result ≡ finite.get self.now.records (key_tree_of key.now) }
    {
        value_found(&self.records, key)
    }

    /// The place of the first record or row whose key meets the lower bound, found by halving; where none does, the number
    /// of them all; 0 where there is no bound. The bound is open if its own key is left out ("key range"). It takes no
    /// memory.
    pub fn first_from(&self, over: Over, lower: Option<&Key>, lower_open: bool) -> usize
        ensures { IsFirstFrom (bound_seen lower.entry lower_open)
            (members_in self.now.info.indexes self.now.records over) result }
    {
        match over {
            Over::Store => first_record(&self.records, lower, lower_open),
            Over::Index(index) => first_row(&self.tables, index, lower, lower_open),
        }
    }
}
