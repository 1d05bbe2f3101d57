// Records put in, replaced and taken out, with their rows.
ghost use Rattle.std.specs.Prelude.{◌≡◌, ◌+◌, ◌<◌, ◌≤◌, Some, false, slice_get, IfOk, OnOk, OnErr};
ghost use Rattle.std.specs.FinMap as finite;
ghost use Rattle.clone_values.specs.Tree.{Tree};
ghost use Rattle.clone_values.specs.KeyTree.{KeyTree};
ghost use Rattle.clone_values.specs.View.{key_tree_of, tree_of};
ghost use Rattle.index_tables.specs.Unique.{is_broken};
ghost use Rattle.store_contents.specs.Contents.{IsRecordAt, IsGapOf, rows_in_indexes, rows_among, row_sets};
ghost use Rattle.store_contents.specs.Sameness.{gives_same_rows};

use super::IndexedRecords;
use crate::clashing::clashes_any;
use crate::comparing::gives_same_in_each;
use crate::copying::{copied_records, copied_tables};
use crate::emptying::{Emptied, boxed};
use crate::extracting::rows_in_each;
use crate::growing::{add_to_each, complete, make_room, remove_from_each, replace_in_each};
use crate::keyed::{put_record, replace_record, take_record};
use crate::row_lists::RowLists;
use clone_values::{Key, Value};
use idb_base::NoMemory;
use index_tables::{Tables, unique_laws};
use sorted_table::OrderedTable;
use std::mem;

impl<T: Tables> IndexedRecords<T> {
    /// The rows of a record in each index, in the order of the indexes.
    pub fn rows_for(&self, key: &Key, value: &Value) -> Result<RowLists, NoMemory>
        ensures { IfOk result (λ rows. rows
            ≡ rows_in_indexes self.now.info.indexes (key_tree_of key.now) (tree_of value.now)) }
    {
        rows_in_each(self.alloc, &self.info.indexes, key, value)
    }

    /// Whether a record has the same rows with either value.
    pub fn gives_same_rows(&self, one: &Value, other: &Value) -> Result<bool, NoMemory>
        ensures { IfOk result (λ same. same
            ≡ gives_same_rows self.now.info.indexes (tree_of one.now) (tree_of other.now)) }
    {
        gives_same_in_each(self.alloc, &self.info.indexes, one, other)
    }

    /// Whether a record with this key and these rows would give a key of a unique index a second row. The record of the
    /// same key, which it would replace, is no hindrance. It takes no memory.
    pub fn clashes(&self, key: &Key, rows: &RowLists) -> bool
        requires { is_broken self.now.info.indexes self.now.records ≡ false }
        ensures { (value : Tree)
            → rows.now ≡ rows_in_indexes self.now.info.indexes (key_tree_of key.now) value
            → result
            ≡ is_broken self.now.info.indexes (finite.insert self.now.records (key_tree_of key.now) value) }
    {
        clashes_any(&self.info.indexes, &self.tables, rows, key)
    }

    /// Makes room for so many records more, and for so many rows more in each index. Where memory runs out, some of it may
    /// have been made.
    pub fn reserve(&mut self, records: usize, rows: usize) -> Result<(), NoMemory>
        ensures info { self.new.info ≡ self.old.info }
        ensures records { self.new.records ≡ self.old.records }
        ensures spare { self.old.record_spare ≤ self.new.record_spare }
        ensures row_spare { self.old.row_spare ≤ self.new.row_spare }
        ensures room { OnOk result (records ≤ self.new.record_spare) }
        ensures rooms { OnOk result (rows ≤ self.new.row_spare) }
    {
        self.records.reserve(records)?;
        if rows <= self.row_spare {
            return Ok(());
        }
        make_room(self.alloc, &self.info.indexes, &mut self.tables, rows)?;
        self.row_spare = rows;
        Ok(())
    }

    /// Puts a new record in at the place that `find` told, with its rows, for which there is room. It takes no memory.
    pub fn put_at(&mut self, place: usize, key: Key, value: Value, rows: RowLists)
        requires gap { IsGapOf self.old.records place (key_tree_of key) }
        requires rows { rows ≡ rows_in_indexes self.old.info.indexes (key_tree_of key) (tree_of value) }
        requires room { 0 < self.old.record_spare }
        requires rooms { rows_among rows ≤ self.old.row_spare }
        ensures info { self.new.info ≡ self.old.info }
        ensures records { self.new.records
            ≡ finite.insert self.old.records (key_tree_of key) (tree_of value) }
        ensures spare { self.old.record_spare ≤ self.new.record_spare + 1 }
        ensures row_spare { self.old.row_spare ≤ self.new.row_spare + rows_among rows }
    {
        self.row_spare -= rows.count();
        add_to_each(&mut self.tables, rows);
        put_record(&mut self.records, place, key, value);
        self.behind = place.saturating_add(1);
    }

    /// Puts another value into the record at this place, and gives the one that it had; of its old rows those go that the
    /// new value does not have. It takes no memory.
    pub fn replace_at(
        &mut self,
        place: usize,
        value: Value,
        old_rows: &RowLists,
        new_rows: RowLists,
    ) -> Value
        requires within { place < finite.len self.old.records }
        requires old_rows { (k : KeyTree) (v : Tree)
            → slice_get (finite.entries self.old.records) place ≡ Some (k, v)
            → old_rows.now ≡ rows_in_indexes self.old.info.indexes k v }
        requires new_rows { (k : KeyTree) (v : Tree)
            → slice_get (finite.entries self.old.records) place ≡ Some (k, v)
            → new_rows ≡ rows_in_indexes self.old.info.indexes k (tree_of value) }
        requires rooms { rows_among new_rows ≤ self.old.row_spare }
        ensures given { (k : KeyTree) (v : Tree)
            → slice_get (finite.entries self.old.records) place ≡ Some (k, v)
            → tree_of result ≡ v }
        ensures records { (k : KeyTree) (v : Tree)
            → slice_get (finite.entries self.old.records) place ≡ Some (k, v)
            → self.new.records ≡ finite.insert self.old.records k (tree_of value) }
        ensures info { self.new.info ≡ self.old.info }
        ensures spare { self.new.record_spare ≡ self.old.record_spare }
        ensures row_spare { self.old.row_spare ≤ self.new.row_spare + rows_among new_rows }
    {
        self.row_spare -= new_rows.count();
        self.behind = place.saturating_add(1);
        replace_in_each(&mut self.tables, old_rows, new_rows);
        replace_record(&mut self.records, place, value)
    }

    /// Puts another value, which gives the same rows, into the record at this place, and gives the one that it had. It takes
    /// no memory.
    pub fn revalue_at(&mut self, place: usize, value: Value) -> Value
        requires within { place < finite.len self.old.records }
        requires same_rows { (k : KeyTree) (v : Tree)
            → slice_get (finite.entries self.old.records) place ≡ Some (k, v)
            → rows_in_indexes self.old.info.indexes k v
            ≡ rows_in_indexes self.old.info.indexes k (tree_of value) }
        ensures given { (k : KeyTree) (v : Tree)
            → slice_get (finite.entries self.old.records) place ≡ Some (k, v)
            → tree_of result ≡ v }
        ensures records { (k : KeyTree) (v : Tree)
            → slice_get (finite.entries self.old.records) place ≡ Some (k, v)
            → self.new.records ≡ finite.insert self.old.records k (tree_of value) }
        ensures info { self.new.info ≡ self.old.info }
        ensures spare { self.new.record_spare ≡ self.old.record_spare }
        ensures row_spare { self.new.row_spare ≡ self.old.row_spare }
    {
        self.behind = place.saturating_add(1);
        replace_record(&mut self.records, place, value)
    }

    /// Takes the record at this place out, with its rows. It takes no memory.
    pub fn take_out(&mut self, place: usize, rows: &RowLists) -> (Key, Value)
        requires within { place < finite.len self.old.records }
        requires rows { (k : KeyTree) (v : Tree)
            → slice_get (finite.entries self.old.records) place ≡ Some (k, v)
            → rows.now ≡ rows_in_indexes self.old.info.indexes k v }
        ensures taken { IsRecordAt self.old.records place (key_tree_of result.0) (tree_of result.1) }
        ensures records { self.new.records ≡ finite.remove self.old.records (key_tree_of result.0) }
        ensures info { self.new.info ≡ self.old.info }
        ensures spare { self.old.record_spare ≤ self.new.record_spare }
        ensures row_spare { self.new.row_spare ≡ self.old.row_spare }
    {
        let taken = take_record(&mut self.records, place);
        remove_from_each(&mut self.tables, rows);
        taken
    }

    /// Takes all records and rows out, with their tables.
    pub fn take_all(&mut self) -> Result<Emptied<T>, NoMemory>
        ensures info { self.new.info ≡ self.old.info }
        ensures records { OnOk result (self.new.records ≡ finite.empty) }
        ensures taken { IfOk result (λ e. e.records ≡ self.old.records) }
        ensures rows { IfOk result (λ e. e.rows ≡ row_sets self.old.info.indexes self.old.records) }
        ensures spare { IfOk result (λ e. self.old.record_spare ≤ e.record_spare) }
        ensures row_spare { IfOk result (λ e. self.old.row_spare ≤ e.row_spare) }
        ensures unchanged { OnErr result (self.new ≡ self.old) }
    {
        let empty = Box::new(self.alloc, T::records(self.alloc))?;
        let mut tables = Vec::new(self.alloc);
        complete(self.alloc, &self.info.indexes, &mut tables)?;
        complete(self.alloc, &self.info.indexes, &mut self.tables)?;
        Ok(Emptied {
            records: boxed(
                empty,
                mem::replace(&mut self.records, T::records(self.alloc)),
            ),
            tables: mem::replace(&mut self.tables, tables),
            row_spare: mem::replace(&mut self.row_spare, 0),
        })
    }

    /// Puts records and rows back that were taken out, in place of those that are there: it undoes `take_all`. It takes
    /// no memory.
    pub fn put_all_back(&mut self, emptied: Emptied<T>)
        requires { emptied.rows ≡ row_sets self.old.info.indexes emptied.records }
        ensures info { self.new.info ≡ self.old.info }
        ensures records { self.new.records ≡ emptied.records }
        ensures spare { self.new.record_spare ≡ emptied.record_spare }
        ensures row_spare { self.new.row_spare ≡ emptied.row_spare }
    {
        let Emptied {
            records,
            tables,
            row_spare,
        } = emptied;
        self.records = Box::into_inner(records);
        self.tables = tables;
        self.row_spare = row_spare;
    }

    /// The same store with equal records and rows.
    pub fn copy(&self) -> Result<IndexedRecords<T>, NoMemory>
        ensures info { IfOk result (λ r. r.info ≡ self.now.info) }
        ensures records { IfOk result (λ r. r.records ≡ self.now.records) }
    {
        let info = self.info.copy(self.alloc)?;
        let records = copied_records::<T>(self.alloc, &self.records)?;
        let tables = copied_tables(self.alloc, &self.tables)?;
        Ok(IndexedRecords {
            alloc: self.alloc,
            info,
            records,
            tables,
            row_spare: 0,
            behind: 0,
        })
    }
}
