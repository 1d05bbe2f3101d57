// Indexes that come and go.
ghost use Rattle.std.specs.Prelude.{◌≡◌, ◌<◌, ◌≤◌, Some, None, length, slice_get, IfOk, IfErr, OnOk, OnErr, min};
ghost use Rattle.indexed_records.specs.Causes.{IsCause};
ghost use Rattle.index_tables.specs.Unique.{broken_key};
ghost use Rattle.index_tables.specs.RecordRows.{index_rows};
ghost use Rattle.store_contents.specs.Contents.{info_with_index, info_without_last, info_without_index, info_with_index_at};

use super::IndexedRecords;
use crate::building::add_last;
use crate::dropping::{Dropped, insert_both, taken_at};
use crate::index_error::IndexError;
use idb_base::NoMemory;
use idb_schema::IndexInfo;
use index_tables::Tables;

impl<T: Tables> IndexedRecords<T> {
    /// Makes an index at the end, with the rows of all records ("createIndex").
    pub fn add_index(&mut self, info: IndexInfo) -> Result<(), IndexError>
        ensures info { OnOk result (self.new.info ≡ info_with_index self.old.info info) }
        ensures unique { OnOk result (broken_key info self.old.records ≡ None) }
        ensures cause { IfErr result (λ e. IsCause e (broken_key info self.old.records)) }
        ensures unchanged { OnErr result (self.new.info ≡ self.old.info) }

        ensures records { self.new.records ≡ self.old.records }
        ensures spare { self.new.record_spare ≡ self.old.record_spare }
        ensures row_spare { self.new.row_spare ≡ self.old.row_spare }
    {
        match add_last(
            self.alloc,
            &mut self.info.indexes,
            &mut self.tables,
            &self.records,
            self.row_spare,
            info,
        ) {
            Ok(None) => Ok(()),
            Ok(Some(key)) => Err(IndexError::Constraint { key }),
            Err(NoMemory) => Err(IndexError::NoMemory),
        }
    }

    /// Takes the last index out, with its rows: it undoes `add_index`. It takes no memory.
    pub fn pop_index(&mut self)
        requires { 0 < length self.old.info.indexes }
        ensures info { self.new.info ≡ info_without_last self.old.info }
        ensures records { self.new.records ≡ self.old.records }
        ensures spare { self.new.record_spare ≡ self.old.record_spare }
        ensures row_spare { self.new.row_spare ≡ self.old.row_spare }
    {
        let last = self.info.indexes.len() - 1;
        self.info.indexes.remove_at(last);
        self.tables.truncate(last);
    }

    /// Takes the index at this place out, with its rows, and keeps the room that putting it back needs.
    pub fn drop_index(&mut self, place: usize) -> Result<Dropped<T>, NoMemory>
        requires { place < length self.old.info.indexes }
        ensures info { OnOk result (self.new.info ≡ info_without_index self.old.info place) }
        ensures place { IfOk result (λ d. d.place ≡ place) }
        ensures index { IfOk result (λ d. slice_get self.old.info.indexes place ≡ Some d.index) }
        ensures rows { IfOk result (λ d. d.rows ≡ index_rows d.index self.old.records) }
        ensures width { IfOk result (λ d. length self.old.info.indexes ≤ d.width) }
        ensures kept { IfOk result (λ d. d.spare ≡ self.old.row_spare) }
        ensures unchanged { OnErr result (self.new.info ≡ self.old.info) }

        ensures records { self.new.records ≡ self.old.records }
        ensures spare { self.new.record_spare ≡ self.old.record_spare }
        ensures row_spare { self.new.row_spare ≡ self.old.row_spare }
    {
        taken_at(
            self.alloc,
            &mut self.info.indexes,
            &mut self.tables,
            place,
            self.row_spare,
        )
    }

    /// Puts an index back that was taken out, with its rows: it undoes `drop_index`. It takes no memory.
    pub fn put_back(&mut self, dropped: Dropped<T>)
        requires place { dropped.place ≤ length self.old.info.indexes }
        requires rows { dropped.rows ≡ index_rows dropped.index self.old.records }
        requires width { length self.old.info.indexes < dropped.width }
        ensures info { self.new.info ≡ info_with_index_at self.old.info dropped.place dropped.index }
        ensures records { self.new.records ≡ self.old.records }
        ensures spare { self.new.record_spare ≡ self.old.record_spare }
        ensures row_spare { self.new.row_spare ≡ min self.old.row_spare dropped.spare }
    {
        self.row_spare = self.row_spare.min(dropped.spare());
        insert_both(
            self.alloc,
            &mut self.info.indexes,
            &mut self.tables,
            dropped,
        );
    }
}
