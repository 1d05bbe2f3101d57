// Object stores.
ghost use Rattle.std.specs.Prelude.{◌≡◌, ℕ, ◌<◌, ◌≤◌, true, [], None, length, take, slice_get, option_map, IfOk, IfErr, IfSome, IfNone, IsErrOf, OnOk, OnErr};
ghost use Rattle.std.specs.FinMap as finite;
ghost use Rattle.clone_values.specs.View.{key_tree_of, tree_of};
ghost use Rattle.idb_keys.specs.declared.names.Over.TheVariants.{Store, Index};
ghost use Rattle.idb_schema.specs.Definitions.{IsStoreInfo, IsIndexInfo, index_named};
ghost use Rattle.key_generators.specs.Generators.{IsGenerator};
ghost use Rattle.index_tables.specs.Unique.{broken_key};
ghost use Rattle.range_reads.specs.Causes.{IsCause};
ghost use Rattle.range_reads.specs.Reading.{selected, limited, primary_keys, values_in, first_primary, first_value, keys_seen, value_seen};
ghost use Rattle.index_tables.specs.View.{rows_in};
ghost use Rattle.range_reads.specs.View.{record_seen, own_rows};
ghost use Rattle.store_contents.specs.Changed.{without_range, cleared, with_current, store_with_index, store_without_index};
ghost use Rattle.store_contents.specs.IsStore.{IsStore, IsCurrent};
ghost use Rattle.store_contents.specs.Showing.{shown_in, chosen_in};
ghost use Rattle.store_contents.specs.Store.{at_mark, KeepsPast};
ghost use Rattle.store_contents.specs.Storing.{CanStore, stored_as, stored, refused};

use crate::changes::Parts;
use crate::deleting::delete;
use crate::error::StoreError;
use crate::indexing;
use crate::undoing::{forget, undo_to};
use crate::whole::{clear_parts, new_parts, store_entry};
use clone_values::{Items, Key, Keys, Value};
use idb_base::NoMemory;
use idb_keys::{KeyRange, Over};
use idb_schema::{IndexInfo, StoreInfo};
use index_tables::{Tables, unique_laws};
use key_generators::Generator;
use range_reads::{IndexError, IndexedRecords, count, get, get_all, get_all_keys, get_key};
use std::alloc::Global;
use std::marker::Model;

/// A moment of a store's changes, to which they can be undone.
#[derive(Clone, Copy, Debug, PartialEq, Eq)]
pub struct Mark {
    /// How many changes there were that can still be undone.
    pub place: usize,
    /// The current number of the key generator.
    pub current: u64,
}

/// An object store (Indexed Database API 3.0, "object store"). Contracts see its definition, its records and the current
/// number of its key generator, its content before each change that can still be undone, and what it was at the last
/// settle; it is always a store as the standard asks.
#[derive(Drop)]
pub struct StoreVersion<T: Tables> {
    alloc: Global,
    parts: Parts<T>,
    generator: Generator,
    settled: u64,
}

impl<T: Tables> Model for StoreVersion<T> {
    ghost use Rattle.std.specs.Coded.{codes};
    ghost use Rattle.range_reads.specs.Contents.{records_code};
    ghost use Rattle.store_contents.specs.Store.{Kept};
    ghost use Rattle.object_stores.specs.Parts.{kept_in, IsVersion};

    ghost Value = { Kept };

    ghost coded = { Prim.hlevel (codes, records_code) };

    ghost view = { λ a. kept_in a.parts a.generator a.settled };

    ghost invariant = { λ a. IsVersion a.parts a.generator a.settled };
}

impl<T: Tables> StoreVersion<T> {
    /// A store without records, whose generator begins at 1. It takes no memory.
    pub fn new(alloc: Global, info: StoreInfo) -> Self
        requires { IsStoreInfo info }
        ensures store { result.store ≡ record { info = info; records = finite.empty; current = 1 } }
        ensures past { result.past ≡ [] }
        ensures settled { result.settled ≡ result.store }
    {
        unique_laws();
        StoreVersion {
            alloc,
            parts: new_parts(alloc, IndexedRecords::new(alloc, info)),
            generator: Generator::new(),
            settled: 1,
        }
    }

    /// What the store is. With it comes that the whole store is as the standard asks, and was so at the last settle; and that
    /// it has a generator where it had one.
    pub fn info(&self) -> &StoreInfo
        ensures info { result.now ≡ self.now.store.info }
        ensures sound { IsStore self.now.store }
        ensures was_sound { IsStore self.now.settled }
        ensures auto { (place n : ℕ) → (at_mark self.now place n).info.auto ≡ self.now.store.info.auto }
    {
        self.parts.contents.info()
    }

    /// The current number of the key generator; 1 in a store without one.
    pub fn current(&self) -> u64
        ensures value { result ≡ self.now.store.current }
        ensures sound { IsStore self.now.store }
    {
        self.generator.current()
    }

    /// How many records there are.
    pub fn len(&self) -> usize
        ensures { result ≡ finite.len self.now.store.records }
    {
        self.parts.contents.len()
    }

    /// The record at this place of the order of keys, counted from 0; `None` past the end.
    pub fn record_at(&self, place: usize) -> Option<(&Key, &Value)>
        ensures { option_map record_seen result ≡ slice_get (finite.entries self.now.store.records) place }
    {
        self.parts.contents.record_at(place)
    }

    /// The value of the record of this key, found by halving; `None` where there is none. It takes no memory.
    pub fn value_of(&self, key: &Key) -> Option<&Value>
        ensures { option_map value_seen result ≡ finite.get self.now.store.records (key_tree_of key.now) }
    {
        self.parts.contents.value_of(key)
    }

    /// How many members the store or its index shows; an index that isn't there shows none.
    pub fn row_count(&self, over: Over) -> usize
        ensures { result ≡ length (shown_in self.now.store over) }
    {
        self.parts.contents.row_count(over)
    }

    /// The key and the primary key that the store or its index shows at this place, counted from 0; `None` past the end.
    pub fn row(&self, over: Over, place: usize) -> Option<(&Key, &Key)>
        ensures { option_map keys_seen result ≡ slice_get (shown_in self.now.store over) place }
    {
        self.parts.contents.row(over, place)
    }

    /// The table of the records, for a cursor over them.
    pub fn record_table(&self) -> &T::Records
        ensures { own_rows (T.Records.entries result.now) ≡ shown_in self.now.store Store }
    {
        self.parts.contents.record_table()
    }

    /// The table of the rows of the index at this place, for a cursor over them; `None` where there is none, and then the index
    /// shows no rows.
    pub fn row_table(&self, place: usize) -> Option<&T::Rows>
        ensures rows { IfSome result (λ table. rows_in (T.Rows.entries table.now)
            ≡ shown_in self.now.store (Index place)) }
        ensures none { IfNone result (shown_in self.now.store (Index place) ≡ []) }
    {
        self.parts.contents.row_table(place)
    }

    /// The value of the first record in the range ("get").
    pub fn get(&self, over: Over, range: &KeyRange) -> Result<Option<Value>, NoMemory>
        ensures { IfOk result (λ value. option_map tree_of value
            ≡ first_value self.now.store.records (selected range.now (shown_in self.now.store over))) }
    {
        get(self.alloc, &self.parts.contents, over, range)
    }

    /// The primary key of the first record in the range ("getKey").
    pub fn get_key(&self, over: Over, range: &KeyRange) -> Result<Option<Key>, NoMemory>
        ensures { IfOk result (λ key. option_map key_tree_of key
            ≡ first_primary (selected range.now (shown_in self.now.store over))) }
    {
        get_key(self.alloc, &self.parts.contents, over, range)
    }

    /// The values of the records in the range, or of the first so many ("getAll"); 0 is no limit.
    pub fn get_all(
        &self,
        over: Over,
        range: Option<&KeyRange>,
        limit: u32,
    ) -> Result<Items, NoMemory>
        ensures { IfOk result (λ items. items
            ≡ values_in self.now.store.records (limited limit (chosen_in self.now.store over range.entry))) }
    {
        get_all(self.alloc, &self.parts.contents, over, range, limit)
    }

    /// The primary keys of the records in the range, or of the first so many ("getAllKeys"); 0 is no limit.
    pub fn get_all_keys(
        &self,
        over: Over,
        range: Option<&KeyRange>,
        limit: u32,
    ) -> Result<Keys, NoMemory>
        ensures { IfOk result (λ keys. keys
            ≡ primary_keys (limited limit (chosen_in self.now.store over range.entry))) }
    {
        get_all_keys(self.alloc, &self.parts.contents, over, range, limit)
    }

    /// How many records are in the range ("count"). It takes no memory.
    pub fn count(&self, over: Over, range: Option<&KeyRange>) -> u64
        ensures { result ≡ length (chosen_in self.now.store over range.entry) }
    {
        count(&self.parts.contents, over, range)
    }

    /// Stores a value under the key that is given, that stands in the value or that the generator gives ("store a record
    /// into an object store"). By `add` a record of that key is kept, and the answer is `Constraint`.
    pub fn store_record(
        &mut self,
        value: Value,
        key: Option<Key>,
        add: bool,
    ) -> Result<Key, StoreError>
        requires { CanStore self.old.store.info.path self.old.store.info.auto (tree_of value)
            (option_map key_tree_of key) }
        ensures stored { IfOk result (λ k. stored_as self.old.store (tree_of value)
            (option_map key_tree_of key) add
            ≡ stored (key_tree_of k) self.new.store) }
        ensures refused { IsErrOf result StoreError.Constraint
            → stored_as self.old.store (tree_of value) (option_map key_tree_of key) add ≡ refused }
        ensures unchanged { OnErr result (self.new.store ≡ self.old.store) }
        ensures past { KeepsPast self.old self.new }
    {
        let before = self.generator.current();
        match store_entry(
            self.alloc,
            &mut self.parts,
            &mut self.generator,
            value,
            key,
            add,
        ) {
            Ok(Some(key)) => Ok(key),
            Ok(None) => {
                self.generator.restore(before);
                Err(StoreError::Constraint)
            }
            Err(NoMemory) => {
                self.generator.restore(before);
                Err(StoreError::NoMemory)
            }
        }
    }

    /// Sets the current number of the store's generator. It takes no memory.
    pub fn set_current(&mut self, current: u64)
        requires generator { self.old.store.info.auto ≡ true }
        requires in_range { IsGenerator current }
        ensures store { self.new.store ≡ with_current self.old.store current }
        ensures past { KeepsPast self.old self.new }
    {
        self.generator.restore(current);
    }

    /// Deletes the records in the range ("delete records from an object store"), and tells how many these were. Where
    /// memory is wanting, none is gone.
    pub fn delete_range(&mut self, range: &KeyRange) -> Result<u64, NoMemory>
        ensures deleted { OnOk result (self.new.store ≡ without_range self.old.store range.now) }
        ensures count { IfOk result (λ n. n ≡ length (selected range.now (shown_in self.old.store Store))) }
        ensures unchanged { OnErr result (self.new.store ≡ self.old.store) }
        ensures past { KeepsPast self.old self.new }
    {
        let deleted = count(&self.parts.contents, Over::Store, Some(range));
        delete(&mut self.parts, range)?;
        Ok(deleted)
    }

    /// Removes all records ("clear an object store").
    pub fn clear(&mut self) -> Result<(), NoMemory>
        ensures cleared { OnOk result (self.new.store ≡ cleared self.old.store) }
        ensures unchanged { OnErr result (self.new.store ≡ self.old.store) }
        ensures past { KeepsPast self.old self.new }
    {
        clear_parts(&mut self.parts)
    }

    /// Makes an index, the last one, with the rows of all records. `Constraint` names the least key of which a unique
    /// index would have two rows ("createIndex").
    pub fn add_index(&mut self, info: IndexInfo) -> Result<(), IndexError>
        requires sound { IsIndexInfo info }
        requires new_name { index_named self.old.store.info.indexes info.name ≡ None }
        ensures added { OnOk result (self.new.store ≡ store_with_index self.old.store info) }
        ensures unique { OnOk result (broken_key info self.old.store.records ≡ None) }
        ensures cause { IfErr result (λ e. IsCause e (broken_key info self.old.store.records)) }
        ensures unchanged { OnErr result (self.new.store ≡ self.old.store) }
        ensures past { KeepsPast self.old self.new }
    {
        indexing::add(&mut self.parts, info)
    }

    /// Drops the index at this place, counted from 0 ("deleteIndex").
    pub fn drop_index(&mut self, place: usize) -> Result<(), NoMemory>
        requires { place < length self.old.store.info.indexes }
        ensures dropped { OnOk result (self.new.store ≡ store_without_index self.old.store place) }
        ensures unchanged { OnErr result (self.new.store ≡ self.old.store) }
        ensures past { KeepsPast self.old self.new }
    {
        indexing::drop_at(&mut self.parts, place)
    }

    /// This moment of the store's changes. It takes no memory.
    pub fn mark(&self) -> Mark
        ensures place { result.place ≡ length self.now.past }
        ensures current { result.current ≡ self.now.store.current }
        ensures here { at_mark self.now result.place result.current ≡ self.now.store }
        ensures sound { IsStore self.now.store }
    {
        Mark {
            place: self.parts.log.len(),
            current: self.generator.current(),
        }
    }

    /// Gives the store back as it was at the mark, which this store gave, with no `settle` and no undoing to an earlier
    /// mark since. It takes no memory.
    pub fn undo_to(&mut self, mark: Mark)
        requires place { mark.place ≤ length self.old.past }
        requires current { IsCurrent self.old.store.info.auto mark.current }
        ensures store { self.new.store ≡ at_mark self.old mark.place mark.current }
        ensures past { self.new.past ≡ take mark.place self.old.past }
        ensures settled { self.new.settled ≡ self.old.settled }
    {
        undo_to(&mut self.parts, mark.place);
        self.generator.restore(mark.current);
    }

    /// Gives the store back as it was at the last settle, or as it was made. It takes no memory.
    pub fn undo_all(&mut self)
        ensures store { self.new.store ≡ self.old.settled }
        ensures past { self.new.past ≡ [] }
        ensures settled { self.new.settled ≡ self.old.settled }
    {
        undo_to(&mut self.parts, 0);
        self.generator.restore(self.settled);
    }

    /// Forgets the marks: what was changed up to now can't be undone any more. It takes no memory.
    pub fn settle(&mut self)
        ensures store { self.new.store ≡ self.old.store }
        ensures past { self.new.past ≡ [] }
        ensures settled { self.new.settled ≡ self.old.store }
    {
        forget(&mut self.parts);
        self.settled = self.generator.current();
    }

    /// An equal store without marks, settled as it is.
    pub fn copy(&self) -> Result<StoreVersion<T>, NoMemory>
        ensures store { IfOk result (λ copy. copy.store ≡ self.now.store) }
        ensures past { IfOk result (λ copy. copy.past ≡ []) }
        ensures settled { IfOk result (λ copy. copy.settled ≡ copy.store) }
    {
        let contents = self.parts.contents.copy()?;
        let current = self.generator.current();
        let mut generator = Generator::new();
        generator.restore(current);
        Ok(StoreVersion {
            alloc: self.alloc,
            parts: new_parts(self.alloc, contents),
            generator,
            settled: current,
        })
    }
}
