// The stores of a running transaction.
ghost use Rattle.std.specs.Prelude.{◌≡◌, true, false, Some, None, option_map, IfOk, IfSome, IsErrOf, OnOk, OnErr};
ghost use Rattle.std.specs.Option.{option_copied};
ghost use Rattle.std.specs.FinMap as finite;
ghost use Rattle.clone_values.specs.View.{tree_of, key_tree_of};
ghost use Rattle.idb_schema.specs.Definitions.{IsStoreInfo, IsIndexInfo};
ghost use Rattle.idb_calls.specs.Deltas.{CreateStore, DropStore, CreateIndex, DropIndex};
ghost use Rattle.item_changes.specs.Items.{stores_in};
ghost use Rattle.item_changes.specs.Effects.{new_store, at_version};
ghost use Rattle.idb_databases.specs.Stores.{store_alone, IsStoreNamed, AreStores};
ghost use Rattle.store_requests.specs.Runs.{storing, deleting, clearing};
ghost use Rattle.list_machine.specs.Requests.{store_under};
ghost use Rattle.list_machine.specs.Entries.{is_broken_by};
ghost use Rattle.live_stores.specs.Live.{database_at, live_from, CanStoreHere, done_here, HasDone, finds_in, with_delta};

use crate::changing::StoreChange;
use crate::slots::Slot;
use crate::standing::{change_in, create_in, drop_in, find_now, restore_all, settle_all};
use crate::stores::Stores;
use clone_values::{Key, Text, Value};
use idb_base::NoMemory;
use idb_calls::Deltas;
use idb_keys::KeyRange;
use idb_schema::IndexInfo;
use index_tables::Tables;
use object_stores::{StoreError, StoreVersion};
use path_grammar::KeyPath;
use std::alloc::Global;
use std::marker::Model;
use store_requests::StoreNames;

/// The stores of a running transaction. Contracts see the database before the transaction and the database now, each `None`
/// where it doesn't exist; no call but `new` changes the one before.
#[derive(Drop)]
pub struct LiveStores<T: Tables> {
    alloc: Global,
    version_before: Option<u64>,
    version: Option<u64>,
    items: Vec<(Text, Slot<T>)>,
}

impl<T: Tables> Model for LiveStores<T> {
    ghost use Rattle.std.specs.Coded.{codes};
    ghost use Rattle.indexed_records.specs.Contents.{records_code};
    ghost use Rattle.idb_databases.specs.Items.{database_code};
    ghost use Rattle.live_stores.specs.Live.{LiveData};

    ghost Value = { LiveData };

    ghost coded = { Prim.hlevel (codes, database_code (Prim.hlevel (codes, records_code))) };

    ghost use Rattle.live_stores.specs.Slots.{live_seen, IsLiveStores};

    ghost view = { λ a. live_seen a.version_before a.version a.items.items };

    ghost invariant = { λ a. IsLiveStores a.version_before a.version a.items.items };
}

impl<T: Tables> LiveStores<T> {
    /// The stores of the scope of a transaction that begins, in a database of this version; `None` where the database doesn't
    /// exist, and then it has no stores. An upgrade is handed all stores, with the version that it begins at. It takes no memory.
    pub fn new(alloc: Global, version: Option<u64>, stores: Stores<T>) -> Self
        requires { version ≡ None → stores ≡ finite.empty }
        ensures { result ≡ live_from (database_at version stores) }
    {
        LiveStores {
            alloc,
            version_before: version,
            version,
            items: stores.into_slots(),
        }
    }

    /// The store of this name now, found by halving; `None` where there is none. It takes no memory.
    pub fn store(&self, name: &Text) -> Option<&StoreVersion<T>>
        ensures store { option_map store_alone (option_copied result)
            ≡ option_map (λ here. here.store) (store_under self.now.database name.now) }
        ensures named { IfSome result (λ store. IsStoreNamed name.now store.now.store) }
    {
        find_now(&self.items, name)
    }

    /// Each store is as the standard asks, at every moment. It does nothing.
    pub fn stand_sound(&self)
        ensures { AreStores (stores_in self.now.database) }
    {
        let _ = self.items.len();
    }

    /// The version of the database now; `None` where it doesn't exist. It takes no memory.
    pub fn version(&self) -> Option<u64>
        ensures { result ≡ option_map (λ d. d.version) self.now.database }
    {
        self.version
    }

    /// `add`, `put` and a cursor's `update` on the store of this name: stores the value, with the key that is given, stands in it or
    /// is generated, and answers the key. By `add` a record of that key is kept, and the answer is `Constraint`. Where there is
    /// no such store nothing is done, and Undefined answered. After `NoMemory` the changes may be longer than they were.
    pub fn put_record(
        &mut self,
        names: &StoreNames,
        value: Value,
        key: Option<Key>,
        add: bool,
        changes: &mut Deltas,
    ) -> Result<Value, StoreError>
        requires { CanStoreHere (store_under self.old.database names.now.store) (tree_of value)
            (option_map key_tree_of key) }
        ensures stored { IfOk result (λ v. HasDone (done_here self.old names.now.store
            (λ x. storing names.now x (tree_of value) (option_map key_tree_of key) add))
            (Some (tree_of v)) self.old self.new changes.old changes.new) }
        ensures refused { IsErrOf result StoreError.Constraint → HasDone (done_here self.old names.now.store
            (λ x. storing names.now x (tree_of value) (option_map key_tree_of key) add))
            None self.old self.new changes.old changes.new }
        ensures unchanged { OnErr result (self.new ≡ self.old) }
    {
        let change = StoreChange::Put { value, key, add };
        change_in(self.alloc, &mut self.items, names, change, changes)
    }

    /// `delete`, and a cursor's, on the store of this name: the records in range go. It answers Undefined, also where there is no
    /// such store and nothing is done. After `NoMemory` the changes may be longer than they were.
    pub fn delete_records(
        &mut self,
        names: &StoreNames,
        range: &KeyRange,
        changes: &mut Deltas,
    ) -> Result<Value, NoMemory>
        ensures deleted { IfOk result (λ v. HasDone (done_here self.old names.now.store
            (λ x. deleting names.now x range.now))
            (Some (tree_of v)) self.old self.new changes.old changes.new) }
        ensures unchanged { OnErr result (self.new ≡ self.old) }
    {
        let change = StoreChange::Delete(range);
        match change_in(self.alloc, &mut self.items, names, change, changes) {
            Ok(answer) => return Ok(answer),
            Err(StoreError::Constraint) => unreachable!(),
            Err(StoreError::NoMemory) => return Err(NoMemory),
        }
    }

    /// `clear` on the store of this name: all records go. It answers Undefined, also where there is no such store and nothing is
    /// done. After `NoMemory` the changes may be longer than they were.
    pub fn clear_store(
        &mut self,
        names: &StoreNames,
        changes: &mut Deltas,
    ) -> Result<Value, NoMemory>
        ensures cleared { IfOk result (λ v. HasDone (done_here self.old names.now.store
            (λ x. clearing names.now x))
            (Some (tree_of v)) self.old self.new changes.old changes.new) }
        ensures unchanged { OnErr result (self.new ≡ self.old) }
    {
        let change = StoreChange::Clear;
        match change_in(self.alloc, &mut self.items, names, change, changes) {
            Ok(answer) => return Ok(answer),
            Err(StoreError::Constraint) => unreachable!(),
            Err(StoreError::NoMemory) => return Err(NoMemory),
        }
    }

    /// An upgrade begins: the database has this version, and exists from now on. It takes no memory.
    pub fn raise_version(&mut self, version: u64)
        ensures { self.new ≡ record self.old { database = at_version version self.old.database } }
    {
        self.version = Some(version);
    }

    /// `createObjectStore`: a store of this name without records, whose generator, if it has one, begins at 1.
    pub fn create_store(
        &mut self,
        names: &StoreNames,
        path: Option<KeyPath>,
        auto: bool,
    ) -> Result<(), NoMemory>
        requires free { finds_in self.old (CreateStore names.now.database names.now.store path auto) ≡ true }
        requires sound { IsStoreInfo (new_store names.now.store path auto).info }
        ensures created { OnOk result (self.new
            ≡ with_delta self.old (CreateStore names.now.database names.now.store path auto)) }
        ensures unchanged { OnErr result (self.new ≡ self.old) }
    {
        create_in(self.alloc, &mut self.items, &names.store, path, auto)
    }

    /// `deleteObjectStore`: the store of this name goes. One that stood before the transaction is kept for `restore`. It takes no
    /// memory.
    pub fn drop_store(&mut self, names: &StoreNames)
        requires { finds_in self.old (DropStore names.now.database names.now.store) ≡ true }
        ensures { self.new ≡ with_delta self.old (DropStore names.now.database names.now.store) }
    {
        drop_in(&mut self.items, &names.store);
    }

    /// `createIndex`: the store of this name has one index more, the last one, with the rows of all its records. `Constraint` where the
    /// index is unique and two records would have one key in it.
    pub fn create_index(&mut self, names: &StoreNames, index: IndexInfo) -> Result<(), StoreError>
        requires free { finds_in self.old
            (CreateIndex names.now.database names.now.store index.name index.path index.unique index.multi) ≡ true }
        requires sound { IsIndexInfo index }
        ensures created { OnOk result (self.new ≡ with_delta self.old
            (CreateIndex names.now.database names.now.store index.name index.path index.unique index.multi)) }
        ensures unbroken { OnOk result
            (is_broken_by index (store_under self.old.database names.now.store) ≡ false) }
        ensures broken { IsErrOf result StoreError.Constraint
            → is_broken_by index (store_under self.old.database names.now.store) ≡ true }
        ensures unchanged { OnErr result (self.new ≡ self.old) }
    {
        let mut none = Deltas::new(self.alloc);
        let change = StoreChange::AddIndex(index);
        match change_in(self.alloc, &mut self.items, names, change, &mut none) {
            Ok(_) => return Ok(()),
            Err(StoreError::Constraint) => return Err(StoreError::Constraint),
            Err(StoreError::NoMemory) => return Err(StoreError::NoMemory),
        }
    }

    /// `deleteIndex`: the index of this name of the store goes. It is kept for `restore`.
    pub fn drop_index(&mut self, names: &StoreNames, index: &Text) -> Result<(), NoMemory>
        requires { finds_in self.old (DropIndex names.now.database names.now.store index.now) ≡ true }
        ensures dropped { OnOk result (self.new
            ≡ with_delta self.old (DropIndex names.now.database names.now.store index.now)) }
        ensures unchanged { OnErr result (self.new ≡ self.old) }
    {
        let mut none = Deltas::new(self.alloc);
        let change = StoreChange::DropIndex(index);
        match change_in(self.alloc, &mut self.items, names, change, &mut none) {
            Ok(_) => return Ok(()),
            Err(StoreError::Constraint) => unreachable!(),
            Err(StoreError::NoMemory) => return Err(NoMemory),
        }
    }

    /// Gives the database back as it was before the transaction: its version, its stores, each with its records, its indexes and its
    /// generator's number. It takes no memory.
    pub fn restore(&mut self)
        ensures { self.new ≡ record self.old { database = self.old.before } }
    {
        restore_all(&mut self.items);
        self.version = self.version_before;
    }

    /// The stores as they are now, by the bytes of their names; what was changed up to now can't be undone any more. It takes no
    /// memory.
    pub fn into_stores(self) -> Stores<T>
        ensures { result ≡ stores_in self.database }
    {
        let LiveStores { items, .. } = self;
        let mut items = items;
        settle_all(&mut items);
        Stores::from_slots(items)
    }
}
