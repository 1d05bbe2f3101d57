// The stores of a running transaction, as its requests read and change them.
ghost use Rattle.std.specs.Prelude.{◌≡◌, Some, None, option_map, IfOk, IfSome, IsErrOf};
ghost use Rattle.std.specs.Option.{option_copied};
ghost use Rattle.clone_values.specs.View.{tree_of, key_tree_of};
ghost use Rattle.idb_databases.specs.Stores.{store_alone, IsStoreNamed};
ghost use Rattle.store_requests.specs.Runs.{storing, deleting, clearing};
ghost use Rattle.list_machine.specs.Requests.{store_under};
ghost use Rattle.live_stores.specs.Live.{CanStoreHere, done_here};
ghost use Rattle.tx_courses.specs.Courses.{restored, live_in, HasCome};

use crate::course::Course;
use clone_values::{Key, Text, Value};
use idb_base::NoMemory;
use idb_keys::KeyRange;
use index_tables::Tables;
use object_stores::{StoreError, StoreVersion};
use store_requests::StoreNames;

impl<T: Tables> Course<T> {
    /// The store of this name now, found by halving; `None` where there is none. It takes no memory.
    pub fn store(&self, name: &Text) -> Option<&StoreVersion<T>>
        ensures store { option_map store_alone (option_copied result)
            ≡ option_map (λ here. here.store) (store_under self.now.database name.now) }
        ensures named { IfSome result (λ store. IsStoreNamed name.now store.now.store) }
    {
        self.stores.store(name)
    }

    /// `add`, `put` and a cursor's `update` on the store of this name: stores the value, with the key that is given, stands in it or
    /// is generated, and answers the key. By `add` a record of that key is kept, and the answer is `Constraint`. Where there is
    /// no such store nothing is done, and Undefined answered. What it changes is noted. After `NoMemory` it can only be undone.
    pub fn put_record(
        &mut self,
        names: &StoreNames,
        value: Value,
        key: Option<Key>,
        add: bool,
    ) -> Result<Value, StoreError>
        requires { CanStoreHere (store_under self.old.database names.now.store) (tree_of value)
            (option_map key_tree_of key) }
        ensures stored { IfOk result (λ v. HasCome (done_here (live_in self.old) names.now.store
            (λ x. storing names.now x (tree_of value) (option_map key_tree_of key) add))
            (Some (tree_of v)) self.old self.new) }
        ensures refused { IsErrOf result StoreError.Constraint → HasCome (done_here
            (live_in self.old) names.now.store
            (λ x. storing names.now x (tree_of value) (option_map key_tree_of key) add))
            None self.old self.new }
        ensures before { self.new.before ≡ self.old.before }
        ensures kept { restored self.new ≡ restored self.old }
    {
        self.stores
            .put_record(names, value, key, add, &mut self.changes)
    }

    /// `delete`, and a cursor's, on the store of this name: the records in range go, and that is noted. It answers Undefined, also where
    /// there is no such store and nothing is done. After `NoMemory` it can only be undone.
    pub fn delete_records(
        &mut self,
        names: &StoreNames,
        range: &KeyRange,
    ) -> Result<Value, NoMemory>
        ensures deleted { IfOk result (λ v. HasCome (done_here (live_in self.old) names.now.store
            (λ x. deleting names.now x range.now)) (Some (tree_of v)) self.old self.new) }
        ensures before { self.new.before ≡ self.old.before }
        ensures kept { restored self.new ≡ restored self.old }
    {
        self.stores.delete_records(names, range, &mut self.changes)
    }

    /// `clear` on the store of this name: all records go, and that is noted. It answers Undefined, also where there is no such store
    /// and nothing is done. After `NoMemory` it can only be undone.
    pub fn clear_store(&mut self, names: &StoreNames) -> Result<Value, NoMemory>
        ensures cleared { IfOk result (λ v. HasCome (done_here (live_in self.old) names.now.store
            (λ x. clearing names.now x)) (Some (tree_of v)) self.old self.new) }
        ensures before { self.new.before ≡ self.old.before }
        ensures kept { restored self.new ≡ restored self.old }
    {
        self.stores.clear_store(names, &mut self.changes)
    }
}
