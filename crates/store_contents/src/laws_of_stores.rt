// What the changes of a store come to.
ghost use Rattle.std.specs.Prelude.{◌≡◌, Bool, Option, Some};
ghost use Rattle.std.specs.FinMap as finite;
ghost use Rattle.clone_values.specs.Tree.{Tree};
ghost use Rattle.clone_values.specs.KeyTree.{KeyTree};
ghost use Rattle.idb_keys.specs.KeyRange.{Range};
ghost use Rattle.idb_keys.specs.declared.names.Over.TheVariants as over;
ghost use Rattle.store_contents.specs.Reading.{selected, primary_keys};
ghost use Rattle.store_contents.specs.Changed.{store_with_record, with_current, without_records, without_range, cleared};
ghost use Rattle.store_contents.specs.Showing.{shown_in};
ghost use Rattle.store_contents.specs.Store.{Store};
ghost use Rattle.store_contents.specs.Storing.{Entry, entry_for, stored_as, stored};

/// The laws of changes. Each operation is changes of single records: storing is the generator's number and then the record,
/// deleting a range is removing each of its keys in order, and clearing is removing all.
pub fn store_laws()
    ensures storing { (store new : Store) (value : Tree) (key : Option KeyTree) (add : Bool) (k : KeyTree)
        → stored_as store value key add ≡ stored k new
        → (x : Entry) × (entry_for store.info.path store.info.auto store.current value key ≡ Some x)
        × (k ≡ x.key) × (new ≡ store_with_record (with_current store x.current) x.key x.value) }
    ensures deleting { (store : Store) (range : Range)
        → without_range store range
        ≡ without_records store (primary_keys (selected range (shown_in store over.Store))) }
    ensures clearing { (store : Store) → cleared store ≡ without_records store (finite.keys store.records) }
{}
