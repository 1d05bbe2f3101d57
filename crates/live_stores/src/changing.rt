// What is done on one store.
ghost use Rattle.std.specs.Prelude.{◌≡◌, ◌<◌, List, Some, None, length, IfOk, IfSome, IsErrOf, OnErr};
ghost use Rattle.clone_values.specs.Tree.{undefined};
ghost use Rattle.clone_values.specs.View.{tree_of};
ghost use Rattle.idb_schema.specs.Definitions.{index_named};
ghost use Rattle.idb_calls.specs.Deltas.{DeltaTree};
ghost use Rattle.object_stores.specs.IsStore.{IsStore};
ghost use Rattle.object_stores.specs.Store.{at_mark};
ghost use Rattle.item_changes.specs.Items.{Name};
ghost use Rattle.store_requests.specs.declared.changes.StoreNames.{StoreNames};
ghost use Rattle.idb_databases.specs.Stores.{IsStoreNamed};
ghost use Rattle.live_stores.specs.Holding.{held_store, held_before};
ghost use Rattle.live_stores.specs.Slots.{slot_now, slot_before, IsNamedIf};
ghost use Rattle.live_stores.specs.Changing.{change_run, CanRun, CanRunOn, HasRunOn, IsMarkOf};
ghost use Rattle.live_stores.specs.declared.changing.StoreChange.TheVariants as change;

use crate::held::{Held, make_own};
use crate::slots::Slot;
use clone_values::{Key, Text, Value};
use idb_base::NoMemory;
use idb_calls::Deltas;
use idb_keys::KeyRange;
use idb_schema::{IndexInfo, IndexInfos};
use index_tables::Tables;
use object_stores::{IndexError, Mark, StoreError, StoreVersion};
use std::alloc::Global;
use store_requests::{StoreNames, clear_store, delete_records, put_record};

/// What is done on a store.
#[derive(Drop)]
pub(crate) enum StoreChange<'a> {
    /// A record is stored.
    Put {
        value: Value,
        key: Option<Key>,
        add: bool,
    },
    /// The records in this range go.
    Delete(&'a KeyRange),
    /// All records go.
    Clear,
    /// An index comes.
    AddIndex(IndexInfo),
    /// The index of this name goes.
    DropIndex(&'a Text),
}

/// Does it on the store, and answers as a request does; of an index Undefined, and nothing is noted. After every error the store is as
/// it was.
fn run<T: Tables>(
    alloc: Global,
    store: &mut StoreVersion<T>,
    names: &StoreNames,
    change: StoreChange,
    changes: &mut Deltas,
) -> Result<Value, StoreError>
    requires { CanRun change store.old.store }
    ensures ran { IfOk result (λ v. HasRunOn (Some store.old.store) (change_run change.entry names.now)
        (Some (tree_of v)) (Some store.new.store) changes.old changes.new) }
    ensures refused { IsErrOf result StoreError.Constraint
        → HasRunOn (Some store.old.store) (change_run change.entry names.now)
        None (Some store.new.store) changes.old changes.new }
    ensures unchanged { OnErr result (store.new.store ≡ store.old.store) }
    ensures sound { IsStore store.new.store }
    ensures name { store.new.store.info.name ≡ store.old.store.info.name }
    ensures settled { store.new.settled ≡ store.old.settled }
{
    match change {
        StoreChange::Put { value, key, add } => {
            return put(alloc, store, names, value, key, add, changes);
        }
        StoreChange::Delete(range) => return delete(alloc, store, names, range, changes),
        StoreChange::Clear => return clear(alloc, store, names, changes),
        StoreChange::AddIndex(index) => return add_index(store, index),
        StoreChange::DropIndex(name) => return drop_index(store, name),
    }
}

fn put<T: Tables>(
    alloc: Global,
    store: &mut StoreVersion<T>,
    names: &StoreNames,
    value: Value,
    key: Option<Key>,
    add: bool,
    changes: &mut Deltas,
) -> Result<Value, StoreError>
    requires { CanRun (change.Put value key add) store.old.store }
    ensures ran { IfOk result (λ v. HasRunOn (Some store.old.store)
        (change_run (change.Put value key add) names.now) (Some (tree_of v)) (Some store.new.store) changes.old changes.new) }
    ensures refused { IsErrOf result StoreError.Constraint
        → HasRunOn (Some store.old.store) (change_run (change.Put value key add) names.now)
        None (Some store.new.store) changes.old changes.new }
    ensures unchanged { OnErr result (store.new.store ≡ store.old.store) }
    ensures sound { IsStore store.new.store }
    ensures name { store.new.store.info.name ≡ store.old.store.info.name }
    ensures settled { store.new.settled ≡ store.old.settled }
{
    let before = store.mark();
    match put_record(alloc, store, names, value, key, add, changes) {
        Ok(answer) => {
            let _ = store.info();
            return Ok(answer);
        }
        Err(StoreError::Constraint) => {
            let _ = store.info();
            return Err(StoreError::Constraint);
        }
        Err(StoreError::NoMemory) => {
            take_back(store, before);
            return Err(StoreError::NoMemory);
        }
    }
}

fn delete<T: Tables>(
    alloc: Global,
    store: &mut StoreVersion<T>,
    names: &StoreNames,
    range: &KeyRange,
    changes: &mut Deltas,
) -> Result<Value, StoreError>
    ensures ran { IfOk result (λ v. HasRunOn (Some store.old.store)
        (change_run (change.Delete range.entry) names.now) (Some (tree_of v)) (Some store.new.store) changes.old changes.new) }
    ensures refused { IsErrOf result StoreError.Constraint → ⊥ }
    ensures unchanged { OnErr result (store.new.store ≡ store.old.store) }
    ensures sound { IsStore store.new.store }
    ensures name { store.new.store.info.name ≡ store.old.store.info.name }
    ensures settled { store.new.settled ≡ store.old.settled }
{
    let before = store.mark();
    match delete_records(alloc, store, names, range, changes) {
        Ok(answer) => {
            let _ = store.info();
            return Ok(answer);
        }
        Err(NoMemory) => {
            take_back(store, before);
            return Err(StoreError::NoMemory);
        }
    }
}

fn clear<T: Tables>(
    alloc: Global,
    store: &mut StoreVersion<T>,
    names: &StoreNames,
    changes: &mut Deltas,
) -> Result<Value, StoreError>
    ensures ran { IfOk result (λ v. HasRunOn (Some store.old.store) (change_run change.Clear names.now)
        (Some (tree_of v)) (Some store.new.store) changes.old changes.new) }
    ensures refused { IsErrOf result StoreError.Constraint → ⊥ }
    ensures unchanged { OnErr result (store.new.store ≡ store.old.store) }
    ensures sound { IsStore store.new.store }
    ensures name { store.new.store.info.name ≡ store.old.store.info.name }
    ensures settled { store.new.settled ≡ store.old.settled }
{
    let before = store.mark();
    match clear_store(alloc, store, names, changes) {
        Ok(answer) => {
            let _ = store.info();
            return Ok(answer);
        }
        Err(NoMemory) => {
            take_back(store, before);
            return Err(StoreError::NoMemory);
        }
    }
}

/// Undoes what was done since.
fn take_back<T: Tables>(store: &mut StoreVersion<T>, mark: Mark)
    requires { IsMarkOf mark store.old }
    ensures store { store.new.store ≡ at_mark store.old mark.place mark.current }
    ensures sound { IsStore store.new.store }
    ensures settled { store.new.settled ≡ store.old.settled }
{
    let _ = store.info();
    store.undo_to(mark);
    let _ = store.mark();
}

fn add_index<T: Tables>(store: &mut StoreVersion<T>, index: IndexInfo) -> Result<Value, StoreError>
    requires { CanRun (change.AddIndex index) store.old.store }
    ensures ran { IfOk result (λ v. (names : StoreNames) (noted : List DeltaTree)
        → HasRunOn (Some store.old.store) (change_run (change.AddIndex index) names)
        (Some (tree_of v)) (Some store.new.store) noted noted) }
    ensures refused { IsErrOf result StoreError.Constraint → (names : StoreNames) (noted : List DeltaTree)
        → HasRunOn (Some store.old.store) (change_run (change.AddIndex index) names)
        None (Some store.new.store) noted noted }
    ensures unchanged { OnErr result (store.new.store ≡ store.old.store) }
    ensures sound { IsStore store.new.store }
    ensures name { store.new.store.info.name ≡ store.old.store.info.name }
    ensures settled { store.new.settled ≡ store.old.settled }
{
    match store.add_index(index) {
        Ok(()) => {
            let _ = store.info();
            return Ok(Value::Undefined);
        }
        Err(IndexError::Constraint { key: _ }) => {
            let _ = store.info();
            return Err(StoreError::Constraint);
        }
        Err(IndexError::NoMemory) => {
            let _ = store.info();
            return Err(StoreError::NoMemory);
        }
    }
}

fn drop_index<T: Tables>(store: &mut StoreVersion<T>, name: &Text) -> Result<Value, StoreError>
    ensures ran { IfOk result (λ v. (names : StoreNames) (noted : List DeltaTree)
        → HasRunOn (Some store.old.store) (change_run (change.DropIndex name.entry) names)
        (Some (tree_of v)) (Some store.new.store) noted noted) }
    ensures refused { IsErrOf result StoreError.Constraint → ⊥ }
    ensures unchanged { OnErr result (store.new.store ≡ store.old.store) }
    ensures sound { IsStore store.new.store }
    ensures name { store.new.store.info.name ≡ store.old.store.info.name }
    ensures settled { store.new.settled ≡ store.old.settled }
{
    match place_of(&store.info().indexes, name) {
        Some(place) => match store.drop_index(place) {
            Ok(()) => {
                let _ = store.info();
                return Ok(Value::Undefined);
            }
            Err(NoMemory) => {
                let _ = store.info();
                return Err(StoreError::NoMemory);
            }
        },
        None => return Ok(Value::Undefined),
    }
}

/// The place of the index of this name; `None` where there is none.
fn place_of(indexes: &IndexInfos, name: &Text) -> Option<usize>
    ensures value { result ≡ index_named indexes.now name.now }
    ensures within { IfSome result (λ place. place < length indexes.now) }
{
    let name = name.as_str();
    indexes
        .as_slice()
        .iter()
        .position(|i| i.name.as_str() == name)
}

/// Does it on a held store.
fn run_held<T: Tables>(
    alloc: Global,
    held: &mut Held<T>,
    names: &StoreNames,
    change: StoreChange,
    changes: &mut Deltas,
) -> Result<Value, StoreError>
    requires { CanRun change (held_store held.old) }
    ensures ran { IfOk result (λ v. HasRunOn (Some (held_store held.old)) (change_run change.entry names.now)
        (Some (tree_of v)) (Some (held_store held.new)) changes.old changes.new) }
    ensures refused { IsErrOf result StoreError.Constraint
        → HasRunOn (Some (held_store held.old)) (change_run change.entry names.now)
        None (Some (held_store held.new)) changes.old changes.new }
    ensures unchanged { OnErr result (held_store held.new ≡ held_store held.old) }
    ensures before { held_before held.new ≡ held_before held.old }
    ensures named { (name : Name) → IsStoreNamed name (held_store held.old)
        → IsStoreNamed name (held_store held.new) }
{
    match make_own(held) {
        Ok(()) => {}
        Err(NoMemory) => {
            drop(change);
            return Err(StoreError::NoMemory);
        }
    }
    match held {
        Held::Own(store) => return run(alloc, store, names, change, changes),
        Held::Shared(_) => unreachable!(),
    }
}

/// What is done where no store stands: nothing.
fn on_no_store(_change: StoreChange) -> Result<Value, StoreError>
    ensures value { IfOk result (λ v. tree_of v ≡ undefined) }
    ensures done { OnErr result ⊥ }
{
    Ok(Value::Undefined)
}

/// Does it on the store that stands here, if one does.
pub(crate) fn run_here<T: Tables>(
    alloc: Global,
    slot: &mut Slot<T>,
    names: &StoreNames,
    change: StoreChange,
    changes: &mut Deltas,
) -> Result<Value, StoreError>
    requires { CanRunOn change (slot_now slot.old) }
    ensures ran { IfOk result (λ v. HasRunOn (slot_now slot.old) (change_run change.entry names.now)
        (Some (tree_of v)) (slot_now slot.new) changes.old changes.new) }
    ensures refused { IsErrOf result StoreError.Constraint
        → HasRunOn (slot_now slot.old) (change_run change.entry names.now)
        None (slot_now slot.new) changes.old changes.new }
    ensures unchanged { OnErr result (slot_now slot.new ≡ slot_now slot.old) }
    ensures before { slot_before slot.new ≡ slot_before slot.old }
    ensures vacant { slot_now slot.old ≡ None → slot_now slot.new ≡ None }
    ensures named { (name : Name) → IsNamedIf name (slot_now slot.old) → IsNamedIf name (slot_now slot.new) }
{
    match slot {
        Slot::Vacant => return on_no_store(change),
        Slot::Stood(held) => return run_held(alloc, held, names, change, changes),
        Slot::Made(held) => return run_held(alloc, held, names, change, changes),
        Slot::Gone(_) => return on_no_store(change),
        Slot::Replaced { gone: _, made } => return run_held(alloc, made, names, change, changes),
    }
}
