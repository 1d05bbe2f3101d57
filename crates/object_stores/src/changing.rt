// The changes of a store, each logged with what undoes it.
ghost use Rattle.std.specs.Prelude.{◌≡◌, ℕ, ◌+◌, ◌<◌, ◌≤◌, [], ◌∷◌, ◌++◌, length, slice_get, Some, true, false, OnOk};
ghost use Rattle.std.specs.Vec.{vec_capacity};
ghost use Rattle.std.specs.FinMap as finite;
ghost use Rattle.clone_values.specs.KeyTree.{KeyTree};
ghost use Rattle.clone_values.specs.Tree.{Tree};
ghost use Rattle.clone_values.specs.View.{key_tree_of, tree_of};
ghost use Rattle.index_tables.specs.Unique.{is_broken};
ghost use Rattle.range_reads.specs.Contents.{rows_in_indexes, rows_among, IsRecordAt, IsGapOf};
ghost use Rattle.range_reads.specs.Sameness.{gives_same_rows};
ghost use Rattle.store_contents.specs.IsStore.{IsStored};
ghost use Rattle.object_stores.specs.Parts.{content_in, past_in, IsSound, IsReady};
ghost use Rattle.object_stores.specs.declared.changes.Change.TheVariants as change;

use crate::changes::{Change, Parts};
use clone_values::{Key, Value};
use idb_base::NoMemory;
use index_tables::{Tables, unique_laws};
use range_reads::{Emptied, RowLists, plus};
use std::mem;

/// Takes the memory for changes, and for records and rows that come or can come back.
pub(crate) fn ready<T: Tables>(
    parts: &mut Parts<T>,
    changes: usize,
    records: usize,
    rows: usize,
) -> Result<(), NoMemory>
    requires { IsSound parts.old }
    ensures sound { IsSound parts.new }
    ensures content { content_in parts.new ≡ content_in parts.old }
    ensures log { parts.new.log.items ≡ parts.old.log.items }
    ensures ready { OnOk result (IsReady parts.new changes records rows) }
{
    let records = plus(parts.removed, records)?;
    let rows = plus(parts.rows, rows)?;
    parts.log.reserve(changes)?;
    parts.contents.reserve(records, rows)
}

pub(crate) fn note<T: Tables>(log: &mut Vec<Change<T>>, change: Change<T>)
    requires { length log.old.items < vec_capacity log.old }
    ensures items { log.new.items ≡ log.old.items ++ change ∷ [] }
{
    match log.push(change) {
        Ok(()) => {}
        Err(_) => unreachable!(),
    }
}

/// Puts a record in at its place. The copies of its key and of its rows undo it.
pub(crate) fn add<T: Tables>(
    parts: &mut Parts<T>,
    place: usize,
    key: Key,
    value: Value,
    rows: RowLists,
    key_copy: Key,
    rows_copy: RowLists,
)
    requires sound { IsSound parts.old }
    requires ready { IsReady parts.old 1 1 (rows_among rows) }
    requires key { key_copy ≡ key }
    requires copy { rows_copy ≡ rows }
    requires rows { rows ≡ rows_in_indexes parts.old.contents.info.indexes (key_tree_of key) (tree_of value) }
    requires gap { IsGapOf parts.old.contents.records place (key_tree_of key) }
    requires fits { IsStored (key_tree_of key) (tree_of value) }
    requires unique { is_broken parts.old.contents.info.indexes
        (finite.insert parts.old.contents.records (key_tree_of key) (tree_of value)) ≡ false }
    ensures sound { IsSound parts.new }
    ensures content { content_in parts.new ≡ record (content_in parts.old) {
      records = finite.insert parts.old.contents.records (key_tree_of key) (tree_of value);
    } }
    ensures past { past_in parts.new ≡ past_in parts.old ++ content_in parts.old ∷ [] }
{
    parts.contents.put_at(place, key, value, rows);
    note(
        &mut parts.log,
        Change::Added {
            key: key_copy,
            rows: rows_copy,
        },
    );
}

/// Puts another value into the record of this key, which stands at this place. The old value and its rows undo it.
pub(crate) fn replace<T: Tables>(
    parts: &mut Parts<T>,
    place: usize,
    key: Key,
    value: Value,
    old_rows: RowLists,
    rows: RowLists,
    rows_copy: RowLists,
)
    requires sound { IsSound parts.old }
    requires ready { IsReady parts.old 1 0 (rows_among old_rows + rows_among rows) }
    requires there { (old : Tree) × IsRecordAt parts.old.contents.records place (key_tree_of key) old }
    requires copy { rows_copy ≡ rows }
    requires old_rows { (k : KeyTree) (v : Tree)
        → slice_get (finite.entries parts.old.contents.records) place ≡ Some (k, v)
        → old_rows ≡ rows_in_indexes parts.old.contents.info.indexes k v }
    requires rows { rows ≡ rows_in_indexes parts.old.contents.info.indexes (key_tree_of key) (tree_of value) }
    requires fits { IsStored (key_tree_of key) (tree_of value) }
    requires unique { is_broken parts.old.contents.info.indexes
        (finite.insert parts.old.contents.records (key_tree_of key) (tree_of value)) ≡ false }
    ensures sound { IsSound parts.new }
    ensures content { content_in parts.new ≡ record (content_in parts.old) {
      records = finite.insert parts.old.contents.records (key_tree_of key) (tree_of value);
    } }
    ensures past { past_in parts.new ≡ past_in parts.old ++ content_in parts.old ∷ [] }
{
    let old = parts.contents.replace_at(place, value, &old_rows, rows);
    parts.rows += old_rows.count();
    note(
        &mut parts.log,
        Change::Replaced {
            key,
            value: old,
            rows: old_rows,
            new_rows: rows_copy,
        },
    );
}

/// Puts another value, which gives the same rows, into the record of this key, which stands at this place. The old value
/// undoes it.
pub(crate) fn revalue<T: Tables>(parts: &mut Parts<T>, place: usize, key: Key, value: Value)
    requires sound { IsSound parts.old }
    requires ready { IsReady parts.old 1 0 0 }
    requires there { (old : Tree) × IsRecordAt parts.old.contents.records place (key_tree_of key) old }
    requires same_rows { (k : KeyTree) (v : Tree)
        → slice_get (finite.entries parts.old.contents.records) place ≡ Some (k, v)
        → gives_same_rows parts.old.contents.info.indexes v (tree_of value) ≡ true }
    requires fits { IsStored (key_tree_of key) (tree_of value) }
    ensures sound { IsSound parts.new }
    ensures content { content_in parts.new ≡ record (content_in parts.old) {
      records = finite.insert parts.old.contents.records (key_tree_of key) (tree_of value);
    } }
    ensures past { past_in parts.new ≡ past_in parts.old ++ content_in parts.old ∷ [] }
{
    let old = parts.contents.revalue_at(place, value);
    note(&mut parts.log, Change::Revalued { key, value: old });
}

/// Takes the record at this place out. Its rows undo it.
pub(crate) fn remove<T: Tables>(parts: &mut Parts<T>, place: usize, rows: RowLists)
    requires sound { IsSound parts.old }
    requires ready { IsReady parts.old 1 1 (rows_among rows) }
    requires within { place < finite.len parts.old.contents.records }
    requires rows { (k : KeyTree) (v : Tree)
        → slice_get (finite.entries parts.old.contents.records) place ≡ Some (k, v)
        → rows ≡ rows_in_indexes parts.old.contents.info.indexes k v }
    ensures sound { IsSound parts.new }
    ensures content { (k : KeyTree) (v : Tree)
        → slice_get (finite.entries parts.old.contents.records) place ≡ Some (k, v)
        → content_in parts.new
        ≡ record (content_in parts.old) { records = finite.remove parts.old.contents.records k } }
    ensures fewer { finite.len parts.new.contents.records < finite.len parts.old.contents.records }
    ensures past { past_in parts.new ≡ past_in parts.old ++ content_in parts.old ∷ [] }
{
    unique_laws();
    let (key, value) = parts.contents.take_out(place, &rows);
    parts.removed += 1;
    parts.rows += rows.count();
    note(&mut parts.log, Change::Removed { key, value, rows });
}

/// Logs that all records went, which undoes it.
pub(crate) fn note_cleared<T: Tables>(parts: &mut Parts<T>, emptied: Emptied<T>)
    requires room { length parts.old.log.items < vec_capacity parts.old.log }
    ensures contents { parts.new.contents ≡ parts.old.contents }
    ensures items { parts.new.log.items
        ≡ parts.old.log.items ++ change.Cleared emptied parts.old.removed parts.old.rows ∷ [] }
    ensures removed { parts.new.removed ≡ 0 }
    ensures rows { parts.new.rows ≡ 0 }
{
    let removed = mem::replace(&mut parts.removed, 0);
    let rows = mem::replace(&mut parts.rows, 0);
    note(
        &mut parts.log,
        Change::Cleared {
            emptied,
            removed,
            rows,
        },
    );
}
