// Putting a record under its key.
ghost use Rattle.std.specs.Prelude.{◌≡◌, ◌+◌, ◌<◌, not, false, if◌then◌else◌, Some, slice_get, is_some, IfOk, IfSome, OnErr};
ghost use Rattle.std.specs.FinMap as finite;
ghost use Rattle.clone_values.specs.View.{key_tree_of, tree_of};
ghost use Rattle.clone_values.specs.KeyTree.{KeyTree};
ghost use Rattle.clone_values.specs.Tree.{Tree};
ghost use Rattle.index_tables.specs.Unique.{is_broken};
ghost use Rattle.range_reads.specs.Contents.{rows_in_indexes, rows_among, IsRecordAt, IsGapOf};
ghost use Rattle.range_reads.specs.Sameness.{gives_same_rows};
ghost use Rattle.store_contents.specs.IsStore.{IsStored};
ghost use Rattle.store_contents.specs.Store.{KeepsPlaces};
ghost use Rattle.store_contents.specs.Storing.{content_with, is_refused};
ghost use Rattle.object_stores.specs.Parts.{content_in, past_in, IsSound, IsReady};

use crate::changes::Parts;
use crate::changing::{add, ready, replace, revalue};
use clone_values::{Key, Value};
use idb_base::NoMemory;
use index_tables::Tables;
use range_reads::{RowLists, plus};
use std::alloc::Global;

/// Puts a record in, in place of one that has its key unless that is to be kept. Without a key in the answer nothing
/// changed.
pub(crate) fn put<T: Tables>(
    alloc: Global,
    parts: &mut Parts<T>,
    key: Key,
    value: Value,
    keep: bool,
) -> Result<Option<Key>, NoMemory>
    requires sound { IsSound parts.old }
    requires fits { IsStored (key_tree_of key) (tree_of value) }
    ensures sound { IsSound parts.new }
    ensures key { IfOk result (λ k. IfSome k (λ k. k ≡ key)) }
    ensures stored { IfOk result (λ k. is_some k
        ≡ not (is_refused parts.old.contents.info.indexes parts.old.contents.records keep
        (key_tree_of key) (tree_of value))) }
    ensures content { IfOk result (λ k. content_in parts.new
        ≡ (if is_some k then content_with (content_in parts.old) (key_tree_of key) (tree_of value)
        else content_in parts.old)) }
    ensures unchanged { OnErr result (content_in parts.new ≡ content_in parts.old) }
    ensures past { KeepsPlaces (past_in parts.old) (content_in parts.old)
        (past_in parts.new) (content_in parts.new) }
{
    let answer = key.copy(alloc)?;
    if put_record(alloc, parts, key, value, keep)? {
        return Ok(Some(answer));
    }
    drop(answer);
    Ok(None)
}

/// The same, and whether the record was put in.
fn put_record<T: Tables>(
    alloc: Global,
    parts: &mut Parts<T>,
    key: Key,
    value: Value,
    keep: bool,
) -> Result<bool, NoMemory>
    requires sound { IsSound parts.old }
    requires fits { IsStored (key_tree_of key) (tree_of value) }
    ensures sound { IsSound parts.new }
    ensures stored { IfOk result (λ b. b
        ≡ not (is_refused parts.old.contents.info.indexes parts.old.contents.records keep
        (key_tree_of key) (tree_of value))) }
    ensures content { IfOk result (λ b. content_in parts.new
        ≡ (if b then content_with (content_in parts.old) (key_tree_of key) (tree_of value)
        else content_in parts.old)) }
    ensures unchanged { OnErr result (content_in parts.new ≡ content_in parts.old) }
    ensures past { KeepsPlaces (past_in parts.old) (content_in parts.old)
        (past_in parts.new) (content_in parts.new) }
{
    match parts.contents.find(&key) {
        Err(place) => return put_new(alloc, parts, place, key, value),
        Ok(place) => {
            if keep {
                drop(value);
                drop(key);
                return Ok(false);
            }
            return put_over(alloc, parts, place, key, value);
        }
    }
}

/// Puts a record in at the place of its key, which no record has, unless a unique index would have two rows of one key.
fn put_new<T: Tables>(
    alloc: Global,
    parts: &mut Parts<T>,
    place: usize,
    key: Key,
    value: Value,
) -> Result<bool, NoMemory>
    requires sound { IsSound parts.old }
    requires gap { IsGapOf parts.old.contents.records place (key_tree_of key) }
    requires fits { IsStored (key_tree_of key) (tree_of value) }
    ensures sound { IsSound parts.new }
    ensures stored { IfOk result (λ b. b ≡ not (is_broken parts.old.contents.info.indexes
        (finite.insert parts.old.contents.records (key_tree_of key) (tree_of value)))) }
    ensures content { IfOk result (λ b. content_in parts.new
        ≡ (if b then content_with (content_in parts.old) (key_tree_of key) (tree_of value)
        else content_in parts.old)) }
    ensures unchanged { OnErr result (content_in parts.new ≡ content_in parts.old) }
    ensures past { KeepsPlaces (past_in parts.old) (content_in parts.old)
        (past_in parts.new) (content_in parts.new) }
{
    let key_copy = key.copy(alloc)?;
    let Some((rows, rows_copy)) = rows_ready(alloc, parts, &key, &value, 1, 0)? else {
        drop(key_copy);
        drop(value);
        drop(key);
        return Ok(false);
    };
    add(parts, place, key, value, rows, key_copy, rows_copy);
    Ok(true)
}

/// Puts another value into the record that stands here, unless a unique index would have two rows of one key.
fn put_over<T: Tables>(
    alloc: Global,
    parts: &mut Parts<T>,
    place: usize,
    key: Key,
    value: Value,
) -> Result<bool, NoMemory>
    requires sound { IsSound parts.old }
    requires there { (old : Tree) × IsRecordAt parts.old.contents.records place (key_tree_of key) old }
    requires fits { IsStored (key_tree_of key) (tree_of value) }
    ensures sound { IsSound parts.new }
    ensures stored { IfOk result (λ b. b ≡ not (is_broken parts.old.contents.info.indexes
        (finite.insert parts.old.contents.records (key_tree_of key) (tree_of value)))) }
    ensures content { IfOk result (λ b. content_in parts.new
        ≡ (if b then content_with (content_in parts.old) (key_tree_of key) (tree_of value)
        else content_in parts.old)) }
    ensures unchanged { OnErr result (content_in parts.new ≡ content_in parts.old) }
    ensures past { KeepsPlaces (past_in parts.old) (content_in parts.old)
        (past_in parts.new) (content_in parts.new) }
{
    if !keeps_rows(parts, place, &value)? {
        return put_over_rows(alloc, parts, place, key, value);
    }
    ready(parts, 1, 0, 0)?;
    revalue(parts, place, key, value);
    Ok(true)
}

/// Whether the record that stands here has the same rows with this value.
fn keeps_rows<T: Tables>(parts: &Parts<T>, place: usize, value: &Value) -> Result<bool, NoMemory>
    requires { place < finite.len parts.now.contents.records }
    ensures { IfOk result (λ same. (k : KeyTree) (v : Tree)
        → slice_get (finite.entries parts.now.contents.records) place ≡ Some (k, v)
        → same ≡ gives_same_rows parts.now.contents.info.indexes v (tree_of value.now)) }
{
    match parts.contents.record_at(place) {
        Some((_, old)) => Ok(parts.contents.gives_same_rows(old, value)?),
        None => unreachable!(),
    }
}

/// The same where rows may come and go.
fn put_over_rows<T: Tables>(
    alloc: Global,
    parts: &mut Parts<T>,
    place: usize,
    key: Key,
    value: Value,
) -> Result<bool, NoMemory>
    requires sound { IsSound parts.old }
    requires there { (old : Tree) × IsRecordAt parts.old.contents.records place (key_tree_of key) old }
    requires fits { IsStored (key_tree_of key) (tree_of value) }
    ensures sound { IsSound parts.new }
    ensures stored { IfOk result (λ b. b ≡ not (is_broken parts.old.contents.info.indexes
        (finite.insert parts.old.contents.records (key_tree_of key) (tree_of value)))) }
    ensures content { IfOk result (λ b. content_in parts.new
        ≡ (if b then content_with (content_in parts.old) (key_tree_of key) (tree_of value)
        else content_in parts.old)) }
    ensures unchanged { OnErr result (content_in parts.new ≡ content_in parts.old) }
    ensures past { KeepsPlaces (past_in parts.old) (content_in parts.old)
        (past_in parts.new) (content_in parts.new) }
{
    let old_rows = rows_at(parts, place)?;
    let Some((rows, rows_copy)) = rows_ready(alloc, parts, &key, &value, 0, old_rows.count())?
    else {
        drop(old_rows);
        drop(value);
        drop(key);
        return Ok(false);
    };
    replace(parts, place, key, value, old_rows, rows, rows_copy);
    Ok(true)
}

/// The rows of the record and a copy of them, with the memory for a change and for them beside so many old rows. There are
/// none where a unique index would have two rows of one key.
fn rows_ready<T: Tables>(
    alloc: Global,
    parts: &mut Parts<T>,
    key: &Key,
    value: &Value,
    records: usize,
    old: usize,
) -> Result<Option<(RowLists, RowLists)>, NoMemory>
    requires sound { IsSound parts.old }
    ensures sound { IsSound parts.new }
    ensures content { content_in parts.new ≡ content_in parts.old }
    ensures log { parts.new.log.items ≡ parts.old.log.items }
    ensures ready { IfOk result (λ r. IfSome r (λ p. IsReady parts.new 1 records (old + rows_among p.0))) }
    ensures rows { IfOk result (λ r. IfSome r (λ p. p.0 ≡ rows_in_indexes parts.new.contents.info.indexes
        (key_tree_of key.now) (tree_of value.now))) }
    ensures copy { IfOk result (λ r. IfSome r (λ p. p.1 ≡ p.0)) }
    ensures unique { IfOk result (λ r. IfSome r (λ p. is_broken parts.new.contents.info.indexes
        (finite.insert parts.new.contents.records (key_tree_of key.now) (tree_of value.now)) ≡ false)) }
    ensures stored { IfOk result (λ r. is_some r ≡ not (is_broken parts.old.contents.info.indexes
        (finite.insert parts.old.contents.records (key_tree_of key.now) (tree_of value.now)))) }
{
    let rows = parts.contents.rows_for(key, value)?;
    ready(parts, 1, records, plus(old, rows.count())?)?;
    if parts.contents.clashes(key, &rows) {
        return Ok(None);
    }
    let copy = rows.copy(alloc)?;
    Ok(Some((rows, copy)))
}

/// The rows of the record at this place, index by index.
pub(crate) fn rows_at<T: Tables>(parts: &Parts<T>, place: usize) -> Result<RowLists, NoMemory>
    requires { place < finite.len parts.now.contents.records }
    ensures { IfOk result (λ r. (k : KeyTree) (v : Tree)
        → slice_get (finite.entries parts.now.contents.records) place ≡ Some (k, v)
        → r ≡ rows_in_indexes parts.now.contents.info.indexes k v) }
{
    match parts.contents.record_at(place) {
        Some((key, value)) => Ok(parts.contents.rows_for(key, value)?),
        None => unreachable!(),
    }
}
