// Undoing the changes of a store, from the newest on. It takes no memory.
ghost use Rattle.std.specs.Prelude.{◌≡◌, ◌+◌, ◌<◌, ◌≤◌, [], ◌∷◌, ◌++◌, length, take};
ghost use Rattle.std.specs.FinMap as finite;
ghost use Rattle.clone_values.specs.View.{key_tree_of, tree_of};
ghost use Rattle.range_reads.specs.Contents.{info_without_last, info_with_index_at};
ghost use Rattle.store_contents.specs.Store.{content_at};
ghost use Rattle.object_stores.specs.Undo.{undone};
ghost use Rattle.object_stores.specs.Parts.{content_in, past_in, IsSound, IsOff};
ghost use Rattle.object_stores.specs.declared.changes.Change.TheVariants as change;

use crate::changes::{Change, Parts};
use clone_values::{Key, Value};
use index_tables::Tables;
use range_reads::{Dropped, Emptied, RowLists};

/// Undoes the newest change.
pub(crate) fn undo_one<T: Tables>(parts: &mut Parts<T>)
    requires sound { IsSound parts.old }
    requires some { 0 < length parts.old.log.items }
    ensures sound { IsSound parts.new }
    ensures past { past_in parts.old ≡ past_in parts.new ++ content_in parts.new ∷ [] }
    ensures fewer { length parts.new.log.items + 1 ≡ length parts.old.log.items }
{
    match parts.log.pop() {
        Some(change) => undo(parts, change),
        None => unreachable!(),
    }
}

fn undo<T: Tables>(parts: &mut Parts<T>, change: Change<T>)
    requires { IsOff change parts.old }
    ensures sound { IsSound parts.new }
    ensures content { content_in parts.new ≡ undone change (content_in parts.old) }
    ensures log { parts.new.log.items ≡ parts.old.log.items }
{
    match change {
        Change::Added { key, rows } => return undo_added(parts, &key, &rows),
        Change::Removed { key, value, rows } => return undo_removed(parts, key, value, rows),
        Change::Replaced {
            key,
            value,
            rows,
            new_rows,
        } => return undo_replaced(parts, &key, value, rows, &new_rows),
        Change::Revalued { key, value } => return undo_revalued(parts, &key, value),
        Change::Cleared {
            emptied,
            removed,
            rows,
        } => return undo_cleared(parts, emptied, removed, rows),
        Change::IndexAdded => return undo_index_added(parts),
        Change::IndexDropped { dropped } => return undo_index_dropped(parts, dropped),
    }
}

fn undo_added<T: Tables>(parts: &mut Parts<T>, key: &Key, rows: &RowLists)
    requires { IsOff (change.Added key.now rows.now) parts.old }
    ensures sound { IsSound parts.new }
    ensures content { content_in parts.new ≡ record (content_in parts.old) {
      records = finite.remove parts.old.contents.records (key_tree_of key.now);
    } }
    ensures log { parts.new.log.items ≡ parts.old.log.items }
{
    match parts.contents.find(key) {
        Ok(place) => {
            drop(parts.contents.take_out(place, rows));
        }
        Err(_) => unreachable!(),
    }
}

fn undo_removed<T: Tables>(parts: &mut Parts<T>, key: Key, value: Value, rows: RowLists)
    requires { IsOff (change.Removed key value rows) parts.old }
    ensures sound { IsSound parts.new }
    ensures content { content_in parts.new ≡ record (content_in parts.old) {
      records = finite.insert parts.old.contents.records (key_tree_of key) (tree_of value);
    } }
    ensures log { parts.new.log.items ≡ parts.old.log.items }
{
    parts.removed -= 1;
    parts.rows -= rows.count();
    match parts.contents.find(&key) {
        Ok(_) => unreachable!(),
        Err(place) => parts.contents.put_at(place, key, value, rows),
    }
}

fn undo_replaced<T: Tables>(
    parts: &mut Parts<T>,
    key: &Key,
    value: Value,
    rows: RowLists,
    new_rows: &RowLists,
)
    requires { IsOff (change.Replaced key.now value rows new_rows.now) parts.old }
    ensures sound { IsSound parts.new }
    ensures content { content_in parts.new ≡ record (content_in parts.old) {
      records = finite.insert parts.old.contents.records (key_tree_of key.now) (tree_of value);
    } }
    ensures log { parts.new.log.items ≡ parts.old.log.items }
{
    parts.rows -= rows.count();
    match parts.contents.find(key) {
        Ok(place) => {
            drop(parts.contents.replace_at(place, value, new_rows, rows));
        }
        Err(_) => unreachable!(),
    }
}

fn undo_revalued<T: Tables>(parts: &mut Parts<T>, key: &Key, value: Value)
    requires { IsOff (change.Revalued key.now value) parts.old }
    ensures sound { IsSound parts.new }
    ensures content { content_in parts.new ≡ record (content_in parts.old) {
      records = finite.insert parts.old.contents.records (key_tree_of key.now) (tree_of value);
    } }
    ensures log { parts.new.log.items ≡ parts.old.log.items }
{
    match parts.contents.find(key) {
        Ok(place) => {
            drop(parts.contents.revalue_at(place, value));
        }
        Err(_) => unreachable!(),
    }
}

fn undo_cleared<T: Tables>(parts: &mut Parts<T>, emptied: Emptied<T>, removed: usize, rows: usize)
    requires { IsOff (change.Cleared emptied removed rows) parts.old }
    ensures sound { IsSound parts.new }
    ensures content { content_in parts.new ≡ record (content_in parts.old) { records = emptied.records } }
    ensures log { parts.new.log.items ≡ parts.old.log.items }
{
    parts.contents.put_all_back(emptied);
    parts.removed = removed;
    parts.rows = rows;
}

fn undo_index_added<T: Tables>(parts: &mut Parts<T>)
    requires { IsOff change.IndexAdded parts.old }
    ensures sound { IsSound parts.new }
    ensures content { content_in parts.new
        ≡ record (content_in parts.old) { info = info_without_last parts.old.contents.info } }
    ensures log { parts.new.log.items ≡ parts.old.log.items }
{
    parts.contents.pop_index();
}

fn undo_index_dropped<T: Tables>(parts: &mut Parts<T>, dropped: Dropped<T>)
    requires { IsOff (change.IndexDropped dropped) parts.old }
    ensures sound { IsSound parts.new }
    ensures content { content_in parts.new ≡ record (content_in parts.old) {
      info = info_with_index_at parts.old.contents.info dropped.place dropped.index;
    } }
    ensures log { parts.new.log.items ≡ parts.old.log.items }
{
    parts.contents.put_back(dropped);
}

/// Undoes the newest changes until there are only so many.
pub(crate) fn undo_to<T: Tables>(parts: &mut Parts<T>, place: usize)
    requires sound { IsSound parts.old }
    requires place { place ≤ length (past_in parts.old) }
    ensures sound { IsSound parts.new }
    ensures content { content_in parts.new ≡ content_at (past_in parts.old) (content_in parts.old) place }
    ensures past { past_in parts.new ≡ take place (past_in parts.old) }
{
    while parts.log.len() > place {
        undo_one(parts);
    }
}

/// Forgets the changes.
pub(crate) fn forget<T: Tables>(parts: &mut Parts<T>)
    requires { IsSound parts.old }
    ensures sound { IsSound parts.new }
    ensures content { content_in parts.new ≡ content_in parts.old }
    ensures past { past_in parts.new ≡ [] }
{
    parts.log.clear();
    parts.removed = 0;
    parts.rows = 0;
}
