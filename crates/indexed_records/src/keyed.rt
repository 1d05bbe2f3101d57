// One record put into a table of records, one replaced, and one taken out.
ghost use Rattle.std.specs.Prelude.{◌≡◌, ◌+◌, ◌<◌, ◌≤◌, Some, slice_get};
ghost use Rattle.std.specs.FinMap as finite;
ghost use Rattle.clone_values.specs.Tree.{Tree};
ghost use Rattle.clone_values.specs.KeyTree.{KeyTree};
ghost use Rattle.clone_values.specs.View.{key_tree_of, tree_of};
ghost use Rattle.store_contents.specs.Contents.{IsRecordAt, IsGapOf};
ghost use Rattle.store_contents.specs.View.{records_of};

use clone_values::{Key, Value};
use sorted_table::OrderedTable;

/// Puts a new record in its place.
pub(crate) fn put_record<R: OrderedTable<Key, Value>>(
    records: &mut R,
    place: usize,
    key: Key,
    value: Value,
)
    requires room { 0 < R.spare records.old }
    requires gap { IsGapOf (records_of (R.entries records.old)) place (key_tree_of key) }
    ensures records { records_of (R.entries records.new)
        ≡ finite.insert (records_of (R.entries records.old)) (key_tree_of key) (tree_of value) }
    ensures spare { R.spare records.old ≤ R.spare records.new + 1 }
{
    records.insert_at(place, key, value);
}

/// Puts another value into the record at this place, and gives the one that it had.
pub(crate) fn replace_record<R: OrderedTable<Key, Value>>(
    records: &mut R,
    place: usize,
    value: Value,
) -> Value
    requires { place < finite.len (records_of (R.entries records.old)) }
    ensures given { (k : KeyTree) (v : Tree)
        → slice_get (finite.entries (records_of (R.entries records.old))) place ≡ Some (k, v)
        → tree_of result ≡ v }
    ensures records { (k : KeyTree) (v : Tree)
        → slice_get (finite.entries (records_of (R.entries records.old))) place ≡ Some (k, v)
        → records_of (R.entries records.new)
        ≡ finite.insert (records_of (R.entries records.old)) k (tree_of value) }
    ensures spare { R.spare records.new ≡ R.spare records.old }
{
    records.replace(place, value)
}

/// Takes the record at this place out.
pub(crate) fn take_record<R: OrderedTable<Key, Value>>(
    records: &mut R,
    place: usize,
) -> (Key, Value)
    requires { place < finite.len (records_of (R.entries records.old)) }
    ensures taken { IsRecordAt (records_of (R.entries records.old)) place
        (key_tree_of result.0) (tree_of result.1) }
    ensures left { records_of (R.entries records.new)
        ≡ finite.remove (records_of (R.entries records.old)) (key_tree_of result.0) }
    ensures spare { R.spare records.old ≤ R.spare records.new }
{
    records.remove(place)
}
