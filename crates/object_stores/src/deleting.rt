// Deleting the records of a range.
ghost use Rattle.std.specs.Prelude.{◌≡◌, ◌<◌, slice_get, Some, OnOk, OnErr};
ghost use Rattle.std.specs.FinMap as finite;
ghost use Rattle.clone_values.specs.KeyTree.{KeyTree};
ghost use Rattle.clone_values.specs.Tree.{Tree};
ghost use Rattle.store_contents.specs.Store.{KeepsPlaces};
ghost use Rattle.store_contents.specs.Changed.{outside_range};
ghost use Rattle.object_stores.specs.Parts.{content_in, past_in, IsSound};

use crate::changes::Parts;
use crate::changing::{ready, remove};
use crate::putting::rows_at;
use crate::undoing::undo_to;
use idb_base::NoMemory;
use idb_keys::{KeyRange, Over};
use index_tables::Tables;
use range_reads::span;

/// Takes the records in the range out, all or none.
pub(crate) fn delete<T: Tables>(parts: &mut Parts<T>, range: &KeyRange) -> Result<(), NoMemory>
    requires { IsSound parts.old }
    ensures sound { IsSound parts.new }
    ensures deleted { OnOk result (content_in parts.new
        ≡ record (content_in parts.old) { records = outside_range parts.old.contents.records range.now }) }
    ensures unchanged { OnErr result (content_in parts.new ≡ content_in parts.old) }
    ensures past { KeepsPlaces (past_in parts.old) (content_in parts.old)
        (past_in parts.new) (content_in parts.new) }
{
    let before = parts.log.len();
    match delete_each(parts, range) {
        Ok(()) => return Ok(()),
        Err(e) => {
            undo_to(parts, before);
            return Err(e);
        }
    }
}

/// Takes the records in the range out, the last one first. Where memory is wanting, some may be gone.
fn delete_each<T: Tables>(parts: &mut Parts<T>, range: &KeyRange) -> Result<(), NoMemory>
    requires { IsSound parts.old }
    ensures sound { IsSound parts.new }
    ensures deleted { OnOk result (content_in parts.new
        ≡ record (content_in parts.old) { records = outside_range parts.old.contents.records range.now }) }
    ensures past { KeepsPlaces (past_in parts.old) (content_in parts.old)
        (past_in parts.new) (content_in parts.new) }
{
    loop {
        let (start, past) = span(&parts.contents, Over::Store, Some(range));
        if start == past {
            return Ok(());
        }
        take_at(parts, past - 1)?;
    }
}

/// Takes the record at this place out.
fn take_at<T: Tables>(parts: &mut Parts<T>, place: usize) -> Result<(), NoMemory>
    requires sound { IsSound parts.old }
    requires within { place < finite.len parts.old.contents.records }
    ensures sound { IsSound parts.new }
    ensures taken { OnOk result ((k : KeyTree) (v : Tree)
        → slice_get (finite.entries parts.old.contents.records) place ≡ Some (k, v)
        → content_in parts.new
        ≡ record (content_in parts.old) { records = finite.remove parts.old.contents.records k }) }
    ensures fewer { OnOk result (finite.len parts.new.contents.records
        < finite.len parts.old.contents.records) }
    ensures past { KeepsPlaces (past_in parts.old) (content_in parts.old)
        (past_in parts.new) (content_in parts.new) }
{
    let rows = rows_at(parts, place)?;
    ready(parts, 1, 1, rows.count())?;
    remove(parts, place, rows);
    Ok(())
}
