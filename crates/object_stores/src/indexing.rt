// Indexes that come and go.
ghost use Rattle.std.specs.Prelude.{◌≡◌, ◌<◌, None, length, IfErr, OnOk, OnErr};
ghost use Rattle.idb_schema.specs.Definitions.{IsIndexInfo, index_named};
ghost use Rattle.range_reads.specs.Causes.{IsCause};
ghost use Rattle.range_reads.specs.Contents.{info_with_index, info_without_index};
ghost use Rattle.index_tables.specs.Unique.{broken_key};
ghost use Rattle.store_contents.specs.Store.{KeepsPlaces};
ghost use Rattle.object_stores.specs.Parts.{content_in, past_in, IsSound, IsReady};

use crate::changes::{Change, Parts};
use crate::changing::{note, ready};
use idb_base::NoMemory;
use idb_schema::IndexInfo;
use index_tables::Tables;
use range_reads::IndexError;

/// Makes an index, the last one, with the rows of all records.
pub(crate) fn add<T: Tables>(parts: &mut Parts<T>, info: IndexInfo) -> Result<(), IndexError>
    requires sound { IsSound parts.old }
    requires fits { IsIndexInfo info }
    requires new_name { index_named parts.old.contents.info.indexes info.name ≡ None }
    ensures sound { IsSound parts.new }
    ensures added { OnOk result (content_in parts.new
        ≡ record (content_in parts.old) { info = info_with_index parts.old.contents.info info }) }
    ensures unique { OnOk result (broken_key info parts.old.contents.records ≡ None) }
    ensures cause { IfErr result (λ e. IsCause e (broken_key info parts.old.contents.records)) }
    ensures unchanged { OnErr result (content_in parts.new ≡ content_in parts.old) }
    ensures past { KeepsPlaces (past_in parts.old) (content_in parts.old)
        (past_in parts.new) (content_in parts.new) }
{
    match ready(parts, 1, 0, 0) {
        Ok(()) => return add_ready(parts, info),
        Err(NoMemory) => return Err(IndexError::NoMemory),
    }
}

/// The same where memory for the change was taken.
fn add_ready<T: Tables>(parts: &mut Parts<T>, info: IndexInfo) -> Result<(), IndexError>
    requires sound { IsSound parts.old }
    requires ready { IsReady parts.old 1 0 0 }
    requires fits { IsIndexInfo info }
    requires new_name { index_named parts.old.contents.info.indexes info.name ≡ None }
    ensures sound { IsSound parts.new }
    ensures added { OnOk result (content_in parts.new
        ≡ record (content_in parts.old) { info = info_with_index parts.old.contents.info info }) }
    ensures unique { OnOk result (broken_key info parts.old.contents.records ≡ None) }
    ensures cause { IfErr result (λ e. IsCause e (broken_key info parts.old.contents.records)) }
    ensures unchanged { OnErr result (content_in parts.new ≡ content_in parts.old) }
    ensures past { KeepsPlaces (past_in parts.old) (content_in parts.old)
        (past_in parts.new) (content_in parts.new) }
{
    match parts.contents.add_index(info) {
        Ok(()) => {
            note(&mut parts.log, Change::IndexAdded);
            return Ok(());
        }
        Err(e) => return Err(e),
    }
}

/// Takes the index at this place away.
pub(crate) fn drop_at<T: Tables>(parts: &mut Parts<T>, place: usize) -> Result<(), NoMemory>
    requires sound { IsSound parts.old }
    requires within { place < length parts.old.contents.info.indexes }
    ensures sound { IsSound parts.new }
    ensures dropped { OnOk result (content_in parts.new
        ≡ record (content_in parts.old) { info = info_without_index parts.old.contents.info place }) }
    ensures unchanged { OnErr result (content_in parts.new ≡ content_in parts.old) }
    ensures past { KeepsPlaces (past_in parts.old) (content_in parts.old)
        (past_in parts.new) (content_in parts.new) }
{
    ready(parts, 1, 0, 0)?;
    let dropped = parts.contents.drop_index(place)?;
    note(&mut parts.log, Change::IndexDropped { dropped });
    Ok(())
}
