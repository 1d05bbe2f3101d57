// The changes of one record.
ghost use Rattle.std.specs.Prelude.{◌≡◌, true, false, Some, None, OnOk, IsErrOf};
ghost use Rattle.std.specs.List.{AllByRecursion};
ghost use Rattle.idb_calls.specs.View.{delta_of};
ghost use Rattle.item_changes.specs.Effects.{applied, applies, applied_all, all_apply};
ghost use Rattle.database_changes.specs.StoreChanges.{CanApply};
ghost use Rattle.record_bytes.specs.Records.{IsRecord};
ghost use Rattle.log_history.specs.Replayed.{after_record};
ghost use Rattle.record_changes.specs.Loosened.{meant, HasNoRecords};

use crate::changes::{change_apart, create_store, put_record};
use crate::error::RecordError;
use crate::index_changes::{drop_index, make_index};
use crate::restoring::restore;
use idb_calls::{Delta, Deltas};
use idb_databases::Databases;
use idb_schema::IndexInfo;
use index_tables::Tables;
use record_bytes::LogRecord;
use std::alloc::Global;

/// Makes one change.
fn make_change<T: Tables>(
    alloc: Global,
    items: &mut Databases<T>,
    aside: &mut Databases<T>,
    change: Delta,
) -> Result<(), RecordError>
    requires can { CanApply (delta_of change) }
    requires blank { HasNoRecords aside.old }
    ensures made { OnOk result (meant items.new aside.new
        ≡ applied (meant items.old aside.old) (delta_of change)) }
    ensures found { OnOk result (applies (meant items.old aside.old) (delta_of change) ≡ true) }
    ensures damaged { IsErrOf result RecordError.Damaged
        → applies (meant items.old aside.old) (delta_of change) ≡ false }
    ensures blank { OnOk result (HasNoRecords aside.new) }
{
    match change {
        Delta::CreateStore {
            db,
            store,
            path,
            auto,
        } => create_store(alloc, items, aside, db, store, path, auto),
        Delta::Put {
            db,
            store,
            key,
            value,
        } => put_record(alloc, items, aside, db, store, key, value),
        Delta::CreateIndex {
            db,
            store,
            index,
            path,
            unique,
            multi,
        } => {
            let index = IndexInfo {
                name: index,
                path,
                unique,
                multi,
            };
            make_index(alloc, items, aside, &db, &store, index)
        }
        Delta::DropIndex { db, store, index } => {
            drop_index(alloc, items, aside, &db, &store, index)
        }
        Delta::Version { db, version } => {
            change_apart(alloc, items, aside, Delta::Version { db, version })
        }
        Delta::DropDatabase { db } => {
            change_apart(alloc, items, aside, Delta::DropDatabase { db })
        }
        Delta::DropStore { db, store } => {
            change_apart(alloc, items, aside, Delta::DropStore { db, store })
        }
        Delta::Remove { db, store, key } => {
            change_apart(alloc, items, aside, Delta::Remove { db, store, key })
        }
        Delta::Clear { db, store } => {
            change_apart(alloc, items, aside, Delta::Clear { db, store })
        }
        Delta::Current { db, store, current } => {
            change_apart(alloc, items, aside, Delta::Current { db, store, current })
        }
    }
}

/// Makes changes, one after the other.
fn make_all<T: Tables>(
    alloc: Global,
    items: &mut Databases<T>,
    aside: &mut Databases<T>,
    changes: Deltas,
) -> Result<(), RecordError>
    requires can { AllByRecursion CanApply changes }
    requires blank { HasNoRecords aside.old }
    ensures made { OnOk result (meant items.new aside.new
        ≡ applied_all (meant items.old aside.old) changes) }
    ensures found { OnOk result (all_apply (meant items.old aside.old) changes ≡ true) }
    ensures damaged { IsErrOf result RecordError.Damaged
        → all_apply (meant items.old aside.old) changes ≡ false }
{
    for change in changes.into_vec() {
        match make_change(alloc, items, aside, change) {
            Ok(()) => {}
            Err(e) => return Err(e),
        }
    }
    Ok(())
}

/// Makes the changes of a record, in place. `Damaged` comes where the record doesn't apply: a change lacks what it names, or at the record's
/// end a unique index has two rows of one key, or there are more than 16 databases, or more than 63 stores in one. After an error nothing
/// is said of the databases.
pub fn change_by_record<T: Tables>(
    alloc: Global,
    items: &mut Databases<T>,
    record: LogRecord,
) -> Result<(), RecordError>
    requires { IsRecord «record» }
    ensures made { OnOk result (after_record items.old «record» ≡ Some items.new) }
    ensures damaged { IsErrOf result RecordError.Damaged → after_record items.old «record» ≡ None }
{
    let LogRecord { number: _, deltas } = record;
    let mut aside = Databases::new(alloc);
    match make_all(alloc, items, &mut aside, deltas) {
        Ok(()) => {}
        Err(e) => return Err(e),
    }
    match restore(alloc, items, aside) {
        Ok(()) => {}
        Err(e) => return Err(e),
    }
    let _whole = items.len();
    if items.are_within_limits() {
        Ok(())
    } else {
        Err(RecordError::Damaged)
    }
}
