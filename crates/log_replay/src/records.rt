// The records of one batch.
ghost use Rattle.std.specs.Prelude.{◌≡◌, Some, None, OnOk, IsErrOf};
ghost use Rattle.std.specs.List.{AllByRecursion};
ghost use Rattle.record_bytes.specs.Records.{IsRecord};
ghost use Rattle.log_history.specs.Replayed.{after_records, after_payload};

use idb_databases::Databases;
use index_tables::Tables;
use record_bytes::{Records, read_batch};
use record_changes::{RecordError, change_by_record};
use std::alloc::Global;
use value_bytes::SpellingError;

/// Makes the changes of records, one record after the other. After an error nothing is said of the databases.
fn change_by_records<T: Tables>(
    alloc: Global,
    items: &mut Databases<T>,
    records: Records,
) -> Result<(), RecordError>
    requires { AllByRecursion IsRecord records }
    ensures made { OnOk result (after_records items.old records ≡ Some items.new) }
    ensures damaged { IsErrOf result RecordError.Damaged → after_records items.old records ≡ None }
{
    for logged in records.into_vec() {
        match change_by_record(alloc, items, logged) {
            Ok(()) => {}
            Err(e) => return Err(e),
        }
    }
    Ok(())
}

/// Makes the changes of a batch, of these bytes. `Damaged` comes where they are no batch, too. After an error nothing is said of the
/// databases.
pub(crate) fn change_by_batch<T: Tables>(
    alloc: Global,
    items: &mut Databases<T>,
    bytes: &[u8],
) -> Result<(), RecordError>
    ensures made { OnOk result (after_payload items.old bytes.now ≡ Some items.new) }
    ensures damaged { IsErrOf result RecordError.Damaged → after_payload items.old bytes.now ≡ None }
{
    match read_batch(alloc, bytes) {
        Ok(records) => match change_by_records(alloc, items, records) {
            Ok(()) => Ok(()),
            Err(e) => Err(e),
        },
        Err(SpellingError::NotInGrammar) => Err(RecordError::Damaged),
        Err(SpellingError::NoMemory) => Err(RecordError::NoMemory),
    }
}
