// All batches of a log.
ghost use Rattle.std.specs.Prelude.{◌≡◌, ℕ, Ok, Err, IfOk};
ghost use Rattle.log_history.specs.Replayed.{replayed};
ghost use Rattle.log_replay.specs.Places.{HavePlaces};

use crate::error::ReplayError;
use crate::records::change_by_batch;
use gate_log::Batches;
use idb_databases::Databases;
use index_tables::Tables;
use record_changes::RecordError;
use std::alloc::Global;

/// The databases that these batches give, from none on. `Damaged` has the place of the first batch that gives none: that of its payload.
/// The batches are read once, in order; how long a record takes depends on its own changes and, where it clashes with a unique index in
/// its middle, on the records of the stores where it does.
pub fn replay<T: Tables>(alloc: Global, batches: &Batches) -> Result<Databases<T>, ReplayError>
    requires { HavePlaces batches.now }
    ensures items { IfOk result (λ items. replayed batches.now ≡ Ok items) }
    ensures damaged { (place : ℕ) → result ≡ Err (ReplayError.Damaged place)
        → replayed batches.now ≡ Err place }
{
    let mut items = Databases::new(alloc);
    for index in 0..batches.len() {
        match batches.at(index) {
            Some(batch) => match change_by_batch(alloc, &mut items, batch.payload.as_slice()) {
                Ok(()) => {}
                Err(RecordError::Damaged) => {
                    return Err(ReplayError::Damaged {
                        place: batch.place + 9,
                    });
                }
                Err(RecordError::NoMemory) => return Err(ReplayError::NoMemory),
            },
            None => unreachable!(),
        }
    }
    Ok(items)
}
