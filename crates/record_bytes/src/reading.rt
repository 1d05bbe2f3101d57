// Records and batches, read from their bytes.
ghost use Rattle.std.specs.Prelude.{List, Some, None, IfOk, IsErrOf};
ghost use Rattle.idb_base.specs.Results.{Gives};
ghost use Rattle.value_bytes.specs.Steps.{IsUnspelled, counted_at};
ghost use Rattle.record_bytes.specs.declared.records.LogRecord.{LogRecord};
ghost use Rattle.record_bytes.specs.Records.{SpellsBatch};
ghost use Rattle.record_bytes.specs.Reading.{delta_at, record_at, records_in_batch};

use crate::delta_reading::delta_from;
use crate::records::{LogRecord, Records};
use idb_calls::Deltas;
use std::alloc::Global;
use value_bytes::{SpellingError, count_from, word_from};

/// A count, and so many changes.
fn deltas_from(alloc: Global, rest: &mut &[u8]) -> Result<Deltas, SpellingError>
    ensures { Gives IsUnspelled (λ x. (x, rest.new.now)) result (counted_at delta_at rest.old.now) }
{
    let count = count_from(rest)?;
    let mut deltas = Vec::new(alloc);
    for _ in 0..count {
        let delta = delta_from(alloc, rest)?;
        deltas.push(delta)?;
    }
    Ok(Deltas::from_vec(deltas))
}

#[tactic(auto, unfolding(crate::specs::Reading::record_at))]
fn record_from(alloc: Global, rest: &mut &[u8]) -> Result<LogRecord, SpellingError>
    ensures { Gives IsUnspelled (λ r. (r, rest.new.now)) result (record_at rest.old.now) }
{
    let number = word_from(rest)?;
    let deltas = deltas_from(alloc, rest)?;
    Ok(LogRecord { number, deltas })
}

/// A count, and so many records.
fn records_from(alloc: Global, rest: &mut &[u8]) -> Result<Records, SpellingError>
    ensures { Gives IsUnspelled (λ x. (x, rest.new.now)) result (counted_at record_at rest.old.now) }
{
    let count = count_from(rest)?;
    let mut records = Vec::new(alloc);
    for _ in 0..count {
        let record = record_from(alloc, rest)?;
        records.push(record)?;
    }
    Ok(Records::from_vec(records))
}

/// One record or more, of which the bytes are the batch.
#[tactic(auto, unfolding(crate::specs::Reading::records_in_batch))]
fn batch_from(alloc: Global, bytes: &[u8]) -> Result<Records, SpellingError>
    ensures { Gives IsUnspelled (λ rs. rs) result (records_in_batch bytes.now) }
{
    let mut rest = bytes;
    let records = records_from(alloc, &mut rest)?;
    if records.len() >= 1 && rest.is_empty() {
        Ok(records)
    } else {
        Err(SpellingError::NotInGrammar)
    }
}

/// The records of which these bytes, all of them, are the batch. `NotInGrammar` comes exactly where they are no batch: also
/// where bytes follow it, and where it has no record. How much memory is asked for depends on the bytes that are there, and not
/// on a count that they state.
pub fn read_batch(alloc: Global, bytes: &[u8]) -> Result<Records, SpellingError>
    ensures found { IfOk result (λ rs. SpellsBatch bytes.now rs) }
    ensures refused { IsErrOf result SpellingError.NotInGrammar
        → (rs : List LogRecord) → ¬ (SpellsBatch bytes.now rs) }
    ensures read { Gives IsUnspelled (λ rs. rs) result (records_in_batch bytes.now) }
{
    batch_from(alloc, bytes)
}
