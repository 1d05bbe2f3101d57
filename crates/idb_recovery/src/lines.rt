// What a look shows of the areas of a disk.
ghost use Rattle.std.specs.Prelude.{◌≡◌, ℕ, List, map, IfOk};
ghost use Rattle.gate_areas.specs.Scan.{StandsAs};
ghost use Rattle.gate_areas.specs.Sealed.{sealed_of};
ghost use Rattle.log_history.specs.Replayed.{records_of_payload};
ghost use Rattle.idb_recovery.specs.Lines.{tx_number_of, batch_line_of, lines_beside, area_shown};

use gate_areas::{Area, Batch, Batches, Scan};
use idb_base::{Listed, NoMemory};
use record_bytes::{LogRecord, read_batch};
use std::alloc::Global;
use value_bytes::SpellingError;

/// A batch, as a look shows it.
#[derive(Drop)]
pub struct BatchLine {
    /// The place of its gate in its area.
    pub place: u64,
    /// How many bytes its payload has.
    pub length: u64,
    /// The numbers of its transactions, in order.
    pub numbers: Listed<u64>,
}

/// Batches, in the order of their places.
pub type BatchLines = Listed<BatchLine>;

/// An area, as a look shows it.
#[derive(Drop)]
pub enum AreaFound {
    /// It is empty, or its head gate isn't open.
    Blank,
    /// It is open.
    Open {
        /// Its generation.
        generation: u64,
        /// Its batches, if it is the live one; else none.
        batches: BatchLines,
    },
}

/// The numbers of these transactions.
fn numbers_in(alloc: Global, records: &[LogRecord]) -> Result<Listed<u64>, NoMemory>
    ensures { IfOk result (λ numbers. numbers ≡ map tx_number_of records.now) }
{
    let mut numbers = Vec::new(alloc);
    for record in records {
        numbers.push(record.number)?;
    }
    Ok(Listed::from_vec(numbers))
}

/// The numbers of a batch's transactions; none where the bytes are no batch.
fn numbers_of(alloc: Global, bytes: &[u8]) -> Result<Listed<u64>, NoMemory>
    ensures { IfOk result (λ numbers. numbers ≡ map tx_number_of (records_of_payload bytes.now)) }
{
    match read_batch(alloc, bytes) {
        Ok(records) => numbers_in(alloc, records.as_slice()),
        Err(SpellingError::NotInGrammar) => Ok(Listed::new(alloc)),
        Err(SpellingError::NoMemory) => Err(NoMemory),
    }
}

fn batch_line_of(alloc: Global, batch: &Batch) -> Result<BatchLine, NoMemory>
    ensures { IfOk result (λ line. line ≡ batch_line_of (batch.now.place, batch.now.payload)) }
{
    Ok(BatchLine {
        place: batch.place,
        length: batch.payload.len() as u64,
        numbers: numbers_of(alloc, batch.payload.as_slice())?,
    })
}

/// A line for each of these batches.
pub(crate) fn lines_of(alloc: Global, batches: &Batches) -> Result<BatchLines, NoMemory>
    ensures { IfOk result (λ lines. lines ≡ map batch_line_of batches.now) }
{
    let mut lines = BatchLines::new(alloc);
    for place in 0..batches.len() {
        match batches.at(place) {
            Some(batch) => lines.push(batch_line_of(alloc, batch)?)?,
            None => unreachable!(),
        }
    }
    Ok(lines)
}

/// The lines of area 0 and those of area 1, where all are of this one.
pub(crate) fn dealt(alloc: Global, area: Area, lines: BatchLines) -> (BatchLines, BatchLines)
    ensures zero { result.0 ≡ lines_beside Area.Zero area lines }
    ensures one { result.1 ≡ lines_beside Area.One area lines }
{
    let none = BatchLines::new(alloc);
    match area {
        Area::Zero => (lines, none),
        Area::One => (none, lines),
    }
}

/// An area with these lines; the one with a fault is never shown.
pub(crate) fn area_shown(scan: Scan, lines: BatchLines) -> AreaFound
    ensures { (bytes : List ℕ) → StandsAs scan bytes → result ≡ area_shown lines (sealed_of bytes) }
{
    match scan {
        Scan::Open { generation, .. } => AreaFound::Open {
            generation,
            batches: lines,
        },
        Scan::Blank | Scan::Broken(_) => AreaFound::Blank,
    }
}
