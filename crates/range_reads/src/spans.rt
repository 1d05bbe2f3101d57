// Where the members of a range stand.
ghost use Rattle.std.specs.Prelude.{◌≡◌, ◌-◌, ◌≤◌, length, take, drop};
ghost use Rattle.indexed_records.specs.Ends.{IsFirstFrom};
ghost use Rattle.range_reads.specs.PastLast.{IsPastLast};
ghost use Rattle.indexed_records.specs.Reading.{members_in, limited, selected, asked};

use idb_keys::{KeyRange, Over};
use indexed_records::{IndexedRecords, Tables};

/// The place of the first record or row whose key is in the range, and the place behind the last, both found by halving;
/// without a range, all of them. Where none is in it, the two places are one. It takes no memory.
pub fn span<T: Tables>(
    records: &IndexedRecords<T>,
    over: Over,
    range: Option<&KeyRange>,
) -> (usize, usize)
    ensures order { result.0 ≤ result.1 }
    ensures within { result.1 ≤ length (members_in records.now.info.indexes records.now.records over) }
    ensures selected { take (result.1 - result.0)
        (drop result.0 (members_in records.now.info.indexes records.now.records over))
        ≡ selected (asked range.entry) (members_in records.now.info.indexes records.now.records over) }
{
    match range {
        Some(range) => span_of(records, over, range),
        None => (0, records.row_count(over)),
    }
}

/// The span of a range that is given.
fn span_of<T: Tables>(records: &IndexedRecords<T>, over: Over, range: &KeyRange) -> (usize, usize)
    ensures order { result.0 ≤ result.1 }
    ensures within { result.1 ≤ length (members_in records.now.info.indexes records.now.records over) }
    ensures selected { take (result.1 - result.0)
        (drop result.0 (members_in records.now.info.indexes records.now.records over))
        ≡ selected range.now (members_in records.now.info.indexes records.now.records over) }
{
    let start = lower_end(records, over, range);
    let past = upper_end(records, over, range);
    if past < start {
        (start, start)
    } else {
        (start, past)
    }
}

/// The place of the first member that meets the range's lower bound.
pub(crate) fn lower_end<T: Tables>(
    records: &IndexedRecords<T>,
    over: Over,
    range: &KeyRange,
) -> usize
    ensures { IsFirstFrom range.now.lower
        (members_in records.now.info.indexes records.now.records over) result }
{
    match range.lower_bound() {
        Some((key, is_open)) => records.first_from(over, Some(key), is_open),
        None => 0,
    }
}

/// The place of the first member that does not meet the range's upper bound: its key meets that bound turned round.
fn upper_end<T: Tables>(records: &IndexedRecords<T>, over: Over, range: &KeyRange) -> usize
    ensures { IsPastLast range.now.upper
        (members_in records.now.info.indexes records.now.records over) result }
{
    match range.upper_bound() {
        Some((key, is_open)) => records.first_from(over, Some(key), !is_open),
        None => records.row_count(over),
    }
}

/// The span of the first so many members of a range; 0 is no limit.
pub(crate) fn limited_span<T: Tables>(
    records: &IndexedRecords<T>,
    over: Over,
    range: Option<&KeyRange>,
    limit: u32,
) -> (usize, usize)
    ensures order { result.0 ≤ result.1 }
    ensures limited { take (result.1 - result.0)
        (drop result.0 (members_in records.now.info.indexes records.now.records over))
        ≡ limited limit
        (selected (asked range.entry) (members_in records.now.info.indexes records.now.records over)) }
{
    let (start, past) = span(records, over, range);
    let most = limit as usize;
    if most == 0 || past - start <= most {
        (start, past)
    } else {
        (start, start + most)
    }
}

/// How many records or rows have their key in the range ("count the records in a range"); without a range, how many there
/// are. It takes no memory.
pub fn count<T: Tables>(records: &IndexedRecords<T>, over: Over, range: Option<&KeyRange>) -> u64
    ensures { result ≡ length (selected (asked range.entry)
        (members_in records.now.info.indexes records.now.records over)) }
{
    let (start, past) = span(records, over, range);
    (past - start) as u64
}
