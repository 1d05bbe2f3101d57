// Places in a slice of entries, found by halving.
ghost use Rattle.std.specs.Prelude.{◌≡◌, ℕ, ◌+◌, ◌-◌, ◌*◌, ◌^◌, ◌≤◌, length, drop, IfOk, IfErr};
ghost use Rattle.sorted_table.specs.Halves.{IsSplitAt, IsSplitBetween, StaysPassed};
ghost use Rattle.sorted_table.specs.Tables.{IsSorted, AreAbove, HasKeyAt, BelongsAt};

use crate::cut::Cut;
use crate::order::Ordered;
use crate::steps::Steps;
use std::cmp::Ordering;
use std::sync::ledger::Ledger;

/// How the key stands to the key of an entry, and one step more.
pub(crate) fn compared<K: Ordered, L: Ledger>(key: &K, other: &K, steps: &mut Steps<L>) -> Ordering
    ensures value { result ≡ K.order key.now other.now }
    ensures counted { steps.new ≡ steps.old + 1 }
{
    steps.tick();
    key.order(other)
}

/// The place of the key in a slice of entries, or the place where it would stand; the first comparison is with the last
/// entry. It takes no memory, and at most one comparison more than the number of entries has binary digits.
pub fn place_in<K: Ordered, V: Drop, L: Ledger>(
    entries: &[(K, V)],
    key: &K,
    steps: &mut Steps<L>,
) -> Result<usize, usize>
    requires { IsSorted K.order entries.now }
    ensures found { IfOk result (λ place. HasKeyAt K.order entries.now place key.now) }
    ensures absent { IfErr result (λ place. BelongsAt K.order entries.now place key.now) }
    ensures counted { steps.old ≤ steps.new }
    ensures cost { 2 ^ (steps.new - steps.old) ≤ 4 * length entries.now + 2 }
{
    let count = entries.len();
    if count == 0 {
        return Err(0);
    }
    let last = count - 1;
    match compared(key, &entries[last].0, steps) {
        Ordering::Less => place_before(entries, last, key, steps),
        Ordering::Greater => Err(last + 1),
        Ordering::Equal => Ok(last),
    }
}

/// The same of a key that is less than those from `high` on.
fn place_before<K: Ordered, V: Drop, L: Ledger>(
    entries: &[(K, V)],
    high: usize,
    key: &K,
    steps: &mut Steps<L>,
) -> Result<usize, usize>
    requires sorted { IsSorted K.order entries.now }
    requires within { high ≤ length entries.now }
    requires above { AreAbove K.order (drop high entries.now) key.now }
    ensures found { IfOk result (λ place. HasKeyAt K.order entries.now place key.now) }
    ensures absent { IfErr result (λ place. BelongsAt K.order entries.now place key.now) }
    ensures counted { steps.old ≤ steps.new }
    ensures cost { 2 ^ (steps.new - steps.old) ≤ 2 * high + 1 }
{
    let mut low = 0;
    let mut end = high;
    while low < end {
        let middle = low + (end - low) / 2;
        match compared(key, &entries[middle].0, steps) {
            Ordering::Less => end = middle,
            Ordering::Greater => low = middle + 1,
            Ordering::Equal => return Ok(middle),
        }
    }
    Err(low)
}

/// Whether the key of an entry lies behind the cut, and one step more.
fn passed<K: Ordered, C: Cut<K>, L: Ledger>(cut: &C, key: &K, steps: &mut Steps<L>) -> bool
    ensures value { result ≡ C.passes cut.now key.now }
    ensures counted { steps.new ≡ steps.old + 1 }
{
    steps.tick();
    cut.passes(key)
}

/// The place of the first entry of a slice whose key lies behind the cut, or the number of entries; the first question is about
/// the last entry. It takes no memory, and at most one question more than the number of entries has binary digits.
pub fn first_in<K: Ordered, V: Drop, C: Cut<K>, L: Ledger>(
    entries: &[(K, V)],
    cut: &C,
    steps: &mut Steps<L>,
) -> usize
    requires { StaysPassed (λ e. C.passes cut.now e.0) entries.now }
    ensures split { IsSplitAt (λ e. C.passes cut.now e.0) entries.now result }
    ensures counted { steps.old ≤ steps.new }
    ensures cost { 2 ^ (steps.new - steps.old) ≤ 4 * length entries.now + 2 }
{
    let count = entries.len();
    if count == 0 {
        return 0;
    }
    let last = count - 1;
    if passed(cut, &entries[last].0, steps) {
        first_before(entries, last, cut, steps)
    } else {
        count
    }
}

/// The same where those from `high` on lie behind it.
fn first_before<K: Ordered, V: Drop, C: Cut<K>, L: Ledger>(
    entries: &[(K, V)],
    high: usize,
    cut: &C,
    steps: &mut Steps<L>,
) -> usize
    requires rises { StaysPassed (λ e. C.passes cut.now e.0) entries.now }
    requires high { IsSplitBetween (λ e. C.passes cut.now e.0) entries.now 0 high }
    ensures split { IsSplitAt (λ e. C.passes cut.now e.0) entries.now result }
    ensures counted { steps.old ≤ steps.new }
    ensures cost { 2 ^ (steps.new - steps.old) ≤ 2 * high + 1 }
{
    let mut low = 0;
    let mut end = high;
    while low < end {
        let middle = low + (end - low) / 2;
        if passed(cut, &entries[middle].0, steps) {
            end = middle;
        } else {
            low = middle + 1;
        }
    }
    low
}
