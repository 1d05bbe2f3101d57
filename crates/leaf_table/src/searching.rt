// Places of keys and cuts, found by abbreviations and halving.
ghost use Rattle.std.specs.Prelude.{◌≡◌, ℕ, ◌+◌, ◌-◌, ◌*◌, ◌^◌, ◌<◌, ◌≤◌, length, take, drop, IfOk, IfErr};
ghost use Rattle.sorted_table.specs.Halves.{IsSplitAt, IsSplitBetween, StaysPassed};
ghost use Rattle.sorted_table.specs.Tables.{IsSorted, AreBelow, AreAbove, HasKeyAt, BelongsAt};
ghost use Rattle.leaf_blocks.specs.Leaves.{joined, AreLeaves};
ghost use Rattle.leaf_table.specs.Near.{IsNear, IsWithin};

use crate::near::{near, pair_at};
use leaf_piles::{Pile, Seat};
use sorted_table::{Cut, Ordered, Steps, first_in, place_in};
use std::cmp::Ordering;
use std::sync::ledger::Ledger;

/// The place of the key, or the place where it would stand.
pub(crate) fn place_among<K: Ordered, V: Drop, L: Ledger>(
    pile: &Pile<(K, V)>,
    key: &K,
    steps: &mut Steps<L>,
) -> Result<usize, usize>
    requires sorted { IsSorted K.order (joined (joined pile.now.blocks)) }
    requires filled { AreLeaves (joined pile.now.blocks) }
    ensures found { IfOk result (λ place. HasKeyAt K.order (joined (joined pile.now.blocks)) place key.now) }
    ensures absent { IfErr result (λ place.
        BelongsAt K.order (joined (joined pile.now.blocks)) place key.now) }
    ensures counted { steps.old ≤ steps.new }
    ensures cost { 2 ^ (steps.new - steps.old) ≤ 4 * length (joined (joined pile.now.blocks)) + 2 }
{
    let reach = near(pile, key.abbreviated());
    match reach.leaf {
        Some(seat) => place_in_leaf(pile, seat, reach.low, reach.end, key, steps),
        None => place_before(pile, reach.low, reach.end, key, steps),
    }
}

/// The same where one leaf has all that is near.
fn place_in_leaf<K: Ordered, V: Drop, L: Ledger>(
    pile: &Pile<(K, V)>,
    seat: Seat,
    low: usize,
    end: usize,
    key: &K,
    steps: &mut Steps<L>,
) -> Result<usize, usize>
    requires sorted { IsSorted K.order (joined (joined pile.now.blocks)) }
    requires near { IsNear K.abbreviated (joined (joined pile.now.blocks)) (K.abbreviated key.now) low end }
    requires leaf { IsWithin pile.now.blocks seat.block seat.leaf low end }
    requires filled { AreLeaves (joined pile.now.blocks) }
    ensures found { IfOk result (λ place. HasKeyAt K.order (joined (joined pile.now.blocks)) place key.now) }
    ensures absent { IfErr result (λ place.
        BelongsAt K.order (joined (joined pile.now.blocks)) place key.now) }
    ensures counted { steps.old ≤ steps.new }
    ensures cost { 2 ^ (steps.new - steps.old) ≤ 4 * length (joined (joined pile.now.blocks)) + 2 }
{
    match place_in(pile.leaf(seat), key, steps) {
        Ok(place) => Ok(low + place),
        Err(place) => Err(low + place),
    }
}

/// How the key stands to the key of an entry, and one step more.
fn compared<K: Ordered, L: Ledger>(key: &K, other: &K, steps: &mut Steps<L>) -> Ordering
    ensures value { result ≡ K.order key.now other.now }
    ensures counted { steps.new ≡ steps.old + 1 }
{
    steps.tick();
    key.order(other)
}

/// The same where nothing is told but these places; the first comparison is with the last entry of all, where it is among them.
fn place_before<K: Ordered, V: Drop, L: Ledger>(
    pile: &Pile<(K, V)>,
    low: usize,
    end: usize,
    key: &K,
    steps: &mut Steps<L>,
) -> Result<usize, usize>
    requires sorted { IsSorted K.order (joined (joined pile.now.blocks)) }
    requires near { IsNear K.abbreviated (joined (joined pile.now.blocks)) (K.abbreviated key.now) low end }
    ensures found { IfOk result (λ place. HasKeyAt K.order (joined (joined pile.now.blocks)) place key.now) }
    ensures absent { IfErr result (λ place.
        BelongsAt K.order (joined (joined pile.now.blocks)) place key.now) }
    ensures counted { steps.old ≤ steps.new }
    ensures cost { 2 ^ (steps.new - steps.old) ≤ 4 * length (joined (joined pile.now.blocks)) + 2 }
{
    let count = pile.count();
    if low == end || end < count {
        return place_between(pile, low, end, key, steps);
    }
    let last = count - 1;
    match compared(key, &pair_at(pile, last).0, steps) {
        Ordering::Less => place_between(pile, low, last, key, steps),
        Ordering::Greater => Err(count),
        Ordering::Equal => Ok(last),
    }
}

/// The same of a key that is greater than those in front of `low`, and less than those from `end` on.
fn place_between<K: Ordered, V: Drop, L: Ledger>(
    pile: &Pile<(K, V)>,
    low: usize,
    end: usize,
    key: &K,
    steps: &mut Steps<L>,
) -> Result<usize, usize>
    requires sorted { IsSorted K.order (joined (joined pile.now.blocks)) }
    requires order { low ≤ end }
    requires within { end ≤ length (joined (joined pile.now.blocks)) }
    requires below { AreBelow K.order (take low (joined (joined pile.now.blocks))) key.now }
    requires above { AreAbove K.order (drop end (joined (joined pile.now.blocks))) key.now }
    ensures found { IfOk result (λ place. HasKeyAt K.order (joined (joined pile.now.blocks)) place key.now) }
    ensures absent { IfErr result (λ place.
        BelongsAt K.order (joined (joined pile.now.blocks)) place key.now) }
    ensures counted { steps.old ≤ steps.new }
    ensures cost { 2 ^ (steps.new - steps.old) ≤ 2 * (end - low) + 1 }
{
    let mut from = low;
    let mut to = end;
    while from < to {
        let middle = from + (to - from) / 2;
        match compared(key, &pair_at(pile, middle).0, steps) {
            Ordering::Less => to = middle,
            Ordering::Greater => from = middle + 1,
            Ordering::Equal => return Ok(middle),
        }
    }
    Err(from)
}

/// The place of the first entry whose key lies behind the cut, or the number of entries.
pub(crate) fn first_among<K: Ordered, V: Drop, C: Cut<K>, L: Ledger>(
    pile: &Pile<(K, V)>,
    cut: &C,
    steps: &mut Steps<L>,
) -> usize
    requires stays { StaysPassed (λ e. C.passes cut.now e.0) (joined (joined pile.now.blocks)) }
    requires filled { AreLeaves (joined pile.now.blocks) }
    ensures split { IsSplitAt (λ e. C.passes cut.now e.0) (joined (joined pile.now.blocks)) result }
    ensures counted { steps.old ≤ steps.new }
    ensures cost { 2 ^ (steps.new - steps.old) ≤ 4 * length (joined (joined pile.now.blocks)) + 2 }
{
    let reach = near(pile, cut.abbreviated());
    match reach.leaf {
        Some(seat) => first_in_leaf(pile, seat, reach.low, reach.end, cut, steps),
        None => first_before(pile, reach.low, reach.end, cut, steps),
    }
}

/// The same where one leaf has all that is near.
fn first_in_leaf<K: Ordered, V: Drop, C: Cut<K>, L: Ledger>(
    pile: &Pile<(K, V)>,
    seat: Seat,
    low: usize,
    end: usize,
    cut: &C,
    steps: &mut Steps<L>,
) -> usize
    requires stays { StaysPassed (λ e. C.passes cut.now e.0) (joined (joined pile.now.blocks)) }
    requires near { IsNear K.abbreviated (joined (joined pile.now.blocks)) (C.abbreviated cut.now) low end }
    requires leaf { IsWithin pile.now.blocks seat.block seat.leaf low end }
    requires filled { AreLeaves (joined pile.now.blocks) }
    ensures split { IsSplitAt (λ e. C.passes cut.now e.0) (joined (joined pile.now.blocks)) result }
    ensures counted { steps.old ≤ steps.new }
    ensures cost { 2 ^ (steps.new - steps.old) ≤ 4 * length (joined (joined pile.now.blocks)) + 2 }
{
    low + first_in(pile.leaf(seat), cut, steps)
}

/// Whether the key of an entry lies behind the cut, and one step more.
fn passed<K: Ordered, C: Cut<K>, L: Ledger>(cut: &C, key: &K, steps: &mut Steps<L>) -> bool
    ensures value { result ≡ C.passes cut.now key.now }
    ensures counted { steps.new ≡ steps.old + 1 }
{
    steps.tick();
    cut.passes(key)
}

/// The same where nothing is told but these places; the first question is about the last entry of all, where it is among them.
fn first_before<K: Ordered, V: Drop, C: Cut<K>, L: Ledger>(
    pile: &Pile<(K, V)>,
    low: usize,
    end: usize,
    cut: &C,
    steps: &mut Steps<L>,
) -> usize
    requires stays { StaysPassed (λ e. C.passes cut.now e.0) (joined (joined pile.now.blocks)) }
    requires near { IsNear K.abbreviated (joined (joined pile.now.blocks)) (C.abbreviated cut.now) low end }
    ensures split { IsSplitAt (λ e. C.passes cut.now e.0) (joined (joined pile.now.blocks)) result }
    ensures counted { steps.old ≤ steps.new }
    ensures cost { 2 ^ (steps.new - steps.old) ≤ 4 * length (joined (joined pile.now.blocks)) + 2 }
{
    let count = pile.count();
    if low == end || end < count {
        return first_between(pile, low, end, cut, steps);
    }
    let last = count - 1;
    if passed(cut, &pair_at(pile, last).0, steps) {
        first_between(pile, low, last, cut, steps)
    } else {
        count
    }
}

/// The same where those in front of `low` lie in front of it, and those from `end` on behind it.
fn first_between<K: Ordered, V: Drop, C: Cut<K>, L: Ledger>(
    pile: &Pile<(K, V)>,
    low: usize,
    end: usize,
    cut: &C,
    steps: &mut Steps<L>,
) -> usize
    requires stays { StaysPassed (λ e. C.passes cut.now e.0) (joined (joined pile.now.blocks)) }
    requires between { IsSplitBetween (λ e. C.passes cut.now e.0) (joined (joined pile.now.blocks)) low end }
    ensures split { IsSplitAt (λ e. C.passes cut.now e.0) (joined (joined pile.now.blocks)) result }
    ensures counted { steps.old ≤ steps.new }
    ensures cost { 2 ^ (steps.new - steps.old) ≤ 2 * (end - low) + 1 }
{
    let mut from = low;
    let mut to = end;
    while from < to {
        let middle = from + (to - from) / 2;
        if passed(cut, &pair_at(pile, middle).0, steps) {
            to = middle;
        } else {
            from = middle + 1;
        }
    }
    from
}

/// The entries of a leaf from this place on; none past the end.
pub(crate) fn run_from<K: Drop, V: Drop>(pile: &Pile<(K, V)>, place: usize) -> &[(K, V)]
    ensures entries { result.now ≡ take (length result.now) (drop place (joined (joined pile.now.blocks))) }
    ensures some { place < length (joined (joined pile.now.blocks)) → 0 < length result.now }
{
    if place >= pile.count() {
        return &[];
    }
    let seat = pile.seat(place);
    &pile.leaf(seat)[seat.offset..]
}
