// Where a key may be, told by abbreviations: no key is compared.
ghost use Rattle.std.specs.Prelude.{◌≡◌, ℤ, Option, ◌+◌, ◌<◌, ◌≤◌, true, length, slice_get, Some, IfSome, IsTrue, ◌⊎◌};
ghost use Rattle.sorted_table.specs.Orders.{precedes};
ghost use Rattle.leaf_blocks.specs.Leaves.{joined, before, leaf_at, rank, IsSpot};
ghost use Rattle.leaf_table.specs.Near.{IsNear, IsWithin, IsToldInFront, IsToldBehind};

use leaf_piles::{Guess, Pile, Seat};
use sorted_table::Ordered;

/// Places among which a key or a cut is, and the leaf that has them all, where one is known.
#[derive(Clone, Copy)]
pub(crate) struct Reach {
    pub(crate) low: usize,
    pub(crate) end: usize,
    pub(crate) leaf: Option<Seat>,
}

/// The pair at this place.
pub(crate) fn pair_at<K: Drop, V: Drop>(pile: &Pile<(K, V)>, place: usize) -> &(K, V)
    requires { place < length (joined (joined pile.now.blocks)) }
    ensures { slice_get (joined (joined pile.now.blocks)) place ≡ Some result.now }
{
    pair_in(pile, pile.seat(place))
}

/// The pair at this seat.
fn pair_in<K: Drop, V: Drop>(pile: &Pile<(K, V)>, seat: Seat) -> &(K, V)
    requires spot { IsSpot pile.now.blocks seat.block seat.leaf }
    requires offset { seat.offset
        < length (leaf_at (joined pile.now.blocks) (rank pile.now.blocks seat.block seat.leaf)) }
    ensures { slice_get (joined (joined pile.now.blocks))
        (before (joined pile.now.blocks) (rank pile.now.blocks seat.block seat.leaf) + seat.offset)
        ≡ Some result.now }
{
    &pile.leaf(seat)[seat.offset]
}

/// Where the key or the cut of this abbreviation may be.
pub(crate) fn near<K: Ordered, V: Drop>(pile: &Pile<(K, V)>, number: Option<i64>) -> Reach
    ensures near { IsNear K.abbreviated (joined (joined pile.now.blocks)) number result.low result.end }
    ensures leaf { IfSome result.leaf (λ seat.
        IsWithin pile.now.blocks seat.block seat.leaf result.low result.end) }
{
    match number {
        Some(n) => match pile.guess(n) {
            Some(guess) => near_guess(pile, number, guess),
            None => anywhere(pile),
        },
        None => anywhere(pile),
    }
}

/// All places.
fn anywhere<K: Ordered, V: Drop>(pile: &Pile<(K, V)>) -> Reach
    ensures low { result.low ≡ 0 }
    ensures end { result.end ≡ length (joined (joined pile.now.blocks)) }
    ensures leaf { IfSome result.leaf (λ seat.
        IsWithin pile.now.blocks seat.block seat.leaf result.low result.end) }
{
    Reach {
        low: 0,
        end: pile.count(),
        leaf: None,
    }
}

/// The same by a guess, which is looked at.
fn near_guess<K: Ordered, V: Drop>(pile: &Pile<(K, V)>, number: Option<i64>, guess: Guess) -> Reach
    requires first { IsSpot pile.now.blocks guess.first.block guess.first.leaf }
    requires last { IsSpot pile.now.blocks guess.last.block guess.last.leaf }
    ensures near { IsNear K.abbreviated (joined (joined pile.now.blocks)) number result.low result.end }
    ensures leaf { IfSome result.leaf (λ seat.
        IsWithin pile.now.blocks seat.block seat.leaf result.low result.end) }
{
    let low = low_at(pile, guess.first, number);
    let end = end_of(pile, guess.last, number);
    if end < low {
        return anywhere(pile);
    }
    Reach {
        low,
        end,
        leaf: leaf_with(pile, guess.first, low, end),
    }
}

/// This leaf, if it has all these places.
fn leaf_with<K: Ordered, V: Drop>(
    pile: &Pile<(K, V)>,
    seat: Seat,
    low: usize,
    end: usize,
) -> Option<Seat>
    requires spot { IsSpot pile.now.blocks seat.block seat.leaf }
    requires order { low ≤ end }
    ensures { IfSome result (λ seat. IsWithin pile.now.blocks seat.block seat.leaf low end) }
{
    if low != pile.start(seat) {
        return None;
    }
    if end - low > pile.size(seat) {
        return None;
    }
    Some(seat)
}

/// The place of the first key of this leaf, if it is told to be in front; else the first place.
fn low_at<K: Ordered, V: Drop>(pile: &Pile<(K, V)>, seat: Seat, number: Option<i64>) -> usize
    requires { IsSpot pile.now.blocks seat.block seat.leaf }
    ensures { (result ≡ 0) ⊎ IsToldInFront K.abbreviated (joined (joined pile.now.blocks)) result number }
{
    if pile.size(seat) == 0 {
        return 0;
    }
    if is_in_front(pile, seat_at(seat, 0), number) {
        pile.start(seat)
    } else {
        0
    }
}

/// Whether the key at this seat is told to be in front.
fn is_in_front<K: Ordered, V: Drop>(pile: &Pile<(K, V)>, seat: Seat, number: Option<i64>) -> bool
    requires spot { IsSpot pile.now.blocks seat.block seat.leaf }
    requires offset { seat.offset
        < length (leaf_at (joined pile.now.blocks) (rank pile.now.blocks seat.block seat.leaf)) }
    ensures { IsTrue result → IsToldInFront K.abbreviated (joined (joined pile.now.blocks))
        (before (joined pile.now.blocks) (rank pile.now.blocks seat.block seat.leaf) + seat.offset) number }
{
    is_less(pair_in(pile, seat).0.abbreviated(), number)
}

/// The place of the last key of this leaf, or of the first one behind it, if one is told to be behind; else the end.
fn end_of<K: Ordered, V: Drop>(pile: &Pile<(K, V)>, seat: Seat, number: Option<i64>) -> usize
    requires { IsSpot pile.now.blocks seat.block seat.leaf }
    ensures within { result ≤ length (joined (joined pile.now.blocks)) }
    ensures behind { (result ≡ length (joined (joined pile.now.blocks)))
        ⊎ IsToldBehind K.abbreviated (joined (joined pile.now.blocks)) result number }
{
    let count = pile.count();
    let size = pile.size(seat);
    if size == 0 {
        return count;
    }
    if is_behind(pile, seat_at(seat, size - 1), number) {
        return pile.start(seat) + (size - 1);
    }
    match pile.behind(seat) {
        Some(next) => first_of(pile, next, number),
        None => count,
    }
}

/// The place of the first key of this leaf, if it is told to be behind; else the end.
fn first_of<K: Ordered, V: Drop>(pile: &Pile<(K, V)>, seat: Seat, number: Option<i64>) -> usize
    requires { IsSpot pile.now.blocks seat.block seat.leaf }
    ensures within { result ≤ length (joined (joined pile.now.blocks)) }
    ensures behind { (result ≡ length (joined (joined pile.now.blocks)))
        ⊎ IsToldBehind K.abbreviated (joined (joined pile.now.blocks)) result number }
{
    if pile.size(seat) == 0 {
        return pile.count();
    }
    if is_behind(pile, seat_at(seat, 0), number) {
        pile.start(seat)
    } else {
        pile.count()
    }
}

/// Whether the key at this seat is told to be behind.
fn is_behind<K: Ordered, V: Drop>(pile: &Pile<(K, V)>, seat: Seat, number: Option<i64>) -> bool
    requires spot { IsSpot pile.now.blocks seat.block seat.leaf }
    requires offset { seat.offset
        < length (leaf_at (joined pile.now.blocks) (rank pile.now.blocks seat.block seat.leaf)) }
    ensures { IsTrue result → IsToldBehind K.abbreviated (joined (joined pile.now.blocks))
        (before (joined pile.now.blocks) (rank pile.now.blocks seat.block seat.leaf) + seat.offset) number }
{
    is_less(number, pair_in(pile, seat).0.abbreviated())
}

/// A place in this leaf.
fn seat_at(seat: Seat, offset: usize) -> Seat
    ensures block { result.block ≡ seat.block }
    ensures leaf { result.leaf ≡ seat.leaf }
    ensures offset { result.offset ≡ offset }
{
    Seat {
        block: seat.block,
        leaf: seat.leaf,
        offset,
    }
}

/// Whether one abbreviation is less than the other, where both are there.
fn is_less(a: Option<i64>, b: Option<i64>) -> bool
    ensures { result ≡ precedes a b }
{
    match (a, b) {
        (Some(m), Some(n)) => m < n,
        _ => false,
    }
}

/// Keeps the abbreviations of the leaves about this place.
pub(crate) fn note_about<K: Ordered, V: Drop>(pile: &mut Pile<(K, V)>, place: usize)
    ensures { pile.new ≡ pile.old }
{
    if place >= pile.count() {
        return;
    }
    let seat = pile.seat(place);
    note(pile, seat);
    if let Some(next) = pile.behind(seat) {
        note(pile, next);
    }
    if let Some(prior) = pile.ahead(seat) {
        note(pile, prior);
    }
}

/// Keeps the abbreviation of the first key of this leaf.
fn note<K: Ordered, V: Drop>(pile: &mut Pile<(K, V)>, seat: Seat)
    requires { IsSpot pile.old.blocks seat.block seat.leaf }
    ensures { pile.new ≡ pile.old }
{
    let head = head_of(pile.leaf(seat));
    pile.set_head(seat, head);
}

/// The abbreviation of the first key, or the least number.
fn head_of<K: Ordered, V: Drop>(pairs: &[(K, V)]) -> i64 {
    match pairs.first() {
        Some(pair) => pair.0.abbreviated().unwrap_or(i64::MIN),
        None => i64::MIN,
    }
}
