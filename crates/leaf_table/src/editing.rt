// Items put into leaves and taken out.
ghost use Rattle.std.specs.Prelude.{◌≡◌, ◌+◌, ◌-◌, ◌^◌, ◌<◌, ◌≤◌, [], length, slice_get, slice_set, insert, remove, Some, IfSome, IfNone, ◌⊎◌};
ghost use Rattle.sorted_table.specs.Tables.{value_there, with_value};
ghost use Rattle.leaf_blocks.specs.Leaves.{joined, before, leaf_at, rank, spare_of, AreLeaves, IsSpot};

use leaf_blocks::{HALF, MOST};
use leaf_piles::{Pile, Seat};

/// Puts an item before the one at this place. Whether a leaf may have another first item.
pub(crate) fn put_in<T: Drop>(pile: &mut Pile<T>, place: usize, item: T) -> bool
    requires filled { AreLeaves (joined pile.old.blocks) }
    requires within { place ≤ length (joined (joined pile.old.blocks)) }
    requires room { 0 < spare_of (joined pile.old.blocks) pile.old.free }
    ensures items { joined (joined pile.new.blocks) ≡ insert (joined (joined pile.old.blocks)) place item }
    ensures filled { AreLeaves (joined pile.new.blocks) }
    ensures spare { spare_of (joined pile.old.blocks) pile.old.free
        ≤ spare_of (joined pile.new.blocks) pile.new.free + 1 }
{
    if pile.len() == 0 {
        pile.begin(item);
        return true;
    }
    let seat = pile.seat(place);
    if pile.size(seat) < MOST {
        pile.put(seat, item);
        return seat.offset == 0;
    }
    let full = pile.make_room(seat);
    pile.split(full);
    pile.put(seat_in_half(full), item);
    true
}

/// Where a seat of a full leaf is once the leaf is split.
fn seat_in_half(seat: Seat) -> Seat
    requires { seat.leaf < 2 ^ 40 }
    ensures block { result.block ≡ seat.block }
    ensures half { ((seat.offset ≤ 32) × (result.leaf ≡ seat.leaf) × (result.offset ≡ seat.offset))
        ⊎ ((32 < seat.offset) × (result.leaf ≡ seat.leaf + 1) × (result.offset + 32 ≡ seat.offset)) }
{
    if seat.offset <= HALF {
        seat
    } else {
        Seat {
            block: seat.block,
            leaf: seat.leaf + 1,
            offset: seat.offset - HALF,
        }
    }
}

/// Takes the item at this place out. Whether a leaf may have another first item comes with it.
pub(crate) fn take_from<T: Drop>(pile: &mut Pile<T>, place: usize) -> (T, bool)
    requires filled { AreLeaves (joined pile.old.blocks) }
    requires within { place < length (joined (joined pile.old.blocks)) }
    ensures taken { slice_get (joined (joined pile.old.blocks)) place ≡ Some result.0 }
    ensures left { joined (joined pile.new.blocks) ≡ remove (joined (joined pile.old.blocks)) place }
    ensures filled { AreLeaves (joined pile.new.blocks) }
    ensures spare { spare_of (joined pile.old.blocks) pile.old.free
        ≤ spare_of (joined pile.new.blocks) pile.new.free }
{
    let seat = pile.seat(place);
    let item = pile.take(seat);
    if pile.size(seat) == 0 {
        pile.leave_out(seat);
        return (item, false);
    }
    if let Some(next) = few_behind(pile, seat) {
        pile.join(seat, next);
        return (item, true);
    }
    if let Some(prior) = few_before(pile, seat) {
        pile.join(prior, seat);
        return (item, false);
    }
    (item, seat.offset == 0)
}

/// The leaf behind this one, if the two have at most 32 items together.
fn few_behind<T: Drop>(pile: &Pile<T>, seat: Seat) -> Option<Seat>
    requires { IsSpot pile.now.blocks seat.block seat.leaf }
    ensures spot { IfSome result (λ next. IsSpot pile.now.blocks next.block next.leaf) }
    ensures next { IfSome result (λ next. rank pile.now.blocks next.block next.leaf
        ≡ rank pile.now.blocks seat.block seat.leaf + 1) }
    ensures few { IfSome result (λ next.
        length (leaf_at (joined pile.now.blocks) (rank pile.now.blocks seat.block seat.leaf))
        + length (leaf_at (joined pile.now.blocks) (rank pile.now.blocks seat.block seat.leaf + 1)) ≤ 32) }
    ensures many { IfNone result
        (rank pile.now.blocks seat.block seat.leaf + 1 < length (joined pile.now.blocks)
        → 32 < length (leaf_at (joined pile.now.blocks) (rank pile.now.blocks seat.block seat.leaf))
        + length (leaf_at (joined pile.now.blocks) (rank pile.now.blocks seat.block seat.leaf + 1))) }
{
    let next = pile.behind(seat)?;
    if pile.size(seat) + pile.size(next) <= HALF {
        Some(next)
    } else {
        None
    }
}

/// The leaf before this one, if the two have at most 32 items together.
fn few_before<T: Drop>(pile: &Pile<T>, seat: Seat) -> Option<Seat>
    requires { IsSpot pile.now.blocks seat.block seat.leaf }
    ensures spot { IfSome result (λ prior. IsSpot pile.now.blocks prior.block prior.leaf) }
    ensures prior { IfSome result (λ prior. rank pile.now.blocks prior.block prior.leaf + 1
        ≡ rank pile.now.blocks seat.block seat.leaf) }
    ensures few { IfSome result (λ prior.
        length (leaf_at (joined pile.now.blocks) (rank pile.now.blocks seat.block seat.leaf - 1))
        + length (leaf_at (joined pile.now.blocks) (rank pile.now.blocks seat.block seat.leaf)) ≤ 32) }
    ensures many { IfNone result (0 < rank pile.now.blocks seat.block seat.leaf
        → 32 < length (leaf_at (joined pile.now.blocks) (rank pile.now.blocks seat.block seat.leaf - 1))
        + length (leaf_at (joined pile.now.blocks) (rank pile.now.blocks seat.block seat.leaf))) }
{
    let prior = pile.ahead(seat)?;
    if pile.size(prior) + pile.size(seat) <= HALF {
        Some(prior)
    } else {
        None
    }
}

/// Puts another value into the pair at this place.
pub(crate) fn replace_in<K: Drop, V: Drop>(pile: &mut Pile<(K, V)>, place: usize, value: V) -> V
    requires filled { AreLeaves (joined pile.old.blocks) }
    requires within { place < length (joined (joined pile.old.blocks)) }
    ensures given { value_there (joined (joined pile.old.blocks)) place ≡ Some result }
    ensures items { joined (joined pile.new.blocks)
        ≡ with_value (joined (joined pile.old.blocks)) place value }
    ensures filled { AreLeaves (joined pile.new.blocks) }
    ensures spare { spare_of (joined pile.new.blocks) pile.new.free
        ≡ spare_of (joined pile.old.blocks) pile.old.free }
{
    let seat = pile.seat(place);
    pile.replace(seat, value)
}
