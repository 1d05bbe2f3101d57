// The place of the member that a turn takes, found by halving.
ghost use Rattle.std.specs.Prelude.{◌≡◌, ℕ, ◌+◌, ◌*◌, ◌^◌, ◌<◌, ◌≤◌, false, Some, length, slice_get, option_map};
ghost use Rattle.clone_values.specs.View.{key_tree_of};
ghost use Rattle.key_order.specs.KeyOrder.{key_cmp};
ghost use Rattle.idb_keys.specs.KeyRange.{meets_lower, meets_upper};
ghost use Rattle.index_tables.specs.Rows.{row_cmp};
ghost use Rattle.index_tables.specs.Halves.{IsSplitAt};
ghost use Rattle.idb_cursors.specs.Cursors.{is_forward, is_unique, toward, is_reached, is_passed, first_of_key, next_place, turns_from, iterated};
ghost use Rattle.idb_cursors.specs.Seeking.{begins, ends, is_near, is_behind, place_within, nearest_place};
ghost use Rattle.idb_cursors.specs.View.{row_shown, key_shown, turn_seen};

use crate::row_view::RowView;
use clone_values::Key;
use idb_keys::{Direction, KeyRange};
use key_order::compare;
use sorted_table::Steps;
use std::cmp::Ordering;
use std::sync::ledger::Ledger;

/// What one turn goes by: which way, in which range and from which place, and the keys that are given. `near` is where the member
/// that was taken last stood, beside which the next one is looked for first; nothing else rests on it.
#[derive(Drop)]
pub(crate) struct Turn<'a, 'b> {
    pub(crate) direction: Direction,
    pub(crate) range: &'a KeyRange,
    pub(crate) place: Option<(&'b Key, &'b Key)>,
    pub(crate) key: Option<&'b Key>,
    pub(crate) primary: Option<&'b Key>,
    pub(crate) near: usize,
}

pub(crate) fn is_forward(direction: Direction) -> bool
    ensures { result ≡ is_forward direction }
{
    match direction {
        Direction::Next => true,
        Direction::NextUnique => true,
        Direction::Prev => false,
        Direction::PrevUnique => false,
    }
}

pub(crate) fn is_unique(direction: Direction) -> bool
    ensures { result ≡ is_unique direction }
{
    match direction {
        Direction::Next => false,
        Direction::NextUnique => true,
        Direction::Prev => false,
        Direction::PrevUnique => true,
    }
}

/// An order as the direction meets it.
pub(crate) fn toward(direction: Direction, order: Ordering) -> Ordering
    ensures { result ≡ toward direction order }
{
    if is_forward(direction) {
        order
    } else {
        order.reverse()
    }
}

/// How two keys stand to each other as the direction meets them; one comparison.
fn compared<L: Ledger>(direction: Direction, a: &Key, b: &Key, steps: &mut Steps<L>) -> Ordering
    ensures value { result ≡ toward direction (key_cmp (key_tree_of a.now) (key_tree_of b.now)) }
    ensures counted { steps.new ≡ steps.old + 1 }
{
    steps.tick();
    toward(direction, compare(a, b))
}

/// The same of pairs, of which the first keys decide unless they tie; at most two comparisons.
fn compared_pairs<L: Ledger>(
    direction: Direction,
    a: (&Key, &Key),
    b: (&Key, &Key),
    steps: &mut Steps<L>,
) -> Ordering
    ensures value { result ≡ toward direction (row_cmp (row_shown a.entry) (row_shown b.entry)) }
    ensures counted { steps.new ≤ steps.old + 2 }
{
    match compared(direction, a.0, b.0, steps) {
        Ordering::Equal => compared(direction, a.1, b.1, steps),
        decided => decided,
    }
}

/// Whether a key meets the lower bound; at most one comparison.
fn meets_lower<L: Ledger>(range: &KeyRange, key: &Key, steps: &mut Steps<L>) -> bool
    ensures value { result ≡ meets_lower range.now.lower (key_tree_of key.now) }
    ensures counted { steps.new ≤ steps.old + 1 }
{
    match range.lower_bound() {
        Some((bound, is_open)) => {
            steps.tick();
            match compare(bound, key) {
                Ordering::Less => true,
                Ordering::Equal => !is_open,
                Ordering::Greater => false,
            }
        }
        None => true,
    }
}

/// Whether a key meets the upper bound; at most one comparison.
fn meets_upper<L: Ledger>(range: &KeyRange, key: &Key, steps: &mut Steps<L>) -> bool
    ensures value { result ≡ meets_upper range.now.upper (key_tree_of key.now) }
    ensures counted { steps.new ≤ steps.old + 1 }
{
    match range.upper_bound() {
        Some((bound, is_open)) => {
            steps.tick();
            match compare(key, bound) {
                Ordering::Less => true,
                Ordering::Equal => !is_open,
                Ordering::Greater => false,
            }
        }
        None => true,
    }
}

fn begins<L: Ledger>(
    direction: Direction,
    range: &KeyRange,
    key: &Key,
    steps: &mut Steps<L>,
) -> bool
    ensures value { result ≡ begins direction range.now (key_tree_of key.now) }
    ensures counted { steps.new ≤ steps.old + 1 }
{
    if is_forward(direction) {
        meets_lower(range, key, steps)
    } else {
        meets_upper(range, key, steps)
    }
}

fn ends<L: Ledger>(direction: Direction, range: &KeyRange, key: &Key, steps: &mut Steps<L>) -> bool
    ensures value { result ≡ ends direction range.now (key_tree_of key.now) }
    ensures counted { steps.new ≤ steps.old + 1 }
{
    if is_forward(direction) {
        meets_upper(range, key, steps)
    } else {
        meets_lower(range, key, steps)
    }
}

/// Whether a member is not before the keys that are given; at most two comparisons.
fn is_reached<L: Ledger>(
    direction: Direction,
    key: Option<&Key>,
    primary: Option<&Key>,
    member: (&Key, &Key),
    steps: &mut Steps<L>,
) -> bool
    ensures value { result
        ≡ is_reached direction (key_shown key.entry) (key_shown primary.entry) (row_shown member.entry) }
    ensures counted { steps.new ≤ steps.old + 2 }
{
    match (key, primary) {
        (None, _) => true,
        (Some(key), None) => compared(direction, key, member.0, steps).is_le(),
        (Some(key), Some(primary)) => {
            if is_unique(direction) {
                compared(direction, key, member.0, steps).is_le()
            } else {
                compared_pairs(direction, (key, primary), member, steps).is_le()
            }
        }
    }
}

/// Whether a member lies beyond a place; at most two comparisons.
fn is_passed<L: Ledger>(
    direction: Direction,
    place: Option<(&Key, &Key)>,
    member: (&Key, &Key),
    steps: &mut Steps<L>,
) -> bool
    ensures value { result ≡ is_passed direction (option_map row_shown place.entry) (row_shown member.entry) }
    ensures counted { steps.new ≤ steps.old + 2 }
{
    match place {
        None => true,
        Some(place) => {
            if is_unique(direction) {
                compared(direction, place.0, member.0, steps).is_lt()
            } else {
                compared_pairs(direction, place, member, steps).is_lt()
            }
        }
    }
}

/// Whether a member meets all that the turn asks but the bound on the other side; at most five comparisons.
fn is_near<L: Ledger>(turn: &Turn, member: (&Key, &Key), steps: &mut Steps<L>) -> bool
    ensures value { result ≡ is_near (turn_seen turn.now) (row_shown member.entry) }
    ensures counted { steps.new ≤ steps.old + 5 }
{
    is_passed(turn.direction, turn.place, member, steps)
        && is_reached(turn.direction, turn.key, turn.primary, member, steps)
        && begins(turn.direction, turn.range, member.0, steps)
}

/// Whether the member at this place stands from the sought place on, in the way of the order.
fn is_behind<R: RowView, L: Ledger>(
    rows: &R,
    turn: &Turn,
    place: usize,
    steps: &mut Steps<L>,
) -> bool
    requires { place < length (R.rows rows.now) }
    ensures value { option_map (is_behind (turn_seen turn.now)) (slice_get (R.rows rows.now) place)
        ≡ Some result }
    ensures counted { steps.new ≤ steps.old + 5 }
{
    match rows.at(place) {
        Some(member) => {
            let near = is_near(turn, member, steps);
            if is_forward(turn.direction) {
                near
            } else {
                !near
            }
        }
        None => unreachable!(),
    }
}

/// The place up to which the members are before what is sought, and from which on they are not, in the way of the order.
fn split<R: RowView, L: Ledger>(rows: &R, turn: &Turn, steps: &mut Steps<L>) -> usize
    ensures split { IsSplitAt (is_behind (turn_seen turn.now)) (R.rows rows.now) result }
    ensures cost { (d : ℕ) → length (R.rows rows.now) < 2 ^ d → steps.new ≤ steps.old + 5 * d }
{
    let mut low = 0;
    let mut high = rows.len();
    while low < high {
        let middle = low + (high - low) / 2;
        if is_behind(rows, turn, middle, steps) {
            high = middle;
        } else {
            low = middle + 1;
        }
    }
    low
}

/// Where that place is if the next member stands beside the last.
fn next_split(turn: &Turn) -> usize {
    if is_forward(turn.direction) {
        turn.near.saturating_add(1)
    } else {
        turn.near
    }
}

/// The place that `split` gives, found at once where it is the one that is guessed.
fn split_near<R: RowView, L: Ledger>(
    rows: &R,
    turn: &Turn,
    guess: usize,
    steps: &mut Steps<L>,
) -> usize
    ensures split { IsSplitAt (is_behind (turn_seen turn.now)) (R.rows rows.now) result }
    ensures cost { (d : ℕ) → length (R.rows rows.now) < 2 ^ d → steps.new ≤ steps.old + (5 * d + 10) }
{
    if guess > 0
        && guess < rows.len()
        && !is_behind(rows, turn, guess - 1, steps)
        && is_behind(rows, turn, guess, steps)
    {
        return guess;
    }
    split(rows, turn, steps)
}

/// The place, where a member stands there that meets the bound on the other side; at most one comparison.
pub(crate) fn place_within<R: RowView, L: Ledger>(
    rows: &R,
    turn: &Turn,
    place: usize,
    steps: &mut Steps<L>,
) -> Option<usize>
    ensures value { result ≡ place_within (R.rows rows.now) (turn_seen turn.now) place }
    ensures counted { steps.new ≤ steps.old + 1 }
{
    match rows.at(place) {
        Some((key, _)) => {
            if ends(turn.direction, turn.range, key, steps) {
                Some(place)
            } else {
                None
            }
        }
        None => None,
    }
}

/// The place of the first or the last member that meets what the turn asks.
fn nearest<R: RowView, L: Ledger>(rows: &R, turn: &Turn, steps: &mut Steps<L>) -> Option<usize>
    ensures value { result ≡ nearest_place (R.rows rows.now) (turn_seen turn.now) }
    ensures cost { (d : ℕ) → length (R.rows rows.now) < 2 ^ d → steps.new ≤ steps.old + (5 * d + 11) }
{
    let place = split_near(rows, turn, next_split(turn), steps);
    if is_forward(turn.direction) {
        place_within(rows, turn, place, steps)
    } else if place == 0 {
        None
    } else {
        place_within(rows, turn, place - 1, steps)
    }
}

/// The place of the first member that has the key of the one at this place.
fn first_of_key<R: RowView, L: Ledger>(
    rows: &R,
    place: usize,
    steps: &mut Steps<L>,
) -> Option<usize>
    ensures value { result ≡ first_of_key (R.rows rows.now) place }
    ensures cost { (d : ℕ) → length (R.rows rows.now) < 2 ^ d → steps.new ≤ steps.old + 5 * d }
{
    match rows.at(place) {
        Some((key, _)) => {
            let all = KeyRange::all();
            let turn = Turn {
                direction: Direction::NextUnique,
                range: &all,
                place: None,
                key: Some(key),
                primary: None,
                near: place,
            };
            Some(split(rows, &turn, steps))
        }
        None => None,
    }
}

/// The place of the member that one turn takes.
pub(crate) fn next_place<R: RowView, L: Ledger>(
    rows: &R,
    turn: &Turn,
    steps: &mut Steps<L>,
) -> Option<usize>
    ensures value { result ≡ next_place (R.rows rows.now) (turn_seen turn.now) }
    ensures cost { (d : ℕ) → length (R.rows rows.now) < 2 ^ d → steps.new ≤ steps.old + (10 * d + 11) }
{
    match nearest(rows, turn, steps) {
        Some(place) => match turn.direction {
            Direction::Next => Some(place),
            Direction::NextUnique => Some(place),
            Direction::Prev => Some(place),
            Direction::PrevUnique => first_of_key(rows, place, steps),
        },
        None => None,
    }
}
