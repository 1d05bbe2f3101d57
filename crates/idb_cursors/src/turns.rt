// So many turns of a cursor.
ghost use Rattle.std.specs.Prelude.{◌≡◌, ℕ, ◌+◌, ◌*◌, ◌^◌, ◌<◌, ◌≤◌, false, Some, length};
ghost use Rattle.idb_cursors.specs.Cursors.{is_unique, next_place, turns_from, iterated};
ghost use Rattle.idb_cursors.specs.View.{turn_seen};

use crate::row_view::RowView;
use crate::seeking::{Turn, is_forward, is_unique, next_place, place_within};
use sorted_table::Steps;
use std::sync::ledger::Ledger;

/// The place after one turn and so many more. The plain directions take the members one after the other, so that one search is
/// enough; the unique ones seek at each turn.
pub(crate) fn iterated<R: RowView, L: Ledger>(
    rows: &R,
    turn: &Turn,
    more: u32,
    steps: &mut Steps<L>,
) -> Option<usize>
    ensures value { result ≡ iterated (R.rows rows.now) (turn_seen turn.now) more }
    ensures cost { (d : ℕ) → length (R.rows rows.now) < 2 ^ d
        → steps.new ≤ steps.old + (more + 1) * (10 * (d + 2)) }
{
    match next_place(rows, turn, steps) {
        Some(place) => {
            if is_unique(turn.direction) {
                turn_by_turn(rows, turn, place, more, steps)
            } else {
                further(rows, turn, place, more, steps)
            }
        }
        None => None,
    }
}

/// So many places further from the one that a turn took.
fn further<R: RowView, L: Ledger>(
    rows: &R,
    turn: &Turn,
    place: usize,
    more: u32,
    steps: &mut Steps<L>,
) -> Option<usize>
    requires taken { next_place (R.rows rows.now) (turn_seen turn.now) ≡ Some place }
    requires plain { is_unique turn.now.direction ≡ false }
    ensures value { result ≡ turns_from (R.rows rows.now) (turn_seen turn.now) more place }
    ensures counted { steps.new ≤ steps.old + 1 }
{
    let more = more as usize;
    if is_forward(turn.direction) {
        if more < rows.len() - place {
            place_within(rows, turn, place + more, steps)
        } else {
            None
        }
    } else if more <= place {
        place_within(rows, turn, place - more, steps)
    } else {
        None
    }
}

/// So many turns more, one after the other.
fn turn_by_turn<R: RowView, L: Ledger>(
    rows: &R,
    turn: &Turn,
    place: usize,
    more: u32,
    steps: &mut Steps<L>,
) -> Option<usize>
    ensures value { result ≡ turns_from (R.rows rows.now) (turn_seen turn.now) more place }
    ensures cost { (d : ℕ) → length (R.rows rows.now) < 2 ^ d
        → steps.new ≤ steps.old + more * (10 * (d + 2)) }
{
    let mut last = place;
    for _ in 0..more {
        let next = Turn {
            direction: turn.direction,
            range: turn.range,
            place: rows.at(last),
            key: turn.key,
            primary: turn.primary,
            near: last,
        };
        match next_place(rows, &next, steps) {
            Some(found) => last = found,
            None => return None,
        }
    }
    Some(last)
}
