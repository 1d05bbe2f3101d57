// Places in a table of rows, found by halving.
ghost use Rattle.std.specs.Prelude.{◌≡◌, ◌+◌, ◌-◌, ◌*◌, ◌^◌, ◌<◌, ◌≤◌, Some, length, slice_get, option_map};
ghost use Rattle.std.specs.List.{position};
ghost use Rattle.clone_values.specs.View.{key_tree_of};
ghost use Rattle.idb_keys.specs.KeyRange.{bound_at};
ghost use Rattle.index_tables.specs.Rows.{rows_of, count_of, row_meets, has_row, has_key};
ghost use Rattle.index_tables.specs.View.{row_of, row_seen, row_set, rows_in, bound_seen};
ghost use Rattle.index_tables.specs.Halves.{IsSplitAt};
ghost use Rattle.index_tables.specs.Orders.{bound_in_front, bound_behind};
ghost use Rattle.sorted_table.specs.Orders.{abbreviated_key};

use crate::rows::Row;
use clone_values::{Key, Keys};
use idb_keys::compare;
use sorted_table::{Cut, Ordered, OrderedTable, Steps, find_place};
use std::cmp::Ordering;
use std::marker::Brand;
use std::sync::ledger::{Blank, Ledger};

/// How many rows there are.
pub(crate) fn count_in<R: OrderedTable<Row, ()>>(table: &R) -> usize
    ensures value { result ≡ count_of (row_set (R.entries table.now)) }
    ensures listed { result ≡ length (rows_of (row_set (R.entries table.now))) }
{
    table.len()
}

/// The table itself: its entries are the rows in their order.
pub(crate) fn in_order<R: OrderedTable<Row, ()>>(table: &R) -> &R
    ensures { rows_in (R.entries result.now) ≡ rows_of (row_set (R.entries table.now)) }
{
    table
}

/// The row at this place, counted from 0; `None` past the end.
pub(crate) fn row_at<R: OrderedTable<Row, ()>>(table: &R, place: usize) -> Option<&Row>
    ensures { option_map row_seen result ≡ slice_get (rows_of (row_set (R.entries table.now))) place }
{
    match table.nth(place) {
        Some((row, _)) => Some(row),
        None => None,
    }
}

/// A lower bound, as the cut in front of the rows whose keys meet it.
#[derive(Drop)]
struct Lower<'a> {
    key: &'a Key,
    is_open: bool,
}

impl<'a> Cut<Row> for Lower<'a> {
    ghost passes = { λ bound row. row_meets (Some (bound_at (key_tree_of bound.key.now) bound.is_open)) (row_of row) };

    ghost abbreviated = { λ bound. abbreviated_key bound.key.now };

    fn passes(&self, row: &Row) -> bool {
        match compare(self.key, &row.key) {
            Ordering::Less => true,
            Ordering::Equal => !self.is_open,
            Ordering::Greater => false,
        }
    }

    fn abbreviated(&self) -> Option<i64> {
        self.key.abbreviated()
    }

    ghost in_front = { λ bound row told. bound_in_front bound.key.now row.key bound.is_open told };

    ghost behind = { λ bound row told. bound_behind bound.key.now row.key bound.is_open told };
}

/// The place of the first row whose key meets the bound, or the number of the rows.
fn first_meeting<R: OrderedTable<Row, ()>, L: Ledger>(
    table: &R,
    lower: &Key,
    is_open: bool,
    steps: &mut Steps<L>,
) -> usize
    ensures split { IsSplitAt (row_meets (Some (bound_at (key_tree_of lower.now) is_open)))
        (rows_of (row_set (R.entries table.now))) result }
    ensures counted { steps.old ≤ steps.new }
    ensures cost { 2 ^ (steps.new - steps.old) ≤ 4 * count_of (row_set (R.entries table.now)) + 2 }
{
    let bound = Lower {
        key: lower,
        is_open,
    };
    table.first_behind(&bound, steps)
}

/// The place of the first row whose key meets the bound, if there is one.
pub(crate) fn first_from<R: OrderedTable<Row, ()>, L: Ledger>(
    table: &R,
    lower: Option<&Key>,
    is_open: bool,
    steps: &mut Steps<L>,
) -> usize
    ensures split { IsSplitAt (row_meets (bound_seen lower.entry is_open))
        (rows_of (row_set (R.entries table.now))) result }
    ensures counted { steps.old ≤ steps.new }
    ensures cost { 2 ^ (steps.new - steps.old) ≤ 4 * count_of (row_set (R.entries table.now)) + 2 }
{
    match lower {
        Some(key) => first_meeting(table, key, is_open, steps),
        None => 0,
    }
}

/// The same; its comparisons are not told.
pub(crate) fn find_first<R: OrderedTable<Row, ()>>(
    table: &R,
    lower: Option<&Key>,
    is_open: bool,
) -> usize
    ensures { IsSplitAt (row_meets (bound_seen lower.entry is_open)) (rows_of (row_set
        (R.entries table.now))) result }
{
    first_by::<R, Brand>(table, lower, is_open, Blank::new(1))
}

fn first_by<R: OrderedTable<Row, ()>, L: Ledger>(
    table: &R,
    lower: Option<&Key>,
    is_open: bool,
    blank: Blank,
) -> usize
    requires name { blank.name ≡ L.name }
    requires parts { blank.parts ≡ L.parts }
    requires some { 0 < blank.parts }
    ensures { IsSplitAt (row_meets (bound_seen lower.entry is_open)) (rows_of (row_set
        (R.entries table.now))) result }
{
    let mut steps: Steps<L> = Steps::new(blank);
    first_from(table, lower, is_open, &mut steps)
}

/// Whether a row has this index key.
fn has_key<R: OrderedTable<Row, ()>>(table: &R, key: &Key) -> bool
    ensures { result ≡ has_key (row_set (R.entries table.now)) (key_tree_of key.now) }
{
    match row_at(table, find_first(table, Some(key), false)) {
        Some(row) => compare(key, &row.key).is_eq(),
        None => false,
    }
}

/// Whether the table has this row.
pub(crate) fn has_row<R: OrderedTable<Row, ()>>(table: &R, row: &Row) -> bool
    ensures { result ≡ has_row (row_set (R.entries table.now)) (row_of row.now) }
{
    find_place(table, row).is_ok()
}

/// The place of the first of these keys that a row has.
pub(crate) fn first_key_had<R: OrderedTable<Row, ()>>(table: &R, keys: &Keys) -> Option<usize>
    ensures { result ≡ position (has_key (row_set (R.entries table.now))) keys.now }
{
    for place in 0..keys.len() {
        if let Some(key) = keys.at(place) {
            if has_key(table, key) {
                return Some(place);
            }
        }
    }
    None
}
