// Rows put into a table and taken out of it.
ghost use Rattle.std.specs.Prelude.{◌≡◌, ◌+◌, ◌<◌, ◌≤◌, List, [], ◌∷◌, true, length, map, OnOk};
ghost use Rattle.index_tables.specs.Rows.{RowTree, among, with_row, without_row, with_rows, without_rows};
ghost use Rattle.index_tables.specs.View.{row_of, row_set};

use crate::rows::{Few, Row, Rows};
use idb_base::NoMemory;
use sorted_table::{Ordered, OrderedTable, find_place};

/// Puts one row in its place, unless it is there; it takes no memory.
fn add_row<R: OrderedTable<Row, ()>>(table: &mut R, row: Row)
    requires { 0 < R.spare table.old }
    ensures rows { row_set (R.entries table.new) ≡ with_row (row_set (R.entries table.old)) (row_of row) }
    ensures spare { R.spare table.old ≤ R.spare table.new + 1 }
{
    match find_place(table, &row) {
        Ok(_) => {}
        Err(place) => table.insert_at(place, row, ()),
    }
}

/// Puts these rows in their places; one that is there is passed over. It takes no memory.
pub(crate) fn add_all<R: OrderedTable<Row, ()>>(table: &mut R, rows: Rows)
    requires { length rows ≤ R.spare table.old }
    ensures rows { row_set (R.entries table.new) ≡ with_rows (row_set (R.entries table.old)) rows }
    ensures spare { R.spare table.old ≤ R.spare table.new + length rows }
{
    match rows.rows {
        Few::One(row) => add_row(table, row),
        Few::Any(rows) => add_each(table, rows),
    }
}

fn add_each<R: OrderedTable<Row, ()>>(table: &mut R, rows: Vec<Row>)
    requires { length rows.items ≤ R.spare table.old }
    ensures rows { row_set (R.entries table.new)
        ≡ with_rows (row_set (R.entries table.old)) (map row_of rows.items) }
    ensures spare { R.spare table.old ≤ R.spare table.new + length rows.items }
{
    for row in rows {
        add_row(table, row);
    }
}

/// Takes the row out if it is there; it takes no memory.
fn remove_row<R: OrderedTable<Row, ()>>(table: &mut R, row: &Row)
    ensures rows { row_set (R.entries table.new)
        ≡ without_row (row_set (R.entries table.old)) (row_of row.now) }
    ensures spare { R.spare table.old ≤ R.spare table.new }
{
    match find_place(table, row) {
        Ok(place) => {
            table.remove(place);
        }
        Err(_) => {}
    }
}

/// Takes those of these rows out that are there; it takes no memory.
pub(crate) fn remove_all<R: OrderedTable<Row, ()>>(table: &mut R, rows: &Rows)
    ensures rows { row_set (R.entries table.new) ≡ without_rows (row_set (R.entries table.old)) rows.now }
    ensures spare { R.spare table.old ≤ R.spare table.new }
{
    for place in 0..rows.len() {
        if let Some(row) = rows.at(place) {
            remove_row(table, row);
        }
    }
}

/// How far from its own place a row is looked for among those that come.
const REACH: usize = 8;

/// Whether a row is seen near this place of the list. One that stands further away may be missed.
fn is_near(rows: &Rows, place: usize, row: &Row) -> bool
    ensures { result ≡ true → among rows.now (row_of row.now) ≡ true }
{
    for near in place.saturating_sub(REACH)..rows.len().min(place.saturating_add(REACH)) {
        if let Some(other) = rows.at(near) {
            if row.order(other).is_eq() {
                return true;
            }
        }
    }
    false
}

/// Takes the row out if it is there, unless it is seen to come again. Whatever else goes: once the coming rows are added, the
/// table is as if it had gone.
fn remove_unless_near<R: OrderedTable<Row, ()>>(
    table: &mut R,
    row: &Row,
    coming: &Rows,
    place: usize,
)
    ensures rows { (others : List RowTree)
        → with_rows (without_rows (row_set (R.entries table.new)) others) coming.now
        ≡ with_rows (without_rows (row_set (R.entries table.old)) (row_of row.now ∷ others)) coming.now }
    ensures spare { R.spare table.old ≤ R.spare table.new }
{
    if !is_near(coming, place, row) {
        remove_row(table, row);
    }
}

/// Takes those of these rows out that are there, but for some that come again: once the coming rows are added, the table
/// is as if all had gone.
fn remove_others<R: OrderedTable<Row, ()>>(table: &mut R, rows: &Rows, coming: &Rows)
    ensures rows { with_rows (row_set (R.entries table.new)) coming.now
        ≡ with_rows (without_rows (row_set (R.entries table.old)) rows.now) coming.now }
    ensures spare { R.spare table.old ≤ R.spare table.new }
{
    for place in 0..rows.len() {
        if let Some(row) = rows.at(place) {
            remove_unless_near(table, row, coming, place);
        }
    }
}

/// Takes the old rows out and puts the new ones in; rows of both lists mostly stay where they are. It takes no memory.
pub(crate) fn replace_all<R: OrderedTable<Row, ()>>(table: &mut R, old: &Rows, new: Rows)
    requires { length new ≤ R.spare table.old }
    ensures rows { row_set (R.entries table.new)
        ≡ with_rows (without_rows (row_set (R.entries table.old)) old.now) new }
    ensures spare { R.spare table.old ≤ R.spare table.new + length new }
{
    remove_others(table, old, &new);
    add_all(table, new);
}

/// Puts a copy of each row of the one table into the other, which has none.
pub(crate) fn copy_all<R: OrderedTable<Row, ()>>(table: &R, copies: &mut R) -> Result<(), NoMemory>
    requires { R.entries copies.old ≡ [] }
    ensures { OnOk result (R.entries copies.new ≡ R.entries table.now) }
{
    copies.reserve(table.len())?;
    for place in 0..table.len() {
        if let Some((row, _)) = table.nth(place) {
            copies.insert_at(place, row.clone()?, ());
        }
    }
    Ok(())
}
