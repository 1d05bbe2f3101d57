// The table of an index; contracts see the set of its rows and how many more can be added without memory.
ghost use Rattle.std.specs.Prelude.{◌≡◌, ◌+◌, ◌-◌, ◌*◌, ◌^◌, ◌≤◌, length, take, drop, slice_get, option_map, not, IfOk, IsOk, OnOk};
ghost use Rattle.std.specs.List.{AllPass, position};
ghost use Rattle.index_tables.specs.Rows.{no_rows, rows_of, count_of, has_row, with_rows, without_rows, has_key, first_row, row_meets};
ghost use Rattle.index_tables.specs.View.{row_of, row_seen, rows_in, bound_seen};

use crate::changing::{add_all, copy_all, remove_all, replace_all};
use crate::rows::{Row, Rows};
use crate::searching::{
    count_in, find_first, first_from, first_key_had, has_row, in_order, row_at,
};
use crate::tables::Tables;
use clone_values::{Key, Keys};
use idb_base::NoMemory;
use sorted_table::{OrderedTable, Steps};
use std::alloc::Global;
use std::marker::Model;
use std::sync::ledger::Ledger;

/// The rows of an index.
#[derive(Drop)]
pub struct IndexTable<T: Tables> {
    table: T::Rows,
}

impl<T: Tables> Model for IndexTable<T> {
    ghost use Rattle.index_tables.specs.Rows.{IndexRows, index_code};

    ghost Value = { IndexRows };

    ghost coded = { index_code };

    ghost use Rattle.index_tables.specs.View.{row_set};

    ghost view = { λ a. record { rows = row_set (T.Rows.entries a.table); spare = T.Rows.spare a.table } };
}

impl<T: Tables> IndexTable<T> {
    /// The table without rows; it takes no memory.
    pub fn new(alloc: Global) -> IndexTable<T>
        ensures rows { result.rows ≡ no_rows }
        ensures spare { result.spare ≡ 0 }
    {
        IndexTable {
            table: T::rows(alloc),
        }
    }

    /// How many rows there are.
    pub fn len(&self) -> usize
        ensures { result ≡ count_of self.now.rows }
    {
        count_in(&self.table)
    }

    /// The row at this place of the order, counted from 0; `None` past the end.
    pub fn row(&self, place: usize) -> Option<&Row>
        ensures { option_map row_seen result ≡ slice_get (rows_of self.now.rows) place }
    {
        row_at(&self.table, place)
    }

    /// The table of the rows, for those who walk over it.
    pub fn table(&self) -> &T::Rows
        ensures { rows_in (T.Rows.entries result.now) ≡ rows_of self.now.rows }
    {
        in_order(&self.table)
    }

    /// Whether this row is there. It takes no memory.
    pub fn has(&self, row: &Row) -> bool
        ensures { result ≡ has_row self.now.rows (row_of row.now) }
    {
        has_row(&self.table, row)
    }

    /// A table of equal rows.
    pub fn copy(&self, alloc: Global) -> Result<IndexTable<T>, NoMemory>
        ensures { IfOk result (λ copy. copy.rows ≡ self.now.rows) }
    {
        let mut table = T::rows(alloc);
        copy_all(&self.table, &mut table)?;
        Ok(IndexTable { table })
    }

    /// The place of the first of these keys that is the index key of a row: where the index is unique, the key that would
    /// break it ("unique"). `None` where no row has one of them. It takes no memory.
    pub fn would_break(&self, keys: &Keys) -> Option<usize>
        ensures { result ≡ position (has_key self.now.rows) keys.now }
    {
        first_key_had(&self.table, keys)
    }

    /// Makes room for at least this many rows more. `NoMemory` comes where that room was missing and memory ran out.
    pub fn reserve(&mut self, n: usize) -> Result<(), NoMemory>
        ensures rows { self.new.rows ≡ self.old.rows }
        ensures spare { self.old.spare ≤ self.new.spare }
        ensures room { OnOk result (n ≤ self.new.spare) }
        ensures enough { n ≤ self.old.spare → IsOk result }
    {
        self.table.reserve(n)
    }

    /// Adds these rows, in whatever order they come; one that is there is passed over. It takes no memory.
    pub fn add_rows(&mut self, rows: Rows)
        requires { length rows ≤ self.old.spare }
        ensures rows { self.new.rows ≡ with_rows self.old.rows rows }
        ensures spare { self.old.spare ≤ self.new.spare + length rows }
    {
        add_all(&mut self.table, rows)
    }

    /// Removes these rows; one that is not there is passed over. It takes no memory.
    pub fn remove_rows(&mut self, rows: &Rows)
        ensures rows { self.new.rows ≡ without_rows self.old.rows rows.now }
        ensures spare { self.old.spare ≤ self.new.spare }
    {
        remove_all(&mut self.table, rows)
    }

    /// Removes the old rows and adds the new ones. Rows of both lists mostly stay where they are. It takes no memory.
    pub fn replace_rows(&mut self, old: &Rows, new: Rows)
        requires { length new ≤ self.old.spare }
        ensures rows { self.new.rows ≡ with_rows (without_rows self.old.rows old.now) new }
        ensures spare { self.old.spare ≤ self.new.spare + length new }
    {
        replace_all(&mut self.table, old, new)
    }

    /// The place of the first row whose index key meets the lower bound, found by halving; where none does, the number of
    /// the rows; 0 where there is no bound. The bound is open if its own key is left out ("key range"). The first comparison
    /// is with the last row.
    pub fn first_from<L: Ledger>(
        &self,
        lower: Option<&Key>,
        lower_open: bool,
        steps: &mut Steps<L>,
    ) -> usize
        ensures place { result ≡ first_row (bound_seen lower.entry lower_open) self.now.rows }
        ensures before { AllPass (λ row. not (row_meets (bound_seen lower.entry lower_open) row))
            (take result (rows_of self.now.rows)) }
        ensures behind { AllPass (row_meets (bound_seen lower.entry lower_open))
            (drop result (rows_of self.now.rows)) }
        ensures counted { steps.old ≤ steps.new }
        ensures cost { 2 ^ (steps.new - steps.old) ≤ 4 * count_of self.now.rows + 2 }
    {
        first_from(&self.table, lower, lower_open, steps)
    }

    /// The same for a caller that counts no comparisons.
    pub fn find_first(&self, lower: Option<&Key>, lower_open: bool) -> usize
        ensures place { result ≡ first_row (bound_seen lower.entry lower_open) self.now.rows }
        ensures before { AllPass (λ row. not (row_meets (bound_seen lower.entry lower_open) row))
            (take result (rows_of self.now.rows)) }
        ensures behind { AllPass (row_meets (bound_seen lower.entry lower_open))
            (drop result (rows_of self.now.rows)) }
    {
        find_first(&self.table, lower, lower_open)
    }
}
