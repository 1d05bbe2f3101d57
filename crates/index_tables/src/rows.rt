// Rows and their list. Contracts see a row as its two key trees, and a list as the list of these.
ghost use Rattle.std.specs.Prelude.{◌≡◌, ◌≤◌, [], ◌∷◌, ◌++◌, length, map, slice_get, option_map, IfOk, IfSome, IfNone, OnOk, OnErr};
ghost use Rattle.std.specs.Option.{option_copied};
ghost use Rattle.idb_base.specs.Lists.{StandsAt};
ghost use Rattle.index_tables.specs.View.{row_of};
ghost use Rattle.index_tables.specs.Orders.{by_row_order, by_row_order_total, by_row_order_same, abbreviated_row, abbreviated_row_tells};

use clone_values::Key;
use idb_base::NoMemory;
use idb_keys::compare;
use sorted_table::Ordered;
use std::alloc::{AllocError, Global};
use std::cmp::Ordering;
use std::marker::Model;
use std::slice;

/// A row of an index (Indexed Database API 3.0, "index", its list of records).
#[derive(Drop)]
pub struct Row {
    /// The index key.
    pub key: Key,
    /// The key of the record that the row leads to.
    pub primary: Key,
}

impl Clone for Row {
    ghost is_clone = { λ x y. y ≡ x };

    fn clone(&self) -> Result<Row, AllocError> {
        Ok(Row {
            key: self.key.clone()?,
            primary: self.primary.clone()?,
        })
    }
}

impl Ordered for Row {
    ghost order = { by_row_order };

    ghost abbreviated = { abbreviated_row };

    fn order(&self, other: &Row) -> Ordering {
        match compare(&self.key, &other.key) {
            Ordering::Equal => compare(&self.primary, &other.primary),
            decided => decided,
        }
    }

    fn abbreviated(&self) -> Option<i64> {
        self.key.abbreviated()
    }

    ghost total = { by_row_order_total };

    ghost same = { by_row_order_same };

    ghost tells = { abbreviated_row_tells };
}

/// A list of rows. A row by itself lies in the list, and only more take memory.
#[derive(Drop)]
pub struct Rows {
    pub(crate) rows: Few,
}

/// One row, or a vector of any number.
#[derive(Drop)]
pub(crate) enum Few {
    One(Row),
    Any(Vec<Row>),
}

impl Model for Rows {
    ghost use Rattle.std.specs.Prelude.{List, map};
    ghost use Rattle.std.specs.Coded.{coded_list};
    ghost use Rattle.index_tables.specs.Rows.{RowTree, row_code};

    ghost Value = { List RowTree };

    ghost coded = { coded_list row_code };

    ghost use Rattle.index_tables.specs.View.{row_of};
    ghost use Rattle.index_tables.specs.Few.{few_rows};

    ghost view = { λ a. map row_of (few_rows a.rows) };
}

impl Rows {
    /// The empty list; it takes no memory.
    pub fn new(alloc: Global) -> Self
        ensures { result ≡ [] }
    {
        Rows {
            rows: Few::Any(Vec::new(alloc)),
        }
    }

    /// The row by itself. It takes no memory.
    pub fn one(row: Row) -> Self
        ensures { result ≡ row_of row ∷ [] }
    {
        Rows {
            rows: Few::One(row),
        }
    }

    /// The rows of a vector, in order. It takes no memory.
    pub fn from_vec(rows: Vec<Row>) -> Rows
        ensures { result ≡ map row_of rows.items }
    {
        Rows {
            rows: Few::Any(rows),
        }
    }

    fn as_slice(&self) -> &[Row]
        ensures { map row_of result.now ≡ self.now }
    {
        match &self.rows {
            Few::One(row) => slice::from_ref(row),
            Few::Any(rows) => rows.as_slice(),
        }
    }

    /// How many rows there are.
    pub fn len(&self) -> usize
        ensures { result ≡ length self.now }
    {
        self.as_slice().len()
    }

    /// The row at this place, counted from 0; `None` past the end.
    pub fn at(&self, place: usize) -> Option<&Row>
        ensures item { option_map row_of (option_copied result) ≡ slice_get self.now place }
        ensures stands { IfSome result (λ x. StandsAt self.now place (row_of x.now)) }
        ensures past_end { IfNone result (length self.now ≤ place) }
    {
        row_at(self.as_slice(), place)
    }

    /// An equal list.
    pub fn copy(&self, alloc: Global) -> Result<Rows, NoMemory>
        ensures { IfOk result (λ r. r ≡ self.now) }
    {
        match &self.rows {
            Few::One(row) => Ok(Rows::one(row.clone()?)),
            Few::Any(rows) => Ok(Rows::from_vec(Vec::from_clones(alloc, rows.as_slice())?)),
        }
    }
}

fn row_at(rows: &[Row], place: usize) -> Option<&Row>
    ensures item { option_map row_of (option_copied result) ≡ slice_get (map row_of rows.now) place }
    ensures stands { IfSome result (λ x. StandsAt (map row_of rows.now) place (row_of x.now)) }
    ensures past_end { IfNone result (length rows.now ≤ place) }
{
    rows.get(place)
}
