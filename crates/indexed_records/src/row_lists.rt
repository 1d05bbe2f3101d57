// The rows of one record in all indexes, and how many these are. Contracts see the list of their lists.
ghost use Rattle.std.specs.Prelude.{◌≡◌, ◌+◌, [], ◌∷◌, length, slice_get, IfOk};
ghost use Rattle.std.specs.Option.{option_copied};
ghost use Rattle.store_contents.specs.Contents.{rows_among};

use idb_base::NoMemory;
use index_tables::Rows;
use std::alloc::Global;
use std::marker::Model;
use std::slice;

/// The rows of a record, index by index. A list by itself lies in the value, and only more take memory.
#[derive(Drop)]
pub struct RowLists {
    pub(crate) lists: Lists,
    count: usize,
}

/// One list, or a vector of any number.
#[derive(Drop)]
pub(crate) enum Lists {
    One(Rows),
    Any(Vec<Rows>),
}

impl Model for RowLists {
    ghost use Rattle.std.specs.Prelude.{◌≡◌, List};
    ghost use Rattle.std.specs.Coded.{coded_list};
    ghost use Rattle.index_tables.specs.Rows.{RowTree, row_code};
    ghost use Rattle.store_contents.specs.Contents.{rows_among};
    ghost use Rattle.indexed_records.specs.Lists.{lists_held};

    ghost Value = { List (List RowTree) };

    ghost coded = { coded_list (coded_list row_code) };

    ghost view = { λ a. lists_held a.lists };

    ghost invariant = { λ a. a.count ≡ rows_among (lists_held a.lists) };
}

impl RowLists {
    /// These lists. `NoMemory` comes too where their rows are more than can be counted.
    pub(crate) fn of(lists: Vec<Rows>) -> Result<RowLists, NoMemory>
        ensures { IfOk result (λ r. r ≡ lists.items) }
    {
        let count = counted(&lists)?;
        Ok(RowLists {
            lists: Lists::Any(lists),
            count,
        })
    }

    /// This list by itself.
    pub(crate) fn one(list: Rows) -> RowLists
        ensures { result ≡ list ∷ [] }
    {
        let count = list.len();
        RowLists {
            lists: Lists::One(list),
            count,
        }
    }

    /// How many rows all lists have together.
    pub fn count(&self) -> usize
        ensures { result ≡ rows_among self.now }
    {
        self.count
    }

    fn as_slice(&self) -> &[Rows]
        ensures { result.now ≡ self.now }
    {
        match &self.lists {
            Lists::One(list) => slice::from_ref(list),
            Lists::Any(lists) => lists.as_slice(),
        }
    }

    /// How many lists there are.
    pub fn len(&self) -> usize
        ensures { result ≡ length self.now }
    {
        self.as_slice().len()
    }

    /// The list of the index at this place, counted from 0; `None` past the end.
    pub fn at(&self, place: usize) -> Option<&Rows>
        ensures { option_copied result ≡ slice_get self.now place }
    {
        self.as_slice().get(place)
    }

    /// Equal lists.
    pub fn copy(&self, alloc: Global) -> Result<RowLists, NoMemory>
        ensures { IfOk result (λ r. r ≡ self.now) }
    {
        match &self.lists {
            Lists::One(list) => Ok(RowLists::one(list.copy(alloc)?)),
            Lists::Any(lists) => Ok(RowLists {
                lists: Lists::Any(copied(alloc, lists)?),
                count: self.count,
            }),
        }
    }
}

fn counted(lists: &Vec<Rows>) -> Result<usize, NoMemory>
    ensures { IfOk result (λ n. n ≡ rows_among lists.now.items) }
{
    let mut count = 0;
    for list in lists {
        count = plus(count, list.len())?;
    }
    Ok(count)
}

/// The sum, where it can be told.
pub fn plus(a: usize, b: usize) -> Result<usize, NoMemory>
    ensures { IfOk result (λ n. n ≡ a + b) }
{
    match a.checked_add(b) {
        Some(n) => Ok(n),
        None => Err(NoMemory),
    }
}

fn copied(alloc: Global, lists: &Vec<Rows>) -> Result<Vec<Rows>, NoMemory>
    ensures { IfOk result (λ r. r.items ≡ lists.now.items) }
{
    let mut copies = Vec::with_capacity(alloc, lists.len())?;
    for list in lists {
        copies.push(list.copy(alloc)?)?;
    }
    Ok(copies)
}
