// The tables of rows, changed one by one.
ghost use Rattle.std.specs.Prelude.{◌≡◌, ℕ, ◌≤◌, [], ◌∷◌, length, vec_capacity, OnOk, OnErr};
ghost use Rattle.index_tables.specs.RecordRows.{Records};
ghost use Rattle.store_contents.specs.Matches.{InStep};
ghost use Rattle.store_contents.specs.Walks.{AllChanged, Keeps, HasRoomFor, Adds, Removes, Replaces, CanAdd, IsFilled, paired};

use crate::row_lists::{Lists, RowLists};
use idb_base::NoMemory;
use idb_schema::IndexInfos;
use index_tables::{IndexTable, Rows, Tables};
use std::alloc::Global;

/// Makes the tables that are missing, all or none; with them each index has its table.
pub(crate) fn complete<T: Tables>(
    alloc: Global,
    indexes: &IndexInfos,
    tables: &mut Vec<IndexTable<T>>,
) -> Result<(), NoMemory>
    ensures ok { OnOk result (IsFilled (length indexes.now) tables.old.items tables.new.items) }
    ensures err { OnErr result (tables.new.items ≡ tables.old.items) }
{
    let count = indexes.len();
    tables.reserve(count.saturating_sub(tables.len()))?;
    fill(alloc, tables, count);
    Ok(())
}

/// Makes the tables that are missing to this number, for which there is room.
pub(crate) fn fill<T: Tables>(alloc: Global, tables: &mut Vec<IndexTable<T>>, count: usize)
    requires { count ≤ vec_capacity tables.old }
    ensures filled { IsFilled count tables.old.items tables.new.items }
    ensures capacity { vec_capacity tables.old ≤ vec_capacity tables.new }
{
    while tables.len() < count {
        match tables.push(IndexTable::new(alloc)) {
            Ok(()) => {}
            Err(_) => unreachable!(),
        }
    }
}

/// Makes the tables that are missing, and room for so many rows more in each. Where memory runs out, some of it may have been
/// made.
pub(crate) fn make_room<T: Tables>(
    alloc: Global,
    indexes: &IndexInfos,
    tables: &mut Vec<IndexTable<T>>,
    rows: usize,
) -> Result<(), NoMemory>
    ensures kept { (records : Records) (spare : ℕ) → InStep indexes.now tables.old.items records spare
        → InStep indexes.now tables.new.items records spare }
    ensures room { OnOk result ((records : Records) (spare : ℕ)
        → InStep indexes.now tables.old.items records spare
        → InStep indexes.now tables.new.items records rows) }
{
    complete(alloc, indexes, tables)?;
    reserve_each(tables, rows)?;
    Ok(())
}

/// Makes room for so many rows more in each table.
fn reserve_each<T: Tables>(tables: &mut Vec<IndexTable<T>>, rows: usize) -> Result<(), NoMemory>
    ensures kept { AllChanged Keeps tables.old.items tables.old.items tables.new.items }
    ensures room { OnOk result (AllChanged (HasRoomFor rows) tables.old.items tables.old.items
        tables.new.items) }
{
    reserve_in(tables.as_mut_slice(), rows)
}

fn reserve_in<T: Tables>(tables: &mut [IndexTable<T>], rows: usize) -> Result<(), NoMemory>
    ensures kept { AllChanged Keeps tables.old tables.old tables.new }
    ensures room { OnOk result (AllChanged (HasRoomFor rows) tables.old tables.old tables.new) }
{
    for table in tables.iter_mut() {
        table.reserve(rows)?;
    }
    Ok(())
}

/// Adds to each table the rows at its place.
pub(crate) fn add_to_each<T: Tables>(tables: &mut Vec<IndexTable<T>>, rows: RowLists)
    requires { AllChanged CanAdd rows tables.old.items tables.old.items }
    ensures { AllChanged Adds rows tables.old.items tables.new.items }
{
    match rows.lists {
        Lists::One(list) => add_first(tables.as_mut_slice(), list),
        Lists::Any(lists) => add_in(tables.as_mut_slice(), lists),
    }
}

/// The same of a list by itself, for the one table that there may be.
fn add_first<T: Tables>(tables: &mut [IndexTable<T>], rows: Rows)
    requires { AllChanged CanAdd (rows ∷ []) tables.old tables.old }
    ensures { AllChanged Adds (rows ∷ []) tables.old tables.new }
{
    if tables.len() > 0 {
        tables[0].add_rows(rows);
    }
}

fn add_in<T: Tables>(tables: &mut [IndexTable<T>], rows: Vec<Rows>)
    requires { AllChanged CanAdd rows.items tables.old tables.old }
    ensures { AllChanged Adds rows.items tables.old tables.new }
{
    let mut lists = rows.into_iter();
    for table in tables.iter_mut() {
        if let Some(list) = lists.next() {
            table.add_rows(list);
        }
    }
}

/// Takes from each table the rows at its place.
pub(crate) fn remove_from_each<T: Tables>(tables: &mut Vec<IndexTable<T>>, rows: &RowLists)
    requires { length tables.old.items ≤ length rows.now }
    ensures { AllChanged Removes rows.now tables.old.items tables.new.items }
{
    remove_in(tables.as_mut_slice(), rows)
}

fn remove_in<T: Tables>(tables: &mut [IndexTable<T>], rows: &RowLists)
    requires { length tables.old ≤ length rows.now }
    ensures { AllChanged Removes rows.now tables.old tables.new }
{
    for (place, table) in tables.iter_mut().enumerate() {
        if let Some(list) = rows.at(place) {
            table.remove_rows(list);
        }
    }
}

/// Puts in each table the second rows at its place in place of the first.
pub(crate) fn replace_in_each<T: Tables>(
    tables: &mut Vec<IndexTable<T>>,
    old: &RowLists,
    new: RowLists,
)
    requires rows { length tables.old.items ≤ length old.now }
    requires room { AllChanged CanAdd new tables.old.items tables.old.items }
    ensures { AllChanged Replaces (paired old.now new) tables.old.items tables.new.items }
{
    match new.lists {
        Lists::One(list) => replace_first(tables.as_mut_slice(), old, list),
        Lists::Any(lists) => replace_in(tables.as_mut_slice(), old, lists),
    }
}

/// The same of a list by itself, for the one table that there may be.
fn replace_first<T: Tables>(tables: &mut [IndexTable<T>], old: &RowLists, new: Rows)
    requires rows { length tables.old ≤ length old.now }
    requires room { AllChanged CanAdd (new ∷ []) tables.old tables.old }
    ensures { AllChanged Replaces (paired old.now (new ∷ [])) tables.old tables.new }
{
    if tables.len() > 0 {
        match old.at(0) {
            Some(gone) => tables[0].replace_rows(gone, new),
            None => unreachable!(),
        }
    }
}

fn replace_in<T: Tables>(tables: &mut [IndexTable<T>], old: &RowLists, new: Vec<Rows>)
    requires rows { length tables.old ≤ length old.now }
    requires room { AllChanged CanAdd new.items tables.old tables.old }
    ensures { AllChanged Replaces (paired old.now new.items) tables.old tables.new }
{
    let mut lists = new.into_iter();
    for (place, table) in tables.iter_mut().enumerate() {
        if let Some(gone) = old.at(place) {
            if let Some(list) = lists.next() {
                table.replace_rows(gone, list);
            }
        }
    }
}
