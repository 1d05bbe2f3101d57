// An index that was taken out, and vectors in which it is put back.
ghost use Rattle.std.specs.Prelude.{◌≡◌, ◌<◌, ◌≤◌, Some, [], length, insert, remove, slice_get, vec_capacity, IfOk, OnOk, OnErr};
ghost use Rattle.index_tables.specs.Rows.{IndexRows};
ghost use Rattle.index_tables.specs.RecordRows.{Records, index_rows};
ghost use Rattle.store_contents.specs.Matches.{InStep};
ghost use Rattle.store_contents.specs.Walks.{IsInserted};

use crate::emptying::boxed;
use crate::growing::{complete, fill};
use idb_base::NoMemory;
use idb_schema::{IndexInfo, IndexInfos};
use index_tables::{IndexTable, Tables};
use std::alloc::Global;
use std::marker::Model;
use std::mem;

/// An index that was taken out of its store: the room that putting it back needs is kept with it. Its table is boxed, so that a list of
/// changes takes little room for each.
#[derive(Drop)]
pub struct Dropped<T: Tables> {
    place: usize,
    index: IndexInfo,
    table: Box<IndexTable<T>>,
    spare: usize,
    infos: Vec<IndexInfo>,
    tables: Vec<IndexTable<T>>,
    width: usize,
}

impl<T: Tables> Model for Dropped<T> {
    ghost use Rattle.std.specs.Prelude.{◌≡◌, ◌≤◌, [], vec_capacity};
    ghost use Rattle.std.specs.Coded.{codes};
    ghost use Rattle.store_contents.specs.Taken.{DroppedIndex, rows_code};

    ghost Value = { DroppedIndex };

    ghost coded = { Prim.hlevel (codes, rows_code) };

    ghost view = { λ a. record {
      place = a.place;
      index = a.index;
      rows = a.table.value.rows;
      spare = a.spare;
      width = a.width;
    } };

    ghost invariant = { λ a. (a.infos.items ≡ []) × (a.tables.items ≡ []) × (a.width ≤ vec_capacity a.infos)
        × (a.width ≤ vec_capacity a.tables) × (a.spare ≤ a.table.value.spare) };
}

impl<T: Tables> Dropped<T> {
    /// How many rows more fit into the index's table.
    pub(crate) fn spare(&self) -> usize
        ensures { result ≡ self.now.spare }
    {
        self.spare
    }
}

/// Takes the index and its table out at this place, or neither.
pub(crate) fn taken_at<T: Tables>(
    alloc: Global,
    indexes: &mut IndexInfos,
    tables: &mut Vec<IndexTable<T>>,
    place: usize,
    spare: usize,
) -> Result<Dropped<T>, NoMemory>
    requires place { place < length indexes.old }
    requires step { (records : Records) × InStep indexes.old tables.old.items records spare }
    ensures indexes { OnOk result (indexes.new ≡ remove indexes.old place) }
    ensures unchanged { OnErr result (indexes.new ≡ indexes.old) }
    ensures step { (records : Records) → InStep indexes.old tables.old.items records spare
        → InStep indexes.new tables.new.items records spare }

    ensures place { IfOk result (λ d. d.place ≡ place) }
    ensures index { IfOk result (λ d. slice_get indexes.old place ≡ Some d.index) }
    ensures rows { IfOk result (λ d. (records : Records) → InStep indexes.old tables.old.items records spare
        → d.rows ≡ index_rows d.index records) }
    ensures spare { IfOk result (λ d. d.spare ≡ spare) }
    ensures width { IfOk result (λ d. d.width ≡ length indexes.old) }
{
    let empty = Box::new(alloc, IndexTable::new(alloc))?;
    complete(alloc, indexes, tables)?;
    let width = indexes.len();
    let infos = Vec::with_capacity(alloc, width)?;
    let room = Vec::with_capacity(alloc, width)?;
    let index = indexes.remove_at(place);
    let table = tables.remove(place);
    Ok(Dropped {
        place,
        index,
        table: boxed(empty, table),
        spare,
        infos,
        tables: room,
        width,
    })
}

/// The elements of a vector in another one, which has room for them.
fn moved<A: Drop>(items: Vec<A>, room: Vec<A>) -> Vec<A>
    requires empty { room.items ≡ [] }
    requires width { length items.items ≤ vec_capacity room }
    ensures items { result.items ≡ items.items }
    ensures capacity { vec_capacity room ≤ vec_capacity result }
{
    let mut items = items;
    let mut all = room;
    let _ = all.append(&mut items);
    all
}

/// Puts one more in at this place, where there is room.
fn put_one<A: Drop>(items: &mut Vec<A>, place: usize, item: A)
    requires place { place ≤ length items.old.items }
    requires room { length items.old.items < vec_capacity items.old }
    ensures { items.new.items ≡ insert items.old.items place item }
{
    let _ = items.insert(place, item);
}

/// The tables with one more at this place, in another vector, which has room for them; those that are missing before it are
/// made.
fn inserted<T: Tables>(
    alloc: Global,
    tables: Vec<IndexTable<T>>,
    room: Vec<IndexTable<T>>,
    place: usize,
    table: IndexTable<T>,
) -> Vec<IndexTable<T>>
    requires empty { room.items ≡ [] }
    requires place { place < vec_capacity room }
    requires width { length tables.items < vec_capacity room }
    ensures { IsInserted place table tables.items result.items }
{
    let mut all = moved(tables, room);
    fill(alloc, &mut all, place);
    put_one(&mut all, place, table);
    all
}

/// Puts an index and its table in at this place. It takes no memory.
pub(crate) fn insert_both<T: Tables>(
    alloc: Global,
    indexes: &mut IndexInfos,
    tables: &mut Vec<IndexTable<T>>,
    dropped: Dropped<T>,
)
    requires place { dropped.place ≤ length indexes.old }
    requires width { length indexes.old < dropped.width }
    requires tables { length tables.old.items ≤ length indexes.old }
    ensures indexes { indexes.new ≡ insert indexes.old dropped.place dropped.index }
    ensures tables { (table : IndexRows) × (table.rows ≡ dropped.rows) × (dropped.spare ≤ table.spare)
        × IsInserted dropped.place table tables.old.items tables.new.items }
{
    let Dropped {
        place,
        index,
        table,
        spare: _,
        infos,
        tables: room,
        width: _,
    } = dropped;
    let mut all = moved(
        mem::replace(indexes, IndexInfos::new(alloc)).into_vec(),
        infos,
    );
    put_one(&mut all, place, index);
    *indexes = IndexInfos::from_vec(all);
    *tables = inserted(
        alloc,
        mem::replace(tables, Vec::new(alloc)),
        room,
        place,
        Box::into_inner(table),
    );
}
