ghost use Rattle.std.specs.Prelude.{◌≡◌, ◌<◌};

use clone_values::{Key, Keys, Text};
use index_tables::*;
use sorted_table::{OrderedTable, Steps};
use std::alloc::Global;
use std::marker::Brand;
use std::process::Abort;
use std::sync::ledger::{Blank, Ledger};

fn row(key: i64, primary: i64) -> Row {
    Row {
        key: Key::Number(key),
        primary: Key::Number(primary),
    }
}

/// Adds the row if it is not there; whether it did.
fn put<T: Tables>(rt: &impl Abort, index: &mut IndexTable<T>, row: Row) -> bool {
    let is_new = !index.has(&row);
    index.reserve(1).expect(rt, "memory");
    index.add_rows(Rows::one(row));
    is_new
}

/// Puts these rows of one record in place of those.
fn replace<T: Tables>(
    rt: &impl Abort,
    alloc: Global,
    index: &mut IndexTable<T>,
    old: &[i64],
    new: &[i64],
) {
    let old = rows_of(rt, alloc, old);
    let new = rows_of(rt, alloc, new);
    index.reserve(new.len()).expect(rt, "memory");
    index.replace_rows(&old, new);
}

/// The rows of the record 5 with these index keys.
fn rows_of(rt: &impl Abort, alloc: Global, keys: &[i64]) -> Rows {
    let mut rows = Vec::new(alloc);
    for key in keys {
        rows.push(row(*key, 5)).expect(rt, "memory");
    }
    Rows::from_vec(rows)
}

/// Removes the row.
fn take<T: Tables>(index: &mut IndexTable<T>, row: Row) {
    index.remove_rows(&Rows::one(row));
}

/// The rows of numbers, as `key:primary`.
fn listing<T: Tables>(rt: &impl Abort, alloc: Global, index: &IndexTable<T>) -> String {
    let mut shown = String::new(alloc);
    for place in 0..index.len() {
        match index.row(place) {
            Some(row) => match (&row.key, &row.primary) {
                (Key::Number(key), Key::Number(primary)) => write!(
                    shown,
                    "{key}:{primary} "
                ).expect(rt, "memory"),
                _ => write!(shown, "? ").expect(rt, "memory"),
            },
            None => write!(shown, "- ").expect(rt, "memory"),
        }
    }
    shown
}

/// The place that `first_from` answers.
fn first_from<T: Tables>(index: &IndexTable<T>, lower: Option<&Key>, open: bool) -> usize {
    first_by::<T, Brand>(index, lower, open, Blank::new(1))
}

fn first_by<T: Tables, L: Ledger>(
    index: &IndexTable<T>,
    lower: Option<&Key>,
    open: bool,
    blank: Blank,
) -> usize
    requires name { blank.name ≡ L.name }
    requires parts { blank.parts ≡ L.parts }
    requires some { 0 < blank.parts }
{
    let mut steps: Steps<L> = Steps::new(blank);
    index.first_from(lower, open, &mut steps)
}

/// Five rows of three index keys, added out of order.
fn five_rows(rt: &impl Abort, alloc: Global) -> IndexTable<FlatTables> {
    let mut index = IndexTable::new(alloc);
    for (key, primary) in [(20, 1), (10, 9), (20, 7), (30, 2), (10, 3), (20, 7)] {
        let _ = put(rt, &mut index, row(key, primary));
    }
    index
}

/// Rows stand by their index keys, and those of one index key by their primary keys .
#[test]
fn rows_stand_by_index_key_and_then_by_primary_key(rt: HostRuntime) {
    let index = five_rows(&rt, rt.alloc());
    let shown = listing(&rt, rt.alloc(), &index);
    assert_eq!(rt; shown.as_str(), "10:3 10:9 20:1 20:7 30:2 ");
    assert!(rt; index.row(5).is_none());
}

/// A removal takes the rows out that are there, and passes over the others.
#[test]
fn rows_are_removed(rt: HostRuntime) {
    let mut index = five_rows(&rt, rt.alloc());
    take(&mut index, row(20, 1));
    take(&mut index, row(20, 2));
    let shown = listing(&rt, rt.alloc(), &index);
    assert_eq!(rt; shown.as_str(), "10:3 10:9 20:7 30:2 ");
}

/// A replacement leaves the rows of the new list in place of those of the old one, near or far, and all others.
#[test]
fn rows_are_replaced(rt: HostRuntime) {
    let mut index: IndexTable<FlatTables> = IndexTable::new(rt.alloc());
    let _ = put(&rt, &mut index, row(2, 4));
    let mut shown = String::new(rt.alloc());
    let lists: [&[i64]; 6] = [
        &[],
        &[2],
        &[2, 3, 1],
        &[1, 2, 4, 3],
        &[9, 8, 7, 6, 5, 4, 3, 2, 1, 0, 11, 12],
        &[12, 20, 9],
    ];
    for place in 1..lists.len() {
        replace(&rt, rt.alloc(), &mut index, lists[place - 1], lists[place]);
        write!(shown, "{}/ ", listing(&rt, rt.alloc(), &index)).expect(&rt, "memory");
    }
    assert_eq!(rt;
        shown.as_str(),
        concat!(
            "2:4 2:5 / 1:5 2:4 2:5 3:5 / 1:5 2:4 2:5 3:5 4:5 / ",
            "0:5 1:5 2:4 2:5 3:5 4:5 5:5 6:5 7:5 8:5 9:5 11:5 12:5 / 2:4 9:5 12:5 20:5 / "
        )
    );
}

/// A copy has equal rows, and is changed alone.
#[test]
fn a_copy_has_equal_rows(rt: HostRuntime) {
    let index = five_rows(&rt, rt.alloc());
    let mut copy = index.copy(rt.alloc()).expect(&rt, "memory");
    take(&mut copy, row(30, 2));
    let of_copy = listing(&rt, rt.alloc(), &copy);
    assert_eq!(rt; of_copy.as_str(), "10:3 10:9 20:1 20:7 ");
    let of_index = listing(&rt, rt.alloc(), &index);
    assert_eq!(rt; of_index.as_str(), "10:3 10:9 20:1 20:7 30:2 ");
}

/// Of these keys the first that a row has would break a unique index.
#[test]
fn the_first_key_had_is_told(rt: HostRuntime) {
    let index = five_rows(&rt, rt.alloc());
    for (a, b, c, expected) in [
        (10, 20, 30, Some(0)),
        (11, 20, 30, Some(1)),
        (9, 31, 30, Some(2)),
        (9, 15, 31, None),
        (25, 25, 20, Some(2)),
    ] {
        let mut keys = Keys::new(rt.alloc());
        keys.push(Key::Number(a)).expect(&rt, "memory");
        keys.push(Key::Number(b)).expect(&rt, "memory");
        keys.push(Key::Number(c)).expect(&rt, "memory");
        assert_eq!(rt; index.would_break(&keys), expected);
    }
}

/// A bound leaves out the rows below it, and those of its own key if it is open.
#[test]
fn a_lower_bound_has_its_first_row(rt: HostRuntime) {
    let index = five_rows(&rt, rt.alloc());
    for (key, open, expected) in [
        (9, false, 0),
        (10, false, 0),
        (10, true, 2),
        (15, true, 2),
        (20, false, 2),
        (20, true, 4),
        (30, false, 4),
        (30, true, 5),
        (31, false, 5),
    ] {
        assert_eq!(rt;
            first_from(&index, Some(&Key::Number(key)), open),
            expected,
            "{key}"
        );
    }
    assert_eq!(rt; first_from(&index, None, true), 0);
    let text = Key::Text(Text::copy_of(rt.alloc(), "a").expect(&rt, "memory"));
    assert_eq!(rt; first_from(&index, Some(&text), false), 5);
}

/// The plain slow program: rows in the order in which they came.
#[derive(Drop)]
struct Heap {
    rows: Vec<(i64, i64)>,
}

impl Heap {
    fn put(&mut self, rt: &impl Abort, pair: (i64, i64)) {
        if !self.rows.iter().any(|other| *other == pair) {
            self.rows.push(pair).expect(rt, "memory");
        }
    }

    fn take(&mut self, pair: (i64, i64)) {
        self.rows.retain(|other| *other != pair);
    }

    /// How many rows have a lesser key, or this key too.
    fn below(&self, key: i64, and_this: bool) -> usize {
        self.rows
            .iter()
            .filter(|pair| pair.0 < key || and_this && pair.0 == key)
            .count()
    }

    fn listing(&mut self, rt: &impl Abort, alloc: Global) -> String {
        self.rows.sort().expect(rt, "memory");
        let mut shown = String::new(alloc);
        for (key, primary) in &self.rows {
            write!(shown, "{key}:{primary} ").expect(rt, "memory");
        }
        shown
    }
}

/// After each of many additions and removals the index and the plain list say the same.
#[test]
fn the_index_agrees_with_a_plain_list(rt: HostRuntime) {
    let mut index: IndexTable<FlatTables> = IndexTable::new(rt.alloc());
    let mut heap = Heap {
        rows: Vec::new(rt.alloc()),
    };
    let mut seed: u32 = 7;
    for _ in 0..300 {
        seed = seed.wrapping_mul(1_103_515_245).wrapping_add(12_345);
        let key = i64::from(seed >> 16 & 7);
        let primary = i64::from(seed >> 20 & 7);
        if seed >> 28 < 9 {
            let _ = put(&rt, &mut index, row(key, primary));
            heap.put(&rt, (key, primary));
        } else {
            take(&mut index, row(key, primary));
            heap.take((key, primary));
        }
        let shown = listing(&rt, rt.alloc(), &index);
        assert_eq!(rt; shown.as_str(), heap.listing(&rt, rt.alloc()).as_str());
        let bound = Key::Number(primary);
        assert_eq!(rt;
            index.find_first(Some(&bound), false),
            heap.below(primary, false)
        );
        assert_eq!(rt;
            index.find_first(Some(&bound), true),
            heap.below(primary, true)
        );
    }
    assert!(rt; index.len() > 20);
}

/// A list of rows keeps their order, as does its copy.
#[test]
fn a_list_of_rows_keeps_their_order(rt: HostRuntime) {
    let mut rows = Vec::new(rt.alloc());
    rows.push(row(2, 1)).expect(&rt, "memory");
    rows.push(row(1, 2)).expect(&rt, "memory");
    let rows = Rows::from_vec(rows);
    let copy = rows.copy(rt.alloc()).expect(&rt, "memory");
    assert_eq!(rt; copy.len(), 2);
    assert!(rt;
        matches!(
            copy.at(0),
            Some(Row {
                key: Key::Number(2),
                primary: Key::Number(1)
            })
        )
    );
    assert!(rt;
        matches!(
            copy.at(1),
            Some(Row {
                key: Key::Number(1),
                primary: Key::Number(2)
            })
        )
    );
    assert!(rt; copy.at(2).is_none());
}

/// A table of records begins empty.
#[test]
fn a_table_of_records_begins_empty(rt: HostRuntime) {
    assert_eq!(rt; FlatTables::records(rt.alloc()).len(), 0);
}
