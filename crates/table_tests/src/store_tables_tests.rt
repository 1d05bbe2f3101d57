use clone_values::{Key, Value};
use index_tables::{IndexTable, Row, Rows, Tables};
use sorted_table::OrderedTable;
use std::alloc::Global;
use std::fmt::Write;
use std::process::Abort;
use store_tables::*;

/// Adds a row that leads from this index key to the record 5.
fn add<T: Tables>(rt: &impl Abort, index: &mut IndexTable<T>, key: i64) {
    let row = Row {
        key: Key::Number(key),
        primary: Key::Number(5),
    };
    index.reserve(1).expect(rt, "memory");
    index.add_rows(Rows::one(row));
}

/// The index keys of the rows in order.
fn keys_listed<T: Tables>(rt: &impl Abort, alloc: Global, index: &IndexTable<T>) -> String {
    let mut listed = String::new(alloc);
    for place in 0..index.len() {
        match index.row(place) {
            Some(
                Row {
                    key: Key::Number(n),
                    ..
                },
            ) => write!(listed, "{n} ").expect(rt, "memory"),
            _ => write!(listed, "? ").expect(rt, "memory"),
        }
    }
    listed
}

/// Rows of the keys 0 to 199, put in as they come when 37 is added over and over, stand in order.
#[test]
fn rows_stand_in_order(rt: HostRuntime) {
    let alloc = rt.alloc();
    let mut index: IndexTable<LeafTables> = IndexTable::new(alloc);
    let mut expected = String::new(alloc);
    for n in 0i64..200 {
        add(&rt, &mut index, n.wrapping_mul(37) % 200);
        write!(expected, "{n} ").expect(&rt, "memory");
    }
    assert_eq!(rt; keys_listed(&rt, alloc, &index).as_str(), expected.as_str());
}

/// Whether a table of records keeps a record that was put in.
fn keeps_a_record<T: Tables>(rt: &impl Abort, alloc: Global) -> bool {
    let mut records = T::records(alloc);
    records.reserve(1).expect(rt, "memory");
    records.insert(Key::Number(1), Value::Null);
    matches!(records.nth(0), Some((Key::Number(1), Value::Null))) && records.len() == 1
}

#[test]
fn records_are_kept(rt: HostRuntime) {
    assert!(rt; keeps_a_record::<LeafTables>(&rt, rt.alloc()));
}
