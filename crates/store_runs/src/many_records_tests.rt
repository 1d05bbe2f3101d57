// A hundred thousand records that are stored, some of which are replaced, and all undone.
use crate::dice::push_three;
use crate::random_acts::{Kind, Shape};
use crate::slow_table::number_of;
use crate::stores::*;
use idb_keys::Over;
use index_tables::{FlatTables, Tables};
use object_stores::StoreVersion;
use std::alloc::Global;
use std::process::Abort;
use store_tables::LeafTables;

const BY_E: Kind = Kind {
    is_of_tags: false,
    is_unique: false,
};

/// Stores the record of this key with this `e`.
fn put_one<T: Tables>(
    rt: &impl Abort,
    alloc: Global,
    store: &mut StoreVersion<T>,
    key: i64,
    e: i64,
) {
    let shape = Shape {
        number: e,
        e,
        tags: [0, 0, 0],
    };
    let value = value_of(rt, alloc, &shape, None);
    let _ = put(rt, store, value, key, false);
}

/// Stores so many records whose keys are so far apart, and whose `e` is so much more than the key.
fn put_many<T: Tables>(
    rt: &impl Abort,
    alloc: Global,
    store: &mut StoreVersion<T>,
    (count, apart, more): (i64, i64, i64),
) {
    for n in 0..count {
        let key = n.wrapping_add(1).wrapping_mul(apart);
        put_one(rt, alloc, store, key, key.wrapping_add(more));
    }
}

/// How many records and rows there are, the number of the last record, the row in the middle, and the generator's number.
fn push_sight<T: Tables>(rt: &impl Abort, said: &mut String, store: &StoreVersion<T>) {
    let records = number_of(store.len());
    let rows = number_of(store.row_count(Over::Index(0)));
    push_three(rt, said, records, rows, number_at(store, 100_000));
    let (key, primary) = row_of(store.row(Over::Index(0), 50_000));
    push_three(rt, said, key, primary, current_of(store));
}

/// A store of all the records, none of which is settled.
fn filled<T: Tables>(rt: &impl Abort, alloc: Global) -> StoreVersion<T> {
    let mut store: StoreVersion<T> = store_of_keys(rt, alloc);
    let _ = add_index(rt, alloc, &mut store, BY_E);
    store.settle();
    put_many(rt, alloc, &mut store, (100_000, 1, 0));
    store
}

/// Replaces each thousandth record, shows what there is, and undoes it.
fn replace_and_undo<T: Tables>(
    rt: &impl Abort,
    alloc: Global,
    said: &mut String,
    store: &mut StoreVersion<T>,
) {
    let mark = store.mark();
    put_many(rt, alloc, store, (100, 1_000, 200_000));
    push_sight(rt, said, store);
    undo(rt, store, mark);
}

/// What a store shows when all are stored, when some are replaced, and when these and then all are undone.
fn told<T: Tables>(rt: &impl Abort, alloc: Global) -> String {
    let mut said = String::new(alloc);
    let mut store: StoreVersion<T> = filled(rt, alloc);
    push_sight(rt, &mut said, &store);
    replace_and_undo(rt, alloc, &mut said, &mut store);
    push_sight(rt, &mut said, &store);
    store.undo_all();
    push_sight(rt, &mut said, &store);
    drop(store);
    said
}

/// Of the first 50,051 records 50 are replaced, so the row with 50,000 before it is that of the record 50,051.
const SIGHTS: &str = concat!(
    "100000 100000 100000 50001 50001 100001 ",
    "100000 100000 300000 50051 50051 100001 ",
    "100000 100000 100000 50001 50001 100001 ",
    "0 0 -200 -200 -200 1 "
);

#[test]
fn a_hundred_thousand_records_come_and_go(rt: HostRuntime) {
    let said = told::<FlatTables>(&rt, rt.alloc());
    assert_eq!(rt; said.as_str(), SIGHTS);
}

#[test]
fn a_hundred_thousand_records_come_and_go_in_leaves(rt: HostRuntime) {
    let said = told::<LeafTables>(&rt, rt.alloc());
    assert_eq!(rt; said.as_str(), SIGHTS);
}
