// Tables of both forms in one random run beside a plain sorted list.
ghost use Rattle.std.specs.Prelude.{◌+◌, ◌<◌, ◌≤◌};

use crate::dice::{Dice, push_three};
use crate::slow_table::{Act, NONE, NOTHING, SlowTable, Verb, number_of, place_of};
use clone_values::Key;
use leaf_table::LeafTable;
use sorted_table::{FlatTable, OrderedTable, find_place, table_laws};
use std::alloc::Global;
use std::process::Abort;

// ---- one call each
/// Puts an entry in if its key has none and there is room; where it stands then.
fn put_in_room<T: OrderedTable<Key, i64>>(table: &mut T, key: i64, value: i64) -> i64
    requires { 0 < T.spare table.old }
    ensures { T.spare table.old ≤ T.spare table.new + 1 }
{
    let key = Key::Number(key);
    match find_place(table, &key) {
        Ok(_) => {
            drop(key);
            NONE
        }
        Err(place) => {
            table.insert_at(place, key, value);
            number_of(place)
        }
    }
}

fn put<T: OrderedTable<Key, i64>>(rt: &impl Abort, table: &mut T, key: i64, value: i64) -> i64 {
    table.reserve(1).expect(rt, "memory");
    put_in_room(table, key, value)
}

fn put_two<T: OrderedTable<Key, i64>>(
    rt: &impl Abort,
    table: &mut T,
    first: i64,
    second: i64,
) -> (i64, i64) {
    table.reserve(2).expect(rt, "memory");
    let a = put_in_room(table, first, second);
    let b = put_in_room(table, second, first);
    (a, b)
}

/// As `put`, by the call that looks for the place itself.
fn insert<T: OrderedTable<Key, i64>>(rt: &impl Abort, table: &mut T, key: i64, value: i64) -> i64 {
    table_laws::<Key, i64>();
    table.reserve(1).expect(rt, "memory");
    let key = Key::Number(key);
    match find_place(table, &key) {
        Ok(_) => {
            drop(key);
            NONE
        }
        Err(place) => {
            table.insert(key, value);
            number_of(place)
        }
    }
}

/// The place where the key stands or would stand, and whether it is there.
fn seek<T: OrderedTable<Key, i64>>(table: &T, key: i64) -> (usize, bool) {
    let key = Key::Number(key);
    let found = find_place(table, &key);
    drop(key);
    match found {
        Ok(place) => (place, true),
        Err(place) => (place, false),
    }
}

fn find<T: OrderedTable<Key, i64>>(table: &T, key: i64) -> (i64, i64) {
    let (place, is_there) = seek(table, key);
    (number_of(place), if is_there { 1 } else { NONE })
}

/// The entry that there was.
fn change<T: OrderedTable<Key, i64>>(table: &mut T, key: i64, value: i64) -> (i64, i64) {
    let (place, is_there) = seek(table, key);
    if is_there && place < table.len() {
        (key, table.replace(place, value))
    } else {
        NOTHING
    }
}

fn number_in(key: &Key) -> i64 {
    match key {
        Key::Number(n) => *n,
        _ => NONE,
    }
}

fn take_at<T: OrderedTable<Key, i64>>(table: &mut T, place: usize) -> (i64, i64) {
    if place >= table.len() {
        return NOTHING;
    }
    let (key, value) = table.remove(place);
    let number = number_in(&key);
    drop(key);
    (number, value)
}

fn take<T: OrderedTable<Key, i64>>(table: &mut T, key: i64) -> (i64, i64) {
    let (place, is_there) = seek(table, key);
    if is_there {
        take_at(table, place)
    } else {
        NOTHING
    }
}

fn nth<T: OrderedTable<Key, i64>>(table: &T, place: usize) -> (i64, i64) {
    match table.nth(place) {
        Some((key, value)) => (number_in(key), *value),
        None => NOTHING,
    }
}

fn reserve<T: OrderedTable<Key, i64>>(rt: &impl Abort, table: &mut T, n: usize) -> (i64, i64) {
    table.reserve(n).expect(rt, "memory");
    NOTHING
}

fn answer<T: OrderedTable<Key, i64>>(rt: &impl Abort, table: &mut T, act: Act) -> (i64, i64) {
    match act.verb {
        Verb::Put => (put(rt, table, act.key, act.value), NONE),
        Verb::PutTwo => put_two(rt, table, act.key, act.value),
        Verb::Insert => (insert(rt, table, act.key, act.value), NONE),
        Verb::Change => change(table, act.key, act.value),
        Verb::Take => take(table, act.key),
        Verb::TakeAt => take_at(table, place_of(act.key)),
        Verb::Find => find(table, act.key),
        Verb::Nth => nth(table, place_of(act.key)),
        Verb::Reserve => reserve(rt, table, place_of(act.key)),
    }
}

// ---- random acts
/// Where the table grows.
fn growing(n: i64) -> Verb {
    match n {
        0..=4 => Verb::Put,
        5..=7 => Verb::PutTwo,
        8..=10 => Verb::Insert,
        11 | 12 => Verb::Take,
        13 => Verb::TakeAt,
        14..=16 => Verb::Change,
        17 => Verb::Find,
        18 => Verb::Nth,
        _ => Verb::Reserve,
    }
}

/// Where it shrinks.
fn shrinking(n: i64) -> Verb {
    match n {
        0 => Verb::Put,
        1 => Verb::Insert,
        2..=8 => Verb::TakeAt,
        9..=15 => Verb::Take,
        16 => Verb::Change,
        17 => Verb::Find,
        18 => Verb::Nth,
        _ => Verb::Reserve,
    }
}

/// The table grows, shrinks, grows and shrinks again.
fn some_act(dice: &mut Dice, step: i64) -> Act {
    let n = dice.roll(20);
    let grows = step % 1_200 < 500;
    Act {
        verb: if grows { growing(n) } else { shrinking(n) },
        key: dice.roll(if grows || n > 8 { 400 } else { 100 }),
        value: dice.roll(400),
    }
}

// ---- the run
/// Makes a call of both, and writes the key or the place and the answers where they differ.
fn compare<T: OrderedTable<Key, i64>>(
    rt: &impl Abort,
    table: &mut T,
    slow: &mut SlowTable,
    act: Act,
    found: &mut String,
) {
    let a = answer(rt, table, act);
    let b = slow.answer(rt, act);
    if a.0 != b.0 || a.1 != b.1 {
        push_three(rt, found, act.key, a.0, b.0);
    }
}

/// Each place and each key.
fn compare_all<T: OrderedTable<Key, i64>>(
    rt: &impl Abort,
    table: &mut T,
    slow: &mut SlowTable,
    found: &mut String,
) {
    for key in 0..400i64 {
        for verb in [Verb::Nth, Verb::Find] {
            let act = Act {
                verb,
                key,
                value: 0,
            };
            compare(rt, table, slow, act, found);
        }
    }
}

/// Where a table and the slow one differ in a run.
fn differences<T: OrderedTable<Key, i64>>(rt: &impl Abort, alloc: Global, mut table: T) -> String {
    let mut found = String::new(alloc);
    let mut dice = Dice::new(12345);
    let mut slow = SlowTable {
        entries: Vec::new(alloc),
    };
    for step in 0..2_400i64 {
        let act = some_act(&mut dice, step);
        compare(rt, &mut table, &mut slow, act, &mut found);
        if step % 100 == 99 {
            compare_all(rt, &mut table, &mut slow, &mut found);
        }
    }
    found
}

#[test]
fn one_run_does_what_a_sorted_list_does(rt: HostRuntime) {
    let table: FlatTable<Key, i64> = FlatTable::new(rt.alloc());
    let found = differences(&rt, rt.alloc(), table);
    assert_eq!(rt; found.as_str(), "");
}

#[test]
fn leaves_do_what_a_sorted_list_does(rt: HostRuntime) {
    let table: LeafTable<Key, i64> = LeafTable::new(rt.alloc());
    let found = differences(&rt, rt.alloc(), table);
    assert_eq!(rt; found.as_str(), "");
}
