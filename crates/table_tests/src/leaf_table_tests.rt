use clone_values::Key;
use leaf_table::*;
use sorted_table::{FlatTable, OrderedTable, find_place};
use std::alloc::Global;
use std::ops::Range;
use std::process::Abort;

/// A call, with what it is called with.
#[derive(Clone, Copy)]
enum Step {
    Put(i64, i64),
    Take(i64),
    Change(i64, i64),
    Find(i64),
    Nth(usize),
    Runs,
    Len,
}

/// Puts an entry in if its key has none; whether it did.
fn put_new<T: OrderedTable<Key, i64>>(
    rt: &impl Abort,
    table: &mut T,
    key: i64,
    value: i64,
) -> bool {
    match find_place(table, &Key::Number(key)) {
        Ok(_) => false,
        Err(place) => {
            table.reserve(1).expect(rt, "memory");
            table.insert_at(place, Key::Number(key), value);
            true
        }
    }
}

/// Takes the entry of a key out.
fn take<T: OrderedTable<Key, i64>>(table: &mut T, key: i64) -> Option<i64> {
    match find_place(table, &Key::Number(key)) {
        Ok(place) if place < table.len() => Some(table.remove(place).1),
        _ => None,
    }
}

/// Puts another value into the entry of a key.
fn change<T: OrderedTable<Key, i64>>(table: &mut T, key: i64, value: i64) -> Option<i64> {
    match find_place(table, &Key::Number(key)) {
        Ok(place) if place < table.len() => Some(table.replace(place, value)),
        _ => None,
    }
}

/// How many entries there are, and the sum of their keys, run by run; a run past the end has none.
fn sum_of_runs<T: OrderedTable<Key, i64>>(table: &T) -> (usize, i64) {
    let mut count: usize = 0;
    let mut sum: i64 = 0;
    for _ in 0..701u32 {
        let run = table.run(count);
        for pair in run {
            match &pair.0 {
                Key::Number(key) => sum = sum.wrapping_add(*key),
                _ => {}
            }
        }
        count = count.wrapping_add(run.len());
    }
    (count, sum)
}

/// Makes one call, and writes its answer behind those before it.
fn make<T: OrderedTable<Key, i64>>(rt: &impl Abort, table: &mut T, step: Step, told: &mut String) {
    match step {
        Step::Put(key, value) => write!(told, "{} ", put_new(rt, table, key, value)).expect(
            rt, "memory",
        ),
        Step::Take(key) => write!(told, "{:?} ", take(table, key)).expect(rt, "memory"),
        Step::Change(key, value) => write!(told, "{:?} ", change(table, key, value)).expect(
            rt, "memory",
        ),
        Step::Find(key) => write!(told, "{:?} ", find_place(table, &Key::Number(key))).expect(
            rt, "memory",
        ),
        Step::Nth(place) => match table.nth(place) {
            Some((Key::Number(key), value)) => write!(told, "{place}:{key}={value} ").expect(
                rt, "memory",
            ),
            _ => write!(told, "{place}:- ").expect(rt, "memory"),
        },
        Step::Runs => write!(told, "{:?} ", sum_of_runs(table)).expect(rt, "memory"),
        Step::Len => write!(told, "{} ", table.len()).expect(rt, "memory"),
    }
}

/// 701 keys put in scrambled order, and all but the multiples of 5 taken out again in another.
fn scramble<T: OrderedTable<Key, i64>>(rt: &impl Abort, table: &mut T) {
    for i in 0..701i64 {
        let _ = put_new(rt, table, i.wrapping_mul(389) % 701, i);
    }
    for i in 0..701i64 {
        let key = i.wrapping_mul(211) % 701;
        if key % 5 != 0 {
            let _ = take(table, key);
        }
    }
}

/// What a table of the scrambled keys answers.
fn answers<T: OrderedTable<Key, i64>>(rt: &impl Abort, alloc: Global, table: &mut T) -> String {
    let mut told = String::new(alloc);
    scramble(rt, table);
    let steps = [
        Step::Len,
        Step::Nth(0),
        Step::Nth(20),
        Step::Nth(40),
        Step::Nth(60),
        Step::Nth(80),
        Step::Nth(100),
        Step::Nth(120),
        Step::Nth(140),
        Step::Nth(141),
        Step::Find(3),
        Step::Find(350),
        Step::Find(351),
        Step::Find(700),
        Step::Find(701),
        Step::Put(350, 1),
        Step::Put(351, 2),
        Step::Find(351),
        Step::Change(351, 3),
        Step::Take(351),
        Step::Take(351),
        Step::Change(351, 4),
        Step::Runs,
        Step::Len,
    ];
    for step in steps {
        make(rt, table, step, &mut told);
    }
    told
}

/// What a plain dictionary of the same calls holds.
const ANSWERS: &str =
    "141 0:0=0 20:100=476 40:200=251 60:300=26 80:400=502 100:500=277 120:600=52 140:700=528 141:- Err(1) Ok(70) Err(71) Ok(140) Err(141) false true Ok(71) Some(2) Some(3) None None (141, 49350) 141 ";

#[test]
fn leaves_answer_as_a_dictionary_does(rt: HostRuntime) {
    let mut table: LeafTable<Key, i64> = LeafTable::new(rt.alloc());
    assert_eq!(rt; answers(&rt, rt.alloc(), &mut table).as_str(), ANSWERS);
}

#[test]
fn one_run_answers_the_same(rt: HostRuntime) {
    let mut table: FlatTable<Key, i64> = FlatTable::new(rt.alloc());
    assert_eq!(rt; answers(&rt, rt.alloc(), &mut table).as_str(), ANSWERS);
}

/// Writes how many leaves are in use, and how many entries are spare.
fn tell(rt: &impl Abort, table: &LeafTable<Key, i64>, told: &mut String) {
    write!(told, "{}:{} ", table.leaves(), table.spare()).expect(rt, "memory");
}

/// Puts keys in that rise, for which there is room.
fn put_rising(rt: &impl Abort, table: &mut LeafTable<Key, i64>, keys: Range<i64>) {
    for key in keys {
        let _ = put_new(rt, table, key, 0);
    }
}

#[test]
fn leaves_split_and_are_given_back(rt: HostRuntime) {
    let mut table: LeafTable<Key, i64> = LeafTable::new(rt.alloc());
    let mut told = String::new(rt.alloc());
    tell(&rt, &table, &mut told);
    table.reserve(65).expect(&rt, "memory");
    put_rising(&rt, &mut table, 0..65);
    tell(&rt, &table, &mut told);
    for key in 0..65i64 {
        let _ = take(&mut table, key);
    }
    tell(&rt, &table, &mut told);
    assert_eq!(rt; told.as_str(), "0:0 2:31 0:65 ");
}

#[test]
fn a_full_leaf_splits_into_halves(rt: HostRuntime) {
    let mut table: LeafTable<Key, i64> = LeafTable::new(rt.alloc());
    let mut told = String::new(rt.alloc());
    table.reserve(64).expect(&rt, "memory");
    put_rising(&rt, &mut table, 0..64);
    tell(&rt, &table, &mut told);
    put_rising(&rt, &mut table, 64..65);
    tell(&rt, &table, &mut told);
    assert_eq!(rt; told.as_str(), "1:32 2:31 ");
}
