// Object stores in random runs beside a plain slow program.
use crate::dice::{Dice, push_three};
use crate::random_acts::{Act, Kind, Shape, Verb, some_act};
use crate::slow_store::{Content, NOTHING, SlowStore};
use crate::stores::*;
use index_tables::{FlatTables, Tables};
use object_stores::{Mark, StoreVersion};
use std::alloc::Global;
use std::process::Abort;
use store_tables::LeafTables;

/// Stores the value of an act under this key, or without one.
fn put_value<T: Tables>(
    rt: &impl Abort,
    alloc: Global,
    store: &mut StoreVersion<T>,
    (shape, key, add): (&Shape, Option<i64>, bool),
) -> i64 {
    let is_in_line = store.info().path.is_some();
    let value = value_of(rt, alloc, shape, if is_in_line { key } else { None });
    match key {
        Some(key) if !is_in_line => put(rt, store, value, key, add),
        _ => put_alone(rt, alloc, store, value, add),
    }
}

/// The last of so many marks, or of all.
fn last_of(marks: &mut Vec<Mark>, count: i64) -> Option<Mark> {
    let mut last = None;
    for _ in 0..count {
        if let Some(mark) = marks.pop() {
            last = Some(mark);
        }
    }
    last
}

fn undo_marks<T: Tables>(
    rt: &impl Abort,
    store: &mut StoreVersion<T>,
    marks: &mut Vec<Mark>,
    count: i64,
) -> i64 {
    match last_of(marks, count) {
        Some(mark) => {
            undo(rt, store, mark);
            0
        }
        None => NOTHING,
    }
}

/// Does an act that has to do with all marks.
fn answer_of_marks<T: Tables>(
    rt: &impl Abort,
    store: &mut StoreVersion<T>,
    marks: &mut Vec<Mark>,
    verb: Verb,
) -> i64 {
    match verb {
        Verb::Mark => {
            marks.push(store.mark()).expect(rt, "memory");
            return 0;
        }
        Verb::UndoAll => store.undo_all(),
        _ => store.settle(),
    }
    marks.clear();
    0
}

/// What the store answers.
fn answer<T: Tables>(
    rt: &impl Abort,
    alloc: Global,
    store: &mut StoreVersion<T>,
    marks: &mut Vec<Mark>,
    act: &Act,
) -> i64 {
    match act.verb {
        Verb::Put => put_value(rt, alloc, store, (&act.shape, Some(act.key), false)),
        Verb::Add => put_value(rt, alloc, store, (&act.shape, Some(act.key), true)),
        Verb::PutNext => put_value(rt, alloc, store, (&act.shape, None, false)),
        Verb::Delete => delete(rt, store, act.key, act.high(), act.is_open),
        Verb::Value => number_at(store, act.key),
        Verb::Clear => clear(rt, store),
        Verb::AddIndex => add_index(rt, alloc, store, act.kind),
        Verb::DropIndex => drop_index(rt, store, act.number),
        Verb::SetCurrent => set_current(rt, store, act.current()),
        Verb::Undo => undo_marks(rt, store, marks, act.number),
        _ => answer_of_marks(rt, store, marks, act.verb),
    }
}

fn has_members<T: Tables>(
    rt: &impl Abort,
    alloc: Global,
    store: &StoreVersion<T>,
    slow: &Content,
) -> bool {
    members(rt, alloc, store) == slow.members(rt, alloc)
}

fn has_rows<T: Tables>(
    rt: &impl Abort,
    alloc: Global,
    store: &StoreVersion<T>,
    place: usize,
    slow: &Content,
    kind: Kind,
) -> bool {
    rows(rt, alloc, store, place) == slow.rows(rt, alloc, kind)
}

/// Whether the store has the records, the rows and the number of the slow one.
fn is_same<T: Tables>(
    rt: &impl Abort,
    alloc: Global,
    store: &StoreVersion<T>,
    slow: &Content,
) -> bool {
    for (place, kind) in slow.kinds.iter().enumerate() {
        if !has_rows(rt, alloc, store, place, slow, *kind) {
            return false;
        }
    }
    store.info().indexes.len() == slow.kinds.len()
        && current_of(store) == slow.current
        && has_members(rt, alloc, store, slow)
}

/// Makes a call of both, and writes its number and the answers where these or the stores differ.
fn compare<T: Tables>(
    rt: &impl Abort,
    alloc: Global,
    store: &mut StoreVersion<T>,
    marks: &mut Vec<Mark>,
    slow: &mut SlowStore,
    act: &Act,
    found: &mut String,
) {
    let a = answer(rt, alloc, store, marks, act);
    let b = slow.answer(rt, act);
    if a != b || !is_same(rt, alloc, store, &slow.now) {
        push_three(rt, found, act.shape.number, a, b);
    }
}

/// Writes where a store and the slow one differ in a run.
fn push_differences<T: Tables>(
    rt: &impl Abort,
    alloc: Global,
    mut store: StoreVersion<T>,
    seed: u64,
    found: &mut String,
) {
    let mut marks = Vec::new(alloc);
    let mut dice = Dice::new(seed);
    let mut slow = SlowStore::new(alloc);
    for step in 0..600i64 {
        let act = some_act(&mut dice, step);
        compare(rt, alloc, &mut store, &mut marks, &mut slow, &act, found);
    }
    drop(store);
    drop(marks);
    drop(slow);
}

/// The same for a store whose keys stand beside the values, and for one whose keys stand in them.
fn differences<T: Tables>(rt: &impl Abort, alloc: Global) -> String {
    let mut found = String::new(alloc);
    push_differences::<T>(rt, alloc, store_of_keys(rt, alloc), 12, &mut found);
    push_differences::<T>(rt, alloc, store_of_path(rt, alloc), 10, &mut found);
    found
}

#[test]
fn stores_do_what_a_slow_program_does(rt: HostRuntime) {
    let found = differences::<FlatTables>(&rt, rt.alloc());
    assert_eq!(rt; found.as_str(), "");
}

#[test]
fn stores_in_leaves_do_what_a_slow_program_does(rt: HostRuntime) {
    let found = differences::<LeafTables>(&rt, rt.alloc());
    assert_eq!(rt; found.as_str(), "");
}
