ghost use Rattle.std.specs.Prelude.{◌≡◌, true, false};
ghost use Rattle.clone_values.specs.View.{tree_of};
ghost use Rattle.clone_values.specs.declared.path_types.PathSpec.TheVariants.{One};
ghost use Rattle.object_stores.specs.Storing.{HasKey, in_line};

use clone_values::{Key, PathSpec, Props, Text, Value, is_cloneable, is_int, well_formed};
use idb_base::GREATEST_LENGTH;
use idb_keys::{KeyRange, Over};
use idb_schema::{IndexInfo, IndexInfos, StoreInfo};
use index_tables::{FlatTables, Tables};
use key_paths::{Extracted, could_inject, extract, has_room};
use object_stores::*;
use path_grammar::KeyPath;
use std::alloc::Global;
use std::process::Abort;

/// One call. A value is `{"e": e}`, or the Object without properties.
#[derive(Clone, Copy)]
enum Step {
    Put(i64, i64),
    Add(i64, i64),
    PutNext(i64),
    PutEmpty,
    Delete(i64, i64),
    Clear,
    AddIndex(bool),
    DropIndex,
    SetCurrent(u64),
    Mark,
    Undo,
    UndoAll,
    Settle,
    Value(i64),
    Copy,
    Show,
}

// ---- stores and values
fn path(rt: &impl Abort, alloc: Global, s: &str) -> KeyPath
    ensures { result ≡ One s.now }
{
    assert!(rt; s.len() <= GREATEST_LENGTH);
    KeyPath::parse(PathSpec::One(Text::copy_of(alloc, s).expect(rt, "memory"))).expect(rt, "a path")
}

fn by_e(rt: &impl Abort, alloc: Global, unique: bool) -> IndexInfo
    ensures { result.multi ≡ false }
{
    let path = path(rt, alloc, "e");
    let name = Text::copy_of(alloc, "by e").expect(rt, "memory");
    IndexInfo {
        name,
        path,
        unique,
        multi: false,
    }
}

/// A store whose keys stand beside the values, with a generator or without.
fn new_store<T: Tables>(rt: &impl Abort, alloc: Global, auto: bool) -> StoreVersion<T> {
    let info = StoreInfo {
        name: Text::copy_of(alloc, "s").expect(rt, "memory"),
        path: None,
        auto,
        indexes: IndexInfos::new(alloc),
    };
    StoreVersion::new(alloc, info)
}

/// The Object with the one property `e`.
fn object(rt: &impl Abort, alloc: Global, e: i64) -> Value {
    let mut props = Props::new(alloc);
    assert!(rt; props.len() < 100);
    props
        .set(
            Text::copy_of(alloc, "e").expect(rt, "memory"),
            Value::Int(e),
        )
        .expect(rt, "memory");
    Value::Object(props)
}

// ---- one call each
/// The key; `!` where it was refused.
fn push_answer(rt: &impl Abort, text: &mut String, stored: Result<Key, StoreError>) {
    match &stored {
        Ok(Key::Number(n)) => write!(text, "{n} ").expect(rt, "memory"),
        Err(StoreError::Constraint) => push(rt, text, "! "),
        _ => push(rt, text, "? "),
    }
}

/// Stores the value under a number.
fn put<T: Tables>(
    rt: &impl Abort,
    store: &mut StoreVersion<T>,
    value: Value,
    key: i64,
    add: bool,
) -> Result<Key, StoreError> {
    assert!(rt; well_formed(&value) && is_cloneable(&value) && is_int(key));
    store.store_record(value, Some(Key::Number(key)), add)
}

fn has_key<T: Tables>(
    rt: &impl Abort,
    alloc: Global,
    store: &StoreVersion<T>,
    value: &Value,
) -> bool
    ensures { result ≡ true → HasKey store.now.store.info.path store.now.store.info.auto
        (tree_of value.now) (in_line store.now.store.info.path (tree_of value.now)) }
{
    match &store.info().path {
        None => store.info().auto,
        Some(path) => match extract(alloc, path, false, value).expect(rt, "memory") {
            Extracted::One(_) => true,
            Extracted::Many(_) => false,
            Extracted::Invalid => false,
            Extracted::Failure => {
                store.info().auto && could_inject(path, value) && has_room(path, value)
            }
        },
    }
}

/// Stores a value without a key.
fn put_alone<T: Tables>(
    rt: &impl Abort,
    alloc: Global,
    store: &mut StoreVersion<T>,
    value: Value,
) -> Result<Key, StoreError> {
    assert!(rt; well_formed(&value) && is_cloneable(&value) && has_key(rt, alloc, store, &value));
    store.store_record(value, None, false)
}

fn added<T: Tables>(
    rt: &impl Abort,
    alloc: Global,
    store: &mut StoreVersion<T>,
    unique: bool,
) -> Result<(), IndexError> {
    let info = by_e(rt, alloc, unique);
    assert!(rt; store.info().indexes.len() == 0);
    store.add_index(info)
}

/// The number of the key that breaks the index, or 0; `None` where there is another cause.
fn broken(answer: &Result<(), IndexError>) -> Option<i64> {
    match answer {
        Ok(()) => Some(0),
        Err(
            IndexError::Constraint {
                key: Key::Number(n),
            },
        ) => Some(*n),
        Err(_) => None,
    }
}

/// The key that breaks the index, or 0.
fn add_index<T: Tables>(
    rt: &impl Abort,
    alloc: Global,
    store: &mut StoreVersion<T>,
    unique: bool,
) -> i64 {
    let answer = added(rt, alloc, store, unique);
    match broken(&answer) {
        Some(n) => n,
        None => panic!(rt; "another cause"),
    }
}

fn drop_index<T: Tables>(rt: &impl Abort, store: &mut StoreVersion<T>) {
    assert!(rt; store.info().indexes.len() != 0);
    store.drop_index(0).expect(rt, "memory")
}

fn set_current<T: Tables>(rt: &impl Abort, store: &mut StoreVersion<T>, current: u64) {
    assert!(rt; store.info().auto && current >= 1 && current <= 9007199254740993);
    store.set_current(current);
}

fn undo<T: Tables>(rt: &impl Abort, store: &mut StoreVersion<T>, mark: Mark) {
    assert!(rt; mark.place <= store.mark().place && (store.info().auto || mark.current == 1));
    assert!(rt; mark.current >= 1 && mark.current <= 9007199254740993);
    store.undo_to(mark);
}

fn push(rt: &impl Abort, text: &mut String, s: &str) {
    text.push_str(s).expect(rt, "memory")
}

fn push_row(rt: &impl Abort, text: &mut String, row: Option<(&Key, &Key)>) {
    match row {
        Some((Key::Number(key), Key::Number(primary))) => write!(text, "{key}:{primary} ").expect(
            rt, "memory",
        ),
        _ => push(rt, text, "? "),
    }
}

/// The members of the store, or of its first index.
fn push_rows<T: Tables>(rt: &impl Abort, text: &mut String, store: &StoreVersion<T>, over: Over) {
    for place in 0..store.row_count(over) {
        push_row(rt, text, store.row(over, place));
    }
    push(rt, text, "| ")
}

/// The members of the store and of its first index, and the generator's number.
fn push_store<T: Tables>(rt: &impl Abort, text: &mut String, store: &StoreVersion<T>) {
    push_rows(rt, text, store, Over::Store);
    push_rows(rt, text, store, Over::Index(0));
    write!(text, "{} / ", store.current()).expect(rt, "memory")
}

fn push_value(rt: &impl Abort, text: &mut String, value: Option<&Value>) {
    match value {
        Some(Value::Object(props)) => write!(text, "{} properties ", props.len()).expect(
            rt, "memory",
        ),
        Some(_) => push(rt, text, "? "),
        None => push(rt, text, "- "),
    }
}

/// Puts or adds the Object with this `e`.
fn push_put<T: Tables>(
    rt: &impl Abort,
    alloc: Global,
    text: &mut String,
    store: &mut StoreVersion<T>,
    (key, e, add): (i64, i64, bool),
) {
    let value = object(rt, alloc, e);
    push_answer(rt, text, put(rt, store, value, key, add))
}

fn push_next<T: Tables>(
    rt: &impl Abort,
    alloc: Global,
    text: &mut String,
    store: &mut StoreVersion<T>,
    e: i64,
) {
    let value = object(rt, alloc, e);
    push_answer(rt, text, put_alone(rt, alloc, store, value))
}

fn push_empty<T: Tables>(
    rt: &impl Abort,
    alloc: Global,
    text: &mut String,
    store: &mut StoreVersion<T>,
) {
    let value = Value::Object(Props::new(alloc));
    push_answer(rt, text, put_alone(rt, alloc, store, value))
}

fn push_deleted<T: Tables>(
    rt: &impl Abort,
    text: &mut String,
    store: &mut StoreVersion<T>,
    low: i64,
    high: i64,
) {
    match KeyRange::bound(Key::Number(low), Key::Number(high), false, false) {
        Ok(range) => write!(
            text,
            "{} gone ",
            store.delete_range(&range).expect(rt, "memory")
        )
        .expect(rt, "memory"),
        Err(_) => panic!(rt; "no range"),
    }
}

fn clear<T: Tables>(rt: &impl Abort, store: &mut StoreVersion<T>) {
    store.clear().expect(rt, "memory")
}

fn push_added<T: Tables>(
    rt: &impl Abort,
    alloc: Global,
    text: &mut String,
    store: &mut StoreVersion<T>,
    unique: bool,
) {
    let answer = add_index(rt, alloc, store, unique);
    write!(text, "{answer} ").expect(rt, "memory")
}

fn push_mark<T: Tables>(rt: &impl Abort, store: &StoreVersion<T>, marks: &mut Vec<Mark>) {
    marks.push(store.mark()).expect(rt, "memory")
}

fn undo_last<T: Tables>(rt: &impl Abort, store: &mut StoreVersion<T>, marks: &mut Vec<Mark>) {
    match marks.pop() {
        Some(mark) => undo(rt, store, mark),
        None => panic!(rt; "no mark"),
    }
}

fn push_copy<T: Tables>(rt: &impl Abort, text: &mut String, store: &StoreVersion<T>) {
    let copy = store.copy().expect(rt, "memory");
    push_store(rt, text, &copy)
}

/// Does a step that changes the records, and writes what it answers.
fn run_of_records<T: Tables>(
    rt: &impl Abort,
    alloc: Global,
    text: &mut String,
    store: &mut StoreVersion<T>,
    step: Step,
) {
    match step {
        Step::Put(key, e) => push_put(rt, alloc, text, store, (key, e, false)),
        Step::Add(key, e) => push_put(rt, alloc, text, store, (key, e, true)),
        Step::PutNext(e) => push_next(rt, alloc, text, store, e),
        Step::PutEmpty => push_empty(rt, alloc, text, store),
        Step::Delete(low, high) => push_deleted(rt, text, store, low, high),
        Step::Clear => clear(rt, store),
        _ => run_of_store(rt, alloc, text, store, step),
    }
}

/// Does a step of the indexes or of the generator, or one that reads, and writes what it answers.
fn run_of_store<T: Tables>(
    rt: &impl Abort,
    alloc: Global,
    text: &mut String,
    store: &mut StoreVersion<T>,
    step: Step,
) {
    match step {
        Step::AddIndex(unique) => push_added(rt, alloc, text, store, unique),
        Step::DropIndex => drop_index(rt, store),
        Step::SetCurrent(n) => set_current(rt, store, n),
        Step::Value(key) => push_value(rt, text, store.value_of(&Key::Number(key))),
        Step::Copy => push_copy(rt, text, store),
        Step::Show => push_store(rt, text, store),
        _ => panic!(rt; "a step of its marks"),
    }
}

/// Does the step, and writes what it answers.
fn run<T: Tables>(
    rt: &impl Abort,
    alloc: Global,
    text: &mut String,
    store: &mut StoreVersion<T>,
    marks: &mut Vec<Mark>,
    step: Step,
) {
    match step {
        Step::Mark => push_mark(rt, store, marks),
        Step::Undo => undo_last(rt, store, marks),
        Step::UndoAll => store.undo_all(),
        Step::Settle => store.settle(),
        _ => run_of_records(rt, alloc, text, store, step),
    }
}

/// What these steps of a store answer, one behind the other.
fn answers<T: Tables>(
    rt: &impl Abort,
    alloc: Global,
    mut store: StoreVersion<T>,
    steps: &[Step],
) -> String {
    let mut text = String::new(alloc);
    let mut marks = Vec::new(alloc);
    for step in steps {
        run(rt, alloc, &mut text, &mut store, &mut marks, *step);
    }
    text
}

/// What a new store answers to these steps.
fn told_of_new<T: Tables>(rt: &impl Abort, alloc: Global, auto: bool, steps: &[Step]) -> String {
    let store: StoreVersion<T> = new_store(rt, alloc, auto);
    answers::<T>(rt, alloc, store, steps)
}

/// What a new store with a key path answers to these steps.
fn told_of_path<T: Tables>(rt: &impl Abort, alloc: Global, steps: &[Step]) -> String {
    let store: StoreVersion<T> = store_of_path(rt, alloc);
    answers::<T>(rt, alloc, store, steps)
}

const OF_A_UNIQUE_INDEX: [Step; 10] = [
    Step::AddIndex(true),
    Step::Put(1, 1),
    Step::Put(2, 1),
    Step::Add(1, 5),
    Step::Put(1, 2),
    Step::Add(2, 1),
    Step::Show,
    Step::Put(1, 2),
    Step::Put(1, 1),
    Step::Show,
];

/// A unique index refuses a second row of one key and keeps the first; a record that gets another value takes its row along.
#[test]
fn a_unique_index_refuses(rt: HostRuntime) {
    let text = told_of_new::<FlatTables>(&rt, rt.alloc(), true, &OF_A_UNIQUE_INDEX);
    assert_eq!(rt;
        text.as_str(),
        "0 1 ! ! 1 2 1:1 2:2 | 1:2 2:1 | 3 / 1 ! 1:1 2:2 | 1:2 2:1 | 3 / "
    );
}

const OF_INDEXES: [Step; 9] = [
    Step::Put(1, 1),
    Step::Put(2, 1),
    Step::AddIndex(true),
    Step::AddIndex(false),
    Step::Copy,
    Step::Value(2),
    Step::Value(3),
    Step::DropIndex,
    Step::Show,
];

/// Two records of one key break an index that would be unique; another one comes and goes.
#[test]
fn an_index_comes_and_goes(rt: HostRuntime) {
    let text = told_of_new::<FlatTables>(&rt, rt.alloc(), false, &OF_INDEXES);
    assert_eq!(rt;
        text.as_str(),
        "1 2 1 0 1:1 2:2 | 1:1 1:2 | 1 / 1 properties - 1:1 2:2 | | 1 / "
    );
}

const OF_MARKS: [Step; 25] = [
    Step::AddIndex(false),
    Step::Put(1, 7),
    Step::Put(2, 6),
    Step::Settle,
    Step::Put(2, 4),
    Step::Mark,
    Step::Put(1, 5),
    Step::Put(9, 5),
    Step::Mark,
    Step::SetCurrent(77),
    Step::Delete(2, 9),
    Step::PutNext(8),
    Step::Clear,
    Step::DropIndex,
    Step::Put(3, 3),
    Step::Show,
    Step::Undo,
    Step::Show,
    Step::Undo,
    Step::Show,
    Step::Put(2, 4),
    Step::Clear,
    Step::PutNext(1),
    Step::UndoAll,
    Step::Show,
];

/// What came, went, was replaced, cleared and counted since a mark is undone, also within another mark, and in the end to
/// the last settle with its number.
#[test]
fn changes_are_undone(rt: HostRuntime) {
    let text = told_of_new::<FlatTables>(&rt, rt.alloc(), true, &OF_MARKS);
    assert_eq!(rt;
        text.as_str(),
        concat!(
            "0 1 2 2 1 9 2 gone 77 3 3:3 | | 78 / 1:1 2:2 9:9 | 4:2 5:1 5:9 | 10 / ",
            "1:1 2:2 | 4:2 7:1 | 3 / 2 3 1:1 2:2 | 6:2 7:1 | 3 / "
        )
    );
}

const OF_NUMBERS: [Step; 9] = [
    Step::PutNext(1),
    Step::Put(8, 1),
    Step::PutNext(1),
    Step::Add(9, 1),
    Step::SetCurrent(9007199254740992),
    Step::PutEmpty,
    Step::PutEmpty,
    Step::Put(3, 1),
    Step::Show,
];

/// Numbers count up, pass the keys that are given, and end.
#[test]
fn numbers_are_given(rt: HostRuntime) {
    let text = told_of_new::<FlatTables>(&rt, rt.alloc(), true, &OF_NUMBERS);
    assert_eq!(rt;
        text.as_str(),
        concat!(
            "1 8 9 ! 9007199254740992 ! 3 ",
            "1:1 3:3 8:8 9:9 9007199254740992:9007199254740992 | | 9007199254740993 / "
        )
    );
}

/// A store whose keys stand in the values.
fn store_of_path<T: Tables>(rt: &impl Abort, alloc: Global) -> StoreVersion<T> {
    let path = path(rt, alloc, "e");
    let info = StoreInfo {
        name: Text::copy_of(alloc, "s").expect(rt, "memory"),
        path: Some(path),
        auto: true,
        indexes: IndexInfos::new(alloc),
    };
    StoreVersion::new(alloc, info)
}

const OF_A_PATH: [Step; 6] = [
    Step::AddIndex(false),
    Step::PutNext(3),
    Step::PutEmpty,
    Step::PutEmpty,
    Step::Value(4),
    Step::Show,
];

/// A key that stands at the path is taken, and a number is put there where none does.
#[test]
fn keys_stand_in_values(rt: HostRuntime) {
    let text = told_of_path::<FlatTables>(&rt, rt.alloc(), &OF_A_PATH);
    assert_eq!(rt;
        text.as_str(),
        "0 3 4 5 1 properties 3:3 4:4 5:5 | 3:3 4:4 5:5 | 6 / "
    );
}

/// Ten thousand records, whose `e` is so much more than their keys.
fn put_many<T: Tables>(
    rt: &impl Abort,
    alloc: Global,
    store: &mut StoreVersion<T>,
    more: i64,
    add: bool,
) {
    for key in 0..10_000i64 {
        put_one(rt, alloc, store, (key, key.wrapping_add(more)), add);
    }
}

fn put_one<T: Tables>(
    rt: &impl Abort,
    alloc: Global,
    store: &mut StoreVersion<T>,
    (key, e): (i64, i64),
    add: bool,
) {
    let value = object(rt, alloc, e);
    let _ = put(rt, store, value, key, add);
}

/// The store of ten thousand records, to which their first values are back.
fn ten_thousand<T: Tables>(rt: &impl Abort, alloc: Global) -> StoreVersion<T> {
    let mut store: StoreVersion<T> = new_store(rt, alloc, false);
    let _ = add_index(rt, alloc, &mut store, false);
    put_many(rt, alloc, &mut store, 0, true);
    store.settle();
    put_many(rt, alloc, &mut store, 1, false);
    store.clear().expect(rt, "memory");
    store.undo_all();
    store
}

/// The row of the index at this place.
fn push_row_at<T: Tables>(
    rt: &impl Abort,
    text: &mut String,
    store: &StoreVersion<T>,
    place: usize,
) {
    match store.row(Over::Index(0), place) {
        Some((Key::Number(key), Key::Number(primary))) => write!(text, "{key}:{primary} ").expect(
            rt, "memory",
        ),
        _ => push(rt, text, "- "),
    }
}

/// The first row of the index, the last one, and the one behind it.
fn push_ends<T: Tables>(rt: &impl Abort, alloc: Global, store: &StoreVersion<T>) -> String {
    let mut text = String::new(alloc);
    for place in [0, 9_999, 10_000] {
        push_row_at(rt, &mut text, store, place);
    }
    text
}

fn told_of_ten_thousand<T: Tables>(rt: &impl Abort, alloc: Global) -> String {
    let store: StoreVersion<T> = ten_thousand(rt, alloc);
    push_ends(rt, alloc, &store)
}

/// Ten thousand records come, get another value, go, and are back.
#[test]
fn ten_thousand_come_back(rt: HostRuntime) {
    let text = told_of_ten_thousand::<FlatTables>(&rt, rt.alloc());
    assert_eq!(rt; text.as_str(), "0:0 9999:9999 - ");
}
