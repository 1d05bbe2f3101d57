use clone_values::{Key, PathSpec, Text, Value};
use idb_base::GREATEST_LENGTH;
use idb_keys::Over;
use idb_schema::{IndexInfo, IndexInfos, StoreInfo};
use index_tables::{FlatTables, Tables};
use indexed_records::*;
use path_grammar::KeyPath;
use std::alloc::Global;
use std::process::Abort;

/// One call, or one that is undone at once. A record is a text under a number; the index takes the length of the text.
#[derive(Clone, Copy)]
enum Step {
    Put(i64, &'static str),
    Take(i64),
    AddIndex(bool),
    DropAndPutBack,
    AddAndPop,
    EmptyAndPutBack,
    Empty,
    Find(i64),
    Value(i64),
    Copy,
    Show,
}

fn length_path(rt: &impl Abort, alloc: Global) -> KeyPath {
    let length = Text::copy_of(alloc, "length").expect(rt, "memory");
    KeyPath::parse(PathSpec::One(length)).expect(rt, "a path")
}

fn by_length(rt: &impl Abort, alloc: Global, unique: bool) -> IndexInfo {
    let path = length_path(rt, alloc);
    let name = Text::copy_of(alloc, "by length").expect(rt, "memory");
    IndexInfo {
        name,
        path,
        unique,
        multi: false,
    }
}

fn empty_store<T: Tables>(rt: &impl Abort, alloc: Global) -> IndexedRecords<T> {
    let info = StoreInfo {
        name: Text::copy_of(alloc, "texts").expect(rt, "memory"),
        path: None,
        auto: false,
        indexes: IndexInfos::new(alloc),
    };
    IndexedRecords::new(alloc, info)
}

fn text_value(rt: &impl Abort, alloc: Global, s: &str) -> Value {
    assert!(rt; s.len() <= GREATEST_LENGTH);
    Value::Text(Text::copy_of(alloc, s).expect(rt, "memory"))
}

/// Puts a new record in; what happened.
fn put_new<T: Tables>(
    rt: &impl Abort,
    store: &mut IndexedRecords<T>,
    key: Key,
    value: Value,
) -> &'static str {
    let rows = store.rows_for(&key, &value).expect(rt, "memory");
    match store.find(&key) {
        Err(place) => {
            store.reserve(1, rows.count()).expect(rt, "memory");
            store.put_at(place, key, value, rows);
            "new "
        }
        Ok(_) => "? ",
    }
}

/// Puts another value into the record of its key; what happened.
fn put_over<T: Tables>(
    rt: &impl Abort,
    store: &mut IndexedRecords<T>,
    key: Key,
    value: Value,
) -> &'static str {
    let rows = store.rows_for(&key, &value).expect(rt, "memory");
    match store.find(&key) {
        Err(_) => "? ",
        Ok(place) => match store.record_at(place) {
            Some((key, old)) => {
                if store.len() <= place {
                    return "? ";
                }
                let old_rows = store.rows_for(key, old).expect(rt, "memory");
                store.reserve(0, rows.count()).expect(rt, "memory");
                let _ = store.replace_at(place, value, &old_rows, rows);
                "over "
            }
            None => "? ",
        },
    }
}

/// Puts a record in, or another value into the record of its key; what happened.
fn put<T: Tables>(
    rt: &impl Abort,
    store: &mut IndexedRecords<T>,
    key: Key,
    value: Value,
) -> &'static str {
    match store.find(&key) {
        Err(_) => put_new(rt, store, key, value),
        Ok(_) => put_over(rt, store, key, value),
    }
}

fn take<T: Tables>(rt: &impl Abort, store: &mut IndexedRecords<T>, key: i64) -> &'static str {
    match store.find(&Key::Number(key)) {
        Err(_) => "none ",
        Ok(place) => match store.record_at(place) {
            Some((key, value)) => {
                let rows = store.rows_for(key, value).expect(rt, "memory");
                if store.len() <= place {
                    return "? ";
                }
                let _ = store.take_out(place, &rows);
                "taken "
            }
            None => "? ",
        },
    }
}

fn added<T: Tables>(
    rt: &impl Abort,
    alloc: Global,
    store: &mut IndexedRecords<T>,
    unique: bool,
) -> Result<(), IndexError> {
    let info = by_length(rt, alloc, unique);
    store.add_index(info)
}

/// The number of the key that breaks the index, or 0; `None` where there is another cause.
fn broken(answer: &Result<(), IndexError>) -> Option<i64> {
    match answer {
        Ok(()) => Some(0),
        Err(
            IndexError::Constraint {
                key: Key::Number(n),
            },
        ) => Some(*n),
        Err(_) => None,
    }
}

/// The number of the key that breaks the index, or 0.
fn add_index<T: Tables>(
    rt: &impl Abort,
    alloc: Global,
    store: &mut IndexedRecords<T>,
    unique: bool,
) -> i64 {
    let answer = added(rt, alloc, store, unique);
    match broken(&answer) {
        Some(n) => n,
        None => panic!(rt; "another cause"),
    }
}

fn drop_and_put_back<T: Tables>(rt: &impl Abort, store: &mut IndexedRecords<T>) -> usize {
    if store.info().indexes.len() == 0 {
        return 9;
    }
    let Ok(dropped) = store.drop_index(0) else {
        panic!(rt; "memory");
    };
    let between = store.info().indexes.len();
    store.put_back(dropped);
    between
}

fn add_last<T: Tables>(rt: &impl Abort, alloc: Global, store: &mut IndexedRecords<T>) {
    let answer = added(rt, alloc, store, false);
    assert!(rt; answer.is_ok());
}

fn pop<T: Tables>(rt: &impl Abort, store: &mut IndexedRecords<T>) -> usize {
    let between = store.info().indexes.len();
    assert!(rt; between != 0);
    store.pop_index();
    between
}

fn add_and_pop<T: Tables>(rt: &impl Abort, alloc: Global, store: &mut IndexedRecords<T>) -> usize {
    add_last(rt, alloc, store);
    pop(rt, store)
}

fn empty_and_put_back<T: Tables>(rt: &impl Abort, store: &mut IndexedRecords<T>) -> usize {
    let emptied = store.take_all().expect(rt, "memory");
    let between = store.len();
    store.put_all_back(emptied);
    between
}

// ---- what is written of an answer
fn push(rt: &impl Abort, text: &mut String, s: &str) {
    text.push_str(s).expect(rt, "memory")
}

fn push_count(rt: &impl Abort, text: &mut String, count: usize) {
    write!(text, "{count} ").expect(rt, "memory")
}

fn push_put<T: Tables>(
    rt: &impl Abort,
    alloc: Global,
    text: &mut String,
    store: &mut IndexedRecords<T>,
    key: i64,
    value: &str,
) {
    let value = text_value(rt, alloc, value);
    push(rt, text, put(rt, store, Key::Number(key), value))
}

fn push_taken<T: Tables>(
    rt: &impl Abort,
    text: &mut String,
    store: &mut IndexedRecords<T>,
    key: i64,
) {
    push(rt, text, take(rt, store, key))
}

fn push_added<T: Tables>(
    rt: &impl Abort,
    alloc: Global,
    text: &mut String,
    store: &mut IndexedRecords<T>,
    unique: bool,
) {
    let answer = add_index(rt, alloc, store, unique);
    write!(text, "{answer} ").expect(rt, "memory")
}

fn push_put_back<T: Tables>(rt: &impl Abort, text: &mut String, store: &mut IndexedRecords<T>) {
    push_count(rt, text, drop_and_put_back(rt, store))
}

fn push_popped<T: Tables>(
    rt: &impl Abort,
    alloc: Global,
    text: &mut String,
    store: &mut IndexedRecords<T>,
) {
    push_count(rt, text, add_and_pop(rt, alloc, store))
}

fn push_all_back<T: Tables>(rt: &impl Abort, text: &mut String, store: &mut IndexedRecords<T>) {
    push_count(rt, text, empty_and_put_back(rt, store))
}

fn empty<T: Tables>(rt: &impl Abort, store: &mut IndexedRecords<T>) {
    let _ = store.take_all().expect(rt, "memory");
}

fn push_place(rt: &impl Abort, text: &mut String, found: Result<usize, usize>) {
    match found {
        Ok(place) => write!(text, "at {place} ").expect(rt, "memory"),
        Err(place) => write!(text, "gap {place} ").expect(rt, "memory"),
    }
}

fn push_value(rt: &impl Abort, text: &mut String, value: Option<&Value>) {
    match value {
        Some(Value::Text(s)) => write!(text, "{} ", s.as_str()).expect(rt, "memory"),
        _ => push(rt, text, "- "),
    }
}

fn push_row(rt: &impl Abort, text: &mut String, row: Option<(&Key, &Key)>) {
    match row {
        Some((Key::Number(key), Key::Number(primary))) => write!(text, "{key}:{primary} ").expect(
            rt, "memory",
        ),
        _ => push(rt, text, "? "),
    }
}

/// The members of the store, or of its first index, as `key:primary`.
fn push_rows<T: Tables>(rt: &impl Abort, text: &mut String, store: &IndexedRecords<T>, over: Over) {
    for place in 0..store.row_count(over) {
        push_row(rt, text, store.row(over, place));
    }
    push(rt, text, "| ")
}

/// The members of the store, and of its first index.
fn push_members<T: Tables>(rt: &impl Abort, text: &mut String, store: &IndexedRecords<T>) {
    push_rows(rt, text, store, Over::Store);
    push_rows(rt, text, store, Over::Index(0))
}

fn push_copy<T: Tables>(rt: &impl Abort, text: &mut String, store: &IndexedRecords<T>) {
    let copy = store.copy().expect(rt, "memory");
    push_members(rt, text, &copy)
}

/// Does a step that changes the store, and writes what it answers.
fn run_writing<T: Tables>(
    rt: &impl Abort,
    alloc: Global,
    text: &mut String,
    store: &mut IndexedRecords<T>,
    step: Step,
) {
    match step {
        Step::Put(key, value) => push_put(rt, alloc, text, store, key, value),
        Step::Take(key) => push_taken(rt, text, store, key),
        Step::AddIndex(unique) => push_added(rt, alloc, text, store, unique),
        Step::DropAndPutBack => push_put_back(rt, text, store),
        Step::AddAndPop => push_popped(rt, alloc, text, store),
        Step::EmptyAndPutBack => push_all_back(rt, text, store),
        Step::Empty => empty(rt, store),
        _ => run_reading(rt, text, store, step),
    }
}

/// Does a step that reads the store, and writes what it answers.
fn run_reading<T: Tables>(
    rt: &impl Abort,
    text: &mut String,
    store: &IndexedRecords<T>,
    step: Step,
) {
    match step {
        Step::Find(key) => push_place(rt, text, store.find(&Key::Number(key))),
        Step::Value(key) => push_value(rt, text, store.value_of(&Key::Number(key))),
        Step::Copy => push_copy(rt, text, store),
        Step::Show => push_members(rt, text, store),
        _ => panic!(rt; "no reading step"),
    }
}

const STEPS: [Step; 26] = [
    Step::Show,
    Step::Put(7, "a"),
    Step::Put(8, "b"),
    Step::AddIndex(true),
    Step::Put(8, "cc"),
    Step::AddIndex(true),
    Step::Show,
    Step::Put(5, "ddd"),
    Step::Put(7, "eeee"),
    Step::Put(8, "ff"),
    Step::Show,
    Step::Find(7),
    Step::Find(6),
    Step::Value(8),
    Step::Value(9),
    Step::DropAndPutBack,
    Step::AddAndPop,
    Step::EmptyAndPutBack,
    Step::Copy,
    Step::Take(7),
    Step::Take(7),
    Step::Show,
    Step::Empty,
    Step::Show,
    Step::Put(1, "g"),
    Step::Show,
];

const ANSWERS: &str = concat!(
    "| | new new 1 over 0 7:7 8:8 | 1:7 2:8 | new over over ",
    "5:5 7:7 8:8 | 2:8 3:5 4:7 | at 1 gap 1 ff - 0 2 0 ",
    "5:5 7:7 8:8 | 2:8 3:5 4:7 | taken none 5:5 8:8 | 2:8 3:5 | | | new 1:1 | 1:1 | "
);

/// What the steps answer, one behind the other.
fn answers<T: Tables>(rt: &impl Abort, alloc: Global) -> String {
    let mut store: IndexedRecords<T> = empty_store(rt, alloc);
    let mut text = String::new(alloc);
    for step in STEPS {
        run_writing(rt, alloc, &mut text, &mut store, step);
    }
    text
}

/// Records come, go and get other values with their rows; what is undone leaves nothing.
#[test]
fn rows_follow_the_records(rt: HostRuntime) {
    let text = answers::<FlatTables>(&rt, rt.alloc());
    assert_eq!(rt; text.as_str(), ANSWERS);
}
