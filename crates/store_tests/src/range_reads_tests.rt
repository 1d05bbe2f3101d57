use clone_values::{Key, PathSpec, Text, Value};
use idb_base::GREATEST_LENGTH;
use idb_keys::{KeyRange, Over};
use idb_schema::{IndexInfo, IndexInfos, StoreInfo};
use index_tables::{FlatTables, Tables};
use indexed_records::IndexedRecords;
use path_grammar::KeyPath;
use range_reads::*;
use std::alloc::Global;
use std::process::Abort;

/// A bound's key, and whether it is open.
type Place = Option<(i64, bool)>;

fn text_value(rt: &impl Abort, alloc: Global, s: &str) -> Value {
    assert!(rt; s.len() <= GREATEST_LENGTH);
    Value::Text(Text::copy_of(alloc, s).expect(rt, "memory"))
}

/// Puts a new record in.
fn put<T: Tables>(rt: &impl Abort, store: &mut IndexedRecords<T>, key: Key, value: Value) {
    let rows = store.rows_for(&key, &value).expect(rt, "memory");
    if let Err(place) = store.find(&key) {
        store.reserve(1, rows.count()).expect(rt, "memory");
        store.put_at(place, key, value, rows);
    }
}

fn length_path(rt: &impl Abort, alloc: Global) -> KeyPath {
    let length = Text::copy_of(alloc, "length").expect(rt, "memory");
    KeyPath::parse(PathSpec::One(length)).expect(rt, "a path")
}

fn by_length(rt: &impl Abort, alloc: Global) -> IndexInfo {
    let path = length_path(rt, alloc);
    let name = Text::copy_of(alloc, "by length").expect(rt, "memory");
    IndexInfo {
        name,
        path,
        unique: false,
        multi: false,
    }
}

fn one_index(rt: &impl Abort, alloc: Global) -> IndexInfos {
    let mut indexes = IndexInfos::new(alloc);
    indexes.push(by_length(rt, alloc)).expect(rt, "memory");
    indexes
}

/// A store whose one index takes the length of a text.
fn new_store<T: Tables>(rt: &impl Abort, alloc: Global) -> IndexedRecords<T> {
    let indexes = one_index(rt, alloc);
    let info = StoreInfo {
        name: Text::copy_of(alloc, "texts").expect(rt, "memory"),
        path: None,
        auto: false,
        indexes,
    };
    IndexedRecords::new(alloc, info)
}

fn put_text<T: Tables>(
    rt: &impl Abort,
    alloc: Global,
    store: &mut IndexedRecords<T>,
    key: i64,
    s: &str,
) {
    let value = text_value(rt, alloc, s);
    put(rt, store, Key::Number(key), value)
}

/// Four texts under numbers, whose one index takes the length of a text.
fn four_texts<T: Tables>(rt: &impl Abort, alloc: Global) -> IndexedRecords<T> {
    let mut store: IndexedRecords<T> = new_store(rt, alloc);
    for (key, value) in [(10, "ab"), (20, "c"), (30, "de"), (40, "fgh")] {
        put_text(rt, alloc, &mut store, key, value);
    }
    store
}

/// The range of these bounds; `None` where there are none, or where they exclude each other.
fn range_of(lower: Place, upper: Place) -> Option<KeyRange> {
    match (lower, upper) {
        (Some((low, low_open)), Some((high, high_open))) => {
            KeyRange::bound(Key::Number(low), Key::Number(high), low_open, high_open).ok()
        }
        (Some((low, open)), None) => Some(KeyRange::lower(Key::Number(low), open)),
        (None, Some((high, open))) => Some(KeyRange::upper(Key::Number(high), open)),
        (None, None) => None,
    }
}

fn push_text(rt: &impl Abort, text: &mut String, value: Option<&Value>) {
    match value {
        Some(Value::Text(s)) => write!(text, " {}", s.as_str()).expect(rt, "memory"),
        _ => push(rt, text, " -"),
    }
}

fn push_key(rt: &impl Abort, text: &mut String, key: Option<&Key>) {
    match key {
        Some(Key::Number(n)) => write!(text, " {n}").expect(rt, "memory"),
        _ => push(rt, text, " -"),
    }
}

fn push(rt: &impl Abort, text: &mut String, s: &str) {
    text.push_str(s).expect(rt, "memory")
}

fn push_count<T: Tables>(
    rt: &impl Abort,
    text: &mut String,
    store: &IndexedRecords<T>,
    over: Over,
    range: Option<&KeyRange>,
) {
    write!(text, "{}:", count(store, over, range)).expect(rt, "memory")
}

/// The keys of a range, or of the first so many.
fn push_keys<T: Tables>(
    rt: &impl Abort,
    alloc: Global,
    text: &mut String,
    store: &IndexedRecords<T>,
    over: Over,
    range: Option<&KeyRange>,
    limit: u32,
) {
    let keys = get_all_keys(alloc, store, over, range, limit).expect(rt, "memory");
    for place in 0..keys.len() {
        push_key(rt, text, keys.at(place));
    }
}

/// The values of a range, or of the first so many.
fn push_values<T: Tables>(
    rt: &impl Abort,
    alloc: Global,
    text: &mut String,
    store: &IndexedRecords<T>,
    over: Over,
    range: Option<&KeyRange>,
    limit: u32,
) {
    let items = get_all(alloc, store, over, range, limit).expect(rt, "memory");
    for place in 0..items.len() {
        push_text(rt, text, items.at(place));
    }
}

/// The number, the keys and the values of a range, or of the first so many.
fn push_all<T: Tables>(
    rt: &impl Abort,
    alloc: Global,
    text: &mut String,
    store: &IndexedRecords<T>,
    over: Over,
    range: Option<&KeyRange>,
    limit: u32,
) {
    push_count(rt, text, store, over, range);
    push_keys(rt, alloc, text, store, over, range, limit);
    push_values(rt, alloc, text, store, over, range, limit);
    push(rt, text, " / ")
}

fn push_first_key<T: Tables>(
    rt: &impl Abort,
    alloc: Global,
    text: &mut String,
    store: &IndexedRecords<T>,
    over: Over,
    range: &KeyRange,
) {
    let key = get_key(alloc, store, over, range).expect(rt, "memory");
    push_key(rt, text, key.as_ref())
}

fn push_first_value<T: Tables>(
    rt: &impl Abort,
    alloc: Global,
    text: &mut String,
    store: &IndexedRecords<T>,
    over: Over,
    range: &KeyRange,
) {
    let value = get(alloc, store, over, range).expect(rt, "memory");
    push_text(rt, text, value.as_ref())
}

/// The key and the value of the first of a range.
fn push_first<T: Tables>(
    rt: &impl Abort,
    alloc: Global,
    text: &mut String,
    store: &IndexedRecords<T>,
    over: Over,
    range: &KeyRange,
) {
    push_first_key(rt, alloc, text, store, over, range);
    push_first_value(rt, alloc, text, store, over, range);
    push(rt, text, " / ")
}

/// Where, the bounds, and the limit.
static ROWS: [(Over, Place, Place, u32); 18] = [
    (Over::Store, None, None, 0),
    (Over::Store, Some((20, false)), None, 0),
    (Over::Store, Some((20, true)), None, 0),
    (Over::Store, Some((21, true)), None, 0),
    (Over::Store, None, Some((30, false)), 0),
    (Over::Store, None, Some((30, true)), 0),
    (Over::Store, Some((20, false)), Some((30, false)), 0),
    (Over::Store, Some((20, true)), Some((30, true)), 0),
    (Over::Store, Some((25, false)), Some((25, false)), 0),
    (Over::Store, Some((41, false)), None, 0),
    (Over::Store, None, None, 1),
    (Over::Store, Some((20, false)), None, 2),
    (Over::Index(0), None, None, 0),
    (Over::Index(0), Some((2, false)), Some((2, false)), 0),
    (Over::Index(0), Some((2, true)), None, 0),
    (Over::Index(0), None, Some((2, false)), 2),
    (Over::Index(0), Some((4, false)), None, 0),
    (Over::Index(1), None, None, 0),
];

const READ: &str = concat!(
    "4: 10 20 30 40 ab c de fgh / 3: 20 30 40 c de fgh / 2: 30 40 de fgh / 2: 30 40 de fgh / ",
    "3: 10 20 30 ab c de / 2: 10 20 ab c / 2: 20 30 c de / 0: / 0: / 0: / 4: 10 ab / 3: 20 30 c de / ",
    "4: 20 10 30 40 c ab de fgh / 2: 10 30 ab de / 1: 40 fgh / 3: 20 10 c ab / 0: / 0: / "
);

/// Writes what is read of the range of these bounds.
fn read_all<T: Tables>(
    rt: &impl Abort,
    alloc: Global,
    text: &mut String,
    store: &IndexedRecords<T>,
    (over, lower, upper, limit): (Over, Place, Place, u32),
) {
    let range = range_of(lower, upper);
    push_all(rt, alloc, text, store, over, range.as_ref(), limit)
}

/// What is read of each range.
fn answers<T: Tables>(rt: &impl Abort, alloc: Global) -> String {
    let store: IndexedRecords<T> = four_texts(rt, alloc);
    let mut text = String::new(alloc);
    for row in &ROWS {
        read_all(rt, alloc, &mut text, &store, *row);
    }
    text
}

/// Open and closed bounds, ranges past either end, limits, an index of which two rows have one key, and one that isn't
/// there.
#[test]
fn ranges_are_read_as_stated(rt: HostRuntime) {
    let text = answers::<FlatTables>(&rt, rt.alloc());
    assert_eq!(rt; text.as_str(), READ);
}

/// Where, and the bounds.
static FIRST_ROWS: [(Over, Place, Place); 9] = [
    (Over::Store, Some((10, false)), None),
    (Over::Store, Some((10, true)), None),
    (Over::Store, None, Some((10, true))),
    (Over::Store, Some((40, true)), None),
    (Over::Store, Some((21, false)), Some((29, false))),
    (Over::Index(0), Some((2, false)), None),
    (Over::Index(0), Some((2, true)), None),
    (Over::Index(0), None, Some((9, false))),
    (Over::Index(7), None, Some((9, false))),
];

/// Writes what is read of the first of the range of these bounds.
fn read_first<T: Tables>(
    rt: &impl Abort,
    alloc: Global,
    text: &mut String,
    store: &IndexedRecords<T>,
    (over, lower, upper): (Over, Place, Place),
) {
    match range_of(lower, upper) {
        Some(range) => push_first(rt, alloc, text, store, over, &range),
        None => {}
    }
}

/// What is read of the first of each range.
fn first_answers<T: Tables>(rt: &impl Abort, alloc: Global) -> String {
    let store: IndexedRecords<T> = four_texts(rt, alloc);
    let mut text = String::new(alloc);
    for row in &FIRST_ROWS {
        read_first(rt, alloc, &mut text, &store, *row);
    }
    text
}

/// The first of a range; over an index its primary key, and the value of that record.
#[test]
fn the_first_is_read_as_stated(rt: HostRuntime) {
    let text = first_answers::<FlatTables>(&rt, rt.alloc());
    assert_eq!(rt;
        text.as_str(),
        " 10 ab /  20 c /  - - /  - - /  - - /  10 ab /  40 fgh /  20 c /  - - / "
    );
}

/// Without bounds all records are in the range.
#[test]
fn all_records_are_spanned(rt: HostRuntime) {
    let store: IndexedRecords<FlatTables> = four_texts(&rt, rt.alloc());
    assert_eq!(rt; span(&store, Over::Store, None), (0, 4));
}
