// Calls of an object store, each with a plain answer.
ghost use Rattle.std.specs.Prelude.{◌≡◌, true};
ghost use Rattle.clone_values.specs.View.{tree_of};
ghost use Rattle.clone_values.specs.declared.path_types.PathSpec.TheVariants.{One};
ghost use Rattle.idb_schema.specs.Definitions.{index_named, IsIndexInfo};
ghost use Rattle.object_stores.specs.Storing.{HasKey, in_line};

use crate::random_acts::{Kind, Shape};
use crate::slow_store::{NOTHING, REFUSED};
use clone_values::{Items, Key, PathSpec, Props, Text, Value, is_cloneable, is_int, well_formed};
use idb_base::GREATEST_LENGTH;
use idb_keys::{KeyRange, Over};
use idb_schema::{IndexInfo, IndexInfos, StoreInfo};
use index_tables::Tables;
use key_paths::{Extracted, could_inject, extract, has_room};
use object_stores::*;
use path_grammar::KeyPath;
use std::alloc::Global;
use std::process::Abort;

// ---- values
fn text(rt: &impl Abort, alloc: Global, s: &str) -> Text
    ensures { result ≡ s.now }
{
    assert!(rt; s.len() <= GREATEST_LENGTH);
    Text::copy_of(alloc, s).expect(rt, "memory")
}

fn set(rt: &impl Abort, alloc: Global, props: &mut Props, name: &str, value: Value) {
    assert!(rt; props.len() < 100);
    props.set(text(rt, alloc, name), value).expect(rt, "memory")
}

/// The tag 0 is null.
fn tags_of(rt: &impl Abort, alloc: Global, tags: [i64; 3]) -> Value {
    let mut items = Items::new(alloc);
    for tag in tags {
        assert!(rt; items.len() < 100);
        items
            .push(if tag == 0 {
                Value::Null
            } else {
                Value::Int(tag)
            })
            .expect(rt, "memory");
    }
    Value::Array(items, Props::new(alloc))
}

/// The Object of this shape, with a key at `k` if one is given.
pub fn value_of(rt: &impl Abort, alloc: Global, shape: &Shape, key: Option<i64>) -> Value {
    let mut props = Props::new(alloc);
    let e = if shape.e == 0 { None } else { Some(shape.e) };
    for (name, number) in [("k", key), ("e", e), ("number", Some(shape.number))] {
        if let Some(n) = number {
            set(rt, alloc, &mut props, name, Value::Int(n));
        }
    }
    set(
        rt,
        alloc,
        &mut props,
        "tags",
        tags_of(rt, alloc, shape.tags),
    );
    Value::Object(props)
}

// ---- stores
fn path(rt: &impl Abort, alloc: Global, s: &str) -> KeyPath
    ensures { result ≡ One s.now }
{
    KeyPath::parse(PathSpec::One(text(rt, alloc, s))).expect(rt, "a path")
}

/// A store with a generator, whose keys stand beside the values.
pub fn store_of_keys<T: Tables>(rt: &impl Abort, alloc: Global) -> StoreVersion<T> {
    let info = StoreInfo {
        name: text(rt, alloc, "s"),
        path: None,
        auto: true,
        indexes: IndexInfos::new(alloc),
    };
    StoreVersion::new(alloc, info)
}

/// A store with a generator, whose keys stand in the values at `k`.
pub fn store_of_path<T: Tables>(rt: &impl Abort, alloc: Global) -> StoreVersion<T> {
    let path = path(rt, alloc, "k");
    let info = StoreInfo {
        name: text(rt, alloc, "s"),
        path: Some(path),
        auto: true,
        indexes: IndexInfos::new(alloc),
    };
    StoreVersion::new(alloc, info)
}

fn name_of(kind: Kind) -> &'static str {
    match (kind.is_of_tags, kind.is_unique) {
        (false, false) => "by e",
        (false, true) => "by e alone",
        (true, false) => "by tags",
        (true, true) => "by tags alone",
    }
}

/// The index. One on `e` that is unique is multi-entry too, with a key that stands alone.
fn index_of(rt: &impl Abort, alloc: Global, kind: Kind) -> IndexInfo
    ensures { IsIndexInfo result }
{
    let path = path(rt, alloc, if kind.is_of_tags { "tags" } else { "e" });
    IndexInfo {
        name: text(rt, alloc, name_of(kind)),
        path,
        unique: kind.is_unique,
        multi: kind.is_of_tags || kind.is_unique,
    }
}

// ---- one call each
fn key_stored(stored: &Result<Key, StoreError>) -> i64 {
    match stored {
        Ok(Key::Number(n)) => *n,
        Err(StoreError::Constraint) => REFUSED,
        _ => NOTHING,
    }
}

/// Stores the value under a number.
pub fn put<T: Tables>(
    rt: &impl Abort,
    store: &mut StoreVersion<T>,
    value: Value,
    key: i64,
    add: bool,
) -> i64 {
    assert!(rt; well_formed(&value) && is_cloneable(&value) && is_int(key));
    let stored = store.store_record(value, Some(Key::Number(key)), add);
    let answer = key_stored(&stored);
    drop(stored);
    answer
}

fn has_key<T: Tables>(
    rt: &impl Abort,
    alloc: Global,
    store: &StoreVersion<T>,
    value: &Value,
) -> bool
    ensures { result ≡ true → HasKey store.now.store.info.path store.now.store.info.auto
        (tree_of value.now) (in_line store.now.store.info.path (tree_of value.now)) }
{
    match &store.info().path {
        None => store.info().auto,
        Some(path) => match extract(alloc, path, false, value).expect(rt, "memory") {
            Extracted::One(_) => true,
            Extracted::Many(_) => false,
            Extracted::Invalid => false,
            Extracted::Failure => {
                store.info().auto && could_inject(path, value) && has_room(path, value)
            }
        },
    }
}

/// Stores a value that has its key, or gets the next number.
pub fn put_alone<T: Tables>(
    rt: &impl Abort,
    alloc: Global,
    store: &mut StoreVersion<T>,
    value: Value,
    add: bool,
) -> i64 {
    assert!(rt; well_formed(&value) && is_cloneable(&value) && has_key(rt, alloc, store, &value));
    let stored = store.store_record(value, None, add);
    let answer = key_stored(&stored);
    drop(stored);
    answer
}

/// How many records of a range went.
pub fn delete<T: Tables>(
    rt: &impl Abort,
    store: &mut StoreVersion<T>,
    low: i64,
    high: i64,
    (is_above, is_below): (bool, bool),
) -> i64 {
    match KeyRange::bound(Key::Number(low), Key::Number(high), is_above, is_below) {
        Ok(range) => {
            let count = store.delete_range(&range).expect(rt, "memory");
            drop(range);
            i64::try_from(count).unwrap_or(NOTHING)
        }
        Err(_) => NOTHING,
    }
}

pub fn clear<T: Tables>(rt: &impl Abort, store: &mut StoreVersion<T>) -> i64 {
    store.clear().expect(rt, "memory");
    0
}

fn place_named(indexes: &IndexInfos, name: &Text) -> Option<usize>
    ensures { result ≡ index_named indexes.now name.now }
{
    let name = name.as_str();
    indexes
        .as_slice()
        .iter()
        .position(|i| i.name.as_str() == name)
}

/// The number of the key that breaks the index, or 0.
fn key_broken(made: &Result<(), IndexError>) -> i64 {
    match made {
        Ok(()) => 0,
        Err(
            IndexError::Constraint {
                key: Key::Number(n),
            },
        ) => *n,
        Err(_) => NOTHING,
    }
}

pub fn add_index<T: Tables>(
    rt: &impl Abort,
    alloc: Global,
    store: &mut StoreVersion<T>,
    kind: Kind,
) -> i64 {
    let info = index_of(rt, alloc, kind);
    match place_named(&store.info().indexes, &info.name) {
        None => {
            let made = store.add_index(info);
            let answer = key_broken(&made);
            drop(made);
            answer
        }
        Some(_) => {
            drop(info);
            NOTHING
        }
    }
}

pub fn drop_index<T: Tables>(rt: &impl Abort, store: &mut StoreVersion<T>, place: i64) -> i64 {
    match usize::try_from(place) {
        Ok(place) if place < store.info().indexes.len() => {
            store.drop_index(place).expect(rt, "memory");
            0
        }
        _ => NOTHING,
    }
}

pub fn set_current<T: Tables>(rt: &impl Abort, store: &mut StoreVersion<T>, current: i64) -> i64 {
    assert!(rt; store.info().auto && current >= 1 && current <= 9007199254740993);
    store.set_current(current as u64);
    0
}

pub fn undo<T: Tables>(rt: &impl Abort, store: &mut StoreVersion<T>, mark: Mark) {
    assert!(rt; store.info().auto && mark.place <= store.mark().place);
    assert!(rt; mark.current >= 1 && mark.current <= 9007199254740993);
    store.undo_to(mark);
}

// ---- what a store shows
/// The number of the generator.
pub fn current_of<T: Tables>(store: &StoreVersion<T>) -> i64 {
    i64::try_from(store.current()).unwrap_or(NOTHING)
}

fn int_in(value: Option<&Value>) -> i64 {
    match value {
        Some(Value::Int(n)) => *n,
        _ => NOTHING,
    }
}

fn number_in(value: Option<&Value>) -> i64 {
    match value {
        Some(Value::Object(props)) => int_in(props.find("number")),
        _ => NOTHING,
    }
}

/// The number of the record of this key.
pub fn number_at<T: Tables>(store: &StoreVersion<T>, key: i64) -> i64 {
    number_in(store.value_of(&Key::Number(key)))
}

/// Whether the value has the key at `k`.
fn has_inside(value: &Value, key: i64) -> bool {
    match value {
        Value::Object(props) => int_in(props.find("k")) == key,
        _ => false,
    }
}

/// The key and the number of a record; nothing where the key stands in the value and is another one there.
fn member_of(record: Option<(&Key, &Value)>, is_in_line: bool) -> (i64, i64) {
    match record {
        Some((Key::Number(key), value)) if has_inside(value, *key) == is_in_line => {
            (*key, number_in(Some(value)))
        }
        _ => (NOTHING, NOTHING),
    }
}

/// The keys and the numbers of the records.
pub fn members<T: Tables>(
    rt: &impl Abort,
    alloc: Global,
    store: &StoreVersion<T>,
) -> Vec<(i64, i64)> {
    let mut members = Vec::new(alloc);
    let is_in_line = store.info().path.is_some();
    for place in 0..store.len() {
        members
            .push(member_of(store.record_at(place), is_in_line))
            .expect(rt, "memory");
    }
    members
}

pub fn row_of(row: Option<(&Key, &Key)>) -> (i64, i64) {
    match row {
        Some((Key::Number(key), Key::Number(primary))) => (*key, *primary),
        _ => (NOTHING, NOTHING),
    }
}

/// The rows of the index at this place.
pub fn rows<T: Tables>(
    rt: &impl Abort,
    alloc: Global,
    store: &StoreVersion<T>,
    place: usize,
) -> Vec<(i64, i64)> {
    let mut rows = Vec::new(alloc);
    for at in 0..store.row_count(Over::Index(place)) {
        rows.push(row_of(store.row(Over::Index(place), at)))
            .expect(rt, "memory");
    }
    rows
}
