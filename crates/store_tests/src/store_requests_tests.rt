// Requests on a small store: what each answers, and the changes that it notes.
ghost use Rattle.std.specs.Prelude.{◌≡◌, false};
ghost use Rattle.clone_values.specs.declared.path_types.PathSpec.TheVariants.{One};

use clone_values::{
    Items, Key, PathSpec, Prop, Props, Text, Value, is_cloneable, is_int, well_formed,
};
use idb_base::GREATEST_LENGTH;
use idb_calls::{Delta, Deltas};
use idb_cursors::Cursor;
use idb_keys::{Direction, KeyRange, Over};
use idb_schema::{IndexInfo, IndexInfos, StoreInfo};
use index_tables::{FlatTables, Tables};
use object_stores::{StoreError, StoreVersion};
use path_grammar::KeyPath;
use std::alloc::Global;
use std::fmt::Write;
use std::process::Abort;
use store_requests::*;

#[derive(Clone, Copy)]
enum Step {
    Put(i64, i64),
    Add(i64, i64),
    Delete(i64, i64),
    Clear,
    Get(i64, i64),
    GetKey(i64, i64),
    GetAll(u32),
    GetAllKeys(u32),
    Count,
    Turn(u32),
    TurnKeys,
}

fn path(rt: &impl Abort, alloc: Global, s: &str) -> KeyPath
    ensures { result ≡ One s.now }
{
    assert!(rt; s.len() <= GREATEST_LENGTH);
    KeyPath::parse(PathSpec::One(Text::copy_of(alloc, s).expect(rt, "memory"))).expect(rt, "a path")
}

fn by_e(rt: &impl Abort, alloc: Global) -> IndexInfo
    ensures { result.multi ≡ false }
{
    let path = path(rt, alloc, "e");
    let name = Text::copy_of(alloc, "by e").expect(rt, "memory");
    IndexInfo {
        name,
        path,
        unique: false,
        multi: false,
    }
}

fn empty_store<T: Tables>(rt: &impl Abort, alloc: Global) -> StoreVersion<T> {
    let info = StoreInfo {
        name: Text::copy_of(alloc, "s").expect(rt, "memory"),
        path: None,
        auto: true,
        indexes: IndexInfos::new(alloc),
    };
    StoreVersion::new(alloc, info)
}

fn index_by_e<T: Tables>(rt: &impl Abort, alloc: Global, store: &mut StoreVersion<T>) {
    let info = by_e(rt, alloc);
    assert!(rt; store.info().indexes.len() == 0 && store.add_index(info).is_ok());
}

/// A store with a generator and with an index by the property `e`.
fn new_store<T: Tables>(rt: &impl Abort, alloc: Global) -> StoreVersion<T> {
    let mut store: StoreVersion<T> = empty_store(rt, alloc);
    index_by_e(rt, alloc, &mut store);
    store
}

// ---- what is written of an answer
fn number(value: &Value) -> i64 {
    match value {
        Value::Int(n) => *n,
        Value::Object(props) => match props.at(0) {
            Some(
                Prop {
                    value: Value::Int(n),
                    ..
                },
            ) => *n,
            _ => -1,
        },
        _ => -2,
    }
}

fn say_items(rt: &impl Abort, items: &Items, said: &mut String) {
    for place in 0..items.len() {
        if let Some(item) = items.at(place) {
            write!(said, "{},", number(item)).expect(rt, "memory");
        }
    }
}

fn say_props(rt: &impl Abort, props: &Props, said: &mut String) {
    for place in 0..props.len() {
        if let Some(prop) = props.at(place) {
            write!(said, "{}={},", prop.name.as_str(), number(&prop.value)).expect(rt, "memory");
        }
    }
}

fn say_array(rt: &impl Abort, items: &Items, said: &mut String) {
    said.push_str("[").expect(rt, "memory");
    say_items(rt, items, said);
    said.push_str("] ").expect(rt, "memory");
}

fn say_object(rt: &impl Abort, props: &Props, said: &mut String) {
    said.push_str("{").expect(rt, "memory");
    say_props(rt, props, said);
    said.push_str("} ").expect(rt, "memory");
}

fn say_number(rt: &impl Abort, n: i64, said: &mut String) {
    write!(said, "{n} ").expect(rt, "memory")
}

fn say_text(rt: &impl Abort, text: &str, said: &mut String) {
    said.push_str(text).expect(rt, "memory")
}

fn say(rt: &impl Abort, value: &Value, said: &mut String) {
    match value {
        Value::Undefined => say_text(rt, "undefined ", said),
        Value::Null => say_text(rt, "null ", said),
        Value::Int(n) => say_number(rt, *n, said),
        Value::Array(items, _) => say_array(rt, items, said),
        Value::Object(props) => say_object(rt, props, said),
        _ => say_text(rt, "? ", said),
    }
}

fn shown(key: &Key) -> i64 {
    match key {
        Key::Number(n) => *n,
        _ => -1,
    }
}

fn say_put(rt: &impl Abort, key: &Key, value: &Value, said: &mut String) {
    write!(said, "put {}={} ", shown(key), number(value)).expect(rt, "memory")
}

fn say_remove(rt: &impl Abort, key: &Key, said: &mut String) {
    write!(said, "remove {} ", shown(key)).expect(rt, "memory")
}

fn say_clear(rt: &impl Abort, db: &Text, store: &Text, said: &mut String) {
    write!(said, "clear {}.{} ", db.as_str(), store.as_str()).expect(rt, "memory")
}

fn say_current(rt: &impl Abort, current: u64, said: &mut String) {
    write!(said, "current {current} ").expect(rt, "memory")
}

fn say_change(rt: &impl Abort, change: Option<&Delta>, said: &mut String) {
    match change {
        Some(Delta::Put { key, value, .. }) => say_put(rt, key, value, said),
        Some(Delta::Remove { key, .. }) => say_remove(rt, key, said),
        Some(Delta::Clear { db, store }) => say_clear(rt, db, store, said),
        Some(Delta::Current { current, .. }) => say_current(rt, *current, said),
        _ => say_text(rt, "? ", said),
    }
}

fn say_changes(rt: &impl Abort, changes: &Deltas, said: &mut String) {
    for place in 0..changes.len() {
        say_change(rt, changes.at(place), said);
    }
}

// ---- one request each
fn object(rt: &impl Abort, alloc: Global, e: i64) -> Value {
    let mut props = Props::new(alloc);
    assert!(rt; props.len() < 100);
    props
        .set(
            Text::copy_of(alloc, "e").expect(rt, "memory"),
            Value::Int(e),
        )
        .expect(rt, "memory");
    Value::Object(props)
}

fn names(rt: &impl Abort, alloc: Global) -> StoreNames {
    StoreNames {
        database: Text::copy_of(alloc, "d").expect(rt, "memory"),
        store: Text::copy_of(alloc, "s").expect(rt, "memory"),
    }
}

fn put<T: Tables>(
    rt: &impl Abort,
    alloc: Global,
    store: &mut StoreVersion<T>,
    value: Value,
    key: i64,
    add: bool,
    changes: &mut Deltas,
) -> Result<Value, StoreError> {
    assert!(rt; well_formed(&value) && is_cloneable(&value) && is_int(key));
    let names = names(rt, alloc);
    put_record(
        alloc,
        store,
        &names,
        value,
        Some(Key::Number(key)),
        add,
        changes,
    )
}

fn between(rt: &impl Abort, lower: i64, upper: i64) -> KeyRange {
    match KeyRange::bound(Key::Number(lower), Key::Number(upper), false, false) {
        Ok(range) => range,
        Err(_) => panic!(rt; "no range"),
    }
}

fn delete<T: Tables>(
    rt: &impl Abort,
    alloc: Global,
    store: &mut StoreVersion<T>,
    range: &KeyRange,
    changes: &mut Deltas,
) -> Value {
    let names = names(rt, alloc);
    delete_records(alloc, store, &names, range, changes).expect(rt, "memory")
}

fn clear<T: Tables>(
    rt: &impl Abort,
    alloc: Global,
    store: &mut StoreVersion<T>,
    changes: &mut Deltas,
) -> Value {
    let names = names(rt, alloc);
    clear_store(alloc, store, &names, changes).expect(rt, "memory")
}

// ---- what each request answers
/// Puts or adds the Object with this `e`.
fn say_stored<T: Tables>(
    rt: &impl Abort,
    alloc: Global,
    store: &mut StoreVersion<T>,
    (key, e, add): (i64, i64, bool),
    changes: &mut Deltas,
    said: &mut String,
) {
    let value = object(rt, alloc, e);
    match put(rt, alloc, store, value, key, add, changes) {
        Ok(value) => say(rt, &value, said),
        Err(_) => say_text(rt, "! ", said),
    }
}

fn say_deleted<T: Tables>(
    rt: &impl Abort,
    alloc: Global,
    store: &mut StoreVersion<T>,
    (lower, upper): (i64, i64),
    changes: &mut Deltas,
    said: &mut String,
) {
    let range = between(rt, lower, upper);
    let value = delete(rt, alloc, store, &range, changes);
    say(rt, &value, said)
}

fn say_cleared<T: Tables>(
    rt: &impl Abort,
    alloc: Global,
    store: &mut StoreVersion<T>,
    changes: &mut Deltas,
    said: &mut String,
) {
    let value = clear(rt, alloc, store, changes);
    say(rt, &value, said)
}

fn say_got<T: Tables>(
    rt: &impl Abort,
    store: &StoreVersion<T>,
    (lower, upper): (i64, i64),
    said: &mut String,
) {
    let range = between(rt, lower, upper);
    let value = get_value(store, Over::Index(0), &range).expect(rt, "memory");
    say(rt, &value, said)
}

fn say_key<T: Tables>(
    rt: &impl Abort,
    alloc: Global,
    store: &StoreVersion<T>,
    (lower, upper): (i64, i64),
    said: &mut String,
) {
    let range = between(rt, lower, upper);
    let value = get_key(alloc, store, Over::Index(0), &range).expect(rt, "memory");
    say(rt, &value, said)
}

fn say_all<T: Tables>(
    rt: &impl Abort,
    alloc: Global,
    store: &StoreVersion<T>,
    limit: u32,
    said: &mut String,
) {
    let value = get_all_values(alloc, store, Over::Store, &KeyRange::all(), limit).expect(
        rt, "memory",
    );
    say(rt, &value, said)
}

fn say_all_keys<T: Tables>(
    rt: &impl Abort,
    alloc: Global,
    store: &StoreVersion<T>,
    limit: u32,
    said: &mut String,
) {
    let value = get_all_keys(alloc, store, Over::Index(0), &KeyRange::all(), limit).expect(
        rt, "memory",
    );
    say(rt, &value, said)
}

fn say_count<T: Tables>(rt: &impl Abort, store: &StoreVersion<T>, said: &mut String) {
    let value = count_records(store, Over::Store, &KeyRange::all());
    say(rt, &value, said)
}

fn say_turn<T: Tables>(
    rt: &impl Abort,
    alloc: Global,
    store: &StoreVersion<T>,
    cursor: &mut Cursor,
    count: u32,
    said: &mut String,
) {
    if count > 0 {
        let value = turn_cursor(alloc, store, cursor.over(), cursor, None, None, count).expect(
            rt, "memory",
        );
        say(rt, &value, said);
    }
}

/// Three turns of a new cursor over the index.
fn turn<T: Tables>(
    rt: &impl Abort,
    alloc: Global,
    store: &StoreVersion<T>,
    keys_only: bool,
    count: u32,
    said: &mut String,
) {
    let mut cursor = Cursor::new(Over::Index(0), Direction::Next, None, keys_only);
    for _ in 0..3 {
        say_turn(rt, alloc, store, &mut cursor, count, said);
    }
}

/// Makes a request that changes the store.
fn run_writing<T: Tables>(
    rt: &impl Abort,
    alloc: Global,
    step: Step,
    store: &mut StoreVersion<T>,
    changes: &mut Deltas,
    said: &mut String,
) {
    match step {
        Step::Put(key, e) => say_stored(rt, alloc, store, (key, e, false), changes, said),
        Step::Add(key, e) => say_stored(rt, alloc, store, (key, e, true), changes, said),
        Step::Delete(lower, upper) => {
            say_deleted(rt, alloc, store, (lower, upper), changes, said)
        }
        Step::Clear => say_cleared(rt, alloc, store, changes, said),
        _ => run_reading(rt, alloc, step, store, said),
    }
}

/// Makes a request that reads, or turns a cursor.
fn run_reading<T: Tables>(
    rt: &impl Abort,
    alloc: Global,
    step: Step,
    store: &StoreVersion<T>,
    said: &mut String,
) {
    match step {
        Step::Get(lower, upper) => say_got(rt, store, (lower, upper), said),
        Step::GetKey(lower, upper) => say_key(rt, alloc, store, (lower, upper), said),
        Step::GetAll(limit) => say_all(rt, alloc, store, limit, said),
        Step::GetAllKeys(limit) => say_all_keys(rt, alloc, store, limit, said),
        Step::Count => say_count(rt, store, said),
        Step::Turn(count) => turn(rt, alloc, store, false, count, said),
        Step::TurnKeys => turn(rt, alloc, store, true, 1, said),
        _ => panic!(rt; "no reading request"),
    }
}

fn run<T: Tables>(
    rt: &impl Abort,
    alloc: Global,
    step: Step,
    store: &mut StoreVersion<T>,
    said: &mut String,
) {
    let mut changes = Deltas::new(alloc);
    run_writing(rt, alloc, step, store, &mut changes, said);
    say_changes(rt, &changes, said);
    say_text(rt, "\n", said)
}

const STEPS: [Step; 20] = [
    Step::Put(5, 30),
    Step::Put(2, 20),
    Step::Put(5, 10),
    Step::Add(5, 11),
    Step::Add(9, 20),
    Step::Get(20, 30),
    Step::GetKey(20, 30),
    Step::GetKey(21, 30),
    Step::Get(11, 12),
    Step::GetAll(0),
    Step::GetAll(2),
    Step::GetAllKeys(0),
    Step::GetAllKeys(1),
    Step::Count,
    Step::Turn(1),
    Step::Turn(2),
    Step::TurnKeys,
    Step::Delete(3, 9),
    Step::Clear,
    Step::Clear,
];

const SAID: &str = "5 current 6 put 5=30 \n\
2 put 2=20 \n\
5 put 5=10 \n\
! \n\
9 current 10 put 9=20 \n\
{e=20,} \n\
2 \n\
undefined \n\
undefined \n\
[20,10,20,] \n\
[20,10,] \n\
[5,2,9,] \n\
[5,] \n\
3 \n\
{key=10,primaryKey=5,value=10,} {key=20,primaryKey=2,value=20,} {key=20,primaryKey=9,value=20,} \n\
{key=20,primaryKey=2,value=20,} null null \n\
{key=10,primaryKey=5,} {key=20,primaryKey=2,} {key=20,primaryKey=9,} \n\
undefined remove 5 remove 9 \n\
undefined clear d.s \n\
undefined clear d.s \n";

fn answers<T: Tables>(rt: &impl Abort, alloc: Global) -> String {
    let mut store: StoreVersion<T> = new_store(rt, alloc);
    let mut said = String::new(alloc);
    for step in STEPS {
        run(rt, alloc, step, &mut store, &mut said);
    }
    said
}

#[test]
fn requests_answer_and_note_their_changes(rt: HostRuntime) {
    let said = answers::<FlatTables>(&rt, rt.alloc());
    assert_eq!(rt; said.as_str(), SAID);
}
