// Requests that read, and a cursor, over a small store.
ghost use Rattle.placed_calls.specs.Fitting.{IsFitCall};
ghost use Rattle.request_lists.specs.Placing.{IsCall};

use clone_values::{Items, Key, Props, Text, Texts, Value, is_cloneable, is_int, well_formed};
use idb_calls::{Call, Query, Target};
use idb_keys::{Direction, Mode, Over};
use idb_schema::{IndexInfos, Schema, SchemaCall, StoreInfo, StoreInfos};
use index_tables::{FlatTables, Tables};
use object_stores::StoreVersion;
use request_lists::TxFront;
use request_reads::*;
use std::alloc::Global;
use std::fmt::Write;
use std::process::Abort;

/// A request of the store, or a turn of its cursor.
#[derive(Clone, Copy)]
enum Step {
    Get(i64),
    GetKey(i64),
    Count,
    All(i64),
    AllKeys,
    Open,
    Continue,
    Advance,
}

fn empty_store<T: Tables>(rt: &impl Abort, alloc: Global) -> StoreVersion<T> {
    let info = StoreInfo {
        name: Text::copy_of(alloc, "s").expect(rt, "memory"),
        path: None,
        auto: false,
        indexes: IndexInfos::new(alloc),
    };
    StoreVersion::new(alloc, info)
}

/// A store of the records 1: 30, 2: 20 and 5: 10.
fn new_store<T: Tables>(rt: &impl Abort, alloc: Global) -> StoreVersion<T> {
    let mut store: StoreVersion<T> = empty_store(rt, alloc);
    for (key, n) in [(1i64, 30i64), (2, 20), (5, 10)] {
        put(rt, &mut store, key, n);
    }
    store
}

fn put<T: Tables>(rt: &impl Abort, store: &mut StoreVersion<T>, key: i64, n: i64) {
    let value = Value::Int(n);
    assert!(rt; well_formed(&value) && is_cloneable(&value) && is_int(key));
    let _ = store
        .store_record(value, Some(Key::Number(key)), false)
        .expect(rt, "a stored record");
}

/// An upgrade of a new database.
fn new_upgrade(rt: &impl Abort, alloc: Global) -> TxFront<u32> {
    let schema = Schema::new(
        alloc,
        Text::copy_of(alloc, "d").expect(rt, "memory"),
        1,
        StoreInfos::new(alloc),
    )
    .expect(rt, "memory");
    TxFront::new(alloc, Mode::VersionChange, schema, Texts::new(alloc))
}

fn create_store(rt: &impl Abort, alloc: Global, front: &mut TxFront<u32>) {
    let create = SchemaCall::CreateStore {
        name: Text::copy_of(alloc, "s").expect(rt, "memory"),
        path: None,
        auto: false,
    };
    assert!(rt; front.schema(create).is_ok());
}

fn target_of(rt: &impl Abort, alloc: Global, front: &TxFront<u32>) -> Target {
    match front.store(&Text::copy_of(alloc, "s").expect(rt, "memory")) {
        Ok(store) => Target { store, index: None },
        Err(_) => panic!(rt; "no store"),
    }
}

fn open_cursor(rt: &impl Abort, front: &mut TxFront<u32>, target: Target) {
    assert!(rt; front.place(open(target), 1).is_ok());
}

/// An upgrade that made the store and opened a cursor by its first call.
fn new_front(rt: &impl Abort, alloc: Global) -> (TxFront<u32>, Target) {
    let mut front = new_upgrade(rt, alloc);
    create_store(rt, alloc, &mut front);
    let target = target_of(rt, alloc, &front);
    open_cursor(rt, &mut front, target);
    (front, target)
}

fn open(target: Target) -> Call
    ensures fit { IsFitCall result }
    ensures call { IsCall result }
{
    Call::OpenCursor {
        target,
        query: Query::Absent,
        direction: Direction::Next,
    }
}

// ---- what is written of an answer
fn number(value: &Value) -> i64 {
    match value {
        Value::Int(n) => *n,
        _ => -1,
    }
}

fn say_items(items: &Items, said: &mut String) {
    for place in 0..items.len() {
        if let Some(item) = items.at(place) {
            let _ = write!(said, "{},", number(item));
        }
    }
}

fn say_props(props: &Props, said: &mut String) {
    for place in 0..props.len() {
        if let Some(prop) = props.at(place) {
            let _ = write!(said, "{}={},", prop.name.as_str(), number(&prop.value));
        }
    }
}

fn say(value: &Value, said: &mut String) {
    match value {
        Value::Undefined => {
            let _ = write!(said, "undefined ");
        }
        Value::Null => {
            let _ = write!(said, "null ");
        }
        Value::Array(items, _) => {
            say_items(items, said);
            let _ = write!(said, " ");
        }
        Value::Object(props) => {
            say_props(props, said);
            let _ = write!(said, " ");
        }
        other => {
            let _ = write!(said, "{} ", number(other));
        }
    }
}

fn read<T: Tables>(
    rt: &impl Abort,
    alloc: Global,
    store: &StoreVersion<T>,
    call: &Call,
    said: &mut String,
)
    requires { IsFitCall call.now }
{
    match read_store(alloc, store, Over::Store, call).expect(rt, "memory") {
        Some(value) => say(&value, said),
        None => panic!(rt; "no read"),
    }
}

fn turn<T: Tables>(
    rt: &impl Abort,
    alloc: Global,
    front: &mut TxFront<u32>,
    store: &StoreVersion<T>,
    call: &Call,
    said: &mut String,
)
    requires { IsFitCall call.now }
{
    let value = turn_over(alloc, front, 1, store, Over::Store, call).expect(rt, "memory");
    say(&value, said);
}

// ---- one step each
fn get<T: Tables>(
    rt: &impl Abort,
    alloc: Global,
    store: &StoreVersion<T>,
    target: Target,
    n: i64,
    said: &mut String,
) {
    let query = Query::One(Value::Int(n));
    read(rt, alloc, store, &Call::Get { target, query }, said)
}

fn get_key<T: Tables>(
    rt: &impl Abort,
    alloc: Global,
    store: &StoreVersion<T>,
    target: Target,
    n: i64,
    said: &mut String,
) {
    let query = Query::One(Value::Int(n));
    read(rt, alloc, store, &Call::GetKey { target, query }, said)
}

fn count<T: Tables>(
    rt: &impl Abort,
    alloc: Global,
    store: &StoreVersion<T>,
    target: Target,
    said: &mut String,
) {
    let query = Query::Absent;
    read(rt, alloc, store, &Call::Count { target, query }, said)
}

fn read_all_keys<T: Tables>(
    rt: &impl Abort,
    alloc: Global,
    store: &StoreVersion<T>,
    target: Target,
    said: &mut String,
) {
    let query = Query::Absent;
    let count = None;
    read(
        rt,
        alloc,
        store,
        &Call::GetAllKeys {
            target,
            query,
            count,
        },
        said,
    )
}

fn go_on<T: Tables>(
    rt: &impl Abort,
    alloc: Global,
    front: &mut TxFront<u32>,
    store: &StoreVersion<T>,
    said: &mut String,
) {
    turn(
        rt,
        alloc,
        front,
        store,
        &Call::Continue {
            cursor: 1,
            key: None,
        },
        said,
    )
}

fn advance<T: Tables>(
    rt: &impl Abort,
    alloc: Global,
    front: &mut TxFront<u32>,
    store: &StoreVersion<T>,
    said: &mut String,
) {
    turn(
        rt,
        alloc,
        front,
        store,
        &Call::Advance {
            cursor: 1,
            count: 2,
        },
        said,
    )
}

fn run<T: Tables>(
    rt: &impl Abort,
    alloc: Global,
    step: Step,
    front: &mut TxFront<u32>,
    target: Target,
    store: &StoreVersion<T>,
    said: &mut String,
) {
    match step {
        Step::Get(n) => get(rt, alloc, store, target, n, said),
        Step::GetKey(n) => get_key(rt, alloc, store, target, n, said),
        Step::Count => count(rt, alloc, store, target, said),
        Step::All(n) => read_all(rt, alloc, store, target, n, said),
        Step::AllKeys => read_all_keys(rt, alloc, store, target, said),
        Step::Open => turn(rt, alloc, front, store, &open(target), said),
        Step::Continue => go_on(rt, alloc, front, store, said),
        Step::Advance => advance(rt, alloc, front, store, said),
    }
}

fn read_all<T: Tables>(
    rt: &impl Abort,
    alloc: Global,
    store: &StoreVersion<T>,
    target: Target,
    n: i64,
    said: &mut String,
) {
    assert!(rt; 0 <= n && n <= 4_294_967_295);
    let query = Query::Absent;
    let count = Some(n);
    read(
        rt,
        alloc,
        store,
        &Call::GetAll {
            target,
            query,
            count,
        },
        said,
    )
}

const STEPS: [Step; 12] = [
    Step::Get(2),
    Step::Get(3),
    Step::GetKey(2),
    Step::Count,
    Step::All(0),
    Step::All(2),
    Step::AllKeys,
    Step::Open,
    Step::Advance,
    Step::Continue,
    Step::Get(5),
    Step::GetKey(4),
];

fn answers<T: Tables>(rt: &impl Abort, alloc: Global) -> String {
    let store: StoreVersion<T> = new_store(rt, alloc);
    let (mut front, target) = new_front(rt, alloc);
    let mut said = String::new(alloc);
    for step in STEPS {
        run(rt, alloc, step, &mut front, target, &store, &mut said);
    }
    said
}

/// What the standard's steps give by hand: a cursor that advances by 2 from the record 1 stands at 5, and then at nothing.
#[test]
fn reads_and_turns_answer(rt: HostRuntime) {
    let said = answers::<FlatTables>(&rt, rt.alloc());
    assert_eq!(rt;
        said.as_str(),
        "20 undefined 2 3 30,20,10, 30,20, 1,2,5, key=1,primaryKey=1,value=30, key=5,primaryKey=5,value=10, null 10 undefined "
    );
}
