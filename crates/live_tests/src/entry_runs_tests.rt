// Each kind of request once on a small store: its reply, and the changes of all in their order.
ghost use Rattle.std.specs.Prelude.{ℕ};
ghost use Rattle.list_machine.specs.Noting.{IsChecked};
ghost use Rattle.list_machine.specs.States.{State};
ghost use Rattle.placed_calls.specs.Fitting.{IsFitCall, AreFit};

use clone_values::{Key, Text, Texts, Value, is_cloneable, well_formed};
use entry_runs::*;
use idb_calls::{Call, Delta, Deltas, Query, Target};
use idb_keys::{Direction, Mode};
use idb_schema::{IndexInfos, Schema, StoreId, StoreInfo, StoreInfos};
use index_tables::FlatTables;
use live_stores::{Held, LiveStores, Stores};
use object_stores::StoreVersion;
use request_lists::TxFront;
use std::alloc::Global;
use std::fmt::Write;
use std::process::Abort;
use tx_courses::Course;

/// A request. Two numbers stand with it: the key and the value of a record, or the bounds of a range.
#[derive(Clone, Copy)]
enum Kind {
    Put,
    Add,
    Get,
    GetKey,
    All,
    Keys,
    Count,
    Delete,
    Clear,
    Open,
    Update,
    Next,
    DeleteHere,
}

use Kind::*;

type Step = (Kind, i64, i64);

/// A course over a store with a generator, without records, and a front whose cursor was asked for and has no place.
fn begun(rt: &impl Abort, alloc: Global) -> (Course<FlatTables>, TxFront<u32>, StoreId)
    ensures { AreFit result.1 }
{
    let info = StoreInfo {
        name: Text::copy_of(alloc, "s").expect(rt, "memory"),
        path: None,
        auto: true,
        indexes: IndexInfos::new(alloc),
    };
    let mut infos = StoreInfos::new(alloc);
    let mut stores = Stores::new(alloc);
    assert!(rt; infos.can_push(&info.name));
    infos
        .push(info.copy(alloc).expect(rt, "memory"))
        .expect(rt, "memory");
    let store = StoreVersion::new(alloc, info);
    assert!(rt; stores.insert(Held::Own(store)).is_ok());
    let schema = Schema::new(
        alloc,
        Text::copy_of(alloc, "d").expect(rt, "memory"),
        1,
        infos,
    )
    .expect(rt, "memory");
    let live = LiveStores::new(alloc, Some(1), stores);
    let mut scope = Texts::new(alloc);
    scope
        .push(Text::copy_of(alloc, "s").expect(rt, "memory"))
        .expect(rt, "memory");
    let mut front = TxFront::new(
        alloc,
        Mode::ReadWrite,
        schema.copy(alloc).expect(rt, "memory"),
        scope,
    );
    let store = front
        .store(&Text::copy_of(alloc, "s").expect(rt, "memory"))
        .expect(rt, "a store");
    let target = Target { store, index: None };
    let call = Call::OpenCursor {
        target,
        query: Query::Absent,
        direction: Direction::Next,
    };
    assert!(rt; front.place(call, 1).is_ok());
    let course = Course::new(alloc, Mode::ReadWrite, schema, live, Deltas::new(alloc));
    (course, front, store)
}

fn call_of(rt: &impl Abort, store: StoreId, step: &Step) -> Call
    ensures fit { IsFitCall result }
    ensures checked { (state : State ℕ) → IsChecked state result }
{
    let (kind, a, b) = *step;
    let (first, value) = (Value::Int(a), Value::Int(b));
    assert!(rt; well_formed(&first) && well_formed(&value) && is_cloneable(&value));
    let target = Target { store, index: None };
    let (cursor, key, count) = (1, Some(first), Some(2));
    let query = Query::Range {
        lower: Some(Value::Int(a)),
        upper: Some(Value::Int(b)),
        lower_open: false,
        upper_open: false,
    };
    match kind {
        Put => Call::Put { store, value, key },
        Add => Call::Add { store, value, key },
        Get => Call::Get { target, query },
        GetKey => Call::GetKey { target, query },
        All => Call::GetAll {
            target,
            query,
            count,
        },
        Keys => Call::GetAllKeys {
            target,
            query,
            count,
        },
        Count => Call::Count { target, query },
        Delete => Call::Delete { store, query },
        Clear => Call::Clear { store },
        Open => Call::OpenCursor {
            target,
            query,
            direction: Direction::Next,
        },
        Update => Call::Update { cursor, value },
        Next => Call::Continue { cursor, key: None },
        DeleteHere => Call::DeleteHere { cursor },
    }
}

/// The request is run, or the cursor takes its turn.
fn reply_of(
    rt: &impl Abort,
    course: &mut Course<FlatTables>,
    front: &mut TxFront<u32>,
    store: StoreId,
    step: &Step,
) -> Reply
    requires { AreFit front.old }
    ensures { AreFit front.new }
{
    let call = call_of(rt, store, step);
    match step.0 {
        Open | Next => run_turn(course, front, 1, &call).expect(rt, "memory"),
        _ => run_request(course, front, &call).expect(rt, "memory"),
    }
}

// ---- what is written of replies and changes
fn number(value: &Value) -> i64 {
    match value {
        Value::Int(n) => *n,
        _ => -1,
    }
}

fn say(reply: Reply, said: &mut String) {
    let _ = match reply {
        Reply::PastLimit => write!(said, "past "),
        Reply::Failed => write!(said, "! "),
        Reply::Answered(Value::Undefined) => write!(said, "undefined "),
        Reply::Answered(Value::Null) => write!(said, "null "),
        Reply::Answered(Value::Array(items, _)) => {
            for place in 0..items.len() {
                let _ = write!(said, "{},", items.at(place).map_or(-1, number));
            }
            write!(said, " ")
        }
        Reply::Answered(Value::Object(props)) => {
            for place in 0..props.len() {
                if let Some(prop) = props.at(place) {
                    let _ = write!(said, "{}={},", prop.name.as_str(), number(&prop.value));
                }
            }
            write!(said, " ")
        }
        Reply::Answered(value) => write!(said, "{} ", number(&value)),
    };
}

fn key_number(key: &Key) -> i64 {
    match key {
        Key::Number(n) => *n,
        _ => -1,
    }
}

fn say_changes(changes: &Deltas, said: &mut String) {
    for place in 0..changes.len() {
        let _ = match changes.at(place) {
            Some(Delta::Put { key, value, .. }) => {
                write!(said, "/ put {}={} ", key_number(key), number(value))
            }
            Some(Delta::Remove { key, .. }) => write!(said, "/ remove {} ", key_number(key)),
            Some(Delta::Clear { .. }) => write!(said, "/ clear "),
            Some(Delta::Current { current, .. }) => write!(said, "/ current {current} "),
            _ => write!(said, "/ ? "),
        };
    }
}

const STEPS: [Step; 23] = [
    (Put, 5, 30),
    (Put, 2, 20),
    (Put, 5, 10),
    (Add, 5, 11),
    (Add, 9, 20),
    (Get, 1, 3),
    (Get, 3, 4),
    (GetKey, 3, 9),
    (GetKey, 3, 4),
    (All, 1, 9),
    (Keys, 3, 9),
    (Count, 2, 5),
    (Delete, 3, 9),
    (Count, 1, 9),
    (Put, 3, 30),
    (Open, 0, 0),
    (Update, 0, 21),
    (Next, 0, 0),
    (DeleteHere, 0, 0),
    (Next, 0, 0),
    (All, 1, 9),
    (Clear, 0, 0),
    (Count, 1, 9),
];

/// The generator's number stands before the record that raised it, and each record of a deleted range goes in the order of keys.
#[test]
fn requests_are_replied_to_and_noted(rt: HostRuntime) {
    let mut said = String::new(rt.alloc());
    let (mut course, mut front, store) = begun(&rt, rt.alloc());
    for step in &STEPS {
        let reply = reply_of(&rt, &mut course, &mut front, store, step);
        say(reply, &mut said);
    }
    say_changes(&course.into_parts().changes, &mut said);
    assert_eq!(rt;
        said.as_str(),
        concat!(
            "5 2 5 ! 9 20 undefined 5 undefined 20,10, 5,9, 2 undefined 1 3 ",
            "key=2,primaryKey=2,value=20, 2 key=3,primaryKey=3,value=30, undefined null 21, undefined 0 ",
            "/ current 6 / put 5=30 / put 2=20 / put 5=10 / current 10 / put 9=20 / remove 5 / remove 9 ",
            "/ put 3=30 / put 2=21 / remove 3 / clear "
        )
    );
}
