// The requests of the tests of `request_lists`, as plain data, and the calls that they make.
ghost use Rattle.std.specs.List.{AllByRecursion};
ghost use Rattle.clone_values.specs.View.{tree_of};
ghost use Rattle.clone_values.specs.WellFormed.{IsValue};
ghost use Rattle.request_lists.specs.Placing.{IsCall, value_given, values_of_query};

use clone_values::{Items, Props, Text, Value, well_formed};
use idb_base::GREATEST_LENGTH;
use idb_calls::{Call, Query, Target};
use idb_keys::Direction;
use idb_schema::StoreId;
use std::alloc::Global;
use std::process::Abort;

/// A value of a test.
#[derive(Clone, Copy)]
pub(crate) enum Val {
    Undefined,
    Null,
    Int(i64),
    Function,
    /// An Array of 1 alone.
    One,
    /// An Object with the property k, or with a.
    K(i64),
    A(i64),
}

/// A request. A cursor is named by its number.
#[derive(Clone, Copy)]
pub(crate) enum Step {
    Add(Val, Option<Val>),
    Put(Val, Option<Val>),
    Get(Option<Val>),
    GetKey(Option<Val>),
    Count(Option<Val>),
    All(Option<Val>, Option<i64>),
    AllKeys(Option<Val>, Option<i64>),
    Delete(Option<Val>),
    Clear,
    Open(Option<Val>, Direction),
    OpenKeys(Option<Val>, Direction),
    Continue(u32, Option<Val>),
    ContinuePrimary(u32, Val, Val),
    Advance(u32, i64),
    Update(u32, Val),
    DeleteHere(u32),
}

pub(crate) fn text(rt: &impl Abort, alloc: Global, s: &'static str) -> Text {
    assert!(rt; s.len() <= GREATEST_LENGTH);
    Text::copy_of(alloc, s).expect(rt, "memory")
}

/// The value, which is well formed.
fn value(rt: &impl Abort, alloc: Global, val: Val) -> Value
    ensures { IsValue (tree_of result) }
{
    let value = match val {
        Val::Undefined => Value::Undefined,
        Val::Null => Value::Null,
        Val::Int(n) => Value::Int(n),
        Val::Function => Value::Function,
        Val::One => array_of_one(rt, alloc),
        Val::K(n) => object(rt, alloc, "k", n),
        Val::A(n) => object(rt, alloc, "a", n),
    };
    assert!(rt; well_formed(&value));
    value
}

fn array_of_one(rt: &impl Abort, alloc: Global) -> Value {
    let mut items = Items::new(alloc);
    items.push(Value::Int(1)).expect(rt, "memory");
    Value::Array(items, Props::new(alloc))
}

fn object(rt: &impl Abort, alloc: Global, name: &'static str, n: i64) -> Value {
    let mut props = Props::new(alloc);
    props
        .set(text(rt, alloc, name), Value::Int(n))
        .expect(rt, "memory");
    Value::Object(props)
}

fn optional(rt: &impl Abort, alloc: Global, val: Option<Val>) -> Option<Value>
    ensures { AllByRecursion (λ value. IsValue (tree_of value)) (value_given result) }
{
    match val {
        Some(val) => Some(value(rt, alloc, val)),
        None => None,
    }
}

fn query(rt: &impl Abort, alloc: Global, asks: Option<Val>) -> Query
    ensures { AllByRecursion (λ value. IsValue (tree_of value)) (values_of_query result) }
{
    match asks {
        Some(val) => Query::One(value(rt, alloc, val)),
        None => Query::Absent,
    }
}

// ---- one call each
fn add(rt: &impl Abort, alloc: Global, store: StoreId, val: Val, key: Option<Val>) -> Call
    ensures { IsCall result }
{
    let value = value(rt, alloc, val);
    let key = optional(rt, alloc, key);
    Call::Add { store, value, key }
}

fn put(rt: &impl Abort, alloc: Global, store: StoreId, val: Val, key: Option<Val>) -> Call
    ensures { IsCall result }
{
    let value = value(rt, alloc, val);
    let key = optional(rt, alloc, key);
    Call::Put { store, value, key }
}

fn get(rt: &impl Abort, alloc: Global, target: Target, asks: Option<Val>) -> Call
    ensures { IsCall result }
{
    let query = query(rt, alloc, asks);
    Call::Get { target, query }
}

fn get_key(rt: &impl Abort, alloc: Global, target: Target, asks: Option<Val>) -> Call
    ensures { IsCall result }
{
    let query = query(rt, alloc, asks);
    Call::GetKey { target, query }
}

fn count(rt: &impl Abort, alloc: Global, target: Target, asks: Option<Val>) -> Call
    ensures { IsCall result }
{
    let query = query(rt, alloc, asks);
    Call::Count { target, query }
}

fn get_all(
    rt: &impl Abort,
    alloc: Global,
    target: Target,
    asks: Option<Val>,
    count: Option<i64>,
) -> Call
    ensures { IsCall result }
{
    let query = query(rt, alloc, asks);
    Call::GetAll {
        target,
        query,
        count,
    }
}

fn get_all_keys(
    rt: &impl Abort,
    alloc: Global,
    target: Target,
    asks: Option<Val>,
    count: Option<i64>,
) -> Call
    ensures { IsCall result }
{
    let query = query(rt, alloc, asks);
    Call::GetAllKeys {
        target,
        query,
        count,
    }
}

fn delete(rt: &impl Abort, alloc: Global, store: StoreId, asks: Option<Val>) -> Call
    ensures { IsCall result }
{
    let query = query(rt, alloc, asks);
    Call::Delete { store, query }
}

fn open(
    rt: &impl Abort,
    alloc: Global,
    target: Target,
    asks: Option<Val>,
    direction: Direction,
) -> Call
    ensures { IsCall result }
{
    let query = query(rt, alloc, asks);
    Call::OpenCursor {
        target,
        query,
        direction,
    }
}

fn open_keys(
    rt: &impl Abort,
    alloc: Global,
    target: Target,
    asks: Option<Val>,
    direction: Direction,
) -> Call
    ensures { IsCall result }
{
    let query = query(rt, alloc, asks);
    Call::OpenKeyCursor {
        target,
        query,
        direction,
    }
}

fn go_on(rt: &impl Abort, alloc: Global, cursor: u32, key: Option<Val>) -> Call
    ensures { IsCall result }
{
    let key = optional(rt, alloc, key);
    Call::Continue { cursor, key }
}

fn go_on_to(rt: &impl Abort, alloc: Global, cursor: u32, key: Val, primary: Val) -> Call
    ensures { IsCall result }
{
    let key = value(rt, alloc, key);
    let primary = value(rt, alloc, primary);
    Call::ContinuePrimaryKey {
        cursor,
        key,
        primary,
    }
}

fn update(rt: &impl Abort, alloc: Global, cursor: u32, val: Val) -> Call
    ensures { IsCall result }
{
    let value = value(rt, alloc, val);
    Call::Update { cursor, value }
}

/// A request that writes, or another one.
pub(crate) fn call(rt: &impl Abort, alloc: Global, ids: Target, step: Step) -> Call
    ensures { IsCall result }
{
    let store = ids.store;
    match step {
        Step::Add(val, key) => add(rt, alloc, store, val, key),
        Step::Put(val, key) => put(rt, alloc, store, val, key),
        Step::Delete(asks) => delete(rt, alloc, store, asks),
        Step::Clear => Call::Clear { store },
        _ => reading_call(rt, alloc, ids, step),
    }
}

/// A request that reads, or a call of a cursor.
fn reading_call(rt: &impl Abort, alloc: Global, target: Target, step: Step) -> Call
    ensures { IsCall result }
{
    match step {
        Step::Get(asks) => get(rt, alloc, target, asks),
        Step::GetKey(asks) => get_key(rt, alloc, target, asks),
        Step::Count(asks) => count(rt, alloc, target, asks),
        Step::All(asks, count) => get_all(rt, alloc, target, asks, count),
        Step::AllKeys(asks, count) => get_all_keys(rt, alloc, target, asks, count),
        Step::Open(asks, direction) => open(rt, alloc, target, asks, direction),
        Step::OpenKeys(asks, direction) => open_keys(rt, alloc, target, asks, direction),
        _ => cursor_call(rt, alloc, step),
    }
}

/// A call of a cursor.
fn cursor_call(rt: &impl Abort, alloc: Global, step: Step) -> Call
    ensures { IsCall result }
{
    match step {
        Step::Continue(cursor, key) => go_on(rt, alloc, cursor, key),
        Step::ContinuePrimary(cursor, key, primary) => go_on_to(rt, alloc, cursor, key, primary),
        Step::Advance(cursor, count) => Call::Advance { cursor, count },
        Step::Update(cursor, val) => update(rt, alloc, cursor, val),
        Step::DeleteHere(cursor) => Call::DeleteHere { cursor },
        _ => panic!(rt; "no call of a cursor"),
    }
}
