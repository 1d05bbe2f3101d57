// Upgrades as data: the requests of a body, what their handlers place, and how each ends.
ghost use Rattle.clone_values.specs.View.{tree_of};
ghost use Rattle.clone_values.specs.WellFormed.{IsValue};
ghost use Rattle.request_lists.specs.Placing.{IsCall};

use crate::bodies::Body;
use crate::calls::Calls;
use crate::plans::Planned;
use clone_values::{PathSpec, Text, Value, well_formed};
use idb_base::GREATEST_LENGTH;
use idb_calls::{Call, Query, Target};
use idb_keys::Direction;
use idb_schema::{IndexId, SchemaCall, StoreId};
use request_lists::HandlerEnd;
use std::alloc::Global;
use std::process::Abort;

/// A request. Two numbers stand with it, such as the key and the value of a record; a cursor is named by its own request.
#[derive(Clone, Copy)]
pub(crate) enum Kind {
    Add,
    Put,
    Get,
    GetKey,
    Count,
    All,
    Keys,
    Delete,
    Clear,
    /// Over the store.
    Open,
    /// Over the index.
    OpenKeys,
    Continue(u32),
    /// To this key of the index and this primary key.
    ContinuePrimary(u32),
    Advance(u32),
    Update(u32),
    DeleteHere(u32),
}

pub(crate) use Kind::*;

pub(crate) type Ask = (Kind, i64, i64);

/// A request, what its handler places at each of its events, and how the handler ends.
pub(crate) type Request = (Ask, &'static [&'static [Ask]], HandlerEnd);

/// How the body of an upgrade ends.
#[derive(Clone, Copy)]
pub(crate) enum BodyEnd {
    Returns,
    Throws,
    Aborts,
    /// It commits, and then asks for one put more.
    Commits,
}

pub(crate) use BodyEnd::*;

pub(crate) const RETURNS: HandlerEnd = HandlerEnd::Returned { prevented: false };

pub(crate) const PREVENTS: HandlerEnd = HandlerEnd::Returned { prevented: true };

/// The store and its index.
#[derive(Clone, Copy)]
pub(crate) struct Place {
    pub(crate) store: StoreId,
    pub(crate) index: IndexId,
}

// ---- what is asked
fn number(rt: &impl Abort, n: i64) -> Value
    ensures { IsValue (tree_of result) }
{
    let value = Value::Int(n);
    assert!(rt; well_formed(&value));
    value
}

fn adding(rt: &impl Abort, store: StoreId, key: i64, value: i64) -> Call
    ensures { IsCall result }
{
    let key = Some(number(rt, key));
    let value = number(rt, value);
    Call::Add { store, value, key }
}

pub(crate) fn putting(rt: &impl Abort, store: StoreId, key: i64, value: i64) -> Call
    ensures { IsCall result }
{
    let key = Some(number(rt, key));
    let value = number(rt, value);
    Call::Put { store, value, key }
}

fn deleting(rt: &impl Abort, store: StoreId, key: i64) -> Call
    ensures { IsCall result }
{
    let query = Query::One(number(rt, key));
    Call::Delete { store, query }
}

fn getting(rt: &impl Abort, target: Target, key: i64) -> Call
    ensures { IsCall result }
{
    let query = Query::One(number(rt, key));
    Call::Get { target, query }
}

fn getting_key(rt: &impl Abort, target: Target, key: i64) -> Call
    ensures { IsCall result }
{
    let query = Query::One(number(rt, key));
    Call::GetKey { target, query }
}

/// The calls that name all records.
pub(crate) fn over_all(at: Place, kind: Kind) -> Call
    ensures { IsCall result }
{
    let (store, index) = (at.store, Some(at.index));
    let target = Target { store, index: None };
    let (query, count, direction) = (Query::Absent, None, Direction::Next);
    match kind {
        Count => Call::Count { target, query },
        All => Call::GetAll {
            target,
            query,
            count,
        },
        Keys => Call::GetAllKeys {
            target,
            query,
            count,
        },
        Open => Call::OpenCursor {
            target,
            query,
            direction,
        },
        OpenKeys => Call::OpenKeyCursor {
            target: Target { store, index },
            query,
            direction,
        },
        _ => Call::Clear { store },
    }
}

fn going_on(rt: &impl Abort, cursor: u32, key: i64, primary: i64) -> Call
    ensures { IsCall result }
{
    let key = number(rt, key);
    let primary = number(rt, primary);
    Call::ContinuePrimaryKey {
        cursor,
        key,
        primary,
    }
}

fn updating(rt: &impl Abort, cursor: u32, value: i64) -> Call
    ensures { IsCall result }
{
    let value = number(rt, value);
    Call::Update { cursor, value }
}

pub(crate) fn call_of(rt: &impl Abort, at: Place, ask: &Ask) -> Call
    ensures { IsCall result }
{
    let (kind, a, b) = *ask;
    let target = Target {
        store: at.store,
        index: None,
    };
    match kind {
        Add => adding(rt, at.store, a, b),
        Put => putting(rt, at.store, a, b),
        Get => getting(rt, target, a),
        GetKey => getting_key(rt, target, a),
        Delete => deleting(rt, at.store, a),
        Continue(cursor) => Call::Continue { cursor, key: None },
        ContinuePrimary(cursor) => going_on(rt, cursor, a, b),
        Advance(cursor) => Call::Advance { cursor, count: a },
        Update(cursor) => updating(rt, cursor, b),
        DeleteHere(cursor) => Call::DeleteHere { cursor },
        kind => over_all(at, kind),
    }
}

pub(crate) fn handler_of(
    rt: &impl Abort,
    alloc: Global,
    at: Place,
    turns: &[&[Ask]],
    ends: HandlerEnd,
) -> Planned {
    let mut handler = Planned::new(alloc, ends);
    for asks in turns {
        let mut turn = Calls::new(alloc);
        for ask in *asks {
            turn.push(call_of(rt, at, ask), RETURNS)
                .expect(rt, "memory");
        }
        handler.push(turn).expect(rt, "memory");
    }
    handler
}

pub(crate) fn requests_of(
    rt: &impl Abort,
    alloc: Global,
    at: Place,
    requests: &[Request],
) -> Calls<Planned> {
    let mut calls = Calls::new(alloc);
    for (ask, turns, ends) in requests {
        let handler = handler_of(rt, alloc, at, turns, *ends);
        calls
            .push(call_of(rt, at, ask), handler)
            .expect(rt, "memory");
    }
    calls
}

pub(crate) fn text(rt: &impl Abort, alloc: Global, s: &str) -> Text {
    assert!(rt; s.len() <= GREATEST_LENGTH);
    Text::copy_of(alloc, s).expect(rt, "memory")
}

pub(crate) fn change(rt: &impl Abort, body: &mut Body, call: SchemaCall) {
    let Ok(()) = body.change(call) else {
        panic!(rt; "refused");
    };
}

/// Makes a store whose keys are given.
pub(crate) fn made_store(rt: &impl Abort, alloc: Global, body: &mut Body, name: &str) -> StoreId {
    let create = SchemaCall::CreateStore {
        name: text(rt, alloc, name),
        path: None,
        auto: false,
    };
    change(rt, body, create);
    body.front()
        .store(&text(rt, alloc, name))
        .expect(rt, "a store")
}

/// A body that made the store "s", whose keys are given, and its index "i" by the value same_plan.
pub(crate) fn begun_body(rt: &impl Abort, alloc: Global, unique: bool) -> (Body, Place) {
    let mut body = Body::new(alloc, text(rt, alloc, "d")).expect(rt, "memory");
    let store = made_store(rt, alloc, &mut body, "s");
    let create = SchemaCall::CreateIndex {
        store,
        name: text(rt, alloc, "i"),
        path: PathSpec::One(text(rt, alloc, "")),
        unique,
        multi: false,
    };
    change(rt, &mut body, create);
    let index = body
        .front()
        .index(store, &text(rt, alloc, "i"))
        .expect(rt, "an index");
    (body, Place { store, index })
}
