// Transactions that never start: what their requests are told, and what the trace says.
ghost use Rattle.clone_values.specs.View.{tree_of};
ghost use Rattle.clone_values.specs.WellFormed.{IsValue};
ghost use Rattle.handler_calls.specs.Attending.{IsAttended};
ghost use Rattle.request_lists.specs.Placing.{IsCall};

use clone_values::{Text, Texts, Value, well_formed};
use handler_calls::*;
use idb_base::GREATEST_LENGTH;
use idb_calls::{Call, Event, Events, Outcome, Query, Target, TxTrace};
use idb_keys::{Direction, Durability, ErrorName, Mode};
use idb_schema::{Schema, SchemaCall, StoreId, StoreInfos};
use request_lists::{Handler, HandlerEnd, TxFront};
use std::alloc::Global;
use std::fmt::Write;
use std::process::Abort;

/// Notes each event, and returns.
#[derive(Drop)]
struct Noting {
    number: u32,
}

impl Handler for Noting {
    type Notes = Events;

    ghost use Rattle.std.specs.Prelude.{◌≡◌, ℕ, false, [], ◌∷◌};
    ghost use Rattle.std.specs.Coded.{coded_ℕ};
    ghost use Rattle.idb_calls.specs.declared.events.Event.{Event};
    ghost use Rattle.request_lists.specs.declared.handlers.HandlerEnd.TheVariants as end;

    ghost Plain = { ℕ };

    ghost plain_code = { coded_ℕ };

    ghost plain = { λ h. h.number };

    ghost reacts = { λ h w e k v how. (k ≡ h) × (v ≡ w) × (how ≡ end.Returned false) };

    ghost Line = { Event };

    ghost lines = { λ notes. notes };

    ghost writes = { λ h w e ls. ls ≡ e ∷ [] };

    fn on_event(
        &mut self,
        _front: &mut TxFront<Noting>,
        event: &Event,
        notes: &mut Events,
    ) -> HandlerEnd {
        let Ok(copy) = event.clone() else {
            return HandlerEnd::NoMemory;
        };
        match notes.push(copy) {
            Ok(()) => return HandlerEnd::Returned { prevented: false },
            Err(_) => return HandlerEnd::NoMemory,
        }
    }
}

fn text(rt: &impl Abort, alloc: Global, s: &'static str) -> Text {
    assert!(rt; s.len() <= GREATEST_LENGTH);
    Text::copy_of(alloc, s).expect(rt, "memory")
}

fn number(rt: &impl Abort, n: i64) -> Value
    ensures { IsValue (tree_of result) }
{
    let value = Value::Int(n);
    assert!(rt; well_formed(&value));
    value
}

fn change(front: &mut TxFront<Noting>, call: SchemaCall)
    requires { IsAttended front.old }
    ensures { IsAttended front.new }
{
    let _ = front.schema(call);
}

fn place(front: &mut TxFront<Noting>, call: Call, number: u32)
    requires attended { IsAttended front.old }
    requires call { IsCall call }
    ensures { IsAttended front.new }
{
    let _ = front.place(call, Noting { number });
}

fn abort(front: &mut TxFront<Noting>)
    requires { IsAttended front.old }
    ensures { IsAttended front.new }
{
    let _ = front.abort();
}

fn threw(front: &mut TxFront<Noting>)
    requires { IsAttended front.old }
    ensures { IsAttended front.new }
{
    attending_laws::<Noting>();
    front.threw();
}

fn new_front(rt: &impl Abort, alloc: Global) -> TxFront<Noting>
    ensures { IsAttended result }
{
    attending_laws::<Noting>();
    let schema = Schema::new(alloc, text(rt, alloc, "d"), 1, StoreInfos::new(alloc)).expect(
        rt, "memory",
    );
    TxFront::new(alloc, Mode::VersionChange, schema, Texts::new(alloc))
}

/// An upgrade that made a store, placed a put and opened a cursor.
fn begun(rt: &impl Abort, alloc: Global) -> TxFront<Noting>
    ensures { IsAttended result }
{
    let mut front = new_front(rt, alloc);
    let create = SchemaCall::CreateStore {
        name: text(rt, alloc, "s"),
        path: None,
        auto: false,
    };
    change(&mut front, create);
    let Ok(store) = front.store(&text(rt, alloc, "s")) else {
        panic!(rt; "no store");
    };
    put(rt, &mut front, store);
    open(&mut front, store);
    front
}

fn put(rt: &impl Abort, front: &mut TxFront<Noting>, store: StoreId)
    requires { IsAttended front.old }
    ensures { IsAttended front.new }
{
    let value = number(rt, 7);
    let key = number(rt, 1);
    place(
        front,
        Call::Put {
            store,
            value,
            key: Some(key),
        },
        1,
    );
}

fn open(front: &mut TxFront<Noting>, store: StoreId)
    requires { IsAttended front.old }
    ensures { IsAttended front.new }
{
    place(
        front,
        Call::OpenCursor {
            target: Target { store, index: None },
            query: Query::Absent,
            direction: Direction::Next,
        },
        2,
    );
}

fn say_name(name: ErrorName, said: &mut String) {
    let _ = match name {
        ErrorName::AbortError => write!(said, "AbortError"),
        _ => write!(said, "another error"),
    };
}

fn say_events(events: &Events, said: &mut String) {
    for event in events.as_slice() {
        match event {
            Event::Success { request, .. } => {
                let _ = write!(said, "{request} success, ");
            }
            Event::Error { request, name } => {
                let _ = write!(said, "{request} ");
                say_name(*name, said);
                let _ = write!(said, ", ");
            }
        }
    }
}

fn say(trace: &TxTrace, notes: &Events, said: &mut String) {
    say_events(&trace.lines, said);
    let _ = write!(said, "{} changes, ", trace.deltas.len());
    match trace.outcome {
        Outcome::Committed => {
            let _ = write!(said, "committed; ");
        }
        Outcome::Aborted { error, .. } => {
            let _ = write!(said, "aborted ");
            match error {
                Some(name) => say_name(name, said),
                None => {
                    let _ = write!(said, "null");
                }
            }
            let _ = write!(said, "; ");
        }
    }
    say_events(notes, said);
    let _ = write!(said, "\n");
}

fn cancelled(rt: &impl Abort, alloc: Global, throws: bool, said: &mut String) {
    let mut front = begun(rt, alloc);
    if throws {
        threw(&mut front);
    } else {
        abort(&mut front);
    }
    let mut notes = Events::new(alloc);
    let trace = cancel(alloc, front, 5, Durability::Relaxed, &mut notes).expect(rt, "memory");
    say(&trace, &notes, said);
}

/// An upgrade whose body throws aborts with AbortError, and one whose body aborts it with null; each request is told AbortError.
#[test]
fn requests_of_a_front_that_never_starts_are_told(rt: HostRuntime) {
    let mut said = String::new(rt.alloc());
    cancelled(&rt, rt.alloc(), true, &mut said);
    cancelled(&rt, rt.alloc(), false, &mut said);
    assert_eq!(rt;
        said.as_str(),
        "1 AbortError, 2 AbortError, 0 changes, aborted AbortError; 1 AbortError, 2 AbortError, \n1 AbortError, 2 AbortError, 0 changes, aborted null; 1 AbortError, 2 AbortError, \n"
    );
}
