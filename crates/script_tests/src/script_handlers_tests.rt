// Bodies and handlers of small scripts.
use clone_values::{Text, Texts, Value};
use idb_base::{GREATEST_LENGTH, Listed};
use idb_calls::Event;
use idb_keys::{ErrorName, Mode};
use idb_schema::{Schema, StoreInfos};
use report_lines::Line;
use request_lists::{Handler, HandlerEnd, TxFront};
use script_exprs::{Expr, expr_from_json};
use script_handlers::*;
use script_runs::{Env, Note, Notes, RunEnd};
use script_statements::{Block, Client, Stmt};
use serde_json::Value as Json;
use std::alloc::Global;
use std::process;
use std::sync::Arc;
use value_json::push_value_text;

/// A statement; expressions are documents.
#[derive(Clone, Copy)]
enum Row {
    Say(&'static str),
    Throw,
    Post(usize),
    Prevent,
    Commit,
    Abort,
    Close,
    Create(&'static str),
    /// A put, with its key.
    Put(&'static str, Option<&'static str>),
    Get(&'static str, &'static str),
    Advance(&'static str),
    Open(&'static str),
}

use Row::{Abort, Advance, Close, Commit, Create, Get, Open, Post, Prevent, Put, Say, Throw};

/// What a front is made by before a handler is told its event: its requests 1 to 3 have cursors, which have got nothing yet.
const CURSORS: [Row; 4] = [Create("s"), Open("s"), Open("s"), Open("s")];

/// Bodies of upgrades.
const BODIES: [&[Row]; 6] = [
    // A store is there once it is made, and only then; what tasks do is refused.
    &[
        Put("s", Some("1")),
        Create("s"),
        Create("s"),
        Put("s", Some("1")),
        Close,
    ],
    // Undefined counts as no key, which a store without a generator needs; a Map is none.
    &[
        Create("s"),
        Put("s", None),
        Put("s", Some("{\"$undefined\":null}")),
        Put("s", Some("{\"$map\":[]}")),
        Get("s", "null"),
        Get("s", "[]"),
    ],
    // No cursor is at hand in a body.
    &[Advance("1")],
    // Nothing is placed after `commit`.
    &[Create("s"), Commit, Put("s", Some("1")), Abort, Say("1")],
    // After `abort` the transaction is finished.
    &[Create("s"), Abort, Put("s", Some("1")), Abort],
    // A throw ends the body.
    &[Post(0), Throw, Say("1")],
];

/// What they write.
const OF_BODIES: [&str; 6] = [
    "refused put NotFoundError; refused createObjectStore ConstraintError; refused close InvalidStateError; ",
    "refused put DataError; refused put DataError; refused put DataError; refused get DataError; ",
    "refused advance InvalidStateError; ",
    "refused put TransactionInactiveError; refused abort InvalidStateError; say 1; ",
    "refused put InvalidStateError; refused abort InvalidStateError; ",
    "post 0; throw; threw",
];

/// What is told to a handler whose block has these statements, for a success or an error; whether its request opened a cursor.
const EVENTS: [(bool, bool, &[Row]); 7] = [
    (
        true,
        false,
        &[Say("{\"$var\":\"result\"}"), Say("{\"$var\":\"error\"}")],
    ),
    (
        false,
        false,
        &[Say("{\"$var\":\"result\"}"), Say("{\"$var\":\"error\"}")],
    ),
    (true, false, &[Prevent]),
    (false, false, &[Prevent, Say("1")]),
    (true, false, &[Throw, Say("1")]),
    // Without a cursor at hand that is what is refused; with one, the count comes first.
    (true, false, &[Advance("\"1\"")]),
    (true, true, &[Advance("\"1\""), Advance("1")]),
];

/// What they write.
const OF_EVENTS: [&str; 7] = [
    "tx 5 req 3 success 7; say 7; say {\"$undefined\":null}; returned",
    "tx 5 req 3 error ConstraintError; say {\"$undefined\":null}; say \"ConstraintError\"; returned",
    "tx 5 req 3 success 7; returned",
    "tx 5 req 3 error ConstraintError; say 1; prevented",
    "tx 5 req 3 success 7; throw; threw",
    "tx 5 req 3 success 7; refused advance InvalidStateError; returned",
    "tx 5 req 3 success 7; refused advance TypeError; refused advance InvalidStateError; returned",
];

fn expr(rt: &impl process::Abort, alloc: Global, text: &str) -> Expr {
    let document = Json::from_str(alloc, text).expect(rt, "a document");
    match expr_from_json(alloc, &document) {
        Ok(expr) => expr,
        Err(_) => panic!(rt; "no expression"),
    }
}

fn key(rt: &impl process::Abort, alloc: Global, given: &Option<&'static str>) -> Option<Expr> {
    match given {
        Some(text) => Some(expr(rt, alloc, text)),
        None => None,
    }
}

fn text(rt: &impl process::Abort, alloc: Global, s: &str) -> Text {
    assert!(rt; s.len() <= GREATEST_LENGTH);
    Text::copy_of(alloc, s).expect(rt, "memory")
}

fn statement(rt: &impl process::Abort, alloc: Global, row: &Row) -> Stmt {
    match row {
        Row::Say(value) => Stmt::Say {
            value: expr(rt, alloc, value),
        },
        Row::Throw => Stmt::Throw,
        Row::Post(block) => Stmt::Post { block: *block },
        Row::Prevent => Stmt::Prevent,
        Row::Commit => Stmt::Commit,
        Row::Abort => Stmt::Abort,
        Row::Close => Stmt::Close { conn: None },
        Row::Create(store) => Stmt::CreateObjectStore {
            store: text(rt, alloc, store),
            key_path: None,
            auto_increment: None,
        },
        Row::Put(store, given) => Stmt::Put {
            store: text(rt, alloc, store),
            value: expr(rt, alloc, "0"),
            key: key(rt, alloc, given),
            success: None,
            error: None,
        },
        Row::Get(store, query) => Stmt::Get {
            store: text(rt, alloc, store),
            index: None,
            query: Some(expr(rt, alloc, query)),
            range: None,
            success: None,
            error: None,
        },
        Row::Open(store) => Stmt::OpenCursor {
            store: text(rt, alloc, store),
            index: None,
            query: None,
            range: None,
            direction: None,
            success: None,
            error: None,
        },
        Row::Advance(count) => Stmt::Advance {
            count: expr(rt, alloc, count),
        },
    }
}

fn client(rt: &impl process::Abort, alloc: Global, rows: &[Row]) -> Arc<Client, Global> {
    let mut body = Listed::new(alloc);
    for row in rows {
        body.push(statement(rt, alloc, row)).expect(rt, "memory");
    }
    let mut blocks = Listed::new(alloc);
    blocks
        .push(Block {
            name: text(rt, alloc, "main"),
            body,
        })
        .expect(rt, "memory");
    Arc::new(alloc, Client { blocks, main: 0 }).expect(rt, "memory")
}

fn front(rt: &impl process::Abort, alloc: Global) -> TxFront<ScriptHandler> {
    let schema = Schema::new(alloc, text(rt, alloc, "d"), 1, StoreInfos::new(alloc)).expect(
        rt, "memory",
    );
    TxFront::new(alloc, Mode::VersionChange, schema, Texts::new(alloc))
}

fn put_text(rt: &impl process::Abort, out: &mut Vec<u8>, text: &str) {
    out.extend_from_slice(text.as_bytes()).expect(rt, "memory");
}

/// Writes a small number.
fn put_number(rt: &impl process::Abort, alloc: Global, out: &mut Vec<u8>, number: u64) {
    match i64::try_from(number) {
        Ok(number) => push_value_text(alloc, out, &Value::Int(number)).expect(rt, "memory"),
        Err(_) => panic!(rt; "large"),
    }
}

/// Writes a note.
fn show(rt: &impl process::Abort, alloc: Global, out: &mut Vec<u8>, note: &Note) {
    match note {
        Note::Line(Line::Say { value }) => {
            put_text(rt, out, "say ");
            push_value_text(alloc, out, value).expect(rt, "memory");
        }
        Note::Line(Line::Throw) => put_text(rt, out, "throw"),
        Note::Line(Line::Refused { op, error }) => {
            put_text(rt, out, "refused ");
            put_text(rt, out, op.as_str());
            put_text(rt, out, " ");
            put_text(rt, out, error.name());
        }
        Note::Line(
            Line::RequestSuccess {
                number,
                request,
                result,
            },
        ) => {
            show_request(rt, alloc, out, *number, *request);
            put_text(rt, out, " success ");
            push_value_text(alloc, out, result).expect(rt, "memory");
        }
        Note::Line(
            Line::RequestError {
                number,
                request,
                error,
            },
        ) => {
            show_request(rt, alloc, out, *number, *request);
            put_text(rt, out, " error ");
            put_text(rt, out, error.name());
        }
        Note::Line(_) => put_text(rt, out, "line"),
        Note::Posted(task) => {
            put_text(rt, out, "post ");
            put_number(rt, alloc, out, task.block as u64);
        }
    }
    put_text(rt, out, "; ");
}

fn show_request(
    rt: &impl process::Abort,
    alloc: Global,
    out: &mut Vec<u8>,
    number: u64,
    request: u32,
) {
    put_text(rt, out, "tx ");
    put_number(rt, alloc, out, number);
    put_text(rt, out, " req ");
    put_number(rt, alloc, out, u64::from(request));
}

fn show_all(rt: &impl process::Abort, alloc: Global, out: &mut Vec<u8>, notes: &Notes) {
    for note in notes.as_slice() {
        show(rt, alloc, out, note);
    }
}

/// Runs a body on a new front, and writes its notes.
fn body(rt: &impl process::Abort, alloc: Global, out: &mut Vec<u8>, rows: &[Row]) {
    let client = client(rt, alloc, rows);
    let mut front = front(rt, alloc);
    let mut notes = Notes::new(alloc);
    let mut env = Env::new(alloc);
    env.cursor = Some(1);
    let end = run_body(alloc, &client, 5, 0, &env, &mut front, &mut notes).expect(rt, "memory");
    show_all(rt, alloc, out, &notes);
    if let RunEnd::Threw = end {
        put_text(rt, out, "threw");
    }
    put_text(rt, out, "\n");
}

/// Tells a handler its event, and writes its notes and how it ended.
fn event(
    rt: &impl process::Abort,
    alloc: Global,
    out: &mut Vec<u8>,
    succeeds: bool,
    opens: bool,
    rows: &[Row],
) {
    let mut handler = ScriptHandler {
        alloc,
        client: client(rt, alloc, rows),
        number: 5,
        success: Some(0),
        error: Some(0),
        opens,
        env: Env::new(alloc),
    };
    let mut front = front(rt, alloc);
    let mut notes = Notes::new(alloc);
    let before = Env::new(alloc);
    let cursors = client(rt, alloc, &CURSORS);
    run_body(alloc, &cursors, 5, 0, &before, &mut front, &mut notes).expect(rt, "memory");
    let told = if succeeds {
        Event::Success {
            request: 3,
            result: Value::Int(7),
        }
    } else {
        Event::Error {
            request: 3,
            name: ErrorName::ConstraintError,
        }
    };
    let end = handler.on_event(&mut front, &told, &mut notes);
    show_all(rt, alloc, out, &notes);
    put_text(
        rt,
        out,
        match end {
            HandlerEnd::Returned { prevented: false } => "returned\n",
            HandlerEnd::Returned { prevented: true } => "prevented\n",
            HandlerEnd::Threw => "threw\n",
            HandlerEnd::NoMemory => "no memory\n",
        },
    );
}

#[test]
fn bodies_write_what_the_rules_say(rt: HostRuntime) {
    let mut written = Vec::new(rt.alloc());
    let mut wanted = Vec::new(rt.alloc());
    for (place, rows) in BODIES.iter().enumerate() {
        body(&rt, rt.alloc(), &mut written, rows);
        if let Some(text) = OF_BODIES.get(place) {
            put_text(&rt, &mut wanted, text);
        }
        put_text(&rt, &mut wanted, "\n");
    }
    assert!(rt; written.as_slice() == wanted.as_slice());
}

#[test]
fn handlers_write_what_the_rules_say(rt: HostRuntime) {
    let mut written = Vec::new(rt.alloc());
    let mut wanted = Vec::new(rt.alloc());
    for (place, row) in EVENTS.iter().enumerate() {
        event(&rt, rt.alloc(), &mut written, row.0, row.1, row.2);
        if let Some(text) = OF_EVENTS.get(place) {
            put_text(&rt, &mut wanted, text);
        }
        put_text(&rt, &mut wanted, "\n");
    }
    assert!(rt; written.as_slice() == wanted.as_slice());
}
