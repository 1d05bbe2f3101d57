// Sessions of one client, whose transactions commit at once where their bodies let them begin; with memory at hand.
use client_parts::{BegunBody, ScriptClient};
use client_seats::seat_laws;
use client_tasks::*;
use clone_values::{Numbers, Text, Texts};
use idb_base::{GREATEST_LENGTH, Listed};
use idb_calls::{Outcome, PendingLines, Tokens};
use idb_desk::Desk;
use idb_keys::{ErrorName, Mode};
use idb_schema::Schemas;
use report_lines::{ClientLines, Lines, Opening, Report, ReportEnd, report_text};
use script_exprs::{Expr, expr_from_json};
use script_runs::{Note, Notes};
use script_statements::{Block, BlockPlace, Client, Stmt};
use serde_json::Value as Json;
use std::alloc::Global;
use std::process;
use std::sync::Arc;

/// A statement; expressions are documents.
#[derive(Clone, Copy)]
enum Row {
    /// An open of "d": its version, and the blocks for its upgrade, success and versionchange.
    Open(Option<&'static str>, Option<BlockPlace>, Option<BlockPlace>, Option<BlockPlace>),
    /// The deletion of "d", and the block for its success.
    Delete(Option<BlockPlace>),
    Close,
    CloseOf(u64),
    /// A transaction over these stores: its body, and the blocks for its complete and abort.
    Transaction(&'static [&'static str], BlockPlace, Option<BlockPlace>, Option<BlockPlace>),
    Say(&'static str),
    Throw,
    Post(BlockPlace),
    Repeat(u64, BlockPlace),
    Make(&'static str),
    Abort,
}

use Row::{Abort, Close, CloseOf, Delete, Make, Open, Post, Repeat, Say, Throw, Transaction};

/// The blocks of each script, the first of which is its first task, and the lines and tokens of its report.
const SESSIONS: [(&[&[Row]], &str); 6] = [
    // An open of a later version waits for the one that stays open.
    (
        &[
            &[Open(None, Some(1), Some(2), None)],
            &[],
            &[Open(Some("2"), None, None, None)],
        ],
        "open 1 upgrade 0 1 tx 1\ntx 1 complete\nopen 1 success 1\nversionchange 1 1 2\nopen 2 blocked 1 2\norder a1.1 e1 s1 f1 e1 a1.2 e1 d1 e1\n",
    ),
    // A throw in the block of an upgrade aborts it.
    (
        &[
            &[Open(None, Some(1), Some(2), None)],
            &[Make("s"), Throw],
            &[],
        ],
        "open 1 upgrade 0 1 tx 1\nthrow\ntx 1 abort AbortError\nopen 1 error AbortError\norder a1.1 e1 f1 e1\n",
    ),
    // A post comes before the next event. The connection that is at hand closes in its versionchange event, of which nothing is left to
    // handle; then the deletion goes.
    (
        &[
            &[Open(None, None, Some(1), Some(2))],
            &[Delete(Some(3)), Post(4), Say("1")],
            &[Say("2"), Close, Close],
            &[Say("{\"$var\":\"result\"}")],
            &[Say("3")],
        ],
        "open 1 upgrade 0 1 tx 1\ntx 1 complete\nopen 1 success 1\nsay 1\nsay 3\nversionchange 1 1 null\nsay 2\ndelete 2 tx 2\ndelete 2 success 1\nsay 1\norder a1.1 e1 s1 f1 e1 a1.2 e1 x1.1 e1 s2 f2 e1\n",
    ),
    // An open that is refused has no number. A throw in a task ends that task alone. A connection is the client's from its first event on.
    (
        &[
            &[
                Open(Some("0"), None, None, None),
                CloseOf(1),
                Open(Some("3"), None, Some(2), None),
                CloseOf(1),
                Close,
                Post(1),
                Throw,
                Say("1"),
            ],
            &[Say("4")],
            &[CloseOf(1), Say("5")],
        ],
        "refused open TypeError\nrefused close InvalidStateError\nrefused close InvalidStateError\nrefused close InvalidStateError\nthrow\nsay 4\nopen 1 upgrade 0 3 tx 1\ntx 1 complete\nopen 1 success 3\nsay 5\norder a1.1 e1 s1 f1 e1 x1.1\n",
    ),
    // Transactions: each name of a scope counts once; the refusals; a body that aborts; the blocks at the end run at once, with `error`
    // where there is one.
    (
        &[
            &[Open(None, Some(1), Some(2), None)],
            &[Make("s")],
            &[
                Transaction(&["s", "s"], 3, Some(4), None),
                Transaction(&["s", "t"], 3, Some(4), None),
                Transaction(&[], 3, None, None),
                Transaction(&["s"], 5, None, Some(6)),
            ],
            &[Say("1")],
            &[Say("2")],
            &[Abort, Say("3")],
            &[Say("{\"$var\":\"error\"}")],
        ],
        "open 1 upgrade 0 1 tx 1\ntx 1 complete\nopen 1 success 1\ntx 2 create readwrite relaxed\nsay 1\nrefused transaction NotFoundError\nrefused transaction InvalidAccessError\ntx 3 create readwrite relaxed\nsay 3\ntx 2 complete\nsay 2\ntx 3 abort null\nsay {\"$undefined\":null}\norder a1.1 e1 s1 f1 e1 t2.1 t3.1 s2 f2 f3\n",
    ),
    // Posts of a repetition stand in their order, each with its own `turn`.
    (
        &[
            &[Repeat(3, 1), Say("{\"$var\":\"turn\"}")],
            &[Post(2)],
            &[Say("{\"$var\":\"turn\"}")],
        ],
        "say {\"$undefined\":null}\nsay 0\nsay 1\nsay 2\norder\n",
    ),
];

fn expr(rt: &impl process::Abort, alloc: Global, text: &str) -> Expr {
    let document = Json::from_str(alloc, text).expect(rt, "a document");
    match expr_from_json(alloc, &document) {
        Ok(expr) => expr,
        Err(_) => panic!(rt; "no expression"),
    }
}

fn text(rt: &impl process::Abort, alloc: Global, s: &str) -> Text {
    assert!(rt; s.len() <= GREATEST_LENGTH);
    Text::copy_of(alloc, s).expect(rt, "memory")
}

fn texts(rt: &impl process::Abort, alloc: Global, names: &[&'static str]) -> Texts {
    let mut list = Vec::new(alloc);
    for name in names {
        list.push(text(rt, alloc, name)).expect(rt, "memory");
    }
    assert!(rt; list.len() <= GREATEST_LENGTH);
    Texts::from_vec(list)
}

fn statement(rt: &impl process::Abort, alloc: Global, row: &Row) -> Stmt {
    match row {
        Row::Open(version, upgrade, success, version_change) => Stmt::Open {
            db: text(rt, alloc, "d"),
            version: match version {
                Some(version) => Some(expr(rt, alloc, version)),
                None => None,
            },
            upgrade: *upgrade,
            blocked: None,
            success: *success,
            error: None,
            version_change: *version_change,
            closed: None,
        },
        Row::Delete(success) => Stmt::DeleteDatabase {
            db: text(rt, alloc, "d"),
            blocked: None,
            success: *success,
            error: None,
        },
        Row::Close => Stmt::Close { conn: None },
        Row::CloseOf(request) => Stmt::Close {
            conn: Some(*request),
        },
        Row::Transaction(names, body, complete, abort) => Stmt::Transaction {
            conn: None,
            scope: texts(rt, alloc, names),
            mode: Mode::ReadWrite,
            durability: None,
            body: *body,
            complete: *complete,
            abort: *abort,
        },
        Row::Say(value) => Stmt::Say {
            value: expr(rt, alloc, value),
        },
        Row::Throw => Stmt::Throw,
        Row::Post(block) => Stmt::Post { block: *block },
        Row::Repeat(times, block) => Stmt::Repeat {
            times: *times,
            block: *block,
        },
        Row::Make(store) => Stmt::CreateObjectStore {
            store: text(rt, alloc, store),
            key_path: None,
            auto_increment: None,
        },
        Row::Abort => Stmt::Abort,
    }
}

fn script(rt: &impl process::Abort, alloc: Global, rows: &[&[Row]]) -> Arc<Client, Global> {
    let mut blocks = Listed::new(alloc);
    for block in rows {
        let mut body = Listed::new(alloc);
        for row in *block {
            body.push(statement(rt, alloc, row)).expect(rt, "memory");
        }
        blocks
            .push(Block {
                name: text(rt, alloc, "b"),
                body,
            })
            .expect(rt, "memory");
    }
    Arc::new(alloc, Client { blocks, main: 0 }).expect(rt, "memory")
}

/// The least unfinished transaction starts and commits, or finishes without starting.
fn end(
    rt: &impl process::Abort,
    alloc: Global,
    office: &mut Office,
    number: u64,
    notes: &mut Notes,
) {
    let done = match office.start(number) {
        Some(BegunBody::Scripted(tx)) => {
            let parts = tx.into_parts();
            let kept = match parts.mode {
                Mode::VersionChange => Some(
                    parts.front.left_schema().copy(alloc).expect(rt, "memory"),
                ),
                _ => None,
            };
            office
                .finish(alloc, number, Outcome::Committed, kept, notes)
                .expect(rt, "memory")
        }
        Some(BegunBody::Deletion(_name)) => office
            .finish(alloc, number, Outcome::Committed, None, notes)
            .expect(rt, "memory"),
        None => match office.take_unstarted(number) {
            Some(tx) => {
                let (kind, body) = tx.into_parts();
                let error = match body {
                    Some(BegunBody::Scripted(tx)) => {
                        let parts = tx.into_parts();
                        if parts.threw {
                            Some(ErrorName::AbortError)
                        } else {
                            None
                        }
                    }
                    Some(BegunBody::Deletion(_name)) => None,
                    None => None,
                };
                let outcome = Outcome::Aborted {
                    error,
                    doubt: false,
                };
                let from = notes.len();
                office
                    .finish_unstarted(alloc, kind, number, outcome, notes, from)
                    .expect(rt, "memory")
            }
            None => false,
        },
    };
    assert!(rt; done);
}

/// Goes on until nothing is left to do.
fn drive(rt: &impl process::Abort, alloc: Global, office: &mut Office, notes: &mut Notes) {
    for _ in 0..100 {
        if office.run_task(alloc, notes).expect(rt, "memory") {
            continue;
        }
        match office.take_event(alloc, notes) {
            Ok(true) => continue,
            Ok(false) => {}
            Err(_) => panic!(rt; "no event"),
        }
        match office.desk().least() {
            Some(number) => end(rt, alloc, office, number, notes),
            None => return,
        }
    }
    panic!(rt; "no end")
}

/// The report of what was done.
fn report(rt: &impl process::Abort, alloc: Global, office: &Office, notes: Notes) -> Vec<u8> {
    let mut lines = Lines::new(alloc);
    for note in notes.into_vec() {
        if let Note::Line(line) = note {
            lines.push(line).expect(rt, "memory");
        }
    }
    let mut clients = ClientLines::new(alloc);
    clients.push(lines).expect(rt, "memory");
    let mut order = Tokens::new(alloc);
    for step in office.desk().steps() {
        order.push(step.token()).expect(rt, "memory");
    }
    let report = Report {
        session: 1,
        opening: Opening::new(alloc),
        clients,
        order,
        finish: Numbers::new(alloc),
        commits: Numbers::new(alloc),
        pending: PendingLines::new(alloc),
        end: ReportEnd::Flush,
    };
    report_text(alloc, &report).expect(rt, "memory")
}

fn put_text(rt: &impl process::Abort, out: &mut Vec<u8>, text: &str) {
    out.extend_from_slice(text.as_bytes()).expect(rt, "memory");
}

fn session(rt: &impl process::Abort, alloc: Global, out: &mut Vec<u8>, rows: &[&[Row]]) {
    seat_laws();
    let desk = Desk::new(alloc, Schemas::new(alloc)).expect(rt, "memory");
    let client = ScriptClient::new(alloc, 1, 0).expect(rt, "memory");
    let mut office = Office::new(desk, client, script(rt, alloc, rows));
    let mut notes = Notes::new(alloc);
    drive(rt, alloc, &mut office, &mut notes);
    out.extend_from_slice(report(rt, alloc, &office, notes).as_slice())
        .expect(rt, "memory");
}

#[test]
fn a_client_reports_what_the_rules_say(rt: HostRuntime) {
    let mut written = Vec::new(rt.alloc());
    let mut wanted = Vec::new(rt.alloc());
    for (rows, lines) in &SESSIONS {
        session(&rt, rt.alloc(), &mut written, rows);
        put_text(&rt, &mut wanted, "session 1\nopening\nclient 1\n");
        put_text(&rt, &mut wanted, lines);
        put_text(&rt, &mut wanted, "finish\ncommit\nend flush\n");
    }
    assert!(rt; written.as_slice() == wanted.as_slice());
}
