// Upgrades of a database that isn't there, each run to its end.
ghost use Rattle.std.specs.Prelude.{◌≡◌, true, false, None, is_some};
ghost use Rattle.item_changes.specs.Scopes.{part_of};
ghost use Rattle.serial_order.specs.NumberOrder.{FitsWhole};
ghost use Rattle.session_txs.specs.Running.{scope_of_scripted, IsLoggableBody};

use client_parts::{BegunParts, BegunTx};
use clone_values::{Text, Texts};
use edge_traits::OpenGate;
use idb_base::{GREATEST_LENGTH, Listed};
use idb_calls::Outcome;
use idb_keys::{Durability, Mode};
use idb_schema::{Schema, StoreInfos};
use index_tables::FlatTables;
use list_machine::Step;
use request_lists::TxFront;
use script_exprs::{Expr, expr_from_json};
use script_handlers::run_body;
use script_runs::{Env, Notes, RunEnd};
use script_statements::{Block, Client, Stmt};
use serde_json::Value as Json;
use session_databases::SessionDatabases;
use session_txs::*;
use std::alloc::Global;
use std::fmt::Write;
use std::process;
use std::sync::Arc;

/// A statement of the body of an upgrade.
#[derive(Clone, Copy)]
enum Row {
    /// Makes the store "s".
    Make,
    /// Adds a record of this key to it.
    Add(&'static str),
    Abort,
}

use Row::{Abort, Add, Make};

/// The body of an upgrade to version 1, and what is said of it: that it may write, its turns and how it ended, how many lines were
/// written, how many stores the schema has that it keeps, and the version that the database then has.
const UPGRADES: [(&[Row], &str); 4] = [
    (&[], "writer committed 0 keeps 0 at 1"),
    (&[Make, Add("1")], "writer did did committed 1 keeps 1 at 1"),
    // The second record of a key is an error, which aborts it: there is no database then.
    (&[Make, Add("1"), Add("1")], "writer did did aborted 2"),
    // The body aborts it.
    (&[Make, Add("1"), Abort], "cancelled 1"),
];

fn expr(rt: &impl process::Abort, alloc: Global, text: &str) -> Expr {
    let document = Json::from_str(alloc, text).expect(rt, "a document");
    match expr_from_json(alloc, &document) {
        Ok(expr) => expr,
        Err(_) => panic!(rt; "no expression"),
    }
}

fn text(rt: &impl process::Abort, alloc: Global, s: &str) -> Text {
    assert!(rt; s.len() <= GREATEST_LENGTH);
    Text::copy_of(alloc, s).expect(rt, "memory")
}

fn statement(rt: &impl process::Abort, alloc: Global, row: &Row) -> Stmt {
    match row {
        Row::Make => Stmt::CreateObjectStore {
            store: text(rt, alloc, "s"),
            key_path: None,
            auto_increment: None,
        },
        Row::Add(key) => Stmt::Add {
            store: text(rt, alloc, "s"),
            value: expr(rt, alloc, "0"),
            key: Some(expr(rt, alloc, key)),
            success: None,
            error: None,
        },
        Row::Abort => Stmt::Abort,
    }
}

fn client(rt: &impl process::Abort, alloc: Global, rows: &[Row]) -> Arc<Client, Global> {
    let mut body = Listed::new(alloc);
    for row in rows {
        body.push(statement(rt, alloc, row)).expect(rt, "memory");
    }
    let mut blocks = Listed::new(alloc);
    blocks
        .push(Block {
            name: text(rt, alloc, "main"),
            body,
        })
        .expect(rt, "memory");
    Arc::new(alloc, Client { blocks, main: 0 }).expect(rt, "memory")
}

/// An upgrade to version 1 of a database that isn't there, whose body has these statements.
fn begun(rt: &impl process::Abort, alloc: Global, rows: &[Row], notes: &mut Notes) -> BegunTx
    ensures fits { FitsWhole None result.body }
    ensures loggable { IsLoggableBody result.body }
{
    let mode = Mode::VersionChange;
    let stores = StoreInfos::new(alloc);
    let schema = Schema::new(alloc, text(rt, alloc, "d"), 1, stores).expect(rt, "memory");
    let names = Texts::new(alloc);
    let mut front = TxFront::new(
        alloc,
        mode,
        schema.copy(alloc).expect(rt, "memory"),
        names.copy(alloc).expect(rt, "memory"),
    );
    let end = run_body(
        alloc,
        &client(rt, alloc, rows),
        1,
        0,
        &Env::new(alloc),
        &mut front,
        notes,
    )
    .expect(rt, "memory");
    let tx = BegunTx::new(BegunParts {
        mode,
        durability: Durability::Relaxed,
        schema,
        names,
        front,
        threw: matches!(end, RunEnd::Threw),
    });
    tx
}

/// One turn; whether it goes on.
fn turn(
    rt: &impl process::Abort,
    tx: &mut SessionTx<FlatTables>,
    notes: &mut Notes,
    said: &mut String,
) -> bool
    requires { tx.old.end ≡ None }
    ensures on { result ≡ true → tx.new.end ≡ None }
    ensures over { result ≡ false → is_some tx.new.end ≡ true }
{
    match tx.step(&OpenGate, 1, 1, notes) {
        Step::Did => {
            let _ = write!(said, "did ");
            true
        }
        Step::Idle => {
            let _ = write!(said, "committed ");
            false
        }
        Step::Aborted { .. } => {
            let _ = write!(said, "aborted ");
            false
        }
        Step::NoMemory => panic!(rt; "no memory"),
    }
}

/// Turns until it is at its end.
fn turns(
    rt: &impl process::Abort,
    tx: &mut SessionTx<FlatTables>,
    notes: &mut Notes,
    said: &mut String,
)
    requires { tx.old.end ≡ None }
    ensures { is_some tx.new.end ≡ true }
{
    for _turn in 0..5 {
        if !turn(rt, tx, notes, said) {
            return;
        }
    }
    panic!(rt; "no end")
}

/// Runs an upgrade to its end on databases that it fits.
fn run(
    rt: &impl process::Abort,
    alloc: Global,
    databases: &mut SessionDatabases<FlatTables>,
    begun: BegunTx,
    notes: &mut Notes,
    said: &mut String,
)
    requires fits { FitsWhole (part_of (scope_of_scripted begun.body) databases.old) begun.body }
    requires loggable { IsLoggableBody begun.body }
{
    let mut tx = begin(alloc, databases, 1, begun).expect(rt, "memory");
    if tx.may_write() {
        let _ = write!(said, "writer ");
    }
    turns(rt, &mut tx, notes, said);
    let _ = write!(said, "{}", notes.len());
    let TxEnd { kept, left, .. } = tx.close(alloc);
    left.keep(databases).expect(rt, "memory");
    if let Some(schema) = kept {
        let _ = write!(said, " keeps {}", schema.len());
    }
}

/// An upgrade with these statements runs on databases of its own; then its database is deleted.
fn upgrade(rt: &impl process::Abort, alloc: Global, rows: &[Row], said: &mut String) {
    let mut databases = SessionDatabases::new(alloc);
    let mut notes = Notes::new(alloc);
    let begun = begun(rt, alloc, rows, &mut notes);
    if begun.may_begin() {
        run(rt, alloc, &mut databases, begun, &mut notes, said);
    } else {
        let trace = end_begun(alloc, 1, begun, &mut notes).expect(rt, "memory");
        if let Outcome::Aborted { .. } = trace.outcome {
            let _ = write!(said, "cancelled {}", notes.len());
        }
    }
    let name = text(rt, alloc, "d");
    if let Some(version) = databases.version(&name) {
        let _ = write!(said, " at {version}");
    }
    delete_database(alloc, &mut databases, &name).expect(rt, "memory");
    if let Some(version) = databases.version(&name) {
        let _ = write!(said, " still at {version}");
    }
}

#[test]
fn upgrades_keep_what_they_committed_alone(rt: HostRuntime) {
    let mut said = String::new(rt.alloc());
    let mut wanted = String::new(rt.alloc());
    for (rows, line) in UPGRADES {
        upgrade(&rt, rt.alloc(), rows, &mut said);
        said.push_str("\n").expect(&rt, "memory");
        wanted.push_str(line).expect(&rt, "memory");
        wanted.push_str("\n").expect(&rt, "memory");
    }
    assert_eq!(rt; said.as_str(), wanted.as_str());
}
