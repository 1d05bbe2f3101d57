// Runs of small scripts in a world that refuses whatever acts on it.
ghost use Rattle.std.specs.Prelude.{◌≡◌, IfOk};

use clone_values::{Text, Texts, Value};
use idb_base::{GREATEST_LENGTH, Listed, NoMemory};
use idb_keys::ErrorName;
use report_lines::Line;
use script_exprs::{Expr, expr_from_json};
use script_runs::*;
use script_statements::{Block, Client, Stmt};
use serde_json::Value as Json;
use std::alloc::Global;
use std::process::Abort;
use value_json::push_value_text;

/// A world in which nothing can be done.
#[derive(Drop)]
struct Nowhere;

impl World for Nowhere {
    ghost use Rattle.std.specs.Prelude.{◌≡◌, List, [], ◌∷◌, Option, Some, refl};
    ghost use Rattle.idb_keys.specs.declared.names.ErrorName.TheVariants.{InvalidStateError};
    ghost use Rattle.script_runs.specs.declared.notes.Note.{Note};

    ghost Plain = { Unit {0} };

    ghost plain = { λ w. tt };

    ghost Out = { Note };

    ghost noted = { λ n. n };

    ghost shown = { λ n. n ∷ [] };

    ghost does = { λ blocks w env s outs after refusal. (outs ≡ []) × (refusal ≡ Some InvalidStateError) };

    ghost moves = { λ v w. Unit {0} };

    ghost shows = { λ n. refl };

    ghost stays = { λ w. tt };

    ghost onwards = { λ v w x a b. tt };

    fn act(
        &mut self,
        _alloc: Global,
        _client: &Client,
        _env: &Env,
        _statement: &Stmt,
        _notes: &mut Notes,
    ) -> Result<Option<ErrorName>, NoMemory> {
        Ok(Some(ErrorName::InvalidStateError))
    }
}

/// A statement; expressions are documents.
#[derive(Clone, Copy)]
enum Row {
    Say(&'static str),
    Let(&'static str, &'static str),
    Throw,
    Post(usize),
    Repeat(u64, usize),
    If(&'static str, Option<usize>, Option<usize>),
    Commit,
    Clear,
}

use Row::{Clear, Commit, If, Let, Post, Repeat, Say, Throw};

/// The blocks of each script; its first block is run.
const SCRIPTS: [&[&[Row]]; 13] = [
    // One statement after another; a variable that isn't set is Undefined.
    &[&[
        Say("1"),
        Say("{\"$var\":\"x\"}"),
        Let("x", "[2]"),
        Say("{\"$var\":\"x\"}"),
    ]],
    // What a statement asks of the world is refused, and the next one runs.
    &[&[Commit, Say("1"), Clear]],
    // Nothing runs behind a throw, in no block around it.
    &[
        &[Say("1"), Repeat(2, 1), Say("4")],
        &[Say("2"), Throw, Say("3")],
    ],
    // A block that is posted has the variables as they are then.
    &[&[Let("x", "1"), Post(1), Let("x", "2"), Post(2)]],
    // `turn` counts from 0, in the innermost repetition, and is then what it was.
    &[
        &[Repeat(2, 1), Say("{\"$var\":\"turn\"}")],
        &[Repeat(3, 2), Say("{\"$var\":\"turn\"}")],
        &[Say("{\"$var\":\"turn\"}")],
    ],
    &[
        &[
            Let("turn", "\"mine\""),
            Repeat(1, 1),
            Say("{\"$var\":\"turn\"}"),
        ],
        &[],
    ],
    // Blocks share the variables of their run.
    &[
        &[Let("x", "0"), Repeat(3, 1), Say("{\"$var\":\"x\"}")],
        &[Let("x", "{\"$plus\":[{\"$var\":\"x\"},2]}")],
    ],
    // `if` takes `then` where the test is true, and for nothing else.
    &[
        &[
            If("true", Some(1), Some(2)),
            If("false", Some(1), Some(2)),
            If("1", Some(1), Some(2)),
            If("{\"$same\":[1,1]}", Some(1), None),
            If("null", Some(1), None),
            If("true", None, Some(2)),
            Say("0"),
        ],
        &[Say("1")],
        &[Say("2")],
    ],
    // No rounds; a block that isn't there has no statements.
    &[&[Repeat(0, 1), Repeat(2, 7), Say("0")], &[Say("1")]],
    // 64 blocks stand in one another, and a deeper one throws.
    &[
        &[If("true", Some(1), None), Say("{\"$var\":\"n\"}")],
        &[
            Let("n", "{\"$plus\":[{\"$var\":\"n\"},1]}"),
            If("{\"$same\":[{\"$var\":\"n\"},63]}", None, Some(1)),
        ],
    ],
    &[
        &[If("true", Some(1), None), Say("{\"$var\":\"n\"}")],
        &[
            Let("n", "{\"$plus\":[{\"$var\":\"n\"},1]}"),
            If("{\"$same\":[{\"$var\":\"n\"},64]}", None, Some(1)),
        ],
    ],
    // A statement is counted each time: 1 and 99,999 are run, and the next throws.
    &[
        &[Repeat(99999, 1), Say("1")],
        &[Let("x", "{\"$var\":\"turn\"}")],
    ],
    &[
        &[Repeat(99998, 1), Say("{\"$var\":\"x\"}"), Say("9")],
        &[Let("x", "{\"$var\":\"turn\"}")],
    ],
];

/// What each writes.
const WRITTEN: [&str; 13] = [
    "say 1; say {\"$undefined\":null}; say [2]; ",
    "refused commit InvalidStateError; say 1; refused clear InvalidStateError; ",
    "say 1; say 2; throw; threw",
    "post 1 {\"x\":1}; post 2 {\"x\":2}; ",
    "say 0; say 1; say 2; say 0; say 0; say 1; say 2; say 1; say {\"$undefined\":null}; ",
    "say \"mine\"; ",
    "say 6; ",
    "say 1; say 2; say 2; say 1; say 0; ",
    "say 0; ",
    "say 63; ",
    "throw; threw",
    "throw; threw",
    "say 99997; throw; threw",
];

fn expr(rt: &impl Abort, alloc: Global, text: &str) -> Expr {
    let document = Json::from_str(alloc, text).expect(rt, "a document");
    match expr_from_json(alloc, &document) {
        Ok(expr) => expr,
        Err(_) => panic!(rt; "no expression"),
    }
}

fn text(rt: &impl Abort, alloc: Global, s: &str) -> Text {
    assert!(rt; s.len() <= GREATEST_LENGTH);
    Text::copy_of(alloc, s).expect(rt, "memory")
}

fn statement(rt: &impl Abort, alloc: Global, row: &Row) -> Stmt {
    match row {
        Row::Say(value) => Stmt::Say {
            value: expr(rt, alloc, value),
        },
        Row::Let(name, value) => Stmt::Let {
            name: text(rt, alloc, name),
            value: expr(rt, alloc, value),
        },
        Row::Throw => Stmt::Throw,
        Row::Post(block) => Stmt::Post { block: *block },
        Row::Repeat(times, block) => Stmt::Repeat {
            times: *times,
            block: *block,
        },
        Row::If(test, then, otherwise) => Stmt::If {
            test: expr(rt, alloc, test),
            then: *then,
            otherwise: *otherwise,
        },
        Row::Commit => Stmt::Commit,
        Row::Clear => Stmt::Clear {
            store: text(rt, alloc, "s"),
            success: None,
            error: None,
        },
    }
}

fn client(rt: &impl Abort, alloc: Global, script: &[&[Row]]) -> Client {
    let mut blocks = Listed::new(alloc);
    for rows in script {
        let mut body = Listed::new(alloc);
        for row in *rows {
            body.push(statement(rt, alloc, row)).expect(rt, "memory");
        }
        blocks
            .push(Block {
                name: text(rt, alloc, ""),
                body,
            })
            .expect(rt, "memory");
    }
    Client { blocks, main: 0 }
}

/// Writes a small number.
fn put_number(rt: &impl Abort, alloc: Global, out: &mut Vec<u8>, number: u64) {
    match i64::try_from(number) {
        Ok(number) => push_value_text(alloc, out, &Value::Int(number)).expect(rt, "memory"),
        Err(_) => panic!(rt; "large"),
    }
}

/// Writes a note.
fn show(rt: &impl Abort, alloc: Global, out: &mut Vec<u8>, note: &Note) {
    match note {
        Note::Line(Line::Say { value }) => {
            out.extend_from_slice(b"say ").expect(rt, "memory");
            push_value_text(alloc, out, value).expect(rt, "memory");
        }
        Note::Line(Line::Throw) => out.extend_from_slice(b"throw").expect(rt, "memory"),
        Note::Line(Line::Refused { op, error }) => {
            out.extend_from_slice(b"refused ").expect(rt, "memory");
            out.extend_from_slice(op.as_str().as_bytes())
                .expect(rt, "memory");
            out.push(b' ').expect(rt, "memory");
            out.extend_from_slice(error.name().as_bytes())
                .expect(rt, "memory");
        }
        Note::Line(_) => out.extend_from_slice(b"line").expect(rt, "memory"),
        Note::Posted(task) => {
            out.extend_from_slice(b"post ").expect(rt, "memory");
            put_number(rt, alloc, out, task.block as u64);
            out.push(b' ').expect(rt, "memory");
            push_value_text(
                alloc,
                out,
                &Value::Object(task.env.variables.clone().expect(rt, "memory")),
            )
            .expect(rt, "memory");
        }
    }
    out.extend_from_slice(b"; ").expect(rt, "memory");
}

/// Runs the first block of a script, and writes its notes.
fn run(rt: &impl Abort, alloc: Global, out: &mut Vec<u8>, script: &[&[Row]]) {
    let client = client(rt, alloc, script);
    let mut notes = Notes::new(alloc);
    let mut at = At {
        env: Env::new(alloc),
        count: 0,
    };
    let end = enter(
        alloc,
        &mut Nowhere,
        &client,
        0,
        client.main,
        &mut at,
        &mut notes,
    )
    .expect(rt, "memory");
    for note in notes.as_slice() {
        show(rt, alloc, out, note);
    }
    if let RunEnd::Threw = end {
        out.extend_from_slice(b"threw").expect(rt, "memory");
    }
    out.push(b'\n').expect(rt, "memory");
}

#[test]
fn scripts_write_what_the_rules_say(rt: HostRuntime) {
    let mut written = Vec::new(rt.alloc());
    let mut wanted = Vec::new(rt.alloc());
    for (place, script) in SCRIPTS.iter().enumerate() {
        run(&rt, rt.alloc(), &mut written, script);
        if let Some(text) = WRITTEN.get(place) {
            wanted
                .extend_from_slice(text.as_bytes())
                .expect(&rt, "memory");
        }
        wanted.push(b'\n').expect(&rt, "memory");
    }
    assert!(rt; written.as_slice() == wanted.as_slice());
}
