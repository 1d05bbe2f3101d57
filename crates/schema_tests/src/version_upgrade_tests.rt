// Each pair of causes together, of which the standard's first wins (Indexed Database API 3.0, "createObjectStore", "deleteObjectStore",
// "createIndex" and "deleteIndex"), and the schema that calls leave.
use clone_values::{PathSpec, Text, Texts};
use idb_base::GREATEST_LENGTH;
use idb_schema::{Schema, SchemaCall, StoreId, StoreInfos};
use std::alloc::Global;
use std::fmt::Write;
use std::process::Abort;
use version_upgrade::*;

/// What a key path is read from.
#[derive(Clone, Copy)]
enum Path {
    Absent,
    Empty,
    Plain,
    /// No path of the grammar.
    Wrong,
    List,
    /// A list without a string, which the grammar lacks.
    NoList,
}

/// One call; a store and an index are named "s" and "i" where they stand, and else "new".
#[derive(Clone, Copy)]
enum Step {
    CreateStore(bool, Path, bool),
    DropStore(bool),
    CreateIndex(bool, Path, bool),
    DropIndex(bool),
}

fn string(path: Path) -> &'static str {
    match path {
        Path::Plain => "a.b",
        Path::Wrong => "a..b",
        _ => "",
    }
}

fn text(rt: &impl Abort, alloc: Global, s: &str) -> Text {
    assert!(rt; s.len() <= GREATEST_LENGTH);
    Text::copy_of(alloc, s).expect(rt, "memory")
}

/// The list of the string "a".
fn list(rt: &impl Abort, alloc: Global) -> PathSpec {
    let mut strings = Vec::new(alloc);
    strings.push(text(rt, alloc, "a")).expect(rt, "memory");
    PathSpec::Many(Texts::from_vec(strings))
}

fn spec(rt: &impl Abort, alloc: Global, path: Path) -> PathSpec {
    match path {
        Path::List => list(rt, alloc),
        Path::NoList => PathSpec::Many(Texts::new(alloc)),
        other => PathSpec::One(text(rt, alloc, string(other))),
    }
}

fn optional(rt: &impl Abort, alloc: Global, path: Path) -> Option<PathSpec> {
    match path {
        Path::Absent => None,
        other => Some(spec(rt, alloc, other)),
    }
}

fn store_name(rt: &impl Abort, alloc: Global, stands: bool) -> Text {
    Text::copy_of(alloc, if stands { "s" } else { "new" }).expect(rt, "memory")
}

fn index_name(rt: &impl Abort, alloc: Global, stands: bool) -> Text {
    Text::copy_of(alloc, if stands { "i" } else { "new" }).expect(rt, "memory")
}

fn create_store(
    rt: &impl Abort,
    alloc: Global,
    stands: bool,
    path: Path,
    auto: bool,
) -> SchemaCall {
    SchemaCall::CreateStore {
        name: store_name(rt, alloc, stands),
        path: optional(rt, alloc, path),
        auto,
    }
}

fn create_index(
    rt: &impl Abort,
    alloc: Global,
    store: StoreId,
    stands: bool,
    path: Path,
    multi: bool,
) -> SchemaCall {
    SchemaCall::CreateIndex {
        store,
        name: index_name(rt, alloc, stands),
        path: spec(rt, alloc, path),
        unique: true,
        multi,
    }
}

fn call(rt: &impl Abort, alloc: Global, store: StoreId, step: Step) -> SchemaCall {
    match step {
        Step::CreateStore(stands, path, auto) => create_store(rt, alloc, stands, path, auto),
        Step::DropStore(stands) => SchemaCall::DropStore {
            name: store_name(rt, alloc, stands),
        },
        Step::CreateIndex(stands, path, multi) => create_index(
            rt, alloc, store, stands, path, multi,
        ),
        Step::DropIndex(stands) => SchemaCall::DropIndex {
            store,
            name: index_name(rt, alloc, stands),
        },
    }
}

/// Makes the call if the schema takes it, and writes what the check says.
fn make(
    rt: &impl Abort,
    alloc: Global,
    schema: &mut Schema,
    store: StoreId,
    step: Step,
    said: &mut String,
) {
    let call = call(rt, alloc, store, step);
    match check_schema(schema, &call) {
        Ok(()) => {
            let _ = write!(said, "taken\n");
            apply_schema(alloc, schema, call).expect(rt, "memory");
        }
        Err(name) => {
            let _ = write!(said, "{name}\n");
        }
    }
}

/// The names of the stores, each with those of its indexes.
fn names(schema: &Schema, said: &mut String) {
    for place in 0..schema.len() {
        if let Some(info) = schema.store(place) {
            let _ = write!(said, "{}", info.name.as_str());
            for index in info.indexes.as_slice() {
                let _ = write!(said, ".{}", index.name.as_str());
            }
            let _ = write!(said, " ");
        }
    }
}

/// A schema with the store s.
fn with_store(rt: &impl Abort, alloc: Global) -> Schema {
    let name = text(rt, alloc, "db");
    let mut schema = Schema::new(alloc, name, 1, StoreInfos::new(alloc)).expect(rt, "memory");
    let create = create_store(rt, alloc, true, Path::Absent, false);
    if check_schema(&schema, &create).is_ok() {
        apply_schema(alloc, &mut schema, create).expect(rt, "memory");
    }
    schema
}

fn id_of_store(rt: &impl Abort, alloc: Global, schema: &Schema) -> StoreId {
    match schema.store_place(&store_name(rt, alloc, true)) {
        Some(place) => schema.store_id(place),
        None => panic!(rt; "no store"),
    }
}

/// A schema with the store s and its index i, and the id of s.
fn begun(rt: &impl Abort, alloc: Global) -> (Schema, StoreId) {
    let mut schema = with_store(rt, alloc);
    let id = id_of_store(rt, alloc, &schema);
    let mut said = String::new(alloc);
    let step = Step::CreateIndex(true, Path::Plain, false);
    make(rt, alloc, &mut schema, id, step, &mut said);
    (schema, id)
}

fn run(rt: &impl Abort, alloc: Global, steps: &[Step], said: &mut String) {
    let (mut schema, store) = begun(rt, alloc);
    for step in steps {
        make(rt, alloc, &mut schema, store, *step, said);
    }
    names(&schema, said);
}

const CAUSES: [Step; 19] = [
    Step::CreateStore(false, Path::Wrong, false),
    Step::CreateStore(false, Path::NoList, false),
    Step::CreateStore(true, Path::Plain, false),
    Step::CreateStore(false, Path::Empty, true),
    Step::CreateStore(false, Path::List, true),
    Step::CreateStore(true, Path::Wrong, false),
    Step::CreateStore(false, Path::Wrong, true),
    Step::CreateStore(false, Path::NoList, true),
    Step::CreateStore(true, Path::List, true),
    Step::CreateStore(true, Path::NoList, true),
    Step::DropStore(false),
    Step::CreateIndex(true, Path::Plain, true),
    Step::CreateIndex(false, Path::Wrong, false),
    Step::CreateIndex(false, Path::NoList, true),
    Step::CreateIndex(false, Path::List, true),
    Step::CreateIndex(true, Path::Wrong, false),
    Step::CreateIndex(true, Path::List, true),
    Step::CreateIndex(true, Path::NoList, true),
    Step::DropIndex(false),
];

/// Every cause alone and each pair of one call: the rule's order is path, name, generator for a store, and name, path, list for an
/// index. A refused call changes nothing.
#[test]
fn the_first_cause_wins(rt: HostRuntime) {
    let mut said = String::new(rt.alloc());
    run(&rt, rt.alloc(), &CAUSES, &mut said);
    assert_eq!(rt;
        said.as_str(),
        "SyntaxError\nSyntaxError\nConstraintError\nInvalidAccessError\nInvalidAccessError\nSyntaxError\nSyntaxError\nSyntaxError\nConstraintError\nSyntaxError\nNotFoundError\nConstraintError\nSyntaxError\nSyntaxError\nInvalidAccessError\nConstraintError\nConstraintError\nConstraintError\nNotFoundError\ns.i "
    );
}

const CALLS: [Step; 8] = [
    Step::CreateIndex(false, Path::List, false),
    Step::CreateStore(false, Path::Absent, true),
    Step::CreateStore(false, Path::Absent, true),
    Step::DropIndex(true),
    Step::DropIndex(true),
    Step::CreateIndex(true, Path::Empty, true),
    Step::DropStore(false),
    Step::CreateStore(false, Path::Plain, true),
];

#[test]
fn calls_take_effect_at_once(rt: HostRuntime) {
    let mut said = String::new(rt.alloc());
    run(&rt, rt.alloc(), &CALLS, &mut said);
    assert_eq!(rt;
        said.as_str(),
        "taken\ntaken\nConstraintError\ntaken\nNotFoundError\ntaken\ntaken\ntaken\nnew s.new.i "
    );
}
