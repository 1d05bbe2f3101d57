// Rows of the standard's checks: the first cause wins, and what is taken is numbered (Indexed Database API 3.0, "The IDBObjectStore
// interface" and its neighbours).
use crate::list_steps::{Step, Val, call, text};
use clone_values::{Key, PathSpec, Texts};
use idb_calls::Target;
use idb_cursors::RowsShown;
use idb_keys::{Direction, ErrorName, Mode};
use idb_schema::{Schema, SchemaCall, StoreId, StoreInfos};
use index_tables::Row;
use request_lists::*;
use sorted_table::{FlatTable, OrderedTable, find_place};
use std::alloc::Global;
use std::fmt::Write;
use std::process::Abort;

// ---- what is written of an answer
fn say(answer: Result<(), ErrorName>, said: &mut String) {
    match answer {
        Ok(()) => {
            let _ = write!(said, "ok\n");
        }
        Err(name) => {
            let _ = write!(said, "{name}\n");
        }
    }
}

fn say_refusal(refusal: Refusal, said: &mut String) {
    match refusal {
        Refusal::Name(name) => {
            let _ = write!(said, "{name}\n");
        }
        Refusal::NoMemory => {
            let _ = write!(said, "no memory\n");
        }
    }
}

/// Places the request, and writes its number or why it is refused.
fn place(
    rt: &impl Abort,
    alloc: Global,
    front: &mut TxFront<u32>,
    ids: Target,
    step: Step,
    said: &mut String,
) {
    let call = call(rt, alloc, ids, step);
    match front.place(call, 7) {
        Ok(number) => {
            let _ = write!(said, "{number}\n");
        }
        Err(refused) => say_refusal(refused.refusal, said),
    }
}

fn change(front: &mut TxFront<u32>, call: SchemaCall, said: &mut String) {
    match front.schema(call) {
        Ok(()) => {
            let _ = write!(said, "ok\n");
        }
        Err(refusal) => say_refusal(refusal, said),
    }
}

/// The front of an upgrade of a new database.
fn new_upgrade(rt: &impl Abort, alloc: Global) -> TxFront<u32> {
    let name = text(rt, alloc, "d");
    let schema = Schema::new(alloc, name, 1, StoreInfos::new(alloc)).expect(rt, "memory");
    TxFront::new(alloc, Mode::VersionChange, schema, Texts::new(alloc))
}

fn path(rt: &impl Abort, alloc: Global, key_path: &'static str) -> Option<PathSpec> {
    if key_path.is_empty() {
        None
    } else {
        Some(PathSpec::One(text(rt, alloc, key_path)))
    }
}

fn create_store(
    rt: &impl Abort,
    alloc: Global,
    front: &mut TxFront<u32>,
    key_path: &'static str,
    auto: bool,
    said: &mut String,
) {
    let path = path(rt, alloc, key_path);
    let name = text(rt, alloc, "s");
    change(front, SchemaCall::CreateStore { name, path, auto }, said);
}

fn index_call(rt: &impl Abort, alloc: Global, store: StoreId) -> SchemaCall {
    let name = text(rt, alloc, "i");
    let path = PathSpec::One(text(rt, alloc, "e"));
    SchemaCall::CreateIndex {
        store,
        name,
        path,
        unique: false,
        multi: false,
    }
}

fn create_index(rt: &impl Abort, alloc: Global, front: &mut TxFront<u32>, said: &mut String) {
    if let Ok(store) = front.store(&text(rt, alloc, "s")) {
        change(front, index_call(rt, alloc, store), said);
    }
}

/// The schema with one store s, of this key path and with a generator where auto says so, and its index i.
fn schema(rt: &impl Abort, alloc: Global, key_path: &'static str, auto: bool) -> Schema {
    let mut front = new_upgrade(rt, alloc);
    let mut said = String::new(alloc);
    create_store(rt, alloc, &mut front, key_path, auto, &mut said);
    create_index(rt, alloc, &mut front, &mut said);
    front.left_schema().copy(alloc).expect(rt, "memory")
}

fn scope(rt: &impl Abort, alloc: Global) -> Texts {
    let mut names = Texts::new(alloc);
    names.push(text(rt, alloc, "s")).expect(rt, "memory");
    names
}

fn new_front(
    rt: &impl Abort,
    alloc: Global,
    mode: Mode,
    key_path: &'static str,
    auto: bool,
) -> TxFront<u32> {
    let schema = schema(rt, alloc, key_path, auto);
    let names = scope(rt, alloc);
    TxFront::new(alloc, mode, schema, names)
}

/// What the steps go to: the store s.
fn target(rt: &impl Abort, alloc: Global, front: &TxFront<u32>) -> Target {
    match front.store(&text(rt, alloc, "s")) {
        Ok(store) => Target { store, index: None },
        Err(_) => panic!(rt; "no store"),
    }
}

/// The rows (1, 1), (1, 2), (2, 3).
fn three(rt: &impl Abort, alloc: Global) -> FlatTable<Row, ()> {
    let mut table = FlatTable::new(alloc);
    for (key, primary) in [(1, 1), (1, 2), (2, 3)] {
        let row = Row {
            key: Key::Number(key),
            primary: Key::Number(primary),
        };
        if let Err(place) = find_place(&table, &row) {
            table.reserve(1).expect(rt, "memory");
            table.insert_at(place, row, ());
        }
    }
    table
}

/// Runs one turn of the cursor over these rows, and writes the place of what it got.
fn turn(rt: &impl Abort, alloc: Global, front: &mut TxFront<u32>, number: u32, said: &mut String) {
    let table = three(rt, alloc);
    let rows = RowsShown { table: &table };
    match front
        .turn_cursor(number, &rows, None, None, 1)
        .expect(rt, "memory")
    {
        Some(place) => {
            let _ = write!(said, "at {place}\n");
        }
        None => {
            let _ = write!(said, "none\n");
        }
    }
}

/// Takes the first entry, and writes it; the handler of a cursor is lent and comes back.
fn take(front: &mut TxFront<u32>, said: &mut String) {
    match front.take_first() {
        Some(
            ListEntry::Request {
                request,
                handler,
                ..
            },
        ) => {
            let _ = write!(said, "request {request} {handler}\n");
        }
        Some(ListEntry::Turn { cursor, .. }) => {
            let lent = front.lend_handler(cursor).is_some();
            let again = front.lend_handler(cursor).is_some();
            let _ = write!(said, "turn {cursor} {lent} {again}\n");
            front.return_handler(cursor, 9);
        }
        Some(ListEntry::Change { .. }) => {
            let _ = write!(said, "change\n");
        }
        None => {
            let _ = write!(said, "no entry\n");
        }
    }
}

/// What a test does to its front.
#[derive(Clone, Copy)]
enum Act {
    Place(Step),
    Store(&'static str),
    Index(&'static str),
    /// The requests behind it read the index i.
    OverIndex,
    DropStore,
    DropIndex(&'static str),
    Commit,
    Abort,
    Rest,
    Threw,
    Turn(u32),
    Take,
    Wake,
    End,
}

fn say_store(
    rt: &impl Abort,
    alloc: Global,
    front: &TxFront<u32>,
    name: &'static str,
    said: &mut String,
) {
    let answer = front.store(&text(rt, alloc, name)).map(|_| ());
    say(answer, said);
}

fn say_index(
    rt: &impl Abort,
    alloc: Global,
    front: &TxFront<u32>,
    store: StoreId,
    name: &'static str,
    said: &mut String,
) {
    let answer = front.index(store, &text(rt, alloc, name)).map(|_| ());
    say(answer, said);
}

fn over_index(rt: &impl Abort, alloc: Global, front: &TxFront<u32>, ids: &mut Target) {
    ids.index = front.index(ids.store, &text(rt, alloc, "i")).ok();
}

fn drop_store(rt: &impl Abort, alloc: Global, front: &mut TxFront<u32>, said: &mut String) {
    let name = text(rt, alloc, "s");
    change(front, SchemaCall::DropStore { name }, said);
}

fn drop_index(
    rt: &impl Abort,
    alloc: Global,
    front: &mut TxFront<u32>,
    store: StoreId,
    name: &'static str,
    said: &mut String,
) {
    let name = text(rt, alloc, name);
    change(front, SchemaCall::DropIndex { store, name }, said);
}

/// An act that wants memory, or another one.
fn perform(
    rt: &impl Abort,
    alloc: Global,
    front: &mut TxFront<u32>,
    ids: &mut Target,
    act: Act,
    said: &mut String,
) {
    match act {
        Act::Place(step) => place(rt, alloc, front, *ids, step, said),
        Act::Store(name) => say_store(rt, alloc, front, name, said),
        Act::Index(name) => say_index(rt, alloc, front, ids.store, name, said),
        Act::OverIndex => over_index(rt, alloc, front, ids),
        Act::DropStore => drop_store(rt, alloc, front, said),
        Act::DropIndex(name) => drop_index(rt, alloc, front, ids.store, name, said),
        Act::Turn(number) => turn(rt, alloc, front, number, said),
        _ => follow(front, act, said),
    }
}

/// An act that wants no memory.
fn follow(front: &mut TxFront<u32>, act: Act, said: &mut String) {
    match act {
        Act::Commit => say(front.commit(), said),
        Act::Abort => say(front.abort(), said),
        Act::Rest => front.rest(),
        Act::Threw => front.threw(),
        Act::Take => take(front, said),
        Act::Wake => front.wake(),
        Act::End => front.end_as(Phase::Committed),
        _ => {
            let _ = write!(said, "no act\n");
        }
    }
}

/// A front of this mode over a store of this key path, with a generator where it says so, and what is done to it.
type Case = (Mode, &'static str, bool, &'static [Act]);

/// What the front of the case answers.
fn run(rt: &impl Abort, alloc: Global, case: Case, said: &mut String) {
    let (mode, key_path, auto, acts) = case;
    let mut front = new_front(rt, alloc, mode, key_path, auto);
    let mut ids = target(rt, alloc, &front);
    for act in acts {
        perform(rt, alloc, &mut front, &mut ids, *act, said);
    }
}

/// What the fronts of these cases answer, one behind the other.
fn answers(rt: &impl Abort, alloc: Global, cases: &[Case]) -> String {
    let mut said = String::new(alloc);
    for case in cases {
        run(rt, alloc, *case, &mut said);
    }
    said
}

const IN_READ_WRITE: [Act; 11] = [
    Act::Place(Step::Add(Val::Int(5), Some(Val::Int(1)))),
    Act::Place(Step::Put(Val::Int(5), Some(Val::Int(1)))),
    Act::Place(Step::Get(Some(Val::Int(1)))),
    Act::Place(Step::GetKey(Some(Val::Int(1)))),
    Act::Place(Step::Count(None)),
    Act::Place(Step::All(Some(Val::Null), None)),
    Act::Place(Step::AllKeys(None, Some(4_294_967_295))),
    Act::Place(Step::Delete(Some(Val::Int(1)))),
    Act::Place(Step::Clear),
    Act::Place(Step::Open(None, Direction::Next)),
    Act::Place(Step::OpenKeys(None, Direction::Prev)),
];

const IN_READ_ONLY: [Act; 12] = [
    Act::Place(Step::Put(Val::Int(5), Some(Val::Int(1)))),
    Act::Place(Step::Add(Val::Function, Some(Val::Null))),
    Act::Place(Step::Delete(None)),
    Act::Place(Step::Clear),
    Act::Place(Step::Get(Some(Val::Null))),
    Act::Place(Step::Get(None)),
    Act::Place(Step::GetKey(Some(Val::Undefined))),
    Act::Place(Step::Count(Some(Val::Function))),
    Act::Place(Step::All(Some(Val::Function), Some(-1))),
    Act::Place(Step::AllKeys(None, Some(4_294_967_296))),
    Act::Place(Step::Open(Some(Val::Function), Direction::Next)),
    Act::Place(Step::Continue(1, None)),
];

const CAUSES: [Case; 2] = [
    (Mode::ReadWrite, "", false, &IN_READ_WRITE),
    (Mode::ReadOnly, "", false, &IN_READ_ONLY),
];

/// Each request once; in a read-only front writing is refused before key and value are looked at, reading by its query and its count.
#[test]
fn the_first_cause_wins(rt: HostRuntime) {
    let said = answers(&rt, rt.alloc(), &CAUSES);
    assert_eq!(rt;
        said.as_str(),
        "1\n2\n3\n4\n5\n6\n7\n8\n9\n10\n11\nReadOnlyError\nReadOnlyError\nReadOnlyError\nReadOnlyError\nDataError\nDataError\nDataError\nDataError\nTypeError\nTypeError\nDataError\nInvalidStateError\n"
    );
}

const GIVEN_KEYS: [Act; 3] = [
    Act::Place(Step::Put(Val::Int(5), None)),
    Act::Place(Step::Put(Val::Function, Some(Val::Null))),
    Act::Place(Step::Put(Val::Function, Some(Val::Int(1)))),
];

const GENERATED_KEYS: [Act; 2] = [
    Act::Place(Step::Put(Val::Int(5), None)),
    Act::Place(Step::Put(Val::Function, None)),
];

const KEYS_AT_K: [Act; 3] = [
    Act::Place(Step::Put(Val::K(1), Some(Val::Int(1)))),
    Act::Place(Step::Put(Val::A(1), None)),
    Act::Place(Step::Put(Val::K(1), None)),
];

const KEYS_AT_A_B: [Act; 2] = [
    Act::Place(Step::Put(Val::A(3), None)),
    Act::Place(Step::Put(Val::K(3), None)),
];

const KEYS_AT_LENGTH: [Act; 1] = [Act::Place(Step::Put(Val::One, None))];

const KEYS: [Case; 5] = [
    (Mode::ReadWrite, "", false, &GIVEN_KEYS),
    (Mode::ReadWrite, "", true, &GENERATED_KEYS),
    (Mode::ReadWrite, "k", false, &KEYS_AT_K),
    (Mode::ReadWrite, "a.b", true, &KEYS_AT_A_B),
    (Mode::ReadWrite, "length.x", true, &KEYS_AT_LENGTH),
];

/// Keys given and keys in the value, and what a generator can inject (Indexed Database API 3.0, "add or put").
#[test]
fn keys_are_asked_for_before_values(rt: HostRuntime) {
    let said = answers(&rt, rt.alloc(), &KEYS);
    assert_eq!(rt;
        said.as_str(),
        "DataError\nDataError\nDataCloneError\n1\nDataCloneError\nDataError\nDataError\n1\nDataError\n1\nDataError\n"
    );
}

const AFTER_COMMIT: [Act; 3] = [
    Act::Commit,
    Act::Place(Step::Put(Val::Int(5), Some(Val::Int(1)))),
    Act::Abort,
];

const AFTER_REST: [Act; 9] = [
    Act::Rest,
    Act::Place(Step::Put(Val::Int(5), Some(Val::Int(1)))),
    Act::Commit,
    Act::Index("i"),
    Act::Index("j"),
    Act::Store("t"),
    Act::Abort,
    Act::Store("s"),
    Act::Abort,
];

const AFTER_THROW: [Act; 3] = [
    Act::Threw,
    Act::Place(Step::Put(Val::Int(5), Some(Val::Int(1)))),
    Act::Index("i"),
];

const PHASES: [Case; 3] = [
    (Mode::ReadWrite, "", false, &AFTER_COMMIT),
    (Mode::ReadWrite, "", false, &AFTER_REST),
    (Mode::VersionChange, "", false, &AFTER_THROW),
];

/// After `commit` nothing is placed and nothing aborts; after `abort` no store is found; a script that threw aborts an upgrade alone.
#[test]
fn phases_follow_the_calls(rt: HostRuntime) {
    let said = answers(&rt, rt.alloc(), &PHASES);
    assert_eq!(rt;
        said.as_str(),
        "ok\nTransactionInactiveError\nInvalidStateError\nTransactionInactiveError\nInvalidStateError\nok\nNotFoundError\nNotFoundError\nok\nInvalidStateError\nInvalidStateError\nTransactionInactiveError\nInvalidStateError\n"
    );
}

const IN_AN_UPGRADE: [Act; 9] = [
    Act::DropIndex("j"),
    Act::DropIndex("i"),
    Act::DropStore,
    Act::DropIndex("i"),
    Act::Store("s"),
    Act::Index("i"),
    Act::Place(Step::Get(Some(Val::Int(1)))),
    Act::Rest,
    Act::DropStore,
];

const IN_NO_UPGRADE: [Act; 1] = [Act::DropStore];

const UPGRADES: [Case; 2] = [
    (Mode::VersionChange, "", false, &IN_AN_UPGRADE),
    (Mode::ReadWrite, "", false, &IN_NO_UPGRADE),
];

/// The calls of an upgrade change the schema at once, and only an upgrade makes them.
#[test]
fn upgrades_change_the_schema_at_once(rt: HostRuntime) {
    let said = answers(&rt, rt.alloc(), &UPGRADES);
    assert_eq!(rt;
        said.as_str(),
        "NotFoundError\nok\nok\nInvalidStateError\nNotFoundError\nInvalidStateError\nInvalidStateError\nTransactionInactiveError\nInvalidStateError\n"
    );
}

const OF_CURSORS: [Act; 26] = [
    Act::OverIndex,
    Act::Place(Step::Open(None, Direction::Next)),
    Act::Place(Step::Continue(1, None)),
    Act::Place(Step::OpenKeys(None, Direction::NextUnique)),
    Act::Turn(1),
    Act::Turn(2),
    Act::Place(Step::Continue(1, Some(Val::Int(1)))),
    Act::Place(Step::Continue(1, Some(Val::Null))),
    Act::Place(Step::ContinuePrimary(1, Val::Int(1), Val::Int(1))),
    Act::Place(Step::ContinuePrimary(1, Val::Null, Val::Int(2))),
    Act::Place(Step::ContinuePrimary(2, Val::Null, Val::Int(2))),
    Act::Place(Step::Advance(1, 0)),
    Act::Place(Step::Update(1, Val::Function)),
    Act::Place(Step::Update(2, Val::Function)),
    Act::Place(Step::DeleteHere(1)),
    Act::Place(Step::Update(1, Val::Int(5))),
    Act::Place(Step::ContinuePrimary(1, Val::Int(1), Val::Int(2))),
    Act::Place(Step::Continue(1, None)),
    Act::Place(Step::Advance(1, 1)),
    Act::Place(Step::DeleteHere(1)),
    Act::Place(Step::Advance(2, 4_294_967_295)),
    Act::Turn(1),
    Act::Turn(2),
    Act::Turn(2),
    Act::Place(Step::Continue(1, Some(Val::Int(2)))),
    Act::Place(Step::Continue(2, None)),
];

const CURSORS: [Case; 1] = [(Mode::ReadWrite, "", false, &OF_CURSORS)];

/// The causes of the calls of a cursor over an index, in the standard's order; a continuation has its own number (Indexed Database API
/// 3.0, "The IDBCursor interface").
#[test]
fn cursors_go_on_from_what_they_got(rt: HostRuntime) {
    let said = answers(&rt, rt.alloc(), &CURSORS);
    assert_eq!(rt;
        said.as_str(),
        "1\nInvalidStateError\n2\nat 0\nat 0\nDataError\nDataError\nDataError\nDataError\nInvalidAccessError\nTypeError\nDataCloneError\nInvalidStateError\n3\n4\n1\nInvalidStateError\nInvalidStateError\nInvalidStateError\n2\nat 1\nat 2\nnone\n1\nInvalidStateError\n"
    );
}

const OF_ENTRIES: [Act; 21] = [
    Act::Place(Step::Clear),
    Act::Place(Step::Open(None, Direction::Next)),
    Act::Place(Step::Put(Val::K(1), None)),
    Act::Turn(2),
    Act::Place(Step::Update(2, Val::K(2))),
    Act::Place(Step::Update(2, Val::A(1))),
    Act::Place(Step::Update(2, Val::K(1))),
    Act::Place(Step::ContinuePrimary(2, Val::Int(2), Val::Int(2))),
    Act::Place(Step::Advance(2, 2)),
    Act::Rest,
    Act::Take,
    Act::Take,
    Act::Take,
    Act::Take,
    Act::Take,
    Act::Take,
    Act::Place(Step::Clear),
    Act::Wake,
    Act::Place(Step::Clear),
    Act::End,
    Act::Abort,
];

const ENTRIES: [Case; 1] = [(Mode::ReadWrite, "k", false, &OF_ENTRIES)];

/// The entries come off the list as they were placed, and a cursor's handler is lent and comes back.
#[test]
fn entries_leave_in_order(rt: HostRuntime) {
    let said = answers(&rt, rt.alloc(), &ENTRIES);
    assert_eq!(rt;
        said.as_str(),
        "1\n2\n3\nat 0\nDataError\nDataError\n4\nInvalidAccessError\n2\nrequest 1 7\nturn 2 true false\nrequest 3 7\nrequest 4 7\nturn 2 true false\nno entry\nTransactionInactiveError\n5\nInvalidStateError\n"
    );
}
