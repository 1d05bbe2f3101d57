// Each kind of change is kept as it was put in; lists of events and of steps copied, with memory at hand.
use clone_values::{Key, PathSpec, Text, Value};
use idb_calls::*;
use idb_keys::ErrorName;
use path_grammar::KeyPath;
use std::alloc::Global;
use std::fmt::Write;
use std::process::Abort;

fn path(rt: &impl Abort, alloc: Global) -> KeyPath {
    KeyPath::parse(PathSpec::One(Text::copy_of(alloc, "p").expect(rt, "memory"))).expect(
        rt, "a path",
    )
}

fn create_store(rt: &impl Abort, alloc: Global, db: Text, store: Text) -> Delta {
    Delta::CreateStore {
        db,
        store,
        path: Some(path(rt, alloc)),
        auto: true,
    }
}

fn create_index(rt: &impl Abort, alloc: Global, db: Text, store: Text) -> Delta {
    Delta::CreateIndex {
        db,
        store,
        index: Text::copy_of(alloc, "i").expect(rt, "memory"),
        path: path(rt, alloc),
        unique: true,
        multi: false,
    }
}

fn drop_index(rt: &impl Abort, alloc: Global, db: Text, store: Text) -> Delta {
    Delta::DropIndex {
        db,
        store,
        index: Text::copy_of(alloc, "i").expect(rt, "memory"),
    }
}

/// One change of each kind of change of definitions, of database d, store s and index i.
fn definition(rt: &impl Abort, alloc: Global, kind: usize, db: Text, store: Text) -> Delta {
    match kind {
        0 => Delta::Version { db, version: 2 },
        1 => Delta::DropDatabase { db },
        2 => create_store(rt, alloc, db, store),
        3 => Delta::DropStore { db, store },
        4 => create_index(rt, alloc, db, store),
        _ => drop_index(rt, alloc, db, store),
    }
}

/// One change of each kind of change of content, of database d and store s.
fn content(kind: usize, db: Text, store: Text) -> Delta {
    match kind {
        6 => Delta::Put {
            db,
            store,
            key: Key::Number(3),
            value: Value::Bool(true),
        },
        7 => Delta::Remove {
            db,
            store,
            key: Key::Date(4),
        },
        8 => Delta::Clear { db, store },
        _ => Delta::Current {
            db,
            store,
            current: 5,
        },
    }
}

/// One change of each kind.
fn delta(rt: &impl Abort, alloc: Global, kind: usize) -> Delta {
    let db = Text::copy_of(alloc, "d").expect(rt, "memory");
    let store = Text::copy_of(alloc, "s").expect(rt, "memory");
    if kind < 6 {
        definition(rt, alloc, kind, db, store)
    } else {
        content(kind, db, store)
    }
}

/// The path that was read from one string, or from a list of so many.
fn path_told(said: &mut String, path: &KeyPath) {
    let _ = match path.spec() {
        PathSpec::One(string) => write!(said, " {}", string.as_str()),
        PathSpec::Many(strings) => write!(said, " {}", strings.len()),
    };
}

fn store_told(said: &mut String, db: &Text, store: &Text) {
    let _ = write!(said, "{}.{}", db.as_str(), store.as_str());
}

fn index_told(said: &mut String, db: &Text, store: &Text, index: &Text) {
    store_told(said, db, store);
    let _ = write!(said, ".{}", index.as_str());
}

fn put_told(said: &mut String, key: &Key, value: &Value) {
    let _ = match (key, value) {
        (Key::Number(n), Value::Bool(b)) => write!(said, " puts {n} {b}"),
        _ => write!(said, " puts"),
    };
}

fn removal_told(said: &mut String, key: &Key) {
    let _ = match key {
        Key::Date(n) => write!(said, " loses {n}"),
        _ => write!(said, " loses"),
    };
}

/// What a change names: its database, store and index.
fn names_told(said: &mut String, delta: &Delta) {
    match delta {
        Delta::Version { db, .. } | Delta::DropDatabase { db } => {
            let _ = write!(said, "{}", db.as_str());
        }
        Delta::CreateStore { db, store, .. }
        | Delta::DropStore { db, store }
        | Delta::Put { db, store, .. }
        | Delta::Remove { db, store, .. }
        | Delta::Clear { db, store }
        | Delta::Current { db, store, .. } => store_told(said, db, store),
        Delta::CreateIndex {
            db,
            store,
            index,
            ..
        }
        | Delta::DropIndex { db, store, index } => index_told(said, db, store, index),
    }
}

fn new_store_told(said: &mut String, path: Option<&KeyPath>, auto: bool) {
    let _ = write!(said, " {auto}");
    if let Some(path) = path {
        path_told(said, path);
    }
}

fn new_index_told(said: &mut String, path: &KeyPath, unique: bool, multi: bool) {
    let _ = write!(said, " {unique} {multi}");
    path_told(said, path);
}

/// What becomes of it.
fn change_told(said: &mut String, delta: &Delta) {
    match delta {
        Delta::Version { version, .. } => {
            let _ = write!(said, " is {version}");
        }
        Delta::CreateStore { path, auto, .. } => new_store_told(said, path.as_ref(), *auto),
        Delta::CreateIndex {
            path,
            unique,
            multi,
            ..
        } => new_index_told(said, path, *unique, *multi),
        Delta::Put { key, value, .. } => put_told(said, key, value),
        Delta::Remove { key, .. } => removal_told(said, key),
        Delta::Clear { .. } => {
            let _ = write!(said, " is clear");
        }
        Delta::Current { current, .. } => {
            let _ = write!(said, " counts {current}");
        }
        Delta::DropDatabase { .. } | Delta::DropStore { .. } | Delta::DropIndex { .. } => {
            let _ = write!(said, " goes");
        }
    }
}

/// What a change says, in a few words.
fn told(said: &mut String, delta: &Delta) {
    names_told(said, delta);
    change_told(said, delta);
    let _ = write!(said, "\n");
}

/// One change of each kind, put in one after the other.
fn all_kinds(rt: &impl Abort, alloc: Global) -> Deltas {
    let mut deltas = Deltas::new(alloc);
    for kind in 0..10 {
        deltas.push(delta(rt, alloc, kind)).expect(rt, "memory");
    }
    deltas
}

#[test]
fn changes_are_kept_in_order(rt: HostRuntime) {
    let deltas = all_kinds(&rt, rt.alloc());
    let mut said = String::new(rt.alloc());
    for place in 0..deltas.len() {
        if let Some(delta) = deltas.at(place) {
            told(&mut said, delta);
        }
    }
    assert_eq!(rt;
        said.as_str(),
        "d is 2\nd goes\nd.s true p\nd.s goes\nd.s.i true false p\nd.s.i goes\nd.s puts 3 true\nd.s loses 4\nd.s is clear\nd.s counts 5\n"
    );
}

/// The numbers of the requests, with the name of each error.
fn events_told(said: &mut String, events: &Events) {
    for event in events.as_slice() {
        let _ = match event {
            Event::Success { request, result } => match result {
                Value::Int(n) => write!(said, "{request} gives {n}; "),
                _ => write!(said, "{request}; "),
            },
            Event::Error { request, name } => write!(said, "{request} {}; ", name.name()),
        };
    }
}

/// The events of a trace, copied.
fn events_copied(rt: &impl Abort, alloc: Global, said: &mut String) {
    let mut lines = Events::new(alloc);
    lines
        .push(Event::Success {
            request: 1,
            result: Value::Int(7),
        })
        .expect(rt, "memory");
    lines
        .push(Event::Error {
            request: 2,
            name: ErrorName::DataError,
        })
        .expect(rt, "memory");
    events_told(said, &lines.copy(alloc).expect(rt, "memory"));
}

/// The steps of a trace, copied.
fn steps_copied(rt: &impl Abort, alloc: Global, said: &mut String) {
    let mut order = Tokens::new(alloc);
    order
        .push(Token::Started { number: 9 })
        .expect(rt, "memory");
    order.push(Token::Faulted).expect(rt, "memory");
    let _ = write!(
        said,
        "{:?}",
        order.copy(alloc).expect(rt, "memory").as_slice()
    );
}

#[test]
fn copies_are_equal(rt: HostRuntime) {
    let mut said = String::new(rt.alloc());
    events_copied(&rt, rt.alloc(), &mut said);
    steps_copied(&rt, rt.alloc(), &mut said);
    assert_eq!(rt;
        said.as_str(),
        "1 gives 7; 2 DataError; [Started { number: 9 }, Faulted]"
    );
}
