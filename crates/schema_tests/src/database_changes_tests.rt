// Each kind of change made of databases with ample memory, and each refusal.
use clone_values::{Key, Text, Value};
use database_changes::change_databases;
use idb_base::GREATEST_LENGTH;
use idb_calls::Delta;
use idb_databases::Databases;
use index_tables::FlatTables;
use std::alloc::Global;
use std::process::Abort;
use store_changes::ChangeError;

type Items = Databases<FlatTables>;

/// One change of database d.
#[derive(Clone, Copy)]
enum Step {
    First,
    Second,
    DropDatabase,
    CreateStore,
    DropStore,
    Put,
    Remove,
    Clear,
}

fn text(rt: &impl Abort, alloc: Global, s: &str) -> Text {
    assert!(rt; s.len() <= GREATEST_LENGTH);
    Text::copy_of(alloc, s).expect(rt, "memory")
}

type Answer = Result<(), ChangeError>;

fn set_version(rt: &impl Abort, alloc: Global, items: &mut Items, version: u64) -> Answer {
    assert!(rt; version >= 1 && version <= 100);
    let db = text(rt, alloc, "d");
    change_databases(alloc, items, Delta::Version { db, version })
}

fn drop_database(rt: &impl Abort, alloc: Global, items: &mut Items) -> Answer {
    let db = text(rt, alloc, "d");
    change_databases(alloc, items, Delta::DropDatabase { db })
}

fn create_store(rt: &impl Abort, alloc: Global, items: &mut Items) -> Answer {
    let db = text(rt, alloc, "d");
    let store = text(rt, alloc, "s");
    let change = Delta::CreateStore {
        db,
        store,
        path: None,
        auto: false,
    };
    change_databases(alloc, items, change)
}

fn drop_store(rt: &impl Abort, alloc: Global, items: &mut Items) -> Answer {
    let db = text(rt, alloc, "d");
    let store = text(rt, alloc, "s");
    change_databases(alloc, items, Delta::DropStore { db, store })
}

fn put(rt: &impl Abort, alloc: Global, items: &mut Items) -> Answer {
    let db = text(rt, alloc, "d");
    let store = text(rt, alloc, "s");
    let change = Delta::Put {
        db,
        store,
        key: Key::Number(1),
        value: Value::Null,
    };
    change_databases(alloc, items, change)
}

fn remove(rt: &impl Abort, alloc: Global, items: &mut Items) -> Answer {
    let db = text(rt, alloc, "d");
    let store = text(rt, alloc, "s");
    let change = Delta::Remove {
        db,
        store,
        key: Key::Number(1),
    };
    change_databases(alloc, items, change)
}

fn clear(rt: &impl Abort, alloc: Global, items: &mut Items) -> Answer {
    let db = text(rt, alloc, "d");
    let store = text(rt, alloc, "s");
    change_databases(alloc, items, Delta::Clear { db, store })
}

fn made(rt: &impl Abort, alloc: Global, items: &mut Items, step: Step) -> Answer {
    match step {
        Step::First => set_version(rt, alloc, items, 1),
        Step::Second => set_version(rt, alloc, items, 2),
        Step::DropDatabase => drop_database(rt, alloc, items),
        Step::CreateStore => create_store(rt, alloc, items),
        Step::DropStore => drop_store(rt, alloc, items),
        Step::Put => put(rt, alloc, items),
        Step::Remove => remove(rt, alloc, items),
        Step::Clear => clear(rt, alloc, items),
    }
}

/// A letter for each answer: made, or what it names is missing.
fn told(answer: Answer) -> &'static str {
    match answer {
        Ok(()) => "+",
        Err(ChangeError::Missing) => "-",
        Err(ChangeError::Constraint) => "!",
        Err(ChangeError::NoMemory) => "?",
    }
}

const STEPS: [Step; 18] = [
    Step::Put,
    Step::DropDatabase,
    Step::CreateStore,
    Step::First,
    Step::First,
    Step::DropStore,
    Step::CreateStore,
    Step::CreateStore,
    Step::Remove,
    Step::Put,
    Step::Second,
    Step::Remove,
    Step::Remove,
    Step::Put,
    Step::Clear,
    Step::Remove,
    Step::DropStore,
    Step::DropDatabase,
];

#[test]
fn changes_and_refusals(rt: HostRuntime) {
    let mut items = Items::new(rt.alloc());
    let mut said = String::new(rt.alloc());
    for step in STEPS {
        let answer = made(&rt, rt.alloc(), &mut items, step);
        said.push_str(told(answer)).expect(&rt, "memory");
    }
    assert_eq!(rt; (said.as_str(), items.len()), ("---+--+--+++-++-++", 0));
}
