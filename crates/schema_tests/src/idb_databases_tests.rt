// Stores and databases by name: in order of bytes, replaced, found and taken out.
use clone_values::Text;
use idb_base::GREATEST_LENGTH;
use idb_databases::{Database, Databases, Versions};
use idb_schema::{IndexInfos, StoreInfo};
use index_tables::FlatTables;
use object_stores::StoreVersion;
use std::alloc::Global;
use std::process::Abort;

/// One call, of the stores or of the databases.
#[derive(Clone, Copy)]
enum Step {
    PutStore(&'static str, bool),
    FindStore(&'static str),
    StoreAt(usize),
    TakeStore(&'static str),
    PutDatabase(&'static str, u64),
    FindDatabase(&'static str),
    DatabaseAt(usize),
    TakeDatabase(&'static str),
    Fits,
}

fn text(rt: &impl Abort, alloc: Global, s: &str) -> Text {
    assert!(rt; s.len() <= GREATEST_LENGTH);
    Text::copy_of(alloc, s).expect(rt, "memory")
}

fn show_store(rt: &impl Abort, said: &mut String, store: Option<&StoreVersion<FlatTables>>) {
    match store {
        Some(store) => write!(said, "{}{} ", store.info().name.as_str(), store.info().auto).expect(
            rt, "memory",
        ),
        None => write!(said, "- ").expect(rt, "memory"),
    }
}

fn show_database(rt: &impl Abort, said: &mut String, database: Option<&Database<FlatTables>>) {
    match database {
        Some(d) => write!(said, "{}{}+{} ", d.name.as_str(), d.version, d.stores.len()).expect(
            rt, "memory",
        ),
        None => write!(said, "- ").expect(rt, "memory"),
    }
}

type Stores = Versions<FlatTables>;

type Items = Databases<FlatTables>;

fn put_store(
    rt: &impl Abort,
    alloc: Global,
    stores: &mut Stores,
    said: &mut String,
    name: &str,
    auto: bool,
) {
    let info = StoreInfo {
        name: text(rt, alloc, name),
        path: None,
        auto,
        indexes: IndexInfos::new(alloc),
    };
    stores
        .insert(StoreVersion::new(alloc, info))
        .expect(rt, "memory");
    write!(said, "{} ", stores.len()).expect(rt, "memory");
}

fn find_store(rt: &impl Abort, alloc: Global, stores: &Stores, said: &mut String, name: &str) {
    show_store(rt, said, stores.find(&text(rt, alloc, name)))
}

fn take_store(rt: &impl Abort, alloc: Global, stores: &mut Stores, said: &mut String, name: &str) {
    let taken = stores.remove(&text(rt, alloc, name));
    show_store(rt, said, taken.as_ref())
}

/// The store a taken out, alone.
fn store_a(rt: &impl Abort, alloc: Global, stores: &mut Stores) -> Stores {
    let mut inner = Versions::new(alloc);
    if let Some(store) = stores.remove(&text(rt, alloc, "a")) {
        inner.insert(store).expect(rt, "memory");
    }
    inner
}

/// Puts a database in, with the store a where this stands.
fn put_database(
    rt: &impl Abort,
    alloc: Global,
    stores: &mut Stores,
    databases: &mut Items,
    name: &str,
    version: u64,
) {
    assert!(rt; version >= 1 && version <= 100);
    let stores = store_a(rt, alloc, stores);
    databases
        .insert(Database {
            name: text(rt, alloc, name),
            version,
            stores,
        })
        .expect(rt, "memory");
}

fn show_length(rt: &impl Abort, said: &mut String, databases: &Items) {
    write!(said, "{} ", databases.len()).expect(rt, "memory");
}

fn show_limits(rt: &impl Abort, said: &mut String, databases: &Items) {
    write!(said, "{} ", databases.are_within_limits()).expect(rt, "memory");
}

fn find_database(rt: &impl Abort, alloc: Global, databases: &Items, said: &mut String, name: &str) {
    show_database(rt, said, databases.find(&text(rt, alloc, name)))
}

fn take_database(
    rt: &impl Abort,
    alloc: Global,
    databases: &mut Items,
    said: &mut String,
    name: &str,
) {
    let taken = databases.remove(&text(rt, alloc, name));
    show_database(rt, said, taken.as_ref())
}

/// Makes one call, and writes what it answered.
fn make(
    rt: &impl Abort,
    alloc: Global,
    stores: &mut Stores,
    databases: &mut Items,
    said: &mut String,
    step: Step,
) {
    match step {
        Step::PutStore(name, auto) => put_store(rt, alloc, stores, said, name, auto),
        Step::FindStore(name) => find_store(rt, alloc, stores, said, name),
        Step::StoreAt(place) => show_store(rt, said, stores.at(place)),
        Step::TakeStore(name) => take_store(rt, alloc, stores, said, name),
        Step::PutDatabase(name, version) => {
            put_database(rt, alloc, stores, databases, name, version);
            show_length(rt, said, databases)
        }
        Step::FindDatabase(name) => find_database(rt, alloc, databases, said, name),
        Step::DatabaseAt(place) => show_database(rt, said, databases.at(place)),
        Step::TakeDatabase(name) => take_database(rt, alloc, databases, said, name),
        Step::Fits => show_limits(rt, said, databases),
    }
}

const STEPS: [Step; 28] = [
    Step::PutStore("b", false),
    Step::PutStore("é", false),
    Step::PutStore("a", false),
    Step::PutStore("", false),
    Step::PutStore("ab", true),
    Step::PutStore("b", true),
    Step::StoreAt(0),
    Step::StoreAt(1),
    Step::StoreAt(2),
    Step::StoreAt(3),
    Step::StoreAt(4),
    Step::StoreAt(5),
    Step::FindStore("ab"),
    Step::FindStore("aa"),
    Step::TakeStore("ab"),
    Step::TakeStore("ab"),
    Step::StoreAt(2),
    Step::PutDatabase("y", 2),
    Step::DatabaseAt(0),
    Step::PutDatabase("x", 1),
    Step::PutDatabase("y", 3),
    Step::DatabaseAt(0),
    Step::DatabaseAt(1),
    Step::DatabaseAt(2),
    Step::FindDatabase("x"),
    Step::Fits,
    Step::TakeDatabase("y"),
    Step::FindDatabase("y"),
];

fn told(rt: &impl Abort, alloc: Global) -> String {
    let mut stores = Versions::new(alloc);
    let mut databases = Databases::new(alloc);
    let mut said = String::new(alloc);
    for step in STEPS {
        make(rt, alloc, &mut stores, &mut databases, &mut said, step);
    }
    said
}

#[test]
fn names_stand_in_the_order_of_their_bytes(rt: HostRuntime) {
    assert_eq!(rt;
        told(&rt, rt.alloc()).as_str(),
        "1 2 3 4 5 5 false afalse abtrue btrue éfalse - abtrue - abtrue - btrue \
        1 y2+1 2 2 x1+0 y3+0 - x1+0 true y3+0 - "
    );
}
