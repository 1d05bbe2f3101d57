// What no clause says: that a session begins with ample memory, and what it is told of two databases with stores and indexes.
use clone_values::{PathSpec, Text};
use idb_base::GREATEST_LENGTH;
use idb_databases::{Database, Databases, Versions};
use idb_schema::{IndexInfo, IndexInfos, Schema, StoreInfo};
use index_tables::FlatTables;
use object_stores::StoreVersion;
use path_grammar::KeyPath;
use session_openings::{SessionOpening, open_databases};
use std::alloc::Global;
use std::fmt::Write;
use std::mem;
use std::process::Abort;

/// What a log gave.
#[derive(Clone, Copy)]
enum Step {
    /// A store of this name, with an index of that name.
    Store(&'static str, &'static str),
    /// A database of this name and version, with the stores since the one before.
    Database(&'static str, u64),
}

fn text(rt: &impl Abort, alloc: Global, s: &str) -> Text {
    assert!(rt; s.len() <= GREATEST_LENGTH);
    Text::copy_of(alloc, s).expect(rt, "memory")
}

fn store(rt: &impl Abort, alloc: Global, name: &str, index: &str) -> StoreVersion<FlatTables> {
    let mut indexes = IndexInfos::new(alloc);
    indexes
        .push(IndexInfo {
            name: text(rt, alloc, index),
            path: KeyPath::parse(PathSpec::One(text(rt, alloc, "p"))).expect(rt, "a path"),
            unique: false,
            multi: false,
        })
        .expect(rt, "memory");
    StoreVersion::new(
        alloc,
        StoreInfo {
            name: text(rt, alloc, name),
            path: None,
            auto: true,
            indexes,
        },
    )
}

fn put(
    rt: &impl Abort,
    alloc: Global,
    stores: &mut Versions<FlatTables>,
    databases: &mut Databases<FlatTables>,
    step: Step,
) {
    match step {
        Step::Store(name, index) => stores
            .insert(store(rt, alloc, name, index))
            .expect(rt, "memory"),
        Step::Database(name, version) => {
            assert!(rt; version >= 1 && version <= 100);
            databases
                .insert(Database {
                    name: text(rt, alloc, name),
                    version,
                    stores: mem::replace(stores, Versions::new(alloc)),
                })
                .expect(rt, "memory");
        }
    }
}

fn tell_indexes(rt: &impl Abort, said: &mut String, indexes: &IndexInfos) {
    for place in 0..indexes.len() {
        if let Some(index) = indexes.at(place) {
            write!(said, ":{}", index.name.as_str()).expect(rt, "memory");
        }
    }
}

fn tell_schema(rt: &impl Abort, said: &mut String, schema: &Schema) {
    write!(said, "{} {}", schema.name().as_str(), schema.version()).expect(rt, "memory");
    for place in 0..schema.len() {
        if let Some(info) = schema.store(place) {
            write!(said, " {}", info.name.as_str()).expect(rt, "memory");
            tell_indexes(rt, said, &info.indexes);
        }
    }
    write!(said, "; ").expect(rt, "memory");
}

fn tell(rt: &impl Abort, said: &mut String, opening: &SessionOpening<FlatTables>) {
    for place in 0..opening.lines.len() {
        if let Some(has) = opening.lines.at(place) {
            write!(said, "{} {}; ", has.name.as_str(), has.version).expect(rt, "memory");
        }
    }
    for place in 0..opening.schemas.len() {
        if let Some(schema) = opening.schemas.at(place) {
            tell_schema(rt, said, schema);
        }
    }
}

#[test]
fn databases_and_their_stores_stand_by_name(rt: HostRuntime) {
    let alloc = rt.alloc();
    let steps = [
        Step::Store("t", "j"),
        Step::Store("s", "i"),
        Step::Database("b", 3),
        Step::Store("s", "k"),
        Step::Database("a", 1),
    ];
    let mut stores = Versions::new(alloc);
    let mut databases = Databases::new(alloc);
    for step in steps {
        put(&rt, alloc, &mut stores, &mut databases, step);
    }
    assert!(rt; databases.are_within_limits());
    let mut said = String::new(alloc);
    tell(
        &rt,
        &mut said,
        &open_databases(alloc, databases).expect(&rt, "memory"),
    );
    assert_eq!(rt; said.as_str(), "a 1; b 3; a 1 s:k; b 3 s:i t:j; ");
}
