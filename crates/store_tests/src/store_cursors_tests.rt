// Cursors over a small store and its index, and what they do where the store changes under them.
ghost use Rattle.std.specs.Prelude.{◌≡◌, false};
ghost use Rattle.clone_values.specs.declared.path_types.PathSpec.TheVariants.{One};

use clone_values::{Key, PathSpec, Prop, Props, Text, Value, is_cloneable, is_int, well_formed};
use idb_base::GREATEST_LENGTH;
use idb_cursors::Cursor;
use idb_keys::{Direction, KeyRange, Over};
use idb_schema::{IndexInfo, IndexInfos, StoreInfo};
use index_tables::{FlatTables, Tables};
use object_stores::StoreVersion;
use path_grammar::KeyPath;
use std::alloc::Global;
use std::process::Abort;
use store_cursors::*;

fn path(rt: &impl Abort, alloc: Global, s: &str) -> KeyPath
    ensures { result ≡ One s.now }
{
    assert!(rt; s.len() <= GREATEST_LENGTH);
    KeyPath::parse(PathSpec::One(Text::copy_of(alloc, s).expect(rt, "memory"))).expect(rt, "a path")
}

fn by_e(rt: &impl Abort, alloc: Global) -> IndexInfo
    ensures { result.multi ≡ false }
{
    let path = path(rt, alloc, "e");
    let name = Text::copy_of(alloc, "by e").expect(rt, "memory");
    IndexInfo {
        name,
        path,
        unique: false,
        multi: false,
    }
}

fn empty_store<T: Tables>(rt: &impl Abort, alloc: Global) -> StoreVersion<T> {
    let info = StoreInfo {
        name: Text::copy_of(alloc, "s").expect(rt, "memory"),
        path: None,
        auto: false,
        indexes: IndexInfos::new(alloc),
    };
    StoreVersion::new(alloc, info)
}

fn index_by_e<T: Tables>(rt: &impl Abort, alloc: Global, store: &mut StoreVersion<T>) {
    let info = by_e(rt, alloc);
    assert!(rt; store.info().indexes.len() == 0 && store.add_index(info).is_ok());
}

/// A store with one index, by the property `e`.
fn new_store<T: Tables>(rt: &impl Abort, alloc: Global) -> StoreVersion<T> {
    let mut store: StoreVersion<T> = empty_store(rt, alloc);
    index_by_e(rt, alloc, &mut store);
    store
}

/// The Object with the one property `e`.
fn object(rt: &impl Abort, alloc: Global, e: i64) -> Value {
    let mut props = Props::new(alloc);
    assert!(rt; props.len() < 100);
    props
        .set(
            Text::copy_of(alloc, "e").expect(rt, "memory"),
            Value::Int(e),
        )
        .expect(rt, "memory");
    Value::Object(props)
}

/// Stores the value under a number.
fn put_value<T: Tables>(rt: &impl Abort, store: &mut StoreVersion<T>, key: i64, value: Value) {
    assert!(rt; well_formed(&value) && is_cloneable(&value) && is_int(key));
    let _ = store
        .store_record(value, Some(Key::Number(key)), false)
        .expect(rt, "a stored record");
}

/// The record of this key has the value `{"e": e}`.
fn put<T: Tables>(rt: &impl Abort, alloc: Global, store: &mut StoreVersion<T>, key: i64, e: i64) {
    let value = object(rt, alloc, e);
    put_value(rt, store, key, value)
}

fn shown(key: &Key) -> i64 {
    match key {
        Key::Number(n) => *n,
        _ => -1,
    }
}

/// The property `e`.
fn e_of(value: &Value) -> i64 {
    match value {
        Value::Object(props) => match props.at(0) {
            Some(
                Prop {
                    value: Value::Int(e),
                    ..
                },
            ) => *e,
            _ => -1,
        },
        _ => -2,
    }
}

/// One turn: the key, the primary key and `e` of the member that is taken; a dot where there is none.
fn turn<T: Tables>(
    rt: &impl Abort,
    alloc: Global,
    store: &StoreVersion<T>,
    cursor: &mut Cursor,
    said: &mut String,
) {
    match take_turn(alloc, store, cursor.over(), cursor, None, None, 1).expect(rt, "memory") {
        Some(
            Member {
                key,
                primary,
                value,
            },
        ) => write!(said, "{}/{}:{} ", shown(key), shown(primary), e_of(value)).expect(
            rt, "memory",
        ),
        None => write!(said, ". ").expect(rt, "memory"),
    }
}

/// A store of four records.
fn four_records<T: Tables>(rt: &impl Abort, alloc: Global) -> StoreVersion<T> {
    let mut store: StoreVersion<T> = new_store(rt, alloc);
    for (key, e) in [(1i64, 30i64), (2, 20), (3, 20), (4, 10)] {
        put(rt, alloc, &mut store, key, e);
    }
    store
}

/// The record 2 is deleted, and 7 put in.
fn change<T: Tables>(rt: &impl Abort, alloc: Global, store: &mut StoreVersion<T>) {
    let range = KeyRange::only(alloc, Key::Number(2)).expect(rt, "memory");
    let _ = store.delete_range(&range).expect(rt, "memory");
    put(rt, alloc, store, 7, 25)
}

/// What a cursor takes until it finds nothing; after its second turn the record 2 is deleted, and 7 put in.
fn visit<T: Tables>(
    rt: &impl Abort,
    alloc: Global,
    over: Over,
    direction: Direction,
    said: &mut String,
) {
    let mut store: StoreVersion<T> = four_records(rt, alloc);
    let mut cursor = Cursor::new(over, direction, None, false);
    for done in 0..7u32 {
        turn(rt, alloc, &store, &mut cursor, said);
        if done == 1 {
            change(rt, alloc, &mut store);
        }
    }
    said.push_str("\n").expect(rt, "memory")
}

const VISITS: [(Over, Direction); 9] = [
    (Over::Store, Direction::Next),
    (Over::Store, Direction::Prev),
    (Over::Store, Direction::NextUnique),
    (Over::Index(0), Direction::Next),
    (Over::Index(0), Direction::Prev),
    (Over::Index(0), Direction::NextUnique),
    (Over::Index(1), Direction::Next),
    (Over::Index(1), Direction::Prev),
    (Over::Index(1), Direction::NextUnique),
];

/// What each cursor takes.
fn answers<T: Tables>(rt: &impl Abort, alloc: Global) -> String {
    let mut said = String::new(alloc);
    for (over, direction) in VISITS {
        visit::<T>(rt, alloc, over, direction, &mut said);
    }
    said
}

#[test]
fn a_cursor_meets_what_is_put_ahead(rt: HostRuntime) {
    let said = answers::<FlatTables>(&rt, rt.alloc());
    assert_eq!(rt;
        said.as_str(),
        "1/1:30 2/2:20 3/3:20 4/4:10 7/7:25 . . \n4/4:10 3/3:20 1/1:30 . . . . \n1/1:30 2/2:20 3/3:20 4/4:10 7/7:25 . . \n10/4:10 20/2:20 20/3:20 25/7:25 30/1:30 . . \n30/1:30 20/3:20 10/4:10 . . . . \n10/4:10 20/2:20 25/7:25 30/1:30 . . . \n. . . . . . . \n. . . . . . . \n. . . . . . . \n"
    );
}
