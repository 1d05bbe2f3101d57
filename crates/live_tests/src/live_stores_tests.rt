// The stores of a transaction: changed, undone and given back, owned and shared.
ghost use Rattle.std.specs.Prelude.{◌≡◌, Bool, true, None, is_some};
ghost use Rattle.idb_schema.specs.Definitions.{index_named};
ghost use Rattle.idb_calls.specs.Deltas.{CreateStore, DropStore, DropIndex};
ghost use Rattle.live_stores.specs.Live.{finds_in};

use clone_values::{Key, PathSpec, Text, Value, is_cloneable, is_int, well_formed};
use idb_base::GREATEST_LENGTH;
use idb_calls::Deltas;
use idb_keys::Over;
use idb_schema::{IndexInfo, IndexInfos, StoreInfo};
use index_tables::FlatTables;
use live_stores::*;
use object_stores::StoreVersion;
use path_grammar::KeyPath;
use std::alloc::Global;
use std::fmt::Write;
use std::process::Abort;
use std::sync::Arc;
use store_requests::StoreNames;

type Store = StoreVersion<FlatTables>;

type Live = LiveStores<FlatTables>;

/// A call that is done on a store of a name. Numbers are added under numbers; by `Fill` each of these under itself.
#[derive(Clone, Copy)]
enum Act {
    Put(i64, i64),
    Fill(i64, i64),
    Clear,
    Raise(u64),
    Create,
    Remove,
    DropIndex,
    Show,
}

use Act::{Clear, Create, DropIndex, Fill, Put, Raise, Remove, Show};

type Step = (&'static str, Act);

fn names(rt: &impl Abort, alloc: Global, store: &str) -> StoreNames {
    assert!(rt; store.len() <= GREATEST_LENGTH);
    StoreNames {
        database: Text::copy_of(alloc, "d").expect(rt, "memory"),
        store: Text::copy_of(alloc, store).expect(rt, "memory"),
    }
}

/// A store of the records 1: 8 and 2: 7.
fn new_store(rt: &impl Abort, alloc: Global, name: &str, auto: bool) -> Store {
    let info = StoreInfo {
        name: names(rt, alloc, name).store,
        path: None,
        auto,
        indexes: IndexInfos::new(alloc),
    };
    let mut store = StoreVersion::new(alloc, info);
    for (key, n) in [(1i64, 8i64), (2, 7)] {
        let value = Value::Int(n);
        assert!(rt; well_formed(&value) && is_cloneable(&value) && is_int(key));
        let _ = store
            .store_record(value, Some(Key::Number(key)), false)
            .expect(rt, "memory");
    }
    store
}

/// The index "i" by the number itself.
fn index(rt: &impl Abort, alloc: Global, store: &mut Store) {
    let index = IndexInfo {
        name: Text::copy_of(alloc, "i").expect(rt, "memory"),
        path: KeyPath::parse(PathSpec::One(Text::copy_of(alloc, "").expect(rt, "memory"))).expect(
            rt, "a path",
        ),
        unique: false,
        multi: false,
    };
    assert!(rt; store.info().indexes.len() == 0 && store.add_index(index).is_ok());
}

/// The stores a, with a generator, b, which is shared with the caller, and c, which has an index.
fn three(rt: &impl Abort, alloc: Global, b: &Arc<Store>) -> Live {
    let mut c = new_store(rt, alloc, "c", false);
    index(rt, alloc, &mut c);
    let b = Held::Shared(Arc::try_clone(b).expect(rt, "memory"));
    let mut stores = Stores::new(alloc);
    for held in [Held::Own(c), b, Held::Own(new_store(rt, alloc, "a", true))] {
        assert!(rt; stores.insert(held).is_ok());
    }
    LiveStores::new(alloc, Some(1), stores)
}

// ---- what the calls of an upgrade ask
fn is_free(live: &Live, names: &StoreNames) -> bool
    ensures { result ≡ true → (auto : Bool) → finds_in live.now
        (CreateStore names.now.database names.now.store None auto) ≡ true }
{
    live.version().is_some() && live.store(&names.store).is_none()
}

fn is_there(live: &Live, names: &StoreNames) -> bool
    ensures { result ≡ true → finds_in live.now (DropStore names.now.database names.now.store) ≡ true }
{
    live.store(&names.store).is_some()
}

fn has_index(live: &Live, names: &StoreNames, index: &Text) -> bool
    ensures { result ≡ true → finds_in live.now
        (DropIndex names.now.database names.now.store index.now) ≡ true }
{
    match live.store(&names.store) {
        Some(store) => is_named(&store.info().indexes, index),
        None => false,
    }
}

fn is_named(indexes: &IndexInfos, name: &Text) -> bool
    ensures { result ≡ is_some (index_named indexes.now name.now) }
{
    place_named(indexes, name).is_some()
}

fn place_named(indexes: &IndexInfos, name: &Text) -> Option<usize>
    ensures { result ≡ index_named indexes.now name.now }
{
    let name = name.as_str();
    indexes
        .as_slice()
        .iter()
        .position(|i| i.name.as_str() == name)
}

// ---- calls, and what is written of them
fn put(
    rt: &impl Abort,
    live: &mut Live,
    names: &StoreNames,
    (key, n): (i64, i64),
    changes: &mut Deltas,
) {
    let value = Value::Int(n);
    assert!(rt; well_formed(&value) && is_cloneable(&value) && is_int(key));
    let _ = live
        .put_record(names, value, Some(Key::Number(key)), true, changes)
        .expect(rt, "memory");
}

/// The generator's number and how many records there are; the first and the last of them, and of the rows of the first index.
fn show(store: &Store, said: &mut String) {
    let _ = write!(said, "{} {}:", store.current(), store.len());
    for place in [0, store.len().wrapping_sub(1)] {
        if let Some((Key::Number(key), Value::Int(n))) = store.record_at(place) {
            let _ = write!(said, " {key}={n}");
        }
        if let Some((Key::Number(n), Key::Number(key))) = store.row(Over::Index(0), place) {
            let _ = write!(said, " {n}-{key}");
        }
    }
    let _ = write!(said, "; ");
}

fn show_all(rt: &impl Abort, alloc: Global, live: &Live, said: &mut String) {
    let _ = write!(said, "at {}, ", live.version().unwrap_or(0));
    for name in ["a", "b", "c", "n"] {
        if let Some(store) = live.store(&names(rt, alloc, name).store) {
            let _ = write!(said, "{name} ");
            show(store, said);
        }
    }
}

fn run(rt: &impl Abort, alloc: Global, live: &mut Live, step: &Step, said: &mut String) {
    let names = names(rt, alloc, step.0);
    let index = Text::copy_of(alloc, "i").expect(rt, "memory");
    let mut changes = Deltas::new(alloc);
    match step.1 {
        Put(key, n) => put(rt, live, &names, (key, n), &mut changes),
        Fill(start, end) => {
            for key in start..end {
                put(rt, live, &names, (key, key), &mut changes);
            }
        }
        Clear => {
            let _ = live.clear_store(&names, &mut changes).expect(rt, "memory");
        }
        Raise(version) => live.raise_version(version),
        Create if is_free(live, &names) => live
            .create_store(&names, None, false)
            .expect(rt, "memory"),
        Remove if is_there(live, &names) => live.drop_store(&names),
        DropIndex if has_index(live, &names, &index) => live
            .drop_index(&names, &index)
            .expect(rt, "memory"),
        Show => show_all(rt, alloc, live, said),
        _ => panic!(rt; "not as it is asked"),
    }
}

const BEFORE: &str = "at 1, a 3 2: 1=8 2=7; b 1 2: 1=8 2=7; c 1 2: 1=8 7-2 2=7 8-1; ";

/// What is undone, and how the stores are before that, beside answers.
const UNDONE: [(&[&[Step]], &str); 3] = [
    // Ten thousand changes.
    (
        &[
            &[("a", Fill(3, 3_336)), ("b", Fill(3, 3_336))],
            &[("c", Fill(3, 3_336)), ("c", DropIndex)],
        ],
        "at 1, a 3336 3335: 1=8 3335=3335; b 1 3335: 1=8 3335=3335; c 1 3335: 1=8 3335=3335; ",
    ),
    // The generator keeps the number that it noted.
    (
        &[&[("a", Put(7, 70)), ("a", Clear), ("a", Put(-4, 1))]],
        "at 1, a 8 1: -4=1 -4=1; b 1 2: 1=8 2=7; c 1 2: 1=8 7-2 2=7 8-1; ",
    ),
    // Stores come and go, one under the name of another.
    (
        &[
            &[("", Raise(2)), ("n", Create), ("n", Put(4, 40))],
            &[("a", Remove), ("a", Create), ("a", Put(9, 90))],
            &[("b", Remove), ("d", Create), ("d", Remove)],
        ],
        "at 2, a 1 1: 9=90 9=90; c 1 2: 1=8 7-2 2=7 8-1; n 1 1: 4=40 4=40; ",
    ),
];

/// Records, rows, generators, stores and the version are as they were, and others see a shared store as ever.
#[test]
fn an_undo_brings_all_back(rt: HostRuntime) {
    let alloc = rt.alloc();
    let (mut said, mut wanted) = (String::new(alloc), String::new(alloc));
    let b = Arc::new(alloc, new_store(&rt, alloc, "b", false)).expect(&rt, "memory");
    let mut live = three(&rt, alloc, &b);
    for (groups, shown) in UNDONE {
        for steps in groups {
            for step in *steps {
                run(&rt, alloc, &mut live, step, &mut said);
            }
        }
        show_all(&rt, alloc, &live, &mut said);
        live.restore();
        show_all(&rt, alloc, &live, &mut said);
        wanted.push_str(shown).expect(&rt, "memory");
        wanted.push_str(BEFORE).expect(&rt, "memory");
    }
    show(&b, &mut said);
    wanted.push_str("1 2: 1=8 2=7; ").expect(&rt, "memory");
    assert_eq!(rt; said, wanted);
}

/// A store that is only read is given back as the shared one, and one that is written as a copy.
#[test]
fn only_a_writer_copies(rt: HostRuntime) {
    let alloc = rt.alloc();
    let mut said = String::new(alloc);
    let b = Arc::new(alloc, new_store(&rt, alloc, "b", false)).expect(&rt, "memory");
    for step in [("b", Show), ("b", Put(3, 5))] {
        let mut live = three(&rt, alloc, &b);
        run(&rt, alloc, &mut live, &step, &mut said);
        let _ = write!(said, "{} hold it, ", Arc::strong_count(&b));
        let name = names(&rt, alloc, "b");
        let mut stores = live.into_stores();
        let held = stores.remove(&name.store);
        match &held {
            Some(Held::Own(store)) => show(store, &mut said),
            _ => said.push_str("shared; ").expect(&rt, "memory"),
        }
    }
    show(&b, &mut said);
    let told = concat!(
        "at 1, a 3 2: 1=8 2=7; b 1 2: 1=8 2=7; c 1 2: 1=8 7-2 2=7 8-1; ",
        "2 hold it, shared; 1 hold it, 1 3: 1=8 3=5; 1 2: 1=8 2=7; "
    );
    assert_eq!(rt; said.as_str(), told);
}
