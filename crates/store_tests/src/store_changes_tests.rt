// Each kind of change made of a store with ample memory, and each refusal.
ghost use Rattle.std.specs.Prelude.{◌≡◌, ℕ, List};
ghost use Rattle.clone_values.specs.declared.path_types.PathSpec.TheVariants.{One};

use clone_values::{Key, PathSpec, Props, Text, Value, is_cloneable, is_int, well_formed};
use idb_base::GREATEST_LENGTH;
use idb_calls::Delta;
use idb_schema::{IndexInfos, StoreInfo};
use index_tables::{FlatTables, Tables};
use object_stores::StoreVersion;
use path_grammar::KeyPath;
use std::alloc::Global;
use std::process::Abort;
use store_changes::{ChangeError, make_change};

/// One change; a value is `{"e": e}`.
#[derive(Clone, Copy)]
enum Step {
    Put(i64, i64),
    Remove(i64),
    Clear,
    Current(u64),
    MakeIndex(bool),
    DropIndex,
}

fn text(rt: &impl Abort, alloc: Global, s: &str) -> Text
    ensures { result ≡ s.now }
{
    assert!(rt; s.len() <= GREATEST_LENGTH);
    Text::copy_of(alloc, s).expect(rt, "memory")
}

/// The Object with the one property `e`.
fn object(rt: &impl Abort, alloc: Global, e: i64) -> Value {
    let mut props = Props::new(alloc);
    assert!(rt; props.len() < 100);
    props
        .set(text(rt, alloc, "e"), Value::Int(e))
        .expect(rt, "memory");
    Value::Object(props)
}

// ---- one change each
fn put<T: Tables>(
    rt: &impl Abort,
    alloc: Global,
    store: &mut StoreVersion<T>,
    key: i64,
    value: Value,
) -> Result<(), ChangeError> {
    assert!(rt; well_formed(&value) && is_cloneable(&value) && is_int(key));
    make_change(
        alloc,
        store,
        Delta::Put {
            db: text(rt, alloc, "d"),
            store: text(rt, alloc, "s"),
            key: Key::Number(key),
            value,
        },
    )
}

fn path(rt: &impl Abort, alloc: Global) -> KeyPath
    ensures { (name : List ℕ) × (result ≡ One name) }
{
    KeyPath::parse(PathSpec::One(text(rt, alloc, "e"))).expect(rt, "a path")
}

fn make_index<T: Tables>(
    rt: &impl Abort,
    alloc: Global,
    store: &mut StoreVersion<T>,
    unique: bool,
) -> Result<(), ChangeError> {
    make_change(
        alloc,
        store,
        Delta::CreateIndex {
            db: text(rt, alloc, "d"),
            store: text(rt, alloc, "s"),
            index: text(rt, alloc, "by e"),
            path: path(rt, alloc),
            unique,
            multi: false,
        },
    )
}

fn drop_index<T: Tables>(
    rt: &impl Abort,
    alloc: Global,
    store: &mut StoreVersion<T>,
) -> Result<(), ChangeError> {
    make_change(
        alloc,
        store,
        Delta::DropIndex {
            db: text(rt, alloc, "d"),
            store: text(rt, alloc, "s"),
            index: text(rt, alloc, "by e"),
        },
    )
}

fn remove<T: Tables>(
    rt: &impl Abort,
    alloc: Global,
    store: &mut StoreVersion<T>,
    key: i64,
) -> Result<(), ChangeError> {
    make_change(
        alloc,
        store,
        Delta::Remove {
            db: text(rt, alloc, "d"),
            store: text(rt, alloc, "s"),
            key: Key::Number(key),
        },
    )
}

fn clear<T: Tables>(
    rt: &impl Abort,
    alloc: Global,
    store: &mut StoreVersion<T>,
) -> Result<(), ChangeError> {
    make_change(
        alloc,
        store,
        Delta::Clear {
            db: text(rt, alloc, "d"),
            store: text(rt, alloc, "s"),
        },
    )
}

fn set_current<T: Tables>(
    rt: &impl Abort,
    alloc: Global,
    store: &mut StoreVersion<T>,
    current: u64,
) -> Result<(), ChangeError> {
    assert!(rt; current >= 1 && current <= 9007199254740993);
    make_change(
        alloc,
        store,
        Delta::Current {
            db: text(rt, alloc, "d"),
            store: text(rt, alloc, "s"),
            current,
        },
    )
}

// ---- all of them
fn put_object<T: Tables>(
    rt: &impl Abort,
    alloc: Global,
    store: &mut StoreVersion<T>,
    key: i64,
    e: i64,
) -> Result<(), ChangeError> {
    let value = object(rt, alloc, e);
    put(rt, alloc, store, key, value)
}

/// Makes the change.
fn change<T: Tables>(
    rt: &impl Abort,
    alloc: Global,
    store: &mut StoreVersion<T>,
    step: Step,
) -> Result<(), ChangeError> {
    match step {
        Step::Put(key, e) => put_object(rt, alloc, store, key, e),
        Step::Remove(key) => remove(rt, alloc, store, key),
        Step::Clear => clear(rt, alloc, store),
        Step::Current(n) => set_current(rt, alloc, store, n),
        Step::MakeIndex(unique) => make_index(rt, alloc, store, unique),
        Step::DropIndex => drop_index(rt, alloc, store),
    }
}

/// The word of an answer; none where the change was made.
fn word(answer: Result<(), ChangeError>) -> &'static str {
    match answer {
        Ok(()) => "",
        Err(ChangeError::Missing) => "missing ",
        Err(ChangeError::Constraint) => "constraint ",
        Err(ChangeError::NoMemory) => "no memory ",
    }
}

fn push(rt: &impl Abort, said: &mut String, s: &str) {
    said.push_str(s).expect(rt, "memory")
}

/// How many records and indexes there are, and the generator's number.
fn push_store<T: Tables>(rt: &impl Abort, said: &mut String, store: &StoreVersion<T>) {
    write!(
        said,
        "{}:{}:{} ",
        store.len(),
        store.info().indexes.len(),
        store.current()
    )
    .expect(rt, "memory")
}

/// Makes the change, and writes the answer, how many records and indexes there are, and the generator's number.
fn run<T: Tables>(
    rt: &impl Abort,
    alloc: Global,
    said: &mut String,
    store: &mut StoreVersion<T>,
    step: Step,
) {
    let answer = change(rt, alloc, store, step);
    push(rt, said, word(answer));
    push_store(rt, said, store)
}

fn new_store<T: Tables>(rt: &impl Abort, alloc: Global, auto: bool) -> StoreVersion<T> {
    let info = StoreInfo {
        name: text(rt, alloc, "s"),
        path: None,
        auto,
        indexes: IndexInfos::new(alloc),
    };
    StoreVersion::new(alloc, info)
}

/// What these changes of a new store answer, one behind the other.
fn answers<T: Tables>(rt: &impl Abort, alloc: Global, auto: bool, steps: &[Step]) -> String {
    let mut store: StoreVersion<T> = new_store(rt, alloc, auto);
    let mut said = String::new(alloc);
    for step in steps {
        run(rt, alloc, &mut said, &mut store, *step);
    }
    said
}

const STEPS: [Step; 15] = [
    Step::Put(7, 1),
    Step::Put(8, 2),
    Step::Put(7, 3),
    Step::Current(9),
    Step::Put(20, 5),
    Step::MakeIndex(true),
    Step::MakeIndex(false),
    Step::Put(9, 5),
    Step::Remove(8),
    Step::Remove(8),
    Step::DropIndex,
    Step::DropIndex,
    Step::Put(9, 5),
    Step::MakeIndex(true),
    Step::Clear,
];

const ANSWERS: &str =
    "1:0:1 2:0:1 2:0:1 2:0:9 3:0:9 3:1:9 missing 3:1:9 constraint 3:1:9 2:1:9 missing 2:1:9 2:0:9 missing 2:0:9 \
        3:0:9 constraint 3:0:9 0:0:9 ";

/// A put leaves the number as it is; what the store lacks is missing; a unique index refuses; and each change is made.
#[test]
fn each_change_is_made_or_refused(rt: HostRuntime) {
    let said = answers::<FlatTables>(&rt, rt.alloc(), true, &STEPS);
    assert_eq!(rt; said.as_str(), ANSWERS);
}

const WITHOUT_GENERATOR: [Step; 2] = [Step::Put(1, 1), Step::Current(2)];

/// A store without a generator has no number to set.
#[test]
fn a_plain_store_lacks_the_number(rt: HostRuntime) {
    let said = answers::<FlatTables>(&rt, rt.alloc(), false, &WITHOUT_GENERATOR);
    assert_eq!(rt; said.as_str(), "1:0:1 missing 1:0:1 ");
}
