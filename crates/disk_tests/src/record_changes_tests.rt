// Records made of databases, one after the other, with ample memory. Which of them apply was worked out by hand.
use idb_databases::Databases;
use index_tables::{FlatTables, Tables};
use record_bytes::read_batch;
use record_changes::{RecordError, change_by_record};
use std::alloc::Global;
use std::process::Abort;

/// A change of store s of database d, or what is done with the changes so far.
#[derive(Clone, Copy)]
enum Step {
    /// No databases.
    Fresh,
    /// Databases a to q.
    Seventeen,
    /// Database q goes.
    NoDatabase,
    Database,
    Store,
    NoStore,
    /// A unique index of the values.
    Index,
    NoIndex,
    Put(u8, u8),
    Remove(u8),
    /// The record of the changes is made: whether it applies.
    End,
    /// How many records and indexes the first store of the first database has.
    Show,
}

fn put_bytes(rt: &impl Abort, out: &mut Vec<u8>, bytes: &[u8]) {
    out.extend_from_slice(bytes).expect(rt, "memory")
}

fn put_database(rt: &impl Abort, out: &mut Vec<u8>, name: u8) {
    put_bytes(rt, out, b"1\0\0\0\x01");
    out.push(name).expect(rt, "memory");
    put_bytes(rt, out, b"\0\0\0\0\0\0\0\x01")
}

fn put_seventeen(rt: &impl Abort, out: &mut Vec<u8>) {
    for letter in b'a'..b'r' {
        put_database(rt, out, letter);
    }
}

fn put_put(rt: &impl Abort, out: &mut Vec<u8>, key: u8, value: u8) {
    put_bytes(rt, out, b"7\0\0\0\x01d\0\0\0\x01s!\0\0\0\0\0\0\0");
    out.push(key).expect(rt, "memory");
    put_bytes(rt, out, b"\x04\0\0\0\0\0\0\0");
    out.push(value).expect(rt, "memory");
}

fn put_remove(rt: &impl Abort, out: &mut Vec<u8>, key: u8) {
    put_bytes(rt, out, b"8\0\0\0\x01d\0\0\0\x01s!\0\0\0\0\0\0\0");
    out.push(key).expect(rt, "memory");
}

/// Puts the bytes of the step's changes at the end.
fn put_bytes_of(rt: &impl Abort, out: &mut Vec<u8>, step: Step) {
    match step {
        Step::Seventeen => put_seventeen(rt, out),
        Step::NoDatabase => put_bytes(rt, out, b"2\0\0\0\x01q"),
        Step::Database => put_database(rt, out, b'd'),
        Step::Store => put_bytes(rt, out, b"3\0\0\0\x01d\0\0\0\x01s@\0"),
        Step::NoStore => put_bytes(rt, out, b"4\0\0\0\x01d\0\0\0\x01s"),
        Step::Index => put_bytes(
            rt,
            out,
            b"5\0\0\0\x01d\0\0\0\x01s\0\0\0\x01iA\0\0\0\0\x01\0",
        ),
        Step::NoIndex => put_bytes(rt, out, b"6\0\0\0\x01d\0\0\0\x01s\0\0\0\x01i"),
        Step::Put(key, value) => put_put(rt, out, key, value),
        Step::Remove(key) => put_remove(rt, out, key),
        Step::Fresh | Step::End | Step::Show => {}
    }
}

/// How many changes these are.
fn count_of(step: Step) -> u8 {
    match step {
        Step::Seventeen => 17,
        Step::Fresh | Step::End | Step::Show => 0,
        _ => 1,
    }
}

/// Puts the bytes of the change at the end, and tells how many changes these are.
fn put_change(rt: &impl Abort, out: &mut Vec<u8>, step: Step) -> u8 {
    put_bytes_of(rt, out, step);
    count_of(step)
}

/// The batch of one record, of so many changes.
fn batch(rt: &impl Abort, alloc: Global, count: u8, changes: &[u8]) -> Vec<u8> {
    let mut out = Vec::new(alloc);
    out.extend_from_slice(b"\0\0\0\x01\0\0\0\0\0\0\0\x01\0\0\0")
        .expect(rt, "memory");
    out.push(count).expect(rt, "memory");
    out.extend_from_slice(changes).expect(rt, "memory");
    out
}

/// Makes the last record of the batch.
fn made<T: Tables>(
    rt: &impl Abort,
    alloc: Global,
    items: &mut Databases<T>,
    bytes: &[u8],
) -> Result<(), RecordError> {
    let mut records = read_batch(alloc, bytes).expect(rt, "a batch").into_vec();
    match records.pop() {
        Some(logged) => change_by_record(alloc, items, logged),
        None => panic!(rt; "no record"),
    }
}

fn push(rt: &impl Abort, said: &mut String, s: &str) {
    said.push_str(s).expect(rt, "memory")
}

fn told(rt: &impl Abort, said: &mut String, answer: Result<(), RecordError>) {
    match answer {
        Ok(()) => push(rt, said, "+"),
        Err(RecordError::Damaged) => push(rt, said, "-"),
        Err(RecordError::NoMemory) => push(rt, said, "?"),
    }
}

fn show<T: Tables>(rt: &impl Abort, said: &mut String, items: &Databases<T>) {
    if let Some(database) = items.at(0) {
        if let Some(store) = database.stores.at(0) {
            write!(said, "{}/{} ", store.len(), store.info().indexes.len()).expect(rt, "memory");
        }
    }
}

/// The record of the changes is made.
fn end<T: Tables>(
    rt: &impl Abort,
    alloc: Global,
    said: &mut String,
    items: &mut Databases<T>,
    count: u8,
    changes: &[u8],
) {
    let bytes = batch(rt, alloc, count, changes);
    let answer = made(rt, alloc, items, &bytes);
    told(rt, said, answer)
}

/// The bytes of the changes so far, and how many they are.
#[derive(Drop)]
struct Changes {
    bytes: Vec<u8>,
    count: u8,
}

fn add(rt: &impl Abort, changes: &mut Changes, step: Step) {
    let more = put_change(rt, &mut changes.bytes, step);
    changes.count = changes.count.wrapping_add(more);
}

fn make<T: Tables>(
    rt: &impl Abort,
    alloc: Global,
    said: &mut String,
    items: &mut Databases<T>,
    changes: &mut Changes,
) {
    end(rt, alloc, said, items, changes.count, &changes.bytes);
    changes.bytes.clear();
    changes.count = 0;
}

fn run<T: Tables>(
    rt: &impl Abort,
    alloc: Global,
    said: &mut String,
    items: &mut Databases<T>,
    changes: &mut Changes,
    step: Step,
) {
    match step {
        Step::Fresh => {
            *items = Databases::new(alloc);
        }
        Step::Show => show(rt, said, items),
        Step::End => make(rt, alloc, said, items, changes),
        change => add(rt, changes, change),
    }
}

fn answers<T: Tables>(rt: &impl Abort, alloc: Global, steps: &[Step]) -> String {
    let mut said = String::new(alloc);
    let mut items: Databases<T> = Databases::new(alloc);
    let mut changes = Changes {
        bytes: Vec::new(alloc),
        count: 0,
    };
    for step in steps {
        run(rt, alloc, &mut said, &mut items, &mut changes, *step);
    }
    said
}

const STEPS: [Step; 70] = [
    // Two records change their values, and a third one clashes.
    Step::Database,
    Step::Store,
    Step::Index,
    Step::End,
    Step::Put(1, 7),
    Step::Put(2, 8),
    Step::End,
    Step::Put(1, 8),
    Step::Put(2, 7),
    Step::End,
    Step::Show,
    Step::Put(3, 7),
    Step::End,
    // A clash that is gone at the end; one that ends with the index; and an index that comes before its clash is gone.
    Step::Fresh,
    Step::Database,
    Step::Store,
    Step::Index,
    Step::End,
    Step::Put(1, 7),
    Step::Put(2, 7),
    Step::Remove(2),
    Step::End,
    Step::Show,
    Step::Put(2, 7),
    Step::NoIndex,
    Step::End,
    Step::Show,
    Step::Index,
    Step::Remove(1),
    Step::End,
    Step::Show,
    // The index is still there while it is kept aside.
    Step::Fresh,
    Step::Database,
    Step::Store,
    Step::Index,
    Step::Put(1, 7),
    Step::Put(2, 7),
    Step::Index,
    Step::Remove(2),
    Step::End,
    // A new store has no indexes.
    Step::Fresh,
    Step::Database,
    Step::Store,
    Step::Index,
    Step::Put(1, 7),
    Step::Put(2, 7),
    Step::NoStore,
    Step::Store,
    Step::Put(1, 7),
    Step::Put(2, 7),
    Step::End,
    Step::Show,
    // A clash at the end of the record in which the store is new.
    Step::Fresh,
    Step::Database,
    Step::Store,
    Step::Index,
    Step::Put(1, 7),
    Step::Put(2, 7),
    Step::End,
    // 17 databases are too many, but not where one goes again.
    Step::Fresh,
    Step::Seventeen,
    Step::NoDatabase,
    Step::End,
    Step::Fresh,
    Step::Seventeen,
    Step::End,
    // What is removed is not there.
    Step::Fresh,
    Step::Database,
    Step::Remove(1),
    Step::End,
];

#[test]
fn which_records_apply(rt: HostRuntime) {
    let said = answers::<FlatTables>(&rt, rt.alloc(), &STEPS);
    assert_eq!(rt; said.as_str(), "+++2/1 -++1/1 +2/0 +1/1 -+2/0 -+--");
}
