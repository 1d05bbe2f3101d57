// Logs of a few batches, replayed with ample memory. The batches are the worked ones of the formats, and their places were counted by hand.
use disk_trait::{DiskPlan, Image, MemoryDisk};
use gate_log::{Frame, GateLog};
use idb_databases::Databases;
use index_tables::{FlatTables, Tables};
use log_replay::{ReplayError, replay};
use std::alloc::Global;
use std::process::Abort;

/// An upgrade: a version, and a new store.
const FIRST: &[u8] = b"\x00\x00\x00\x01\
    \x00\x00\x00\x00\x00\x00\x00\x01\
    \x00\x00\x00\x02\
    1\x00\x00\x00\x01d\x00\x00\x00\x00\x00\x00\x00\x01\
    3\x00\x00\x00\x01d\x00\x00\x00\x01s@\x00";

/// A put.
const SECOND: &[u8] = b"\x00\x00\x00\x01\
    \x00\x00\x00\x00\x00\x00\x00\x02\
    \x00\x00\x00\x01\
    7\x00\x00\x00\x01d\x00\x00\x00\x01s\
    !\x00\x00\x00\x00\x00\x00\x00\x01\x04\x00\x00\x00\x00\x00\x00\x00\x07";

fn new_log(rt: &impl Abort, alloc: Global) -> GateLog<MemoryDisk> {
    let plan = DiskPlan {
        fail_at: Vec::new(alloc),
        stop_after: None,
        image: Image::Kept,
    };
    match GateLog::load(
        alloc,
        MemoryDisk::with_room(alloc, 2_000_000, 100_000, plan).expect(rt, "memory"),
    ) {
        Ok((log, _)) => log,
        Err(_) => panic!(rt; "no log"),
    }
}

/// How many databases there are, and how many records the first store of each has.
fn told_items<T: Tables>(rt: &impl Abort, said: &mut String, items: &Databases<T>) {
    write!(said, "{} ", items.len()).expect(rt, "memory");
    if let Some(database) = items.at(0) {
        if let Some(store) = database.stores.at(0) {
            write!(said, "{} ", store.len()).expect(rt, "memory");
        }
    }
}

fn told_place(rt: &impl Abort, said: &mut String, place: u64) {
    write!(said, "@{place} ").expect(rt, "memory")
}

/// What there is; or the place of the fault.
fn told<T: Tables>(rt: &impl Abort, said: &mut String, answer: Result<Databases<T>, ReplayError>) {
    match answer {
        Ok(items) => told_items(rt, said, &items),
        Err(ReplayError::Damaged { place }) => told_place(rt, said, place),
        Err(ReplayError::NoMemory) => said.push_str("? ").expect(rt, "memory"),
    }
}

/// Reads the batches of the log, and replays them.
fn replay_log<T: Tables>(
    rt: &impl Abort,
    alloc: Global,
    log: &mut GateLog<MemoryDisk>,
) -> Result<Databases<T>, ReplayError> {
    match log.batches(alloc) {
        Ok(batches) => {
            let _ = log.failed();
            replay(alloc, &batches)
        }
        Err(_) => panic!(rt; "no batches"),
    }
}

fn append(rt: &impl Abort, alloc: Global, log: &mut GateLog<MemoryDisk>, payload: &[u8]) {
    let frame = Frame::new(alloc, payload).expect(rt, "memory");
    assert!(rt; log.append(&frame).is_ok());
}

/// A log of these payloads.
fn log_of(rt: &impl Abort, alloc: Global, payloads: &[&[u8]]) -> GateLog<MemoryDisk> {
    let mut log = new_log(rt, alloc);
    for payload in payloads {
        append(rt, alloc, &mut log, payload);
    }
    log
}

/// A log of these payloads, replayed.
fn tell<T: Tables>(rt: &impl Abort, alloc: Global, said: &mut String, payloads: &[&[u8]]) {
    let mut log = log_of(rt, alloc, payloads);
    let answer = replay_log::<T>(rt, alloc, &mut log);
    told(rt, said, answer)
}

const LOGS: [&[&[u8]]; 6] = [
    &[],
    &[FIRST],
    &[FIRST, SECOND],
    &[SECOND],
    &[FIRST, FIRST, SECOND],
    &[FIRST, SECOND, b"none", FIRST],
];

fn answers<T: Tables>(rt: &impl Abort, alloc: Global) -> String {
    let mut said = String::new(alloc);
    for payloads in LOGS {
        tell::<T>(rt, alloc, &mut said, payloads);
    }
    said
}

#[test]
fn what_batches_give(rt: HostRuntime) {
    let said = answers::<FlatTables>(&rt, rt.alloc());
    assert_eq!(rt; said.as_str(), "0 1 0 1 1 @26 @78 @132 ");
}
