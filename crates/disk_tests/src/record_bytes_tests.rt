// Worked batches, each byte of them. The expected answers are those of docs/batch_reader.py.
use idb_calls::{Events, Outcome, TxTrace};
use idb_keys::{Durability, Mode};
use record_bytes::*;
use std::alloc::Global;
use std::process::Abort;
use value_bytes::SpellingError;

/// An upgrade: a version, and a new store.
const FIRST: &[u8] = b"\x00\x00\x00\x01\
    \x00\x00\x00\x00\x00\x00\x00\x01\
    \x00\x00\x00\x02\
    1\x00\x00\x00\x01d\x00\x00\x00\x00\x00\x00\x00\x01\
    3\x00\x00\x00\x01d\x00\x00\x00\x01s@\x00";

/// A put.
const SECOND: &[u8] = b"\x00\x00\x00\x01\
    \x00\x00\x00\x00\x00\x00\x00\x02\
    \x00\x00\x00\x01\
    7\x00\x00\x00\x01d\x00\x00\x00\x01s\
    !\x00\x00\x00\x00\x00\x00\x00\x01\x04\x00\x00\x00\x00\x00\x00\x00\x07";

/// Each other kind of change.
const THIRD: &[u8] = b"\x00\x00\x00\x01\
    \x00\x00\x00\x00\x00\x00\x00\x03\
    \x00\x00\x00\x0a\
    1\x00\x00\x00\x01d\x00\x00\x00\x00\x00\x00\x00\x02\
    3\x00\x00\x00\x01d\x00\x00\x00\x01sA\x00\x00\x00\x01k\x01\
    5\x00\x00\x00\x01d\x00\x00\x00\x01s\x00\x00\x00\x01iA\x00\x00\x00\x03a.b\x01\x01\
    5\x00\x00\x00\x01d\x00\x00\x00\x01s\x00\x00\x00\x01jB\x00\x00\x00\x02\x00\x00\x00\x00\x00\x00\x00\x01c\x00\x00\
    :\x00\x00\x00\x01d\x00\x00\x00\x01s\x00\x00\x00\x00\x00\x00\x00\x02\
    6\x00\x00\x00\x01d\x00\x00\x00\x01s\x00\x00\x00\x01i\
    8\x00\x00\x00\x01d\x00\x00\x00\x01s#\x00\x00\x00\x01x\
    9\x00\x00\x00\x01d\x00\x00\x00\x01s\
    4\x00\x00\x00\x01d\x00\x00\x00\x01s\
    2\x00\x00\x00\x01d";

#[derive(Clone, Copy)]
enum Change {
    More,
    Less,
    Cut,
    Doubled,
    Front,
}

const CHANGES: [Change; 5] = [
    Change::More,
    Change::Less,
    Change::Cut,
    Change::Doubled,
    Change::Front,
];

fn put(rt: &impl Abort, out: &mut Vec<u8>, bytes: &[u8]) {
    out.extend_from_slice(bytes).expect(rt, "memory")
}

/// Puts the changed byte, and what stands behind it.
fn put_changed(rt: &impl Abort, out: &mut Vec<u8>, byte: u8, rest: &[u8], change: Change) {
    match change {
        Change::More => put(rt, out, &[byte.wrapping_add(1)]),
        Change::Less => put(rt, out, &[byte.wrapping_sub(1)]),
        Change::Cut => {}
        Change::Doubled => put(rt, out, &[byte, byte]),
        Change::Front => return,
    }
    put(rt, out, rest)
}

fn put_with_change(rt: &impl Abort, out: &mut Vec<u8>, bytes: &[u8], place: usize, change: Change) {
    if place > bytes.len() {
        return;
    }
    let (front, behind) = bytes.split_at(place);
    put(rt, out, front);
    match behind {
        [byte, rest @ ..] => put_changed(rt, out, *byte, rest, change),
        [] => {}
    }
}

/// The byte at this place is one more or one less, is cut, stands twice, or goes with all behind it.
fn changed(rt: &impl Abort, alloc: Global, bytes: &[u8], place: usize, change: Change) -> Vec<u8> {
    let mut out = Vec::new(alloc);
    put_with_change(rt, &mut out, bytes, place, change);
    out
}

/// Whether the bytes are a batch.
fn word(alloc: Global, bytes: &[u8]) -> &'static str {
    match read_batch(alloc, bytes) {
        Ok(_) => "y",
        Err(SpellingError::NotInGrammar) => "n",
        Err(SpellingError::NoMemory) => "m",
    }
}

fn told(rt: &impl Abort, alloc: Global, said: &mut String, bytes: &[u8]) {
    said.push_str(word(alloc, bytes)).expect(rt, "memory")
}

fn tell_changed(
    rt: &impl Abort,
    alloc: Global,
    said: &mut String,
    bytes: &[u8],
    place: usize,
    change: Change,
) {
    let bytes = changed(rt, alloc, bytes, place, change);
    told(rt, alloc, said, &bytes)
}

/// A letter for each place.
fn line(rt: &impl Abort, alloc: Global, said: &mut String, bytes: &[u8], change: Change) {
    for place in 0..bytes.len() {
        tell_changed(rt, alloc, said, bytes, place, change);
    }
    said.push_str("\n").expect(rt, "memory")
}

/// A line for each change, and in it a letter for each place.
fn answers(rt: &impl Abort, alloc: Global, bytes: &[u8]) -> String {
    let mut said = String::new(alloc);
    for change in CHANGES {
        line(rt, alloc, &mut said, bytes, change);
    }
    said
}

#[test]
fn each_byte_of_the_first(rt: HostRuntime) {
    let said = answers(&rt, rt.alloc(), FIRST);
    assert_eq!(rt;
        said.as_str(),
        "nnnnyyyyyyyynnnnnnnnnynyyyyyyynnnnnynnnnyny\n\
         nnnnyyyyyyyynnnnnnnnnynnyyyyynnnnnnynnnnynn\n\
         nnnnnnnnnnnnnnnnnnnnnnnnnnnnnnnnnnnnnnnnnnn\n\
         nnnnnnnnnnnnnnnnnnnnnnnnnnnnnnnnnnnnnnnnnnn\n\
         nnnnnnnnnnnnnnnnnnnnnnnnnnnnnnnnnnnnnnnnnnn\n"
    );
}

#[test]
fn each_byte_of_the_second(rt: HostRuntime) {
    let said = answers(&rt, rt.alloc(), SECOND);
    assert_eq!(rt;
        said.as_str(),
        "nnnnyyyyyyyynnnnnnnnnynnnnyynyyyyyyynnyyyyyyy\n\
         nnnnyyyyyyyynnnnnnnnnynnnnynnnyyyyyynnnyyyyyy\n\
         nnnnnnnnnnnnnnnnnnnnnnnnnnnnnnnnnnnnnnnnnnnnn\n\
         nnnnnnnnnnnnnnnnnnnnnnnnnnnnnnnnnnnnnnnnnnnnn\n\
         nnnnnnnnnnnnnnnnnnnnnnnnnnnnnnnnnnnnnnnnnnnnn\n"
    );
}

#[test]
fn each_byte_of_the_third(rt: HostRuntime) {
    let said = answers(&rt, rt.alloc(), THIRD);
    assert_eq!(rt;
        said.as_str(),
        "nnnnyyyyyyyynnnnnnnnnynyyyyyyynnnnnynnnnynnnnnynnnnnnynnnnynnnnynnnnnynynnnnnnnynnnnynnnnynnnnnnnnnnnnnyynnnnnnynnnnynyyyyyyynnnnnynnnnynnnnynnnnnynnnnyynnnnynnnnnynnnnynnnnnynnnnynnnnny\n\
         nnnnyyyyyyyynnnnnnnnnynnyyyyyynnnnnynnnnynnnnnyynnnnnynnnnynnnnynnnnnnnyyynnnnnynnnnynnnnynnnnnnnnnnnnnynnnnnnnynnnnynnyyyyyynnnnnynnnnynnnnynnnnnynnnnynnnnnynnnnnynnnnynnnnnynnnnynnnnny\n\
         nnnnnnnnnnnnnnnnnnnnnnnnnnnnnnnnnnnnnnnnnnnnnnnnnnnnnnnnnnnnnnnnnnnnnnnnnnnnnnnnnnnnnnnnnnnnnnnnnnnnnnnnnnnnnnnnnnnnnnnnnnnnnnnnnnnnnnnnnnnnnnnnnnnnnnnnnnnnnnnnnnnnnnnnnnnnnnnnnnnnnnnnnn\n\
         nnnnnnnnnnnnnnnnnnnnnnnnnnnnnnnnnnnnnnnnnnnnnnnnnnnnnnnnnnnnnnnnnnnnnnnnnnnnnnnnnnnnnnnnnnnnnnnnnnnnnnnnnnnnnnnnnnnnnnnnnnnnnnnnnnnnnnnnnnnnnnnnnnnnnnnnnnnnnnnnnnnnnnnnnnnnnnnnnnnnnnnnnn\n\
         nnnnnnnnnnnnnnnnnnnnnnnnnnnnnnnnnnnnnnnnnnnnnnnnnnnnnnnnnnnnnnnnnnnnnnnnnnnnnnnnnnnnnnnnnnnnnnnnnnnnnnnnnnnnnnnnnnnnnnnnnnnnnnnnnnnnnnnnnnnnnnnnnnnnnnnnnnnnnnnnnnnnnnnnnnnnnnnnnnnnnnnnnn\n"
    );
}

/// The last record of the batch, written again.
fn rewritten(rt: &impl Abort, alloc: Global, bytes: &[u8]) -> Vec<u8> {
    let mut out = Vec::new(alloc);
    let mut records = read_batch(alloc, bytes).expect(rt, "a batch").into_vec();
    if let Some(record) = records.pop() {
        let trace = TxTrace {
            number: record.number,
            mode: Mode::ReadWrite,
            durability: Durability::Relaxed,
            deltas: record.deltas,
            lines: Events::new(alloc),
            outcome: Outcome::Committed,
        };
        write_record(&mut out, &trace).expect(rt, "memory");
    }
    out
}

fn is_written_again(rt: &impl Abort, alloc: Global, bytes: &[u8]) -> bool {
    let out = rewritten(rt, alloc, bytes);
    out.as_slice().get(0..) == bytes.get(4..)
}

#[test]
fn records_are_written_as_they_were_read(rt: HostRuntime) {
    for bytes in [FIRST, SECOND, THIRD] {
        assert!(rt; is_written_again(&rt, rt.alloc(), bytes));
    }
}

const TRIED: [&[u8]; 6] = [
    b"",
    b"\0\0\0\0",
    b"\xff\xff\xff\xff\0\0\0\0\0\0\0\x01\0\0\0\0",
    b"\0\0\0\x01\0\0\0\0\0\0\0\x01\xff\xff\xff\xff",
    b"\0\0\0\x01\0\0\0\0\0\0\0\x01\0\0\0\0\0",
    b"\0\0\0\x02\0\0\0\0\0\0\0\x01\0\0\0\0\0\0\0\0\0\0\0\x02\0\0\0\0",
];

fn tried(rt: &impl Abort, alloc: Global) -> String {
    let mut said = String::new(alloc);
    for bytes in TRIED {
        told(rt, alloc, &mut said, bytes);
    }
    said
}

/// No record at all, more records than there are, and more bytes than the batch; and then two records.
#[test]
fn counts_and_ends(rt: HostRuntime) {
    let said = tried(&rt, rt.alloc());
    assert_eq!(rt; said.as_str(), "nnnnny");
}
