// What no clause says: that calls succeed with ample memory, and how the fakes behave in mid-stream.
use edge_traits::{
    Failed, Gate, MemorySink, MemorySource, OpenGate, Sink, Source, SourceError, SteadySource,
    read_all, write_all,
};
use std::alloc::Global;
use std::process::Abort;

fn bytes_of(rt: &impl Abort, alloc: Global, text: &[u8]) -> Vec<u8> {
    text.to_vec(alloc).expect(rt, "memory")
}

// The numbers of the calls that fail.
fn calls(rt: &impl Abort, alloc: Global, numbers: &[u64]) -> Vec<u64> {
    numbers.to_vec(alloc).expect(rt, "memory")
}

type Row = (Result<usize, Failed>, [u8; 4]);

// What each read of four bytes answers and leaves.
const READS: [Row; 5] = [
    (Ok(4), *b"abcd"),
    (Err(Failed), *b"...."),
    (Ok(2), *b"ef.."),
    (Ok(0), *b"...."),
    (Err(Failed), *b"...."),
];

fn reads_as(source: &mut MemorySource, row: Row) -> bool {
    let mut buf = *b"....";
    source.read(&mut buf) == row.0 && buf == row.1
}

// The calls of one source, one after another: a failing call takes nothing, and the next goes on.
#[test]
fn a_listed_call_fails_and_loses_nothing(rt: HostRuntime) {
    let bytes = bytes_of(&rt, rt.alloc(), b"abcdef");
    let mut source = MemorySource::new(bytes, calls(&rt, rt.alloc(), &[2, 5]));
    for row in READS {
        assert!(rt; reads_as(&mut source, row));
    }
}

fn repeated(rt: &impl Abort, alloc: Global, text: &[u8], times: usize) -> Vec<u8> {
    text.repeat(alloc, times).expect(rt, "memory")
}

// A source of ten thousand bytes, whose second call fails.
fn failing_source(rt: &impl Abort, alloc: Global) -> MemorySource {
    let have = repeated(rt, alloc, b"0123456789", 1000);
    MemorySource::new(have, calls(rt, alloc, &[2]))
}

fn is_told(rt: &impl Abort, alloc: Global, source: &mut MemorySource) -> bool {
    read_all(alloc, source, 65_537).expect_err(rt, "the second read fails") == SourceError::Failed
}

fn rest_is_there(rt: &impl Abort, alloc: Global, source: &mut MemorySource) -> bool {
    let rest = read_all(alloc, source, 65_537).expect(rt, "the rest");
    !rest.is_empty() && rest.ends_with(b"0123456789")
}

// The second read fails: the reading says so, and what it did not take is still there.
#[test]
fn a_failing_second_read_is_told(rt: HostRuntime) {
    let mut source = failing_source(&rt, rt.alloc());
    assert!(rt;
        is_told(&rt, rt.alloc(), &mut source) && rest_is_there(&rt, rt.alloc(), &mut source)
    );
}

type SinkRow = (u64, &'static str, Result<(), Failed>, &'static str);

// The call that fails, what is written, whether that goes well, and what the sink holds then.
const WRITES: [SinkRow; 4] = [
    (0, "session 1\nclient 1\n", Err(Failed), "session 1\n"),
    (0, "session 1\n", Ok(()), "session 1\n"),
    (1, "session 1\n", Err(Failed), ""),
    (1, "", Ok(()), ""),
];

fn sink_of_ten(rt: &impl Abort, alloc: Global, fail_at: u64) -> MemorySink {
    let fail_at = calls(rt, alloc, &[fail_at]);
    MemorySink::with_room(alloc, 10, fail_at).expect(rt, "memory")
}

fn writes_as(rt: &impl Abort, alloc: Global, row: SinkRow) -> bool {
    let (fail_at, text, answer, holds) = row;
    let mut sink = sink_of_ten(rt, alloc, fail_at);
    write_all(&mut sink, text.as_bytes()) == answer && sink.bytes() == holds.as_bytes()
}

// A sink with room for ten bytes.
#[test]
fn a_sink_keeps_what_fits(rt: HostRuntime) {
    for row in WRITES {
        assert!(rt; writes_as(&rt, rt.alloc(), row), "{}", row.1);
    }
}

// A million bytes.
fn million(rt: &impl Abort, alloc: Global) -> Vec<u8> {
    repeated(rt, alloc, b"0123456789abcdef", 65_536)
}

fn read_million(rt: &impl Abort, alloc: Global) -> Vec<u8> {
    let mut source = SteadySource::new(million(rt, alloc));
    read_all(alloc, &mut source, usize::MAX).expect(rt, "memory")
}

fn sink_for(rt: &impl Abort, alloc: Global, room: usize) -> MemorySink {
    MemorySink::with_room(alloc, room, Vec::new(alloc)).expect(rt, "memory")
}

// Whether a sink with room for the one holds it when the other is written, and takes nothing more.
fn is_kept(rt: &impl Abort, alloc: Global, have: &[u8], read: &[u8]) -> bool {
    let mut sink = sink_for(rt, alloc, have.len());
    write_all(&mut sink, read) == Ok(()) && sink.bytes() == have && sink.write(b"") == Ok(0)
}

// A million bytes go through in a blink. A full sink takes nothing, and that is all that it is given then.
#[test]
fn a_large_input_goes_through(rt: HostRuntime) {
    let have = million(&rt, rt.alloc());
    let read = read_million(&rt, rt.alloc());
    assert!(rt; is_kept(&rt, rt.alloc(), &have, &read));
    OpenGate.at(1, 2, 3);
}
