// The top call over tables: texts, refusals, and what is left of the source and the sink, over a disk in memory.
use clone_values::Text;
use disk_trait::{Area, Disk, DiskPlan, Image, MemoryDisk};
use edge_traits::{Gate, MemorySink, MemorySource, OpenGate};
use idb_base::GREATEST_LENGTH;
use script_runner::{Ended, run_words};
use std::alloc::Global;
use std::process::Abort;
use std::sync::Wait;
use std::sync::atomic::{AtomicU64, Ordering};
use std::thread::Threads;

pub(crate) const SCRIPT: &str = r#"{"sessions":[{"clients":[{"blocks":{
 "main":[{"op":"open","db":"d","upgrade":"up","success":"go"}],
 "up":[{"op":"createObjectStore","store":"s"}],
 "go":[{"op":"transaction","scope":["s"],"mode":"readwrite","body":"b"}],
 "b":[{"op":"put","store":"s","key":1,"value":7},{"op":"get","store":"s","query":1}]}}]}]}"#;

const REPORT: &str =
    "session 1\nopening\nclient 1\nopen 1 upgrade 0 1 tx 1\ntx 1 complete\nopen 1 success 1\ntx 2 create readwrite relaxed\ntx 2 req 1 success 1\ntx 2 req 2 success 7\ntx 2 complete\norder a1.1 e1 s1 f1 e1 t2.1 s2 f2\nfinish 1 2\ncommit 1 2\nend flush\n";

const TWO_CLIENTS: &str =
    r#"{"sessions":[{"clients":[{"blocks":{"main":[{"op":"say","value":1}]}},{"blocks":{"main":[]}}],"end":"drop"}]}"#;

const TWO_SESSIONS: &str =
    r#"{"sessions":[{"clients":[{"blocks":{"main":[]}}]},{"clients":[{"blocks":{"main":[]}}]}]}"#;

const TWO_REPORTS: &str =
    "session 1\nopening\nclient 1\norder\nfinish\ncommit\nend flush\nsession 2\nopening\nclient 1\norder\nfinish\ncommit\nend flush\n";

// Four commits, of which a strict one has all before it written; the last one is dropped at the session's end. The second session
// asks for the keys.
pub(crate) const FOUR_COMMITS: &str = r#"{"sessions":[{"end":"drop","clients":[{"blocks":{
 "main":[{"op":"open","db":"d","upgrade":"up","success":"go"}],
 "up":[{"op":"createObjectStore","store":"s"}],
 "go":[
  {"op":"let","name":"k","value":1},
  {"op":"transaction","scope":["s"],"mode":"readwrite","durability":"relaxed","body":"b"},
  {"op":"let","name":"k","value":2},
  {"op":"transaction","scope":["s"],"mode":"readwrite","durability":"relaxed","body":"b"},
  {"op":"let","name":"k","value":3},
  {"op":"transaction","scope":["s"],"mode":"readwrite","durability":"strict","body":"b"},
  {"op":"let","name":"k","value":4},
  {"op":"transaction","scope":["s"],"mode":"readwrite","durability":"relaxed","body":"b"}],
 "b":[{"op":"put","store":"s","key":{"$var":"k"},"value":0}]}}]},
 {"clients":[{"blocks":{
 "main":[{"op":"open","db":"d","upgrade":"up","success":"go"}],
 "up":[],
 "go":[{"op":"transaction","scope":["s"],"mode":"readonly","body":"b"}],
 "b":[{"op":"getAllKeys","store":"s"}]}}]}]}"#;

pub(crate) const FIRST: &str =
    "session 1\nopening\nclient 1\nopen 1 upgrade 0 1 tx 1\ntx 1 complete\nopen 1 success 1\ntx 2 create readwrite relaxed\ntx 3 create readwrite relaxed\ntx 4 create readwrite strict\ntx 5 create readwrite relaxed\ntx 2 req 1 success 1\ntx 2 complete\ntx 3 req 1 success 2\ntx 3 complete\ntx 4 req 1 success 3\ntx 4 complete\ntx 5 req 1 success 4\ntx 5 complete\norder a1.1 e1 s1 f1 e1 t2.1 t3.1 t4.1 t5.1 s2 f2 s3 f3 s4 f4 s5 f5\nfinish 1 2 3 4 5\ncommit 1 2 3 4 5\nend drop\n";

pub(crate) const SECOND: &str =
    "session 2\nopening\nhas \"d\" 1\nclient 1\nopen 1 success 1\ntx 1 create readonly relaxed\ntx 1 req 1 success [1,2,3]\ntx 1 complete\norder a1.1 e1 t1.1 s1 f1\nfinish 1\ncommit\nend flush\n";

// The disk failed as the strict commit was written: it is in doubt, and the fourth transaction never starts.
pub(crate) const COMMIT_IN_DOUBT: &str =
    "session 1\nopening\nclient 1\nopen 1 upgrade 0 1 tx 1\ntx 1 complete\nopen 1 success 1\ntx 2 create readwrite relaxed\ntx 3 create readwrite relaxed\ntx 4 create readwrite strict\ntx 5 create readwrite relaxed\ntx 2 req 1 success 1\ntx 2 complete\ntx 3 req 1 success 2\ntx 3 complete\ntx 4 req 1 success 3\ntx 4 abort UnknownError doubt\ntx 5 req 1 error AbortError\ntx 5 abort AbortError\nclosed 1\norder a1.1 e1 s1 f1 e1 t2.1 t3.1 t4.1 t5.1 s2 f2 s3 f3 s4 z f4 f5 e1\nfinish 1 2 3 4 5\ncommit 1 2 3\nend fault\n";

// The batch with all four commits isn't found.
pub(crate) const SECOND_WITHOUT_KEYS: &str =
    "session 2\nopening\nhas \"d\" 1\nclient 1\nopen 1 success 1\ntx 1 create readonly relaxed\ntx 1 req 1 success []\ntx 1 complete\norder a1.1 e1 t1.1 s1 f1\nfinish 1\ncommit\nend flush\n";

// The disk failed as the upgrade was written.
const UPGRADE_IN_DOUBT: &str =
    "session 1\nopening\nclient 1\nopen 1 upgrade 0 1 tx 1\ntx 1 abort UnknownError doubt\nopen 1 error AbortError\norder a1.1 e1 s1 z f1 e1\nfinish 1\ncommit\nend fault\n";

// The database isn't there, and is made without a store.
const SECOND_ALONE: &str =
    "session 2\nopening\nclient 1\nopen 1 upgrade 0 1 tx 1\ntx 1 complete\nopen 1 success 1\nrefused transaction NotFoundError\norder a1.1 e1 s1 f1 e1\nfinish 1\ncommit 1\nend flush\n";

const FLUSH_FAULT: &str =
    "session 1\nopening\nclient 1\nopen 1 upgrade 0 1 tx 1\ntx 1 complete\nopen 1 success 1\ntx 2 create readwrite relaxed\ntx 2 req 1 success 1\ntx 2 req 2 success 7\ntx 2 complete\norder a1.1 e1 s1 f1 e1 t2.1 s2 f2\nfinish 1 2\ncommit 1 2\nend fault\n";

const MISSPELT: &str =
    r#"{"sessions":[{"clients":[{"blocks":{"main":[{"op":"say","valu":1}]}}]}]}"#;

// Three puts in the transaction 2 of client 1, the third by a handler, and one in the transaction 3 of client 2.
const FOUR_PUTS: &str = r#"{"sessions":[{"clients":[{"blocks":{
 "main":[{"op":"open","db":"d","upgrade":"up","success":"go"}],
 "up":[{"op":"createObjectStore","store":"s"}],
 "go":[{"op":"transaction","scope":["s"],"mode":"readwrite","body":"b"}],
 "b":[{"op":"put","store":"s","key":1,"value":7},{"op":"put","store":"s","key":2,"value":7,"success":"h"}],
 "h":[{"op":"put","store":"s","key":3,"value":7}]}},{"blocks":{
 "main":[{"op":"open","db":"d","success":"go"}],
 "go":[{"op":"transaction","scope":["s"],"mode":"readwrite","body":"b"}],
 "b":[{"op":"put","store":"s","key":4,"value":7}]}}]}]}"#;

// Adds up what it is told: 10,000 a client, 100 a transaction, and the request.
#[derive(Drop)]
struct CountingGate {
    calls: AtomicU64,
    sum: AtomicU64,
}

impl Gate for CountingGate {
    fn at(&self, client: u32, tx: u64, request: u32) {
        if client < 100 && tx < 100 && request < 100 {
            self.calls.fetch_add(1, Ordering::SeqCst);
            self.sum.fetch_add(
                u64::from(client) * 10_000 + tx * 100 + u64::from(request),
                Ordering::SeqCst,
            );
        }
    }
}

pub(crate) fn words_of(rt: &impl Abort, alloc: Global, texts: &[&str]) -> Vec<Text> {
    let mut words = Vec::new(alloc);
    for text in texts {
        assert!(rt; text.len() <= GREATEST_LENGTH);
        words
            .push(Text::copy_of(alloc, text).expect(rt, "memory"))
            .expect(rt, "memory");
    }
    words
}

// A disk with two blank areas, whose calls of these numbers fail. A restart finds what was synced.
fn blank(rt: &impl Abort, alloc: Global, failing_calls: &[u64]) -> MemoryDisk {
    let plan = DiskPlan {
        fail_at: Vec::from_slice(alloc, failing_calls).expect(rt, "memory"),
        stop_after: None,
        image: Image::Dropped,
    };
    MemoryDisk::with_room(alloc, 100_000, 1000, plan).expect(rt, "memory")
}

// The number of the status, the line, and what was written.
fn run_on<R: Threads + Wait + Sync + Abort>(
    rt: &R,
    alloc: Global,
    texts: &[&str],
    input: &[u8],
    failing_reads: &[u64],
    room: usize,
    disk: MemoryDisk,
) -> (u8, String, String) {
    let words = words_of(rt, alloc, texts);
    let mut source = MemorySource::new(
        Vec::from_slice(alloc, input).expect(rt, "memory"),
        Vec::from_slice(alloc, failing_reads).expect(rt, "memory"),
    );
    let mut sink = MemorySink::with_room(alloc, room, Vec::new(alloc)).expect(rt, "memory");
    let Ended { status, disk: _ } = run_words(
        rt,
        alloc,
        words.as_slice(),
        &mut source,
        &mut sink,
        disk,
        &OpenGate,
    );
    let line = format!(in alloc; "{status}").expect(rt, "memory");
    let text = String::from_utf8_lossy(alloc, sink.bytes()).expect(rt, "memory");
    (status.number(), line, text)
}

#[test]
fn prints_the_report(rt: HostRuntime) {
    let cases = [
        (SCRIPT, REPORT),
        (
            TWO_CLIENTS,
            "session 1\nopening\nclient 1\nsay 1\nclient 2\norder\nfinish\ncommit\nend drop\n",
        ),
        (TWO_SESSIONS, TWO_REPORTS),
    ];
    for (input, report) in cases {
        let (status, line, text) = run_on(
            &rt,
            rt.alloc(),
            &["run"],
            input.as_bytes(),
            &[],
            4096,
            blank(&rt, rt.alloc(), &[]),
        );
        assert_eq!(rt; (status, line.as_str()), (0, ""), "{input}");
        assert_eq!(rt; text.as_str(), report, "{input}");
    }
}

#[test]
fn refuses_and_fails(rt: HostRuntime) {
    let cases: [(&str, &[u64], usize, u8, &str, &str); 10] = [
        ("", &[], 4096, 4, "idbrun: bad script at 0", ""),
        (
            "{\"sessions\":[",
            &[],
            4096,
            4,
            "idbrun: bad script at 0",
            "",
        ),
        ("[]", &[], 4096, 4, "idbrun: bad script at 1", ""),
        (
            "{\"sessions\":3}",
            &[],
            4096,
            4,
            "idbrun: bad script at 2",
            "",
        ),
        (MISSPELT, &[], 4096, 4, "idbrun: bad script at 8", ""),
        (
            TWO_SESSIONS,
            &[],
            67,
            6,
            "idbrun: write fault",
            "session 1\nopening\nclient 1\norder\nfinish\ncommit\nend flush\nsession 2\n",
        ),
        (SCRIPT, &[1], 4096, 5, "idbrun: read fault", ""),
        (SCRIPT, &[2], 4096, 5, "idbrun: read fault", ""),
        (SCRIPT, &[], 10, 6, "idbrun: write fault", "session 1\n"),
        (SCRIPT, &[], 0, 6, "idbrun: write fault", ""),
    ];
    for (input, failing_reads, room, number, line, text) in cases {
        let (found, said, written) = run_on(
            &rt,
            rt.alloc(),
            &["run"],
            input.as_bytes(),
            failing_reads,
            room,
            blank(&rt, rt.alloc(), &[]),
        );
        assert_eq!(rt; (found, said.as_str()), (number, line), "{input}");
        assert_eq!(rt; written.as_str(), text, "{input}");
    }
}

#[test]
fn refuses_a_script_that_is_too_long(rt: HostRuntime) {
    let input = vec![in rt.alloc(); b' '; 16_777_217].expect(&rt, "memory");
    let (found, said, written) = run_on(
        &rt,
        rt.alloc(),
        &["run"],
        input.as_slice(),
        &[],
        4096,
        blank(&rt, rt.alloc(), &[]),
    );
    assert_eq!(rt; (found, said.as_str()), (3, "idbrun: script too long"));
    assert_eq!(rt; written.as_str(), "");
}

#[test]
fn takes_the_one_word(rt: HostRuntime) {
    let cases: [&[&str]; 4] = [&[], &["x"], &["run", "x"], &["run", "--drivers", "0"]];
    for texts in cases {
        let (found, said, written) = run_on(
            &rt,
            rt.alloc(),
            texts,
            SCRIPT.as_bytes(),
            &[],
            4096,
            blank(&rt, rt.alloc(), &[]),
        );
        assert_eq!(rt; (found, said.as_str()), (2, "idbrun: usage: idbrun run"));
        assert_eq!(rt; written.as_str(), "");
    }
}

fn joined(rt: &impl Abort, alloc: Global, texts: &[&str]) -> String {
    let mut whole = String::new(alloc);
    for text in texts {
        whole.push_str(text).expect(rt, "memory");
    }
    whole
}

// The eleven calls of the first opening are followed by the four of the upgrade, which is strict, and the four of the strict commit;
// the twentieth is the restart. A session within which the disk fails ends by that.
#[test]
fn opens_what_the_session_before_left(rt: HostRuntime) {
    let cases: [(&[u64], u8, &str, &[&str]); 6] = [
        (&[], 0, "", &[FIRST, SECOND]),
        (&[3], 7, "idbrun: disk fault", &[]),
        (&[12], 0, "", &[UPGRADE_IN_DOUBT, SECOND_ALONE]),
        (&[17], 0, "", &[COMMIT_IN_DOUBT, SECOND_WITHOUT_KEYS]),
        (&[20], 7, "idbrun: disk fault", &[FIRST]),
        (&[21], 7, "idbrun: disk fault", &[FIRST]),
    ];
    for (failing_calls, number, line, reports) in cases {
        let (found, said, written) = run_on(
            &rt,
            rt.alloc(),
            &["run"],
            FOUR_COMMITS.as_bytes(),
            &[],
            4096,
            blank(&rt, rt.alloc(), failing_calls),
        );
        assert_eq!(rt; (found, said.as_str()), (number, line), "{failing_calls:?}");
        let wanted = joined(&rt, rt.alloc(), reports);
        assert_eq!(rt; written.as_str(), wanted.as_str(), "{failing_calls:?}");
    }
}

// The sixteenth call is the first of the flush.
#[test]
fn ends_by_a_fault_of_the_last_flush(rt: HostRuntime) {
    let (found, said, written) = run_on(
        &rt,
        rt.alloc(),
        &["run"],
        SCRIPT.as_bytes(),
        &[],
        4096,
        blank(&rt, rt.alloc(), &[16]),
    );
    assert_eq!(rt; (found, said.as_str()), (0, ""));
    assert_eq!(rt; written.as_str(), FLUSH_FAULT);
}

#[test]
fn says_where_the_disk_is_damaged(rt: HostRuntime) {
    let cases: [(&[u8], &str); 2] = [
        (b"\xa5IDBLOG02", "idbrun: damaged area 0 at 1"),
        (b"\xa5IDBLOG01\x00\x00", "idbrun: damaged area 0 at 9"),
    ];
    for (bytes, line) in cases {
        let mut disk = blank(&rt, rt.alloc(), &[]);
        disk.write_at(Area::Zero, 0, bytes).expect(&rt, "a write");
        let (found, said, written) = run_on(
            &rt,
            rt.alloc(),
            &["run"],
            TWO_SESSIONS.as_bytes(),
            &[],
            4096,
            disk,
        );
        assert_eq!(rt; (found, said.as_str()), (8, line));
        assert_eq!(rt; written.as_str(), "");
    }
}

#[test]
fn tells_the_gate_of_each_request(rt: HostRuntime) {
    let words = words_of(&rt, rt.alloc(), &["run"]);
    let mut source = MemorySource::new(
        Vec::from_slice(rt.alloc(), FOUR_PUTS.as_bytes()).expect(&rt, "memory"),
        Vec::new(rt.alloc()),
    );
    let mut sink = MemorySink::with_room(rt.alloc(), 4096, Vec::new(rt.alloc())).expect(
        &rt, "memory",
    );
    let gate = CountingGate {
        calls: AtomicU64::new(0),
        sum: AtomicU64::new(0),
    };
    let ended = run_words(
        &rt,
        rt.alloc(),
        words.as_slice(),
        &mut source,
        &mut sink,
        blank(&rt, rt.alloc(), &[]),
        &gate,
    );
    assert!(rt; ended.status.is_done());
    assert_eq!(rt; gate.calls.load(Ordering::SeqCst), 4);
    assert_eq!(rt;
        gate.sum.load(Ordering::SeqCst),
        10_201 + 10_202 + 10_203 + 20_301
    );
}
