// Runs of worked scripts on a disk in memory: what a run finds where the disk stopped or failed as a batch was written, areas that were
// cut or changed, and the bytes and batches that a run leaves. The calls of the disk and the places of the bytes were counted by hand.
use crate::script_runner_tests::{
    COMMIT_IN_DOUBT, FIRST, FOUR_COMMITS, SCRIPT, SECOND, SECOND_WITHOUT_KEYS, words_of,
};
use clone_values::{Key, Value};
use disk_trait::{Area, DiskPlan, Image, MemoryDisk};
use edge_traits::{MemorySink, MemorySource, OpenGate};
use idb_databases::Database;
use idb_recovery::{AreaFound, BatchLine, Looked, RecoverError, look};
use index_tables::{FlatTables, Tables};
use object_stores::StoreVersion;
use script_runner::{Ended, run_words};
use std::alloc::Global;
use std::process::Abort;
use std::sync::Wait;
use std::thread::Threads;

/// Asks for the keys; a database that isn't there is made.
const READING: &str = r#"{"sessions":[{"clients":[{"blocks":{
 "main":[{"op":"open","db":"d","upgrade":"up","success":"go"}],
 "up":[{"op":"createObjectStore","store":"s"}],
 "go":[{"op":"transaction","scope":["s"],"mode":"readonly","body":"b"}],
 "b":[{"op":"getAllKeys","store":"s"}]}}]}]}"#;

const READS_A_NEW_ONE: &str =
    "session 1\nopening\nclient 1\nopen 1 upgrade 0 1 tx 1\ntx 1 complete\nopen 1 success 1\ntx 2 create readonly relaxed\ntx 2 req 1 success []\ntx 2 complete\norder a1.1 e1 s1 f1 e1 t2.1 s2 f2\nfinish 1 2\ncommit 1\nend flush\n";

const READS_NO_KEY: &str =
    "session 1\nopening\nhas \"d\" 1\nclient 1\nopen 1 success 1\ntx 1 create readonly relaxed\ntx 1 req 1 success []\ntx 1 complete\norder a1.1 e1 t1.1 s1 f1\nfinish 1\ncommit\nend flush\n";

const READS_ONE_KEY: &str =
    "session 1\nopening\nhas \"d\" 1\nclient 1\nopen 1 success 1\ntx 1 create readonly relaxed\ntx 1 req 1 success [1]\ntx 1 complete\norder a1.1 e1 t1.1 s1 f1\nfinish 1\ncommit\nend flush\n";

const READS_THREE_KEYS: &str =
    "session 1\nopening\nhas \"d\" 1\nclient 1\nopen 1 success 1\ntx 1 create readonly relaxed\ntx 1 req 1 success [1,2,3]\ntx 1 complete\norder a1.1 e1 t1.1 s1 f1\nfinish 1\ncommit\nend flush\n";

/// A word for each report.
const KNOWN: [(&str, &str); 8] = [
    (FIRST, "complete"),
    (COMMIT_IN_DOUBT, "doubt"),
    (SECOND, "[1,2,3]"),
    (SECOND_WITHOUT_KEYS, "[]"),
    (READS_A_NEW_ONE, "new"),
    (READS_NO_KEY, "[]"),
    (READS_ONE_KEY, "[1]"),
    (READS_THREE_KEYS, "[1,2,3]"),
];

/// The word for the first of these reports; and the rest.
fn tell_report<'a>(rt: &impl Abort, said: &mut String, text: &'a str) -> &'a str {
    for (report, word) in KNOWN {
        if let Some(rest) = text.strip_prefix(report) {
            write!(said, " {word}").expect(rt, "memory");
            return rest;
        }
    }
    text
}

/// Runs a script. The line of its status, and its reports, are told; the disk is handed back.
fn run<R: Threads + Wait + Sync + Abort>(
    rt: &R,
    alloc: Global,
    said: &mut String,
    script: &str,
    disk: MemoryDisk,
) -> MemoryDisk {
    let words = words_of(rt, alloc, &["run"]);
    let mut source = MemorySource::new(
        Vec::from_slice(alloc, script.as_bytes()).expect(rt, "memory"),
        Vec::new(alloc),
    );
    let mut sink = MemorySink::with_room(alloc, 4096, Vec::new(alloc)).expect(rt, "memory");
    let Ended { status, disk } = run_words(
        rt,
        alloc,
        words.as_slice(),
        &mut source,
        &mut sink,
        disk,
        &OpenGate,
    );
    let text = String::from_utf8_lossy(alloc, sink.bytes()).expect(rt, "memory");
    let rest = tell_report(rt, said, text.as_str());
    let rest = tell_report(rt, said, rest);
    said.push_str(rest).expect(rt, "memory");
    if !status.is_done() {
        write!(said, " {status}").expect(rt, "memory");
    }
    disk
}

/// A disk with two blank areas.
fn planned(
    rt: &impl Abort,
    alloc: Global,
    fail_at: &[u64],
    stop_after: Option<u64>,
    image: Image,
) -> MemoryDisk {
    let plan = DiskPlan {
        fail_at: Vec::from_slice(alloc, fail_at).expect(rt, "memory"),
        stop_after,
        image,
    };
    MemoryDisk::with_room(alloc, 100_000, 1000, plan).expect(rt, "memory")
}

fn blank(rt: &impl Abort, alloc: Global) -> MemoryDisk {
    planned(rt, alloc, &[], None, Image::Kept)
}

/// What a disk does at a call: it stops, that call fails, or that call and the next one.
#[derive(Clone, Copy, Debug)]
enum Trouble {
    Stop,
    Fault,
    TwoFaults,
}

fn troubled(
    rt: &impl Abort,
    alloc: Global,
    trouble: Trouble,
    call: u64,
    image: Image,
) -> MemoryDisk {
    match trouble {
        Trouble::Stop => planned(rt, alloc, &[], call.checked_sub(1), image),
        Trouble::Fault => planned(rt, alloc, &[call], None, image),
        Trouble::TwoFaults => planned(rt, alloc, &[call, call.wrapping_add(1)], None, image),
    }
}

/// A trouble, what a restart finds, and at how many calls from the sixteenth on there is trouble, one at a time.
type Row = (Trouble, Image, u64);

const ROWS: [Row; 9] = [
    (Trouble::Stop, Image::Kept, 5),
    (Trouble::Stop, Image::Dropped, 5),
    (Trouble::Stop, Image::Byte(0xa5), 5),
    (Trouble::Stop, Image::Byte(0), 5),
    (Trouble::Fault, Image::Kept, 5),
    (Trouble::Fault, Image::Dropped, 5),
    (Trouble::Fault, Image::Byte(0xa5), 5),
    (Trouble::Fault, Image::Byte(0), 5),
    (Trouble::TwoFaults, Image::Dropped, 4),
];

/// The runs of a row: two sessions with trouble in the first, and a later run on the disk that they hand back.
fn tell_row<R: Threads + Wait + Sync + Abort>(rt: &R, alloc: Global, said: &mut String, row: Row) {
    let (trouble, image, calls) = row;
    write!(said, "{trouble:?} {image:?}").expect(rt, "memory");
    for call in 0..calls {
        said.push_str(" |").expect(rt, "memory");
        let disk = troubled(rt, alloc, trouble, call.wrapping_add(16), image);
        let disk = run(rt, alloc, said, FOUR_COMMITS, disk);
        let _ = run(rt, alloc, said, READING, disk);
    }
    said.push_str("\n").expect(rt, "memory");
}

fn rows_told<R: Threads + Wait + Sync + Abort>(rt: &R, alloc: Global) -> String {
    let mut said = String::new(alloc);
    for row in ROWS {
        tell_row(rt, alloc, &mut said, row);
    }
    said
}

/// The strict commit writes the batch of three transactions at the sixteenth call and syncs it at the seventeenth, opens its gate at the
/// eighteenth and syncs it at the nineteenth; the restart comes next. Where that fails too, no session behind it is opened, and what was
/// written stands.
#[test]
fn a_batch_is_found_whole_or_not_at_all(rt: HostRuntime) {
    let said = rows_told(&rt, rt.alloc());
    assert_eq!(rt;
        said.as_str(),
        "Stop Kept | doubt [] [] | doubt [] [] | doubt [1,2,3] [1,2,3] | doubt [1,2,3] [1,2,3] | complete [1,2,3] [1,2,3]\n\
         Stop Dropped | doubt [] [] | doubt [] [] | doubt [] [] | doubt [] [] | complete [1,2,3] [1,2,3]\n\
         Stop Byte(165) | doubt [] [] | doubt [] [] | doubt [1,2,3] [1,2,3] | doubt [1,2,3] [1,2,3] | complete [1,2,3] [1,2,3]\n\
         Stop Byte(0) | doubt [] [] | doubt [] [] | doubt [] [] | doubt [] [] | complete [1,2,3] [1,2,3]\n\
         Fault Kept | doubt [] [] | doubt [] [] | doubt [1,2,3] [1,2,3] | doubt [1,2,3] [1,2,3] | complete idbrun: disk fault [1,2,3]\n\
         Fault Dropped | doubt [] [] | doubt [] [] | doubt [] [] | doubt [] [] | complete idbrun: disk fault [1,2,3]\n\
         Fault Byte(165) | doubt [] [] | doubt [] [] | doubt [1,2,3] [1,2,3] | doubt [1,2,3] [1,2,3] | complete idbrun: disk fault [1,2,3]\n\
         Fault Byte(0) | doubt [] [] | doubt [] [] | doubt [] [] | doubt [] [] | complete idbrun: disk fault [1,2,3]\n\
         TwoFaults Dropped | doubt idbrun: disk fault [] | doubt idbrun: disk fault [] | doubt idbrun: disk fault [1,2,3] | doubt idbrun: disk fault [1,2,3]\n"
    );
}

/// The area that the first script leaves: the head with generation 1, the batch of the upgrade at 17 with 43 bytes, the batch of the put at
/// 69 with 45 bytes, and the closed gate at 123.
const WORKED: [u8; 124] = *b"\xa5IDBLOG01\x00\x00\x00\x00\x00\x00\x00\x01\
    \xa5\x00\x00\x00\x00\x00\x00\x00\x2b\
    \x00\x00\x00\x01\
    \x00\x00\x00\x00\x00\x00\x00\x01\
    \x00\x00\x00\x02\
    \x31\x00\x00\x00\x01d\x00\x00\x00\x00\x00\x00\x00\x01\
    \x33\x00\x00\x00\x01d\x00\x00\x00\x01s\x40\x00\
    \xa5\x00\x00\x00\x00\x00\x00\x00\x2d\
    \x00\x00\x00\x01\
    \x00\x00\x00\x00\x00\x00\x00\x02\
    \x00\x00\x00\x01\
    \x37\x00\x00\x00\x01d\x00\x00\x00\x01s\
    \x21\x00\x00\x00\x00\x00\x00\x00\x01\x04\x00\x00\x00\x00\x00\x00\x00\x07\
    \x00";

#[test]
fn the_first_script_leaves_these_bytes(rt: HostRuntime) {
    let mut said = String::new(rt.alloc());
    let disk = blank(&rt, rt.alloc());
    let disk = run(&rt, rt.alloc(), &mut said, SCRIPT, disk);
    assert_eq!(rt;
        (disk.bytes(Area::Zero), disk.bytes(Area::One)),
        (WORKED.as_slice(), [].as_slice())
    );
}

/// So many bytes of the worked area, with another byte at a place; those past its end are 55.
type Part = (usize, usize, u8);

const PARTS: [Part; 14] = [
    (0, 0, 0xa5),
    (1, 0, 0xa5),
    (18, 0, 0xa5),
    (124, 0, 0xa5),
    (124, 0, 0x5a),
    (124, 1, 0x4a),
    (17, 0, 0xa5),
    (60, 0, 0xa5),
    (100, 0, 0xa5),
    (124, 29, 2),
    (124, 104, b't'),
    (124, 69, 0x5a),
    (124, 123, 1),
    (134, 0, 0xa5),
];

fn bytes_of(rt: &impl Abort, alloc: Global, part: Part) -> Vec<u8> {
    let (len, changed, other) = part;
    let mut bytes = Vec::new(alloc);
    for place in 0..len {
        let byte = WORKED.get(place).copied().unwrap_or(0x55);
        bytes
            .push(if place == changed { other } else { byte })
            .expect(rt, "memory");
    }
    bytes
}

/// What a run finds in such an area, and how long it is afterwards.
fn tell_part<R: Threads + Wait + Sync + Abort>(
    rt: &R,
    alloc: Global,
    said: &mut String,
    part: Part,
) {
    let bytes = bytes_of(rt, alloc, part);
    let mut disk = blank(rt, alloc);
    assert!(rt; disk.write_at(Area::Zero, 0, &bytes).is_ok());
    write!(said, "{part:?}").expect(rt, "memory");
    let disk = run(rt, alloc, said, READING, disk);
    let left = disk.bytes(Area::Zero);
    let kept = if left == bytes.as_slice() {
        " as before"
    } else {
        ""
    };
    writeln!(said, ", {}{kept}", left.len()).expect(rt, "memory");
}

fn parts_told<R: Threads + Wait + Sync + Abort>(rt: &R, alloc: Global) -> String {
    let mut said = String::new(alloc);
    for part in PARTS {
        tell_part(rt, alloc, &mut said, part);
    }
    said
}

#[test]
fn areas_that_were_cut_or_changed_are_found_or_named(rt: HostRuntime) {
    let said = parts_told(&rt, rt.alloc());
    assert_eq!(rt;
        said.as_str(),
        "(0, 0, 165) new, 70\n\
         (1, 0, 165) new, 70\n\
         (18, 0, 165) new, 70\n\
         (124, 0, 165) [1], 124 as before\n\
         (124, 0, 90) new, 70\n\
         (124, 1, 74) idbrun: damaged area 0 at 1, 124 as before\n\
         (17, 0, 165) idbrun: damaged area 0 at 17, 17 as before\n\
         (60, 0, 165) idbrun: damaged area 0 at 18, 60 as before\n\
         (100, 0, 165) idbrun: damaged area 0 at 70, 100 as before\n\
         (124, 29, 2) idbrun: damaged area 0 at 26, 124 as before\n\
         (124, 104, 116) idbrun: damaged area 0 at 78, 124 as before\n\
         (124, 69, 90) [], 70\n\
         (124, 123, 1) [1], 124\n\
         (134, 0, 165) [1], 124\n"
    );
}

/// An upgrade whose handler throws.
const THROWN: &str = r#"{"sessions":[{"clients":[{"blocks":{
 "main":[{"op":"open","db":"d","upgrade":"up","success":"go"}],
 "up":[{"op":"createObjectStore","store":"s"},{"op":"throw"}],
 "go":[]}}]}]}"#;

/// The place of a batch, its length and its numbers.
fn tell_line(rt: &impl Abort, said: &mut String, line: &BatchLine) {
    write!(said, " {}+{}", line.place, line.length).expect(rt, "memory");
    for number in line.numbers.as_slice() {
        write!(said, ":{number}").expect(rt, "memory");
    }
}

/// The generation of an open area, and its batches.
fn tell_open(rt: &impl Abort, said: &mut String, generation: u64, batches: &[BatchLine]) {
    write!(said, "generation {generation}").expect(rt, "memory");
    for line in batches {
        tell_line(rt, said, line);
    }
}

fn tell_area(rt: &impl Abort, said: &mut String, area: &AreaFound) {
    match area {
        AreaFound::Blank => said.push_str("blank").expect(rt, "memory"),
        AreaFound::Open {
            generation,
            batches,
        } => tell_open(rt, said, *generation, batches.as_slice()),
    }
}

/// A number, and the one that it is the key of.
fn tell_record(rt: &impl Abort, said: &mut String, record: Option<(&Key, &Value)>) {
    match record {
        Some((Key::Number(key), Value::Int(value))) => write!(said, " {key}={value}").expect(
            rt, "memory",
        ),
        _ => said.push_str(" other").expect(rt, "memory"),
    }
}

fn tell_store<T: Tables>(rt: &impl Abort, said: &mut String, store: &StoreVersion<T>) {
    write!(said, " store {}", store.info().name.as_str()).expect(rt, "memory");
    for place in 0..store.len() {
        tell_record(rt, said, store.record_at(place));
    }
}

fn tell_database<T: Tables>(rt: &impl Abort, said: &mut String, database: &Database<T>) {
    write!(
        said,
        ", database {} {}",
        database.name.as_str(),
        database.version
    )
    .expect(rt, "memory");
    for place in 0..database.stores.len() {
        if let Some(store) = database.stores.at(place) {
            tell_store(rt, said, store);
        }
    }
}

/// Both areas, and the databases.
fn tell_found<T: Tables>(rt: &impl Abort, said: &mut String, looked: &Looked<T>) {
    tell_area(rt, said, &looked.zero);
    said.push_str(", ").expect(rt, "memory");
    tell_area(rt, said, &looked.one);
    for place in 0..looked.items.len() {
        if let Some(database) = looked.items.at(place) {
            tell_database(rt, said, database);
        }
    }
}

/// What a look shows of a disk behind a run of this script.
fn tell_look<T: Tables>(rt: &impl Abort, alloc: Global, said: &mut String, disk: &mut MemoryDisk) {
    let looked: Result<Looked<T>, RecoverError> = look(alloc, disk);
    match looked {
        Ok(looked) => tell_found(rt, said, &looked),
        Err(_) => said.push_str("none").expect(rt, "memory"),
    }
    said.push_str("\n").expect(rt, "memory");
}

fn looks_told<R: Threads + Wait + Sync + Abort, T: Tables>(rt: &R, alloc: Global) -> String {
    let mut said = String::new(alloc);
    for script in [SCRIPT, FOUR_COMMITS, THROWN] {
        let mut reports = String::new(alloc);
        let disk = blank(rt, alloc);
        let mut disk = run(rt, alloc, &mut reports, script, disk);
        tell_look::<T>(rt, alloc, &mut said, &mut disk);
    }
    said
}

/// The second batch of the second script has the records of three transactions, each as long as that of the first script.
#[test]
fn a_look_shows_what_a_run_leaves(rt: HostRuntime) {
    let said = looks_told::<_, FlatTables>(&rt, rt.alloc());
    assert_eq!(rt;
        said.as_str(),
        "generation 1 17+43:1 69+45:2, blank, database d 1 store s 1=7\n\
         generation 1 17+43:1 69+127:2:3:4, blank, database d 1 store s 1=0 2=0 3=0\n\
         generation 1, blank\n"
    );
}
