// Logs of a few batches on a disk in memory, recovered and looked at with ample memory. The batches and the area are the worked ones of the
// formats, and their places were counted by hand.
use disk_trait::{Area, Disk, DiskPlan, Image, MemoryDisk};
use gate_log::{Frame, GateLog};
use idb_databases::Databases;
use idb_recovery::{AreaFound, BatchLine, Looked, Opened, RecoverError, look, recover};
use index_tables::{FlatTables, Tables};
use std::alloc::Global;
use std::process::Abort;

/// An upgrade: a version, and a new store.
const FIRST: &[u8] = b"\x00\x00\x00\x01\
    \x00\x00\x00\x00\x00\x00\x00\x01\
    \x00\x00\x00\x02\
    1\x00\x00\x00\x01d\x00\x00\x00\x00\x00\x00\x00\x01\
    3\x00\x00\x00\x01d\x00\x00\x00\x01s@\x00";

/// A put.
const SECOND: &[u8] = b"\x00\x00\x00\x01\
    \x00\x00\x00\x00\x00\x00\x00\x02\
    \x00\x00\x00\x01\
    7\x00\x00\x00\x01d\x00\x00\x00\x01s\
    !\x00\x00\x00\x00\x00\x00\x00\x01\x04\x00\x00\x00\x00\x00\x00\x00\x07";

/// The payloads of a log, where its area is cut then, and which call of its disk fails.
type Row = (&'static [&'static [u8]], Option<u64>, Option<u64>);

fn planned(
    rt: &impl Abort,
    alloc: Global,
    fails: Option<u64>,
    stop_after: Option<u64>,
    image: Image,
) -> MemoryDisk {
    let mut fail_at = Vec::new(alloc);
    if let Some(call) = fails {
        fail_at.push(call).expect(rt, "memory");
    }
    let plan = DiskPlan {
        fail_at,
        stop_after,
        image,
    };
    MemoryDisk::with_room(alloc, 2000, 200, plan).expect(rt, "memory")
}

/// A blank disk, and which call of it fails.
fn blank_disk(rt: &impl Abort, alloc: Global, fails: Option<u64>) -> MemoryDisk {
    planned(rt, alloc, fails, None, Image::Kept)
}

fn new_log(rt: &impl Abort, alloc: Global, fails: Option<u64>) -> GateLog<MemoryDisk> {
    match GateLog::load(alloc, blank_disk(rt, alloc, fails)) {
        Ok((log, _)) => log,
        Err(_) => panic!(rt; "no log"),
    }
}

fn cut(rt: &impl Abort, disk: &mut MemoryDisk, at: u64) {
    match disk.len(Area::Zero) {
        Ok(len) if at <= len => {
            let _ = disk.cut(Area::Zero, at);
        }
        _ => panic!(rt; "no cut"),
    }
}

fn append(rt: &impl Abort, alloc: Global, log: &mut GateLog<MemoryDisk>, payload: &[u8]) {
    let frame = Frame::new(alloc, payload).expect(rt, "memory");
    assert!(rt; log.append(&frame).is_ok());
}

/// A disk with a log of these batches, and which call of it fails.
fn disk_of_batches(
    rt: &impl Abort,
    alloc: Global,
    payloads: &[&[u8]],
    fails: Option<u64>,
) -> MemoryDisk {
    let mut log = new_log(rt, alloc, fails);
    for payload in payloads {
        append(rt, alloc, &mut log, payload);
    }
    log.into_disk()
}

/// A disk with a log of these batches, cut where the row says so.
fn disk_of_row(rt: &impl Abort, alloc: Global, row: Row) -> MemoryDisk {
    let mut disk = disk_of_batches(rt, alloc, row.0, row.2);
    if let Some(at) = row.1 {
        cut(rt, &mut disk, at);
    }
    disk
}

/// How many databases there are, and how many records the first store of the first one has.
fn tell_items<T: Tables>(rt: &impl Abort, said: &mut String, items: &Databases<T>) {
    write!(said, "{}", items.len()).expect(rt, "memory");
    if let Some(database) = items.at(0) {
        if let Some(store) = database.stores.at(0) {
            write!(said, "+{}", store.len()).expect(rt, "memory");
        }
    }
}

fn tell_error(rt: &impl Abort, said: &mut String, error: RecoverError) {
    match error {
        RecoverError::DiskFault => write!(said, "fault").expect(rt, "memory"),
        RecoverError::Damaged { area, place } => write!(said, "{area:?}@{place}").expect(
            rt, "memory",
        ),
        RecoverError::NoMemory => write!(said, "memory").expect(rt, "memory"),
    }
}

/// What was recovered; and the disk.
fn tell<T: Tables>(
    rt: &impl Abort,
    said: &mut String,
    answer: Result<Opened<MemoryDisk, T>, (RecoverError, MemoryDisk)>,
) -> MemoryDisk {
    match answer {
        Ok(opened) => {
            let Opened { log, items } = opened;
            tell_items(rt, said, &items);
            log.into_disk()
        }
        Err((error, disk)) => {
            tell_error(rt, said, error);
            disk
        }
    }
}

fn push(rt: &impl Abort, said: &mut String, s: &str) {
    said.push_str(s).expect(rt, "memory")
}

/// What a recovery gives, and these words behind it; and the disk.
fn tell_recovered<T: Tables>(
    rt: &impl Abort,
    alloc: Global,
    said: &mut String,
    disk: MemoryDisk,
    behind: &str,
) -> MemoryDisk {
    let answer: Result<Opened<MemoryDisk, T>, (RecoverError, MemoryDisk)> = recover(alloc, disk);
    let disk = tell(rt, said, answer);
    push(rt, said, behind);
    disk
}

/// The disk of a row, recovered twice.
fn tell_row<T: Tables>(rt: &impl Abort, alloc: Global, said: &mut String, row: Row) {
    let disk = disk_of_row(rt, alloc, row);
    let disk = tell_recovered::<T>(rt, alloc, said, disk, " ");
    let _ = tell_recovered::<T>(rt, alloc, said, disk, "; ");
}

const ROWS: [Row; 7] = [
    (&[], None, None),
    (&[FIRST, SECOND], None, None),
    (&[FIRST, SECOND], Some(70), None),
    (&[FIRST, SECOND], Some(100), None),
    (&[SECOND], None, None),
    (&[FIRST, SECOND, b"none", FIRST], None, None),
    (&[], None, Some(12)),
];

fn answers<T: Tables>(rt: &impl Abort, alloc: Global) -> String {
    let mut said = String::new(alloc);
    for row in ROWS {
        tell_row::<T>(rt, alloc, &mut said, row);
    }
    said
}

/// The eleven calls of the first load are behind the call that fails.
#[test]
fn what_a_disk_gives(rt: HostRuntime) {
    let said = answers::<FlatTables>(&rt, rt.alloc());
    assert_eq!(rt;
        said.as_str(),
        "0 0; 1+1 1+1; 1+0 1+0; Zero@70 Zero@70; Zero@26 Zero@26; Zero@132 Zero@132; fault 0; "
    );
}

/// The area of a log with the two batches above, of generation 1. The last byte of the generation stands at 16, the count of the first
/// batch's records ends at 29, and the name of the put's store stands at 104.
const WORKED: [u8; 124] = *b"\xa5IDBLOG01\x00\x00\x00\x00\x00\x00\x00\x01\
    \xa5\x00\x00\x00\x00\x00\x00\x00\x2b\
    \x00\x00\x00\x01\
    \x00\x00\x00\x00\x00\x00\x00\x01\
    \x00\x00\x00\x02\
    1\x00\x00\x00\x01d\x00\x00\x00\x00\x00\x00\x00\x01\
    3\x00\x00\x00\x01d\x00\x00\x00\x01s@\x00\
    \xa5\x00\x00\x00\x00\x00\x00\x00\x2d\
    \x00\x00\x00\x01\
    \x00\x00\x00\x00\x00\x00\x00\x02\
    \x00\x00\x00\x01\
    7\x00\x00\x00\x01d\x00\x00\x00\x01s\
    !\x00\x00\x00\x00\x00\x00\x00\x01\x04\x00\x00\x00\x00\x00\x00\x00\x07\
    \x00";

/// The worked area, cut to a length; or cut so, with another byte at a place.
#[derive(Clone, Copy)]
enum Part {
    CutTo(usize),
    WithByte(usize, usize, u8),
}

/// The length, the place and the byte.
fn numbers_of(part: Part) -> (usize, usize, u8) {
    match part {
        Part::CutTo(len) => (len, 0, 0xa5),
        Part::WithByte(len, place, byte) => (len, place, byte),
    }
}

fn bytes_of(rt: &impl Abort, alloc: Global, part: Part) -> Vec<u8> {
    let (len, changed, other) = numbers_of(part);
    let mut bytes = Vec::new(alloc);
    for place in 0..len {
        if let Some(byte) = WORKED.get(place) {
            bytes
                .push(if place == changed { other } else { *byte })
                .expect(rt, "memory");
        }
    }
    bytes
}

fn put_bytes(rt: &impl Abort, alloc: Global, disk: &mut MemoryDisk, area: Area, bytes: Part) {
    let bytes = bytes_of(rt, alloc, bytes);
    assert!(rt; disk.write_at(area, 0, &bytes).is_ok());
}

/// A disk with these areas, written in two calls, and which later call of it fails.
fn disk_of_areas(
    rt: &impl Abort,
    alloc: Global,
    zero: Part,
    one: Part,
    fails: Option<u64>,
) -> MemoryDisk {
    let mut disk = blank_disk(rt, alloc, fails);
    put_bytes(rt, alloc, &mut disk, Area::Zero, zero);
    put_bytes(rt, alloc, &mut disk, Area::One, one);
    disk
}

/// The place of a batch, its length and its numbers.
fn tell_line(rt: &impl Abort, said: &mut String, line: &BatchLine) {
    write!(said, " {}+{}", line.place, line.length).expect(rt, "memory");
    for number in line.numbers.as_slice() {
        write!(said, ":{number}").expect(rt, "memory");
    }
}

/// The generation of an open area, and for each batch its place, its length and its numbers.
fn tell_open(rt: &impl Abort, said: &mut String, generation: u64, batches: &[BatchLine]) {
    write!(said, "{generation}").expect(rt, "memory");
    for line in batches {
        tell_line(rt, said, line);
    }
}

fn tell_area(rt: &impl Abort, said: &mut String, area: &AreaFound, behind: &str) {
    match area {
        AreaFound::Blank => push(rt, said, "blank"),
        AreaFound::Open {
            generation,
            batches,
        } => tell_open(rt, said, *generation, batches.as_slice()),
    }
    push(rt, said, behind)
}

/// Both areas, and what a recovery would give.
fn tell_found<T: Tables>(rt: &impl Abort, said: &mut String, looked: &Looked<T>) {
    tell_area(rt, said, &looked.zero, " / ");
    tell_area(rt, said, &looked.one, " / ");
    tell_items(rt, said, &looked.items)
}

/// What a look shows.
fn tell_look<T: Tables>(rt: &impl Abort, alloc: Global, said: &mut String, disk: &mut MemoryDisk) {
    let looked: Result<Looked<T>, RecoverError> = look(alloc, disk);
    match looked {
        Ok(looked) => tell_found(rt, said, &looked),
        Err(error) => tell_error(rt, said, error),
    }
}

/// What a look shows; and what a recovery gives behind it.
fn tell_looked<T: Tables>(rt: &impl Abort, alloc: Global, said: &mut String, mut disk: MemoryDisk) {
    tell_look::<T>(rt, alloc, said, &mut disk);
    push(rt, said, " = ");
    let _ = tell_recovered::<T>(rt, alloc, said, disk, "\n");
}

/// Both areas, and which call of the disk fails.
type Areas = (Part, Part, Option<u64>);

const AREAS: [Areas; 15] = [
    (Part::CutTo(0), Part::CutTo(0), None),
    (Part::CutTo(1), Part::CutTo(0), None),
    (Part::CutTo(124), Part::CutTo(0), None),
    (Part::CutTo(18), Part::CutTo(0), None),
    (Part::WithByte(124, 1, 0x4a), Part::CutTo(0), None),
    (Part::CutTo(17), Part::CutTo(0), None),
    (Part::CutTo(60), Part::CutTo(0), None),
    (Part::WithByte(124, 29, 2), Part::CutTo(0), None),
    (Part::WithByte(124, 104, b't'), Part::CutTo(0), None),
    (Part::CutTo(124), Part::WithByte(70, 16, 2), None),
    (Part::WithByte(124, 29, 2), Part::WithByte(70, 16, 2), None),
    (Part::CutTo(124), Part::CutTo(124), None),
    (Part::CutTo(124), Part::WithByte(60, 16, 2), None),
    (Part::CutTo(60), Part::CutTo(60), None),
    (Part::CutTo(124), Part::CutTo(0), Some(3)),
];

fn tell_areas<T: Tables>(rt: &impl Abort, alloc: Global, said: &mut String, areas: Areas) {
    let (zero, one, fails) = areas;
    let disk = disk_of_areas(rt, alloc, zero, one, fails);
    tell_looked::<T>(rt, alloc, said, disk)
}

fn looks<T: Tables>(rt: &impl Abort, alloc: Global) -> String {
    let mut said = String::new(alloc);
    for areas in AREAS {
        tell_areas::<T>(rt, alloc, &mut said, areas);
    }
    said
}

#[test]
fn a_look_shows_both_areas_and_what_a_recovery_gives(rt: HostRuntime) {
    let said = looks::<FlatTables>(&rt, rt.alloc());
    assert_eq!(rt;
        said.as_str(),
        "blank / blank / 0 = 0\n\
         blank / blank / 0 = 0\n\
         1 17+43:1 69+45:2 / blank / 1+1 = 1+1\n\
         1 / blank / 0 = 0\n\
         Zero@1 = Zero@1\n\
         Zero@17 = Zero@17\n\
         Zero@18 = Zero@18\n\
         Zero@26 = Zero@26\n\
         Zero@78 = Zero@78\n\
         1 / 2 17+43:1 / 1+0 = 1+0\n\
         1 / 2 17+43:1 / 1+0 = 1+0\n\
         One@9 = One@9\n\
         One@18 = One@18\n\
         Zero@18 = Zero@18\n\
         fault = 1+1\n"
    );
}

const IMAGES: [Image; 4] = [
    Image::Kept,
    Image::Dropped,
    Image::Byte(0xa5),
    Image::Byte(0),
];

/// The disk of a log that gets both batches, as far as they can be appended.
fn written(rt: &impl Abort, alloc: Global, mut log: GateLog<MemoryDisk>) -> MemoryDisk {
    for payload in [FIRST, SECOND] {
        let frame = Frame::new(alloc, payload).expect(rt, "memory");
        let _ = log.append(&frame);
    }
    log.into_disk()
}

/// What a stop at this call of a log leaves of its area, which was blank and gets both batches.
fn torn_bytes(rt: &impl Abort, alloc: Global, call: u64, image: Image) -> Vec<u8> {
    let disk = planned(rt, alloc, None, call.checked_sub(1), image);
    let mut disk = match GateLog::load(alloc, disk) {
        Ok(opened) => written(rt, alloc, opened.0),
        Err(error) => error.1,
    };
    let _ = disk.restart();
    Vec::from_slice(alloc, disk.bytes(Area::Zero)).expect(rt, "memory")
}

/// The databases of such an area, by its open gates: that of its head, that before the upgrade, and that before the put.
fn due_of(bytes: &[u8]) -> &'static str {
    let is_open = |place: usize| bytes.get(place) == Some(&0xa5);
    match (is_open(0) && is_open(17), is_open(69)) {
        (true, true) => "1+1",
        (true, false) => "1+0",
        _ => "0",
    }
}

/// A disk with this area, written and synced in two calls, and trouble at one of the calls behind them; at 0 there is none.
fn disk_with(
    rt: &impl Abort,
    alloc: Global,
    bytes: &[u8],
    stops: bool,
    call: u64,
    image: Image,
) -> MemoryDisk {
    let fails = if call == 0 { None } else { call.checked_add(2) };
    let stop_after = if stops && call > 0 {
        call.checked_add(1)
    } else {
        None
    };
    let mut disk = planned(rt, alloc, fails, stop_after, image);
    let _ = disk.write_at(Area::Zero, 0, bytes);
    let _ = disk.sync(Area::Zero);
    disk
}

/// Three recoveries: with a stop or a failing call, after it, and behind a restart. The first one meets a fault where there is trouble, and the
/// others find what the area gives.
fn try_call<T: Tables>(
    rt: &impl Abort,
    alloc: Global,
    bytes: &[u8],
    stops: bool,
    call: u64,
    image: Image,
    wrong: &mut String,
) {
    let due = due_of(bytes);
    let mut wanted = String::new(alloc);
    write!(
        wanted,
        "{} {due} {due}",
        if call == 0 { due } else { "fault" }
    )
    .expect(rt, "memory");
    let mut said = String::new(alloc);
    let disk = disk_with(rt, alloc, bytes, stops, call, image);
    let mut disk = tell_recovered::<T>(rt, alloc, &mut said, disk, "");
    for restarts in [stops, true] {
        if restarts {
            let _ = disk.restart();
        }
        push(rt, &mut said, " ");
        disk = tell_recovered::<T>(rt, alloc, &mut said, disk, "");
    }
    if said.as_str() != wanted.as_str() {
        write!(wrong, "\n{bytes:?} {stops} {call} {image:?}: {said}\n").expect(rt, "memory");
    }
}

/// No trouble, and trouble at each of these calls.
fn try_calls<T: Tables>(
    rt: &impl Abort,
    alloc: Global,
    bytes: &[u8],
    stops: bool,
    calls: u64,
    image: Image,
    wrong: &mut String,
) {
    for call in 0..=calls {
        try_call::<T>(rt, alloc, bytes, stops, call, image, wrong);
    }
}

/// The same at each call that the recovery of this area makes: how many calls these are.
fn try_area<T: Tables>(rt: &impl Abort, alloc: Global, bytes: &[u8], wrong: &mut String) -> u64 {
    let disk = disk_with(rt, alloc, bytes, false, 0, Image::Kept);
    let disk = tell_recovered::<T>(rt, alloc, &mut String::new(alloc), disk, "");
    let calls = disk.calls_made().wrapping_sub(2);
    for image in IMAGES {
        try_calls::<T>(rt, alloc, bytes, true, calls, image, wrong);
        try_calls::<T>(rt, alloc, bytes, false, calls, image, wrong);
    }
    calls
}

/// The areas that a stop at one of these calls of a log leaves: what each gives, and in how few calls one was recovered.
fn try_areas<T: Tables>(rt: &impl Abort, alloc: Global, image: Image, said: &mut String) -> u64 {
    let mut fewest = u64::MAX;
    write!(said, "{image:?}").expect(rt, "memory");
    for call in [1, 6, 11, 12, 13, 14, 15, 16, 17, 18, 19, 20] {
        let bytes = torn_bytes(rt, alloc, call, image);
        write!(said, " {}", due_of(&bytes)).expect(rt, "memory");
        let calls = try_area::<T>(rt, alloc, &bytes, said);
        if calls < fewest {
            fewest = calls;
        }
    }
    writeln!(said).expect(rt, "memory");
    fewest
}

const FOUND: &str = "\
    Kept 0 0 0 0 0 1+0 1+0 1+0 1+0 1+1 1+1 1+1\n\
    Dropped 0 0 0 0 0 0 0 1+0 1+0 1+0 1+0 1+1\n\
    Byte(165) 0 0 0 0 0 1+0 1+0 1+0 1+0 1+1 1+1 1+1\n\
    Byte(0) 0 0 0 0 0 0 0 1+0 1+0 1+0 1+0 1+1\n";

/// The log makes eleven calls on a blank disk, and four for each batch, of which the third opens its gate; a stop behind them tears nothing. A
/// recovery makes ten at least.
#[test]
fn trouble_at_any_call_of_a_recovery_changes_nothing(rt: HostRuntime) {
    let mut said = String::new(rt.alloc());
    let mut fewest = u64::MAX;
    for image in IMAGES {
        let calls = try_areas::<FlatTables>(&rt, rt.alloc(), image, &mut said);
        if calls < fewest {
            fewest = calls;
        }
    }
    assert_eq!(rt; (said.as_str(), fewest >= 10), (FOUND, true));
}
