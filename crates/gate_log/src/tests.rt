// What no clause says: that calls succeed with ample memory, and that the definitions mean what the format says.
// A scenario is a list of steps, each of which writes its answer into a text. The helpers have no clauses, so that a
// test doesn't carry what each call ensures.
use super::*;
use disk_trait::{DiskPlan, Image, MemoryDisk};
use std::alloc::Global;
use std::fmt::Write;
use std::test::Fail;

const IMAGES: [Image; 4] = [
    Image::Kept,
    Image::Dropped,
    Image::Byte(0xa5),
    Image::Byte(0),
];

// An area with two batches, of 43 and of 45 bytes, as the format's worked example has it.
const WORKED: [u8; 124] = [
    0xa5, 0x49, 0x44, 0x42, 0x4c, 0x4f, 0x47, 0x30, 0x31, 0, 0, 0, 0, 0, 0, 0, 1, // the head
    0xa5, 0, 0, 0, 0, 0, 0, 0, 0x2b, // a gate, and the length
    0, 0, 0, 1, 0, 0, 0, 0, 0, 0, 0, 1, 0, 0, 0, 2, 0x31, 0, 0, 0, 1, 0x64, 0, 0, 0, 0, 0, 0, 0, 1,
    0x33, 0, 0, 0, 1, 0x64, 0, 0, 0, 1, 0x73, 0x40, 0, // the payload
    0xa5, 0, 0, 0, 0, 0, 0, 0, 0x2d, // the next
    0, 0, 0, 1, 0, 0, 0, 0, 0, 0, 0, 2, 0, 0, 0, 1, 0x37, 0, 0, 0, 1, 0x64, 0, 0, 0, 1, 0x73, 0x21,
    0, 0, 0, 0, 0, 0, 0, 1, 4, 0, 0, 0, 0, 0, 0, 0, 7, // its payload
    0,
];

const ONE: &[u8] = b"one";

const TWO: &[u8] = b"second";

#[derive(Clone, Copy)]
enum Step {
    Put(Area, &'static [u8]),
    PutTorn,
    Load,
    Append(&'static [u8]),
    Switch(&'static [u8]),
    Batches,
    Close,
    Restart,
    Compare,
}

#[derive(Drop)]
enum State {
    Disk(MemoryDisk),
    Log(GateLog<MemoryDisk>),
}

fn disk_with(
    alloc: Global,
    fails: Option<u64>,
    stop_after: Option<u64>,
    image: Image,
) -> Result<MemoryDisk, Fail> {
    let mut fail_at = Vec::new(alloc);
    if let Some(k) = fails {
        fail_at.push(k)?;
    }
    let plan = DiskPlan {
        fail_at,
        stop_after,
        image,
    };
    Ok(MemoryDisk::with_room(alloc, 2_000_000, 100_000, plan)?)
}

// The places and lengths of batches.
fn tell(found: &Batches, said: &mut String) {
    for k in 0..found.len() {
        if let Some(batch) = found.at(k) {
            let _ = write!(said, " {}+{}", batch.place, batch.payload.len());
        }
    }
}

// The generation and the batches, or the error.
fn load(alloc: Global, disk: MemoryDisk, said: &mut String) -> State {
    match GateLog::load(alloc, disk) {
        Ok(opened) => {
            let (log, found) = opened;
            let _ = write!(said, " {}:", log.generation());
            tell(&found, said);
            State::Log(log)
        }
        Err(error) => {
            let (error, disk) = error;
            tell_error(error, said);
            State::Disk(disk)
        }
    }
}

fn tell_error(error: LogError, said: &mut String) {
    let _ = match error {
        LogError::Damaged { area, place } => write!(said, " {area:?} {place}"),
        LogError::DiskFault => write!(said, " fault"),
        LogError::NoMemory => write!(said, " memory"),
    };
}

fn tell_append(answer: Result<(), AppendError>, said: &mut String) {
    let _ = match answer {
        Ok(()) => write!(said, " ok"),
        Err(AppendError::DiskFault) => write!(said, " fault"),
        Err(AppendError::Faulted { seen }) => write!(said, " refused {seen}"),
    };
}

fn append(alloc: Global, log: &mut GateLog<MemoryDisk>, bytes: &[u8], said: &mut String) {
    if let Ok(frame) = Frame::new(alloc, bytes) {
        tell_append(log.append(&frame), said);
    }
}

fn switch(alloc: Global, log: &mut GateLog<MemoryDisk>, bytes: &[u8], said: &mut String) {
    if let Ok(frame) = Frame::new(alloc, bytes)
        && log.generation() < u64::MAX
    {
        tell_append(log.switch(&frame), said);
    }
}

fn batches(alloc: Global, log: &mut GateLog<MemoryDisk>, said: &mut String) {
    if let Ok(found) = log.batches(alloc) {
        tell(&found, said);
    }
}

fn put(disk: &mut MemoryDisk, area: Area, bytes: &[u8]) {
    let _ = disk.write_at(area, 0, bytes);
    let _ = disk.sync(area);
}

// The worked area, with another last gate, which isn't open, and bytes behind it.
fn put_torn(disk: &mut MemoryDisk) {
    let mut bytes = [9; 127];
    bytes[..124].copy_from_slice(&WORKED);
    bytes[123] = 0x77;
    put(disk, Area::Zero, &bytes);
}

fn restart(disk: &mut MemoryDisk, said: &mut String) {
    let _ = match disk.restart() {
        Ok(()) => write!(said, " restart"),
        Err(_) => write!(said, " no restart"),
    };
}

fn on_disk(alloc: Global, disk: MemoryDisk, step: Step, said: &mut String) -> State {
    let mut disk = disk;
    match step {
        Step::Load => return load(alloc, disk, said),
        Step::Put(area, bytes) => put(&mut disk, area, bytes),
        Step::PutTorn => put_torn(&mut disk),
        Step::Restart => restart(&mut disk, said),
        Step::Compare => {
            let _ = write!(said, " {}", disk.bytes(Area::Zero) == WORKED.as_slice());
        }
        _ => {}
    }
    State::Disk(disk)
}

fn on_log(alloc: Global, log: GateLog<MemoryDisk>, step: Step, said: &mut String) -> State {
    let mut log = log;
    match step {
        Step::Append(bytes) => append(alloc, &mut log, bytes, said),
        Step::Switch(bytes) => switch(alloc, &mut log, bytes, said),
        Step::Batches => batches(alloc, &mut log, said),
        Step::Close => return State::Disk(log.into_disk()),
        _ => {}
    }
    State::Log(log)
}

// Goes through the steps. One that the state doesn't take does nothing.
fn go_through(alloc: Global, state: State, steps: &[Step], said: &mut String) {
    let mut state = state;
    for step in steps {
        state = match state {
            State::Disk(disk) => on_disk(alloc, disk, *step, said),
            State::Log(log) => on_log(alloc, log, *step, said),
        };
    }
}

// Writes an answer with how often it came in a row.
fn tell_run(said: &mut String, answer: &str, times: u64) {
    if times > 0 {
        let _ = write!(said, ",{answer} x{times}");
    }
}

// What is to happen behind a number of calls: a stop, which holds until a restart, or one call that fails; or a stop
// while a log is made.
#[derive(Clone, Copy)]
enum Trouble {
    Stop,
    Fail,
    StopCreate,
    StopCreateWith,
}

fn plan_with(alloc: Global, stop_after: u64, image: Image) -> DiskPlan {
    DiskPlan {
        fail_at: Vec::new(alloc),
        stop_after: Some(stop_after),
        image,
    }
}

fn created(alloc: Global, k: u64, image: Image) -> Result<Made, Fail> {
    let disk = MemoryDisk::with_room(alloc, 1000, 1000, plan_with(alloc, k, image))?;
    Ok(GateLog::create(disk, Area::One, 7))
}

fn created_with(alloc: Global, k: u64, image: Image) -> Result<Made, Fail> {
    let first = Frame::new(alloc, ONE)?;
    let disk = MemoryDisk::with_room(alloc, 1000, 1000, plan_with(alloc, k, image))?;
    Ok(GateLog::create_with(disk, Area::One, 7, &first))
}

type Made = Result<GateLog<MemoryDisk>, (LogError, MemoryDisk)>;

fn made(made: Made, said: &mut String) -> State {
    match made {
        Ok(log) => {
            let _ = write!(said, " ok");
            State::Log(log)
        }
        Err(error) => {
            tell_error(error.0, said);
            State::Disk(error.1)
        }
    }
}

fn troubled(
    alloc: Global,
    trouble: Trouble,
    k: u64,
    image: Image,
    said: &mut String,
) -> Result<State, Fail> {
    Ok(match trouble {
        Trouble::Stop => State::Disk(disk_with(alloc, None, Some(k), image)?),
        Trouble::Fail => State::Disk(disk_with(alloc, k.checked_add(1), None, image)?),
        Trouble::StopCreate => made(created(alloc, k, image)?, said),
        Trouble::StopCreateWith => made(created_with(alloc, k, image)?, said),
    })
}

// The steps under an image, with trouble behind each number of calls from the first to the last.
fn swept(
    alloc: Global,
    steps: &[Step],
    trouble: Trouble,
    calls: (u64, u64),
    image: Image,
    said: &mut String,
) -> Result<(), Fail> {
    let mut last = String::new(alloc);
    let mut times = 0u64;
    for k in calls.0..=calls.1 {
        let mut answer = String::new(alloc);
        let state = troubled(alloc, trouble, k, image, &mut answer)?;
        go_through(alloc, state, steps, &mut answer);
        if answer.as_str() != last.as_str() {
            tell_run(said, &last, times);
            last = answer;
            times = 0;
        }
        times = times.wrapping_add(1);
    }
    tell_run(said, &last, times);
    Ok(())
}

// A line for each image.
fn stopped(
    alloc: Global,
    steps: &[Step],
    trouble: Trouble,
    calls: (u64, u64),
) -> Result<String, Fail> {
    let mut said = String::new(alloc);
    for image in &IMAGES {
        let _ = write!(said, "{image:?}");
        swept(alloc, steps, trouble, calls, *image, &mut said)?;
        let _ = writeln!(said);
    }
    Ok(said)
}

const APPENDED: &str =
    "Kept, 1: ok fault refused 1 restart 1: 17+3 x2, 1: ok fault refused 1 restart 1: 17+3 29+6 x2, 1: ok ok fault restart 1: 17+3 29+6 x1
Dropped, 1: ok fault refused 1 restart 1: 17+3 x4, 1: ok ok fault restart 1: 17+3 29+6 x1
Byte(165), 1: ok fault refused 1 restart 1: 17+3 x2, 1: ok fault refused 1 restart 1: 17+3 29+6 x2, 1: ok ok fault restart 1: 17+3 29+6 x1
Byte(0), 1: ok fault refused 1 restart 1: 17+3 x4, 1: ok ok fault restart 1: 17+3 29+6 x1
";

// The calls of the load and of the first append come before. What was stopped refuses the next.
#[test]
fn a_stop_within_an_append_leaves_it_whole_or_not_at_all(rt: HostRuntime) -> Result<(), Fail> {
    let steps = [
        Step::Load,
        Step::Append(ONE),
        Step::Append(TWO),
        Step::Append(&[]),
        Step::Close,
        Step::Restart,
        Step::Load,
    ];
    let said = stopped(rt.alloc(), &steps, Trouble::Stop, (15, 19))?;
    assert_eq!(rt; said.as_str(), APPENDED);
    Ok(())
}

const SWITCHED: &str =
    "Kept, 1: 17+43 69+45 fault restart 1: 17+43 69+45 x6, 1: 17+43 69+45 fault restart 2: 17+3 x2, 1: 17+43 69+45 ok restart 2: 17+3 x1
Dropped, 1: 17+43 69+45 fault restart 1: 17+43 69+45 x8, 1: 17+43 69+45 ok restart 2: 17+3 x1
Byte(165), 1: 17+43 69+45 fault restart 1: 17+43 69+45 x6, 1: 17+43 69+45 fault restart 2: 17+3 x2, 1: 17+43 69+45 ok restart 2: 17+3 x1
Byte(0), 1: 17+43 69+45 fault restart 1: 17+43 69+45 x8, 1: 17+43 69+45 ok restart 2: 17+3 x1
";

// Over the worked area: a length, 00 at 0, the rest in two writes, and a5 at 0, with a sync after each of the three.
// What was not synced is in doubt.
#[test]
fn a_switch_takes_over_or_does_not(rt: HostRuntime) -> Result<(), Fail> {
    let steps = [
        Step::Put(Area::Zero, &WORKED),
        Step::Load,
        Step::Switch(ONE),
        Step::Close,
        Step::Restart,
        Step::Load,
    ];
    let said = stopped(rt.alloc(), &steps, Trouble::Stop, (17, 25))?;
    assert_eq!(rt; said.as_str(), SWITCHED);
    Ok(())
}

const SWITCHED_BACK: &str =
    "Kept, 1: ok ok ok fault restart 2: 17+6 32+3 x8, 1: ok ok ok fault restart 3: 17+6 x2, 1: ok ok ok ok restart 3: 17+6 x1
Dropped, 1: ok ok ok fault restart 2: 17+6 32+3 x10, 1: ok ok ok ok restart 3: 17+6 x1
Byte(165), 1: ok ok ok fault restart 2: 17+6 32+3 x8, 1: ok ok ok fault restart 3: 17+6 x2, 1: ok ok ok ok restart 3: 17+6 x1
Byte(0), 1: ok ok ok fault restart 2: 17+6 32+3 x10, 1: ok ok ok ok restart 3: 17+6 x1
";

// The new log is made over the old open area of a lesser generation, which is cut first; and a batch is appended in
// area 1.
#[test]
fn a_switch_goes_over_an_old_open_area(rt: HostRuntime) -> Result<(), Fail> {
    let steps = [
        Step::Load,
        Step::Append(ONE),
        Step::Switch(TWO),
        Step::Append(ONE),
        Step::Switch(TWO),
        Step::Close,
        Step::Restart,
        Step::Load,
    ];
    let said = stopped(rt.alloc(), &steps, Trouble::Stop, (27, 37))?;
    assert_eq!(rt; said.as_str(), SWITCHED_BACK);
    Ok(())
}

const LOADED_AFTER_A_FAULT: &str =
    "Kept, 1: 17+43 69+45 fault 1: 17+43 69+45 x6, 1: 17+43 69+45 fault 2: 17+3 x2
Dropped, 1: 17+43 69+45 fault 1: 17+43 69+45 x6, 1: 17+43 69+45 fault 2: 17+3 x2
Byte(165), 1: 17+43 69+45 fault 1: 17+43 69+45 x6, 1: 17+43 69+45 fault 2: 17+3 x2
Byte(0), 1: 17+43 69+45 fault 1: 17+43 69+45 x6, 1: 17+43 69+45 fault 2: 17+3 x2
";

// A load goes by what reads give, also where no restart came before.
#[test]
fn a_load_follows_a_fault(rt: HostRuntime) -> Result<(), Fail> {
    let steps = [
        Step::Put(Area::Zero, &WORKED),
        Step::Load,
        Step::Switch(ONE),
        Step::Close,
        Step::Load,
    ];
    let said = stopped(rt.alloc(), &steps, Trouble::Fail, (17, 24))?;
    assert_eq!(rt; said.as_str(), LOADED_AFTER_A_FAULT);
    Ok(())
}

const REPAIRED: &str =
    "Kept, fault restart 1: 17+43 69+45 true x20, 1: 17+43 69+45 restart 1: 17+43 69+45 true x1
Dropped, fault restart 1: 17+43 69+45 true x20, 1: 17+43 69+45 restart 1: 17+43 69+45 true x1
Byte(165), fault restart 1: 17+43 69+45 true x20, 1: 17+43 69+45 restart 1: 17+43 69+45 true x1
Byte(0), fault restart 1: 17+43 69+45 true x20, 1: 17+43 69+45 restart 1: 17+43 69+45 true x1
";

// The last gate of the area is no closed gate as it is written, and bytes stand behind it. Two calls put it there.
#[test]
fn a_load_repairs_the_end_whatever_stops_it(rt: HostRuntime) -> Result<(), Fail> {
    let steps = [
        Step::PutTorn,
        Step::Load,
        Step::Close,
        Step::Restart,
        Step::Load,
        Step::Close,
        Step::Compare,
    ];
    let said = stopped(rt.alloc(), &steps, Trouble::Stop, (2, 22))?;
    assert_eq!(rt; said.as_str(), REPAIRED);
    Ok(())
}

const REPAIRED_AFTER_A_FAULT: &str = "Kept, fault 1: 17+43 69+45 true x20
Dropped, fault 1: 17+43 69+45 true x20
Byte(165), fault 1: 17+43 69+45 true x20
Byte(0), fault 1: 17+43 69+45 true x20
";

#[test]
fn a_load_repairs_the_end_after_a_fault(rt: HostRuntime) -> Result<(), Fail> {
    let steps = [
        Step::PutTorn,
        Step::Load,
        Step::Load,
        Step::Close,
        Step::Compare,
    ];
    let said = stopped(rt.alloc(), &steps, Trouble::Fail, (2, 21))?;
    assert_eq!(rt; said.as_str(), REPAIRED_AFTER_A_FAULT);
    Ok(())
}

const CREATED: &str = "Kept, fault restart 1: x5, fault restart 7: x2, ok restart 7: x1
Dropped, fault restart 1: x7, ok restart 7: x1
Byte(165), fault restart 1: x5, fault restart 7: x2, ok restart 7: x1
Byte(0), fault restart 1: x7, ok restart 7: x1
";

// A length, and three writes with a sync each. A write that fails may still reach the disk.
#[test]
fn a_new_log_is_there_or_not(rt: HostRuntime) -> Result<(), Fail> {
    let steps = [Step::Close, Step::Restart, Step::Load];
    let said = stopped(rt.alloc(), &steps, Trouble::StopCreate, (0, 7))?;
    assert_eq!(rt; said.as_str(), CREATED);
    Ok(())
}

const CREATED_WITH: &str =
    "Kept, fault restart 1: x6, fault restart 7: 17+3 x2, ok restart 7: 17+3 x1
Dropped, fault restart 1: x8, ok restart 7: 17+3 x1
Byte(165), fault restart 1: x6, fault restart 7: 17+3 x2, ok restart 7: 17+3 x1
Byte(0), fault restart 1: x8, ok restart 7: 17+3 x1
";

#[test]
fn a_new_log_with_a_batch_is_there_or_not(rt: HostRuntime) -> Result<(), Fail> {
    let steps = [Step::Close, Step::Restart, Step::Load];
    let said = stopped(rt.alloc(), &steps, Trouble::StopCreateWith, (0, 8))?;
    assert_eq!(rt; said.as_str(), CREATED_WITH);
    Ok(())
}

#[test]
fn the_batches_of_a_log_are_read_again(rt: HostRuntime) -> Result<(), Fail> {
    let mut said = String::new(rt.alloc());
    let disk = disk_with(rt.alloc(), None, None, Image::Kept)?;
    let steps = [
        Step::Load,
        Step::Append(ONE),
        Step::Append(&[]),
        Step::Append(TWO),
        Step::Batches,
    ];
    go_through(rt.alloc(), State::Disk(disk), &steps, &mut said);
    assert_eq!(rt; said.as_str(), " 1: ok ok ok 17+3 29+0 38+6");
    Ok(())
}

// A front of the worked area of so many bytes, with this byte at a place, and so many bytes more behind it.
type Part = (usize, usize, u8, usize);

// Two areas, and what is found of them.
const ROWS: [(Part, Part, &str); 22] = [
    ((0, 0, 0xa5, 0), (0, 0, 0xa5, 0), " 1:"),
    ((1, 0, 0xa5, 0), (0, 0, 0xa5, 0), " 1:"),
    ((124, 0, 0xa5, 0), (0, 0, 0xa5, 0), " 1: 17+43 69+45"),
    ((0, 0, 0xa5, 0), (124, 0, 0xa5, 0), " 1: 17+43 69+45"),
    ((18, 0, 0xa5, 0), (0, 0, 0xa5, 0), " 1:"),
    ((124, 1, 0x4a, 0), (0, 0, 0xa5, 0), " Zero 1"),
    ((8, 0, 0xa5, 0), (0, 0, 0xa5, 0), " Zero 1"),
    ((16, 0, 0xa5, 0), (0, 0, 0xa5, 0), " Zero 9"),
    ((17, 0, 0xa5, 0), (0, 0, 0xa5, 0), " Zero 17"),
    ((60, 0, 0xa5, 0), (0, 0, 0xa5, 0), " Zero 18"),
    ((69, 0, 0xa5, 0), (0, 0, 0xa5, 0), " Zero 18"),
    ((70, 0, 0xa5, 0), (0, 0, 0xa5, 0), " 1: 17+43"),
    ((75, 0, 0xa5, 0), (0, 0, 0xa5, 0), " Zero 70"),
    ((124, 16, 0, 0), (0, 0, 0xa5, 0), " Zero 9"),
    ((124, 18, 0xff, 0), (0, 0, 0xa5, 0), " Zero 18"),
    ((124, 69, 0xa4, 0), (0, 0, 0xa5, 0), " 1: 17+43"),
    ((124, 0, 0, 0), (0, 0, 0xa5, 0), " 1:"),
    ((124, 0, 0xa5, 0), (124, 0, 0xa5, 0), " One 9"),
    ((18, 0, 0xa5, 0), (124, 16, 2, 0), " 2: 17+43 69+45"),
    ((124, 15, 1, 3), (70, 0, 0xa5, 0), " 257: 17+43 69+45"),
    ((124, 0, 0xa5, 0), (17, 0, 0xa5, 0), " One 17"),
    ((17, 0, 0xa5, 0), (8, 0, 0xa5, 0), " Zero 17"),
];

fn part_bytes(alloc: Global, part: Part) -> Result<Vec<u8>, Fail> {
    let mut bytes = Vec::from_slice(alloc, &WORKED[..part.0.min(124)])?;
    if let Some(at) = bytes.get_mut(part.1) {
        *at = part.2;
    }
    for _ in 0..part.3 {
        bytes.push(9)?;
    }
    Ok(bytes)
}

fn long_at(bytes: &[u8], at: usize) -> Option<u64> {
    if bytes.len() < 8 || at > bytes.len() - 8 {
        return None;
    }
    let b = &bytes[at..at + 8];
    Some(u64::from_be_bytes([b[0], b[1], b[2], b[3], b[4], b[5], b[6], b[7]]))
}

// What an area stands for, by a plain program: places and lengths.
#[derive(Drop)]
enum Plain {
    Blank,
    Open(u64, Vec<(u64, u64)>),
    Fault(u64),
}

fn plainly(alloc: Global, bytes: &[u8]) -> Result<Plain, Fail> {
    if bytes.len() < 2 || bytes[0] != 0xa5 {
        return Ok(Plain::Blank);
    }
    if bytes.len() < 9 || &bytes[1..9] != b"IDBLOG01".as_slice() {
        return Ok(Plain::Fault(1));
    }
    let generation = match long_at(bytes, 9) {
        Some(number) if number > 0 => number,
        _ => return Ok(Plain::Fault(9)),
    };
    let mut batches = Vec::new(alloc);
    let mut place = 17;
    for _ in 0..bytes.len() {
        if place >= bytes.len() {
            return Ok(Plain::Fault(place as u64));
        }
        if place + 1 == bytes.len() || bytes[place] != 0xa5 {
            break;
        }
        let length = long_at(bytes, place + 1).unwrap_or(u64::MAX);
        let left = (bytes.len() - place) as u64;
        if left < 10 || length > left - 10 {
            return Ok(Plain::Fault(place as u64 + 1));
        }
        batches.push((place as u64, length))?;
        place = place.wrapping_add(9).wrapping_add(length as usize);
    }
    Ok(Plain::Open(generation, batches))
}

// What two areas stand for, by that program.
fn tell_plainly(alloc: Global, zero: &[u8], one: &[u8], said: &mut String) -> Result<(), Fail> {
    let zero = plainly(alloc, zero)?;
    let one = plainly(alloc, one)?;
    match zero {
        Plain::Fault(place) => write!(said, " Zero {place}")?,
        Plain::Blank => match one {
            Plain::Fault(place) => write!(said, " One {place}")?,
            Plain::Blank => write!(said, " 1:")?,
            Plain::Open(h, others) => tell_places(h, &others, said)?,
        },
        Plain::Open(g, batches) => match one {
            Plain::Fault(place) => write!(said, " One {place}")?,
            Plain::Blank => tell_places(g, &batches, said)?,
            Plain::Open(h, others) => tell_greater(g, &batches, h, &others, said)?,
        },
    }
    Ok(())
}

fn tell_greater(
    g: u64,
    batches: &[(u64, u64)],
    h: u64,
    others: &[(u64, u64)],
    said: &mut String,
) -> Result<(), Fail> {
    if g == h {
        write!(said, " One 9")?;
        Ok(())
    } else if h < g {
        tell_places(g, batches, said)
    } else {
        tell_places(h, others, said)
    }
}

fn tell_places(generation: u64, batches: &[(u64, u64)], said: &mut String) -> Result<(), Fail> {
    write!(said, " {generation}:")?;
    for batch in batches {
        write!(said, " {}+{}", batch.0, batch.1)?;
    }
    Ok(())
}

fn found_in(alloc: Global, zero: &[u8], one: &[u8], said: &mut String) -> Result<(), Fail> {
    let mut disk = disk_with(alloc, None, None, Image::Dropped)?;
    put(&mut disk, Area::Zero, zero);
    put(&mut disk, Area::One, one);
    let _ = load(alloc, disk, said);
    Ok(())
}

// The row, and what the plain program and a load say of it.
fn row_said(alloc: Global, row: (Part, Part, &str), said: &mut [String; 3]) -> Result<(), Fail> {
    let zero = part_bytes(alloc, row.0)?;
    let one = part_bytes(alloc, row.1)?;
    said[0].push_str(row.2)?;
    tell_plainly(alloc, &zero, &one, &mut said[1])?;
    found_in(alloc, &zero, &one, &mut said[2])
}

#[test]
fn areas_are_found_as_the_format_says(rt: HostRuntime) -> Result<(), Fail> {
    let alloc = rt.alloc();
    let mut said = [String::new(alloc), String::new(alloc), String::new(alloc)];
    for row in &ROWS {
        row_said(alloc, *row, &mut said)?;
    }
    assert_eq!(rt; said[1].as_str(), said[0].as_str(), "the plain program");
    assert_eq!(rt; said[2].as_str(), said[0].as_str(), "a load");
    Ok(())
}

// The calls and the room that so many appends took, behind a second load.
fn appended(alloc: Global, times: u32) -> Result<(u64, u64), Fail> {
    let mut said = String::new(alloc);
    let disk = disk_with(alloc, None, None, Image::Dropped)?;
    let State::Log(log) = load(alloc, disk, &mut said) else {
        return Ok((0, 0));
    };
    let disk = log.into_disk();
    let calls = disk.calls_made();
    let room = disk.room();
    let State::Log(mut log) = load(alloc, disk, &mut said) else {
        return Ok((0, 0));
    };
    let frame = Frame::new(alloc, &[7; 30])?;
    for _ in 0..times {
        let _ = log.append(&frame);
    }
    let disk = log.into_disk();
    Ok((
        disk.calls_made().wrapping_sub(calls),
        room.wrapping_sub(disk.room()),
    ))
}

// The second load makes ten calls and writes nothing. An append makes four, and writes a frame and a gate.
#[test]
fn many_appends_cost_what_they_bring(rt: HostRuntime) -> Result<(), Fail> {
    let cost = appended(rt.alloc(), 10_000)?;
    assert_eq!(rt; cost, (10 + 40_000, 10_000 * (8 + 30 + 1 + 1)));
    Ok(())
}
