// What no clause says: that calls succeed with ample memory, and that the words of a plan mean what they say.
// The helpers have no clauses, so that a test doesn't carry what each call ensures.
use disk_trait::*;
use std::alloc::Global;
use std::process::Abort;

#[derive(Clone, Copy)]
enum Step {
    Write(Area, u64, &'static [u8]),
    Cut(Area, u64),
    Sync(Area),
    Restart,
}

// Two writes and a cut of an area that was synced, and a restart.
const STEPS: [Step; 6] = [
    Step::Write(Area::Zero, 0, &[1, 2, 3, 4]),
    Step::Sync(Area::Zero),
    Step::Write(Area::Zero, 2, &[5, 6, 7]),
    Step::Cut(Area::Zero, 4),
    Step::Write(Area::Zero, 4, &[8]),
    Step::Restart,
];

const IMAGES: [Image; 4] = [
    Image::Kept,
    Image::Dropped,
    Image::Byte(0xa5),
    Image::Byte(0),
];

fn disk_with(
    rt: &impl Abort,
    alloc: Global,
    room: u64,
    calls: u64,
    fails: Option<u64>,
    stop_after: Option<u64>,
    image: Image,
) -> MemoryDisk {
    let mut fail_at = Vec::new(alloc);
    if let Some(k) = fails {
        fail_at.push(k).expect(rt, "memory");
    }
    let plan = DiskPlan {
        fail_at,
        stop_after,
        image,
    };
    MemoryDisk::with_room(alloc, room, calls, plan).expect(rt, "memory")
}

// A place past the end is a mistake of the table, and stops the test.
fn written(rt: &impl Abort, disk: &mut MemoryDisk, area: Area, from: u64, bytes: &[u8]) -> bool {
    assert!(rt; from <= disk.bytes(area).len() as u64);
    disk.write_at(area, from, bytes).is_ok()
}

fn cut(rt: &impl Abort, disk: &mut MemoryDisk, area: Area, len: u64) -> bool {
    assert!(rt; len <= disk.bytes(area).len() as u64);
    disk.cut(area, len).is_ok()
}

fn synced(disk: &mut MemoryDisk, area: Area) -> bool {
    disk.sync(area).is_ok()
}

fn restarted(disk: &mut MemoryDisk) -> bool {
    disk.restart().is_ok()
}

// Whether a step was done.
fn done(rt: &impl Abort, disk: &mut MemoryDisk, step: Step) -> bool {
    match step {
        Step::Write(area, from, bytes) => written(rt, disk, area, from, bytes),
        Step::Cut(area, len) => cut(rt, disk, area, len),
        Step::Sync(area) => synced(disk, area),
        Step::Restart => restarted(disk),
    }
}

// Whether of the steps, numbered from 1, just those in a range of numbers fail.
fn just_these_fail(rt: &impl Abort, disk: &mut MemoryDisk, from: u64, to: u64) -> bool {
    let mut number = 0u64;
    let mut as_said = true;
    for step in &STEPS {
        number = number.wrapping_add(1);
        let is_in_range = from <= number && number < to;
        if done(rt, disk, *step) == is_in_range {
            as_said = false;
        }
    }
    as_said
}

fn holds(disk: &MemoryDisk, area: Area, bytes: &[u8]) -> bool {
    disk.bytes(area) == bytes
}

// What a stop leaves of the steps, where the first sync was done and where it failed.
fn left(image: Image, synced: bool) -> &'static [u8] {
    match (image, synced) {
        (Image::Kept, _) => &[1, 2, 5, 6, 8],
        (Image::Dropped, true) => &[1, 2, 3, 4],
        (Image::Dropped, false) => &[],
        (Image::Byte(0), true) => &[1, 2, 0, 0, 0],
        (Image::Byte(0), false) => &[0, 0, 0, 0, 0],
        (_, true) => &[1, 2, 0xa5, 0xa5, 0xa5],
        (_, false) => &[0xa5, 0xa5, 0xa5, 0xa5, 0xa5],
    }
}

// Whether just the call k fails, and the disk holds what it is to hold then.
fn fails_at(rt: &impl Abort, alloc: Global, image: Image, k: u64) -> bool {
    let mut disk = disk_with(rt, alloc, 8, 7, Some(k), None, image);
    let as_said = just_these_fail(rt, &mut disk, k, k.wrapping_add(1));
    as_said && holds(&disk, Area::Zero, left(image, k != 2))
}

fn calls_fail(rt: &impl Abort, alloc: Global, image: Image) {
    for k in 1..6u64 {
        assert!(rt; fails_at(rt, alloc, image, k), "{image:?} at {k}");
    }
}

// Whether it reads as before after a restart that failed.
fn fails_to_restart(rt: &impl Abort, disk: &mut MemoryDisk) -> bool {
    let as_said = just_these_fail(rt, disk, 6, 7);
    as_said && holds(disk, Area::Zero, left(Image::Kept, true))
}

fn restarts(rt: &impl Abort, disk: &mut MemoryDisk, image: Image) -> bool {
    let as_said = done(rt, disk, Step::Restart);
    as_said && holds(disk, Area::Zero, left(image, true))
}

// Whether the restart fails, and the next one does what a restart does.
fn restart_fails(rt: &impl Abort, alloc: Global, image: Image) -> bool {
    let mut disk = disk_with(rt, alloc, 8, 7, Some(6), None, image);
    fails_to_restart(rt, &mut disk) && restarts(rt, &mut disk, image)
}

#[test]
fn each_call_fails_in_turn(rt: HostRuntime) {
    for image in &IMAGES {
        calls_fail(&rt, rt.alloc(), *image);
        assert!(rt; restart_fails(&rt, rt.alloc(), *image), "{image:?}");
    }
}

// Whether it stops after k calls, holds what it is to hold then, and no stop holds any more.
fn stops_after(rt: &impl Abort, alloc: Global, image: Image, k: u64) -> bool {
    let mut disk = disk_with(rt, alloc, 9, 9, None, Some(k), image);
    let as_said = just_these_fail(rt, &mut disk, k.wrapping_add(1), 6);
    as_said
        && holds(&disk, Area::Zero, left(image, k >= 2))
        && done(rt, &mut disk, Step::Sync(Area::Zero))
}

fn stops(rt: &impl Abort, alloc: Global, image: Image) {
    for k in 0..6u64 {
        assert!(rt; stops_after(rt, alloc, image, k), "{image:?} after {k}");
    }
}

#[test]
fn it_stops_after_each_call(rt: HostRuntime) {
    for image in &IMAGES {
        stops(&rt, rt.alloc(), *image);
    }
}

// What a second stop leaves, after a write of one byte.
fn left_by_second(image: Image) -> &'static [u8] {
    match image {
        Image::Kept => &[1, 9, 5, 6, 8],
        Image::Dropped => &[1, 2, 3, 4],
        Image::Byte(0) => &[1, 0, 0, 0, 0],
        Image::Byte(_) => &[1, 0xa5, 0xa5, 0xa5, 0xa5],
    }
}

// A write after the first stop, and a restart.
fn stops_again(rt: &impl Abort, disk: &mut MemoryDisk) -> bool {
    just_these_fail(rt, disk, 6, 6)
        && done(rt, disk, Step::Write(Area::Zero, 1, &[9]))
        && done(rt, disk, Step::Restart)
}

fn second_stop_finds(rt: &impl Abort, alloc: Global, image: Image) -> bool {
    let mut disk = disk_with(rt, alloc, 9, 9, None, Some(5), image);
    stops_again(rt, &mut disk)
        && holds(&disk, Area::Zero, left_by_second(image))
        && holds(&disk, Area::One, &[])
}

#[test]
fn a_second_stop_finds_what_was_written_since_the_first(rt: HostRuntime) {
    for image in &IMAGES {
        assert!(rt; second_stop_finds(&rt, rt.alloc(), *image), "{image:?}");
    }
}

fn length(disk: &mut MemoryDisk, area: Area) -> Option<u64> {
    disk.len(area).ok()
}

fn two_bytes(disk: &mut MemoryDisk, area: Area, from: u64) -> Option<[u8; 2]> {
    let mut two = [0; 2];
    if disk.bytes(area).len() < 2 || from > disk.bytes(area).len() as u64 - 2 {
        return None;
    }
    disk.read(area, from, &mut two).ok()?;
    Some(two)
}

fn is_refused(alloc: Global, room: u64) -> bool {
    let plan = DiskPlan {
        fail_at: Vec::new(alloc),
        stop_after: None,
        image: Image::Kept,
    };
    MemoryDisk::with_room(alloc, room, 1, plan).is_err()
}

// Steps, and whether each is done: of the third there is no room.
const BEFORE_READS: [(Step, bool); 4] = [
    (Step::Write(Area::One, 0, &[1, 2, 3]), true),
    (Step::Write(Area::Zero, 0, &[4]), true),
    (Step::Write(Area::One, 3, &[5]), false),
    (Step::Write(Area::One, 3, &[]), true),
];

// The last two are an eighth call and a ninth call.
const AFTER_READS: [(Step, bool); 3] = [
    (Step::Cut(Area::One, 1), true),
    (Step::Cut(Area::One, 0), false),
    (Step::Restart, false),
];

// Whether just those steps are done that are to be.
fn go_as_said(rt: &impl Abort, disk: &mut MemoryDisk, steps: &[(Step, bool)]) -> bool {
    let mut as_said = true;
    for (step, is_done) in steps {
        if done(rt, disk, *step) != *is_done {
            as_said = false;
        }
    }
    as_said
}

fn reads_as_said(disk: &mut MemoryDisk) -> bool {
    length(disk, Area::One) == Some(3) && two_bytes(disk, Area::One, 1) == Some([2, 3])
}

fn ends_as_said(disk: &MemoryDisk) -> bool {
    holds(disk, Area::One, &[1])
        && (disk.calls_made(), disk.fault_count(), disk.room()) == (9, 3, 0)
}

fn meets_room_and_calls(rt: &impl Abort, disk: &mut MemoryDisk) -> bool {
    go_as_said(rt, disk, &BEFORE_READS)
        && reads_as_said(disk)
        && go_as_said(rt, disk, &AFTER_READS)
        && ends_as_said(disk)
}

#[test]
fn room_and_calls_are_met_and_passed(rt: HostRuntime) {
    let mut disk = disk_with(&rt, rt.alloc(), 4, 7, None, None, Image::Kept);
    assert!(rt; meets_room_and_calls(&rt, &mut disk));
}

#[test]
fn too_much_room_is_refused(rt: HostRuntime) {
    assert!(rt; is_refused(rt.alloc(), u64::MAX));
}

// A disk of any kind: an area that is one closed gate, and then a note behind it. Ten calls.
fn make_note<D: Disk>(disk: &mut D) -> Result<(), Failed> {
    disk.restart()?;
    cut_synced(disk, Area::Zero, 0)?;
    if disk.len(Area::One)? == 0 {
        write_synced(disk, Area::One, 0, &[0])?;
        leave_note(disk, Area::One, &[7, 8, 9])?;
    }
    Ok(())
}

fn make_note_in_memory(disk: &mut MemoryDisk) -> bool {
    make_note(disk).is_ok()
}

// Closes the gate again. Four calls.
fn close_note<D: Disk>(disk: &mut D) -> Result<(), Failed> {
    disk.restart()?;
    if disk.len(Area::One)? > 0 {
        rewrite_synced(disk, Area::One, 0, &[0])?;
    }
    Ok(())
}

fn close_note_in_memory(disk: &mut MemoryDisk) -> bool {
    close_note(disk).is_ok()
}

fn is_open(image: Image, k: u64) -> bool {
    k == 10 || (k >= 8 && matches!(image, Image::Kept | Image::Byte(0xa5)))
}

// Whether of the ten calls the first k are made, and the note stands there then or not.
fn note_after(rt: &impl Abort, alloc: Global, image: Image, k: u64) -> bool {
    let mut disk = disk_with(rt, alloc, 5, 11, None, Some(k), image);
    let as_said = make_note_in_memory(&mut disk) == (k == 10);
    as_said
        && done(rt, &mut disk, Step::Restart)
        && holds(&disk, Area::One, &[0xa5, 7, 8, 9]) == is_open(image, k)
}

fn notes(rt: &impl Abort, alloc: Global, image: Image) {
    for k in 6..=10u64 {
        assert!(rt; note_after(rt, alloc, image, k), "{image:?} after {k}");
    }
}

#[test]
fn a_note_is_whole_or_not_there(rt: HostRuntime) {
    for image in &IMAGES {
        notes(&rt, rt.alloc(), *image);
    }
}

// Forty bytes at the end, and then the first of them again.
fn append(rt: &impl Abort, disk: &mut MemoryDisk, end: u64) -> bool {
    done(rt, disk, Step::Write(Area::One, end, &[0; 40]))
        && done(rt, disk, Step::Sync(Area::One))
        && done(rt, disk, Step::Write(Area::One, end, &[0xa5]))
        && done(rt, disk, Step::Sync(Area::One))
}

// Whether ten thousand appends are done, and then all calls were made.
fn appends_many(rt: &impl Abort, disk: &mut MemoryDisk) -> bool {
    let mut end = 0u64;
    for _ in 0..10_000u32 {
        if !append(rt, disk, end) {
            return false;
        }
        end = end.wrapping_add(40);
    }
    !done(rt, disk, Step::Sync(Area::One))
}

#[test]
fn many_appends_cost_what_they_bring(rt: HostRuntime) {
    let mut disk = disk_with(&rt, rt.alloc(), 410_000, 40_000, None, None, Image::Dropped);
    assert!(rt; appends_many(&rt, &mut disk));
}
