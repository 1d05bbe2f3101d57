// A session whose disk stops or fails at one of its calls: what is found then is what the answers told, as each image of a torn write
// allows. The commits have numbers, and the answers are noted as they come.
ghost use Rattle.tx_book.specs.Entries.{CanBeLogged};

use disk_trait::{Disk, DiskPlan, Image, MemoryDisk};
use idb_calls::{Deltas, Events, Outcome};
use idb_keys::{Durability, Mode};
use record_bytes::read_batch;
use std::alloc::Global;
use std::fmt::Write;
use std::process::Abort;
use tx_book::{Book, GateLog, TxTrace};

#[derive(Clone, Copy)]
enum Step {
    Strict,
    Relaxed,
    ReadOnly,
    Abort,
    Flush,
}

/// Three batches: one commit, two, and two again. The last commit waits for the end of its batch.
const STEPS: [Step; 10] = [
    Step::Strict,
    Step::Relaxed,
    Step::Relaxed,
    Step::Flush,
    Step::Flush,
    Step::Abort,
    Step::ReadOnly,
    Step::Relaxed,
    Step::Strict,
    Step::Relaxed,
];

fn trace_of(alloc: Global, number: u64, step: Step) -> TxTrace
    ensures { CanBeLogged result }
{
    let mode = match step {
        Step::ReadOnly => Mode::ReadOnly,
        _ => Mode::ReadWrite,
    };
    let durability = match step {
        Step::Strict => Durability::Strict,
        _ => Durability::Relaxed,
    };
    let outcome = match step {
        Step::Abort => Outcome::Aborted {
            error: None,
            doubt: false,
        },
        _ => Outcome::Committed,
    };
    TxTrace {
        number,
        mode,
        durability,
        deltas: Deltas::new(alloc),
        lines: Events::new(alloc),
        outcome,
    }
}

/// The book's answer, as a word.
fn answer_to(
    rt: &impl Abort,
    alloc: Global,
    book: &mut Book<MemoryDisk>,
    number: u64,
    step: Step,
) -> String {
    let mut answer = String::new(alloc);
    match step {
        Step::Flush => write!(answer, "{:?}", book.flush()).expect(rt, "memory"),
        _ => {
            let trace = trace_of(alloc, number, step);
            write!(answer, "{:?}", book.finish(&trace)).expect(rt, "memory")
        }
    }
    answer
}

/// What was handed over, by the answers: the numbers of the sealed batches, and those of the commits behind them; and whether the
/// batch of these met a fault.
#[derive(Drop)]
struct Ledger {
    sealed: String,
    rest: String,
    failed: bool,
}

impl Ledger {
    fn seal(&mut self, rt: &impl Abort) {
        self.sealed.push_str(&self.rest).expect(rt, "memory");
        self.sealed.push_str(" |").expect(rt, "memory");
        self.rest.clear();
    }

    fn note(&mut self, rt: &impl Abort, number: u64, step: Step, answer: &str) {
        let taken = matches!(answer, "Sealed" | "Waiting" | "DiskFault");
        if taken && !matches!(step, Step::Flush) {
            write!(self.rest, " {number}").expect(rt, "memory");
        }
        match answer {
            "Sealed" => self.seal(rt),
            "DiskFault" => self.failed = true,
            _ => {}
        }
    }
}

/// The disk behind these steps, which have the numbers behind this one.
fn enter_steps(
    rt: &impl Abort,
    alloc: Global,
    disk: MemoryDisk,
    mut number: u64,
    steps: &[Step],
    ledger: &mut Ledger,
) -> MemoryDisk {
    let mut book = match GateLog::load(alloc, disk) {
        Ok(opened) => Book::new(alloc, opened.0),
        Err(error) => return error.1,
    };
    for step in steps {
        number = number.wrapping_add(1);
        let answer = answer_to(rt, alloc, &mut book, number, *step);
        ledger.note(rt, number, *step, &answer);
    }
    let parts = book.into_parts();
    parts.0
}

fn tell_batch(rt: &impl Abort, alloc: Global, payload: &[u8], said: &mut String) {
    if let Ok(records) = read_batch(alloc, payload) {
        for record in records.as_slice() {
            write!(said, " {}", record.number).expect(rt, "memory");
        }
    }
    write!(said, " |").expect(rt, "memory");
}

/// The numbers that are found, and the disk.
fn found(rt: &impl Abort, alloc: Global, disk: MemoryDisk) -> (String, MemoryDisk) {
    let mut said = String::new(alloc);
    match GateLog::load(alloc, disk) {
        Ok(opened) => {
            let (log, batches) = opened;
            for k in 0..batches.len() {
                if let Some(batch) = batches.at(k) {
                    tell_batch(rt, alloc, batch.payload.as_slice(), &mut said);
                }
            }
            (said, log.into_disk())
        }
        Err(_) => panic!(rt; "no log"),
    }
}

fn disk_of(rt: &impl Abort, alloc: Global, stops: bool, call: u64, image: Image) -> MemoryDisk {
    let mut fail_at = Vec::new(alloc);
    fail_at.push(call).expect(rt, "memory");
    let plan = DiskPlan {
        fail_at,
        stop_after: if stops { call.checked_sub(1) } else { None },
        image,
    };
    MemoryDisk::with_room(alloc, 2_000, 200, plan).expect(rt, "memory")
}

/// A session with a stop or a failing call: '.' where the sealed batches are found, '-' and '+' where the book met a fault and they
/// are found without the batch in doubt or with it, and a line for all else. A commit more comes behind what was found, also where
/// the disk is started again only then.
fn try_call(
    rt: &impl Abort,
    alloc: Global,
    stops: bool,
    call: u64,
    image: Image,
    said: &mut String,
) {
    let mut ledger = Ledger {
        sealed: String::new(alloc),
        rest: String::new(alloc),
        failed: false,
    };
    let disk = disk_of(rt, alloc, stops, call, image);
    let mut disk = enter_steps(rt, alloc, disk, 0, &STEPS, &mut ledger);
    if stops {
        let _ = disk.restart();
    }
    let (first, mut disk) = found(rt, alloc, disk);
    let mut mark = if ledger.failed { '-' } else { '.' };
    if ledger.failed && first.as_str() != ledger.sealed.as_str() {
        mark = '+';
        ledger.seal(rt);
    }
    ledger.rest.clear();
    let allowed = first.as_str() == ledger.sealed.as_str();
    let _ = disk.restart();
    let mut disk = enter_steps(rt, alloc, disk, 100, &[Step::Strict], &mut ledger);
    let _ = disk.restart();
    let (second, _disk) = found(rt, alloc, disk);
    if allowed && second.as_str() == ledger.sealed.as_str() {
        write!(said, "{mark}").expect(rt, "memory");
    } else {
        write!(
            said,
            "\n{stops} {call} {image:?}:{first};{second};{}\n",
            ledger.sealed
        )
        .expect(rt, "memory");
    }
}

/// No trouble, then trouble at each call: the eleven with which a blank disk is opened, and the four of each batch.
fn try_calls(rt: &impl Abort, alloc: Global, stops: bool, image: Image, said: &mut String) {
    for call in 0..24 {
        try_call(rt, alloc, stops, call, image, said);
    }
    write!(said, " ").expect(rt, "memory");
}

// The third call of a batch opens its gate: from it on the gate is open as two of the images have it, and as reads do where the disk
// goes on.
const FOUND: &str = "............--++--++--++ ............--++--++--++ \n\
    ............------------ ............--++--++--++ \n\
    ............--++--++--++ ............--++--++--++ \n\
    ............------------ ............--++--++--++ \n";

#[test]
fn trouble_at_any_call_leaves_the_sealed_batches_or_one_more(rt: HostRuntime) {
    let mut said = String::new(rt.alloc());
    for image in [
        Image::Kept,
        Image::Dropped,
        Image::Byte(0xa5),
        Image::Byte(0),
    ] {
        try_calls(&rt, rt.alloc(), true, image, &mut said);
        try_calls(&rt, rt.alloc(), false, image, &mut said);
        writeln!(said).expect(&rt, "memory");
    }
    assert_eq!(rt; said.as_str(), FOUND);
}
