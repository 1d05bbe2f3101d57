// What no clause says: that calls succeed with ample memory, in how many device calls, and where batches end. Steps are data, and each
// writes its answer into a text.
ghost use Rattle.std.specs.Prelude.{IfOk};
ghost use Rattle.std.specs.List.{AllByRecursion};
ghost use Rattle.idb_base.specs.Lists.{IsWithinLimit};
ghost use Rattle.record_bytes.specs.Loggable.{HasLoggableParts};
ghost use Rattle.tx_book.specs.Entries.{CanBeLogged};

use crate::keeper::{enter, enter_all, reopen};
use crate::{Book, Finish, GateLog, TxTrace};
use clone_values::Text;
use disk_trait::{Disk, DiskPlan, Image, MemoryDisk};
use idb_base::NoMemory;
use idb_calls::{Delta, Deltas, Events, Outcome};
use idb_keys::{Durability, Mode};
use std::alloc::Global;
use std::fmt::Write;
use std::test::Fail;

#[derive(Clone, Copy)]
enum Step {
    Strict,
    Relaxed,
    // So many relaxed commits.
    Many(u64),
    // A relaxed commit with a name of so many bytes.
    Long(usize),
    ReadOnly,
    Abort,
    Flush,
    Failed,
}

// The call that fails, and the steps.
struct Row {
    fails: Option<u64>,
    steps: &'static [Step],
}

// A batch of records without changes has 4 bytes, and 12 for each; a record that drops a database has 5 more, and its name.
const ROWS: [Row; 6] = [
    Row {
        fails: None,
        steps: &[
            Step::Strict,
            Step::Relaxed,
            Step::Relaxed,
            Step::Flush,
            Step::Flush,
            Step::Abort,
            Step::ReadOnly,
            Step::Relaxed,
            Step::Strict,
            Step::Failed,
        ],
    },
    Row {
        fails: Some(15),
        steps: &[
            Step::Relaxed,
            Step::Strict,
            Step::Relaxed,
            Step::ReadOnly,
            Step::Abort,
            Step::Flush,
            Step::Failed,
        ],
    },
    Row {
        fails: Some(16),
        steps: &[Step::Strict, Step::Strict, Step::Strict],
    },
    Row {
        fails: Some(12),
        steps: &[Step::Relaxed, Step::Flush, Step::Flush],
    },
    Row {
        fails: None,
        steps: &[Step::Many(64), Step::Many(63), Step::Relaxed],
    },
    Row {
        fails: None,
        steps: &[
            Step::Long(262_122),
            Step::Relaxed,
            Step::Long(262_123),
            Step::Flush,
        ],
    },
];

fn blank(alloc: Global, fails: Option<u64>) -> Result<MemoryDisk, Fail> {
    let mut fail_at = Vec::new(alloc);
    if let Some(k) = fails {
        fail_at.push(k)?;
    }
    let plan = DiskPlan {
        fail_at,
        stop_after: None,
        image: Image::Kept,
    };
    Ok(MemoryDisk::with_room(alloc, 2_000_000, 1000, plan)?)
}

fn opened(alloc: Global, fails: Option<u64>) -> Result<Option<Book<MemoryDisk>>, Fail> {
    Ok(match GateLog::load(alloc, blank(alloc, fails)?) {
        Ok(opened) => Some(Book::new(alloc, opened.0)),
        Err(_) => None,
    })
}

// A name of so many bytes, or of the greatest number of them.
fn name_of(alloc: Global, len: usize) -> Result<Text, NoMemory> {
    let mut name = String::new(alloc);
    for _ in 0..len {
        name.push('n')?;
    }
    if name.len() > 300_000 {
        return Err(NoMemory);
    }
    Text::from_string(alloc, name)
}

fn changes(alloc: Global, step: Step) -> Result<Deltas, NoMemory>
    ensures count { IfOk result IsWithinLimit }
    ensures parts { IfOk result (AllByRecursion HasLoggableParts) }
{
    let mut deltas = Deltas::new(alloc);
    if let Step::Long(len) = step {
        deltas.push(Delta::DropDatabase {
            db: name_of(alloc, len)?,
        })?;
    }
    Ok(deltas)
}

fn durability_of(step: Step) -> Durability {
    match step {
        Step::Strict => Durability::Strict,
        _ => Durability::Relaxed,
    }
}

fn mode_of(step: Step) -> Mode {
    match step {
        Step::ReadOnly => Mode::ReadOnly,
        _ => Mode::ReadWrite,
    }
}

fn outcome_of(step: Step) -> Outcome {
    match step {
        Step::Abort => Outcome::Aborted {
            error: None,
            doubt: false,
        },
        _ => Outcome::Committed,
    }
}

fn trace_of(alloc: Global, number: u64, step: Step) -> Result<TxTrace, NoMemory>
    ensures { IfOk result CanBeLogged }
{
    Ok(TxTrace {
        number,
        mode: mode_of(step),
        durability: durability_of(step),
        deltas: changes(alloc, step)?,
        lines: Events::new(alloc),
        outcome: outcome_of(step),
    })
}

fn finish(alloc: Global, book: &mut Book<MemoryDisk>, step: Step) -> Result<Finish, NoMemory> {
    let trace = trace_of(alloc, 1, step)?;
    Ok(book.finish(&trace))
}

// How many waited, and the last answer.
fn finish_many(
    alloc: Global,
    book: &mut Book<MemoryDisk>,
    times: u64,
    said: &mut String,
) -> Result<(), NoMemory> {
    let mut waited = 0u64;
    let mut last = Finish::NoMemory;
    for _ in 0..times {
        last = finish(alloc, book, Step::Relaxed)?;
        if last == Finish::Waiting {
            waited = waited.wrapping_add(1);
        }
    }
    let _ = write!(said, " {waited} {last:?}");
    Ok(())
}

fn take_step(
    alloc: Global,
    book: &mut Book<MemoryDisk>,
    step: Step,
    said: &mut String,
) -> Result<(), NoMemory> {
    match step {
        Step::Many(times) => finish_many(alloc, book, times, said)?,
        Step::Flush => {
            let answer = book.flush();
            let _ = write!(said, " {answer:?}");
        }
        Step::Failed => {
            let seen = book.failed();
            let _ = write!(said, " {seen:?}");
        }
        _ => {
            let answer = finish(alloc, book, step)?;
            let _ = write!(said, " {answer:?}");
        }
    }
    Ok(())
}

// The batches that are found after a restart.
fn tell_found(alloc: Global, disk: MemoryDisk, said: &mut String) {
    let mut disk = disk;
    let _ = disk.restart();
    if let Ok(opened) = GateLog::load(alloc, disk) {
        let (_log, batches) = opened;
        for k in 0..batches.len() {
            if let Some(batch) = batches.at(k) {
                let _ = write!(said, " {}+{}", batch.place, batch.payload.len());
            }
        }
    }
}

fn close(alloc: Global, book: Book<MemoryDisk>, said: &mut String) {
    let parts = book.into_parts();
    let (disk, finished, committed) = parts;
    let _ = write!(said, "; {} {}:", finished.len(), committed.len());
    tell_found(alloc, disk, said);
    let _ = writeln!(said);
}

fn go_through(alloc: Global, row: &Row, said: &mut String) -> Result<(), Fail> {
    if let Some(book) = opened(alloc, row.fails)? {
        let mut book = book;
        for step in row.steps {
            take_step(alloc, &mut book, *step, said)?;
        }
        close(alloc, book, said);
    }
    Ok(())
}

// The call that fails is the last of the first batch, or the first of the second: a batch takes four calls behind the eleven with
// which a blank disk is opened.
const SAID: &str =
    " Sealed Waiting Waiting Sealed Nothing Noted Noted Waiting Sealed None; 7 5: 17+16 42+28 79+28
 Waiting DiskFault Faulted { seen: 1 } Faulted { seen: 1 } Noted Faulted { seen: 1 } Some(1); 5 1: 17+28
 Sealed DiskFault Faulted { seen: 1 }; 3 1: 17+16
 Waiting DiskFault Faulted { seen: 1 }; 1 1:
 63 Sealed 63 Waiting Sealed; 128 128: 17+772 798+772
 Waiting Sealed Sealed Nothing; 3 3: 17+262155 262181+262144
";

#[test]
fn commits_wait_until_their_batch_ends(rt: HostRuntime) -> Result<(), Fail> {
    let mut said = String::new(rt.alloc());
    for row in &ROWS {
        go_through(rt.alloc(), row, &mut said)?;
    }
    assert_eq!(rt; said.as_str(), SAID);
    Ok(())
}

// The second commit meets a fault, and then the log is opened again.
fn keep(alloc: Global, said: &mut String) -> Result<(), Fail> {
    let traces = [
        trace_of(alloc, 1, Step::Strict)?,
        trace_of(alloc, 2, Step::Strict)?,
    ];
    if let Some(book) = opened(alloc, Some(19))? {
        let mut book = book;
        let all = enter_all(&mut book, &traces);
        if let Ok(again) = reopen(alloc, book) {
            let mut again = again;
            let more = enter(&mut again, &traces[0]);
            let _ = write!(said, "{all} {more}");
            close(alloc, again, said);
        }
    }
    Ok(())
}

#[test]
fn a_keeper_goes_on_after_a_fault(rt: HostRuntime) -> Result<(), Fail> {
    let mut said = String::new(rt.alloc());
    keep(rt.alloc(), &mut said)?;
    assert_eq!(rt; said.as_str(), "false true; 1 1: 17+16 42+16 67+16\n");
    Ok(())
}
