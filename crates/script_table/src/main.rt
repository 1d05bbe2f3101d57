// Runs the scripts whose files are its arguments, each on a disk of its own in memory, and writes their reports.
//
// The gate runs it on the scripts of its folder `data`. What it must write was derived from the standard's algorithms by hand.
#![tactic(auto)]

use clone_values::Text;
use disk_trait::{DiskPlan, Image, MemoryDisk};
use edge_traits::{MemorySink, MemorySource, OpenGate};
use script_runner::{Ended, run_words};
use std::alloc::Global;
use std::io::Write;
use std::process::ExitCode;
use std::rt::Files;
use std::sync::Wait;
use std::thread::Threads;
use std::{env, fs};

/// The room for the reports of a script, in bytes.
const ROOM: usize = 1_048_576;

/// The room for what a script writes to its disk, in bytes.
const DISK_ROOM: u64 = 1_048_576;

/// How many calls a script may make of its disk.
const DISK_CALLS: u64 = 10_000;

/// A disk of two blank areas, which doesn't fail.
fn blank(alloc: Global) -> Option<MemoryDisk> {
    let plan = DiskPlan {
        fail_at: Vec::new(alloc),
        stop_after: None,
        image: Image::Kept,
    };
    MemoryDisk::with_room(alloc, DISK_ROOM, DISK_CALLS, plan).ok()
}

/// The reports of the script in this file, behind a line with the file's name; a script that is refused has its status there.
fn report<R: Files + Threads + Wait + Sync + AllocGlobal>(
    rt: &R,
    alloc: Global,
    name: &str,
) -> Option<(String, MemorySink)> {
    let bytes = fs::read(rt, name).ok()?;
    let word = Text::copy_of(alloc, "run").ok()?;
    let mut source = MemorySource::new(bytes, Vec::new(alloc));
    let mut sink = MemorySink::with_room(alloc, ROOM, Vec::new(alloc)).ok()?;
    let Ended { status, disk: _ } = run_words(
        rt,
        alloc,
        &[word],
        &mut source,
        &mut sink,
        blank(alloc)?,
        &OpenGate,
    );
    let head = if status.is_done() {
        format!(in alloc; "# {name}\n").ok()?
    } else {
        format!(in alloc; "# {name}: {status}\n").ok()?
    };
    Some((head, sink))
}

fn main(rt: HostRuntime) -> ExitCode {
    let alloc = rt.alloc();
    let Ok(names) = env::args(&rt) else {
        return ExitCode::from(1);
    };
    for name in names.skip(1) {
        let Some((head, sink)) = report(&rt, alloc, name.as_str()) else {
            return ExitCode::from(1);
        };
        let mut out = rt.stdout();
        if out.write_all(head.as_bytes()).is_err() || out.write_all(sink.bytes()).is_err() {
            return ExitCode::from(1);
        }
    }
    ExitCode::from(0)
}
