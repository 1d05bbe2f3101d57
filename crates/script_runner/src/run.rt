// The call of the whole program.
ghost use Rattle.std.specs.Prelude.{◌≡◌, ◌≤◌, ◌⊎◌, ◌↔◌, ◌+◌, ℕ, List, Some, None, Ok, Err, IsTrue, is_some};
ghost use Rattle.std.specs.Io.KnownBytes.{Appends};
ghost use Rattle.edge_traits.specs.Faults.{Rose};
ghost use Rattle.edge_traits.specs.Streams.{ConsumesAtMost};
ghost use Rattle.disk_trait.specs.declared.area.Area.{Area};
ghost use Rattle.disk_trait.specs.Disk.{WhereTold};
ghost use Rattle.log_history.specs.Found.{found};
ghost use Rattle.script_statements.specs.declared.script.Script.{Script};
ghost use Rattle.script_runner.specs.Commands.{IsRun, usage_text};
ghost use Rattle.script_runner.specs.Inputs.{ReadsAs, ReadsTooMuch, due_of};
ghost use Rattle.script_runner.specs.Sessions.{SessionDone, AreReported, starts_of, LeavesAfter, last_run, texts_of, fault_ends, IsCounted, EndsBetween, EndsAtOpening, EndsByFault, EndsWithin, IsCutOff};
ghost use Rattle.script_runner.specs.Statuses.{IsUnwritten};
ghost use Rattle.script_runner.specs.declared.status.Status.TheVariants as status;

use crate::limits::MOST_SCRIPT_BYTES;
use crate::scripts::{NoScript, read_sessions};
use crate::sessions::run_sessions;
use crate::stops::Stop;
use crate::{Ended, Status};
use clone_values::Text;
use disk_trait::Disk;
use edge_traits::{Gate, Sink, Source};
use std::alloc::Global;
use std::sync::Wait;
use std::thread::Threads;

fn is_run(words: &[Text]) -> bool
    ensures { IsTrue result ↔ IsRun words.now }
{
    match words {
        [word] => word.as_str() == "run",
        _ => false,
    }
}

// What a faulty command line is told.
fn usage(alloc: Global) -> Status
    ensures { (result ≡ Status.Usage usage_text) ⊎ (result ≡ Status.NoMemory) }
{
    match Text::copy_of(alloc, "idbrun: usage: idbrun run") {
        Ok(text) => Status::Usage { text },
        Err(_) => Status::NoMemory,
    }
}

/// Does all that the program does. `words` are those after its name; the one command is `run`. It reads a script from `source`, and runs
/// its sessions one after another on `disk`: each opens what the one before it left there, with a restart of the disk between them.
/// `gate` is told of each request before it runs. The report of each session is written to `sink` as it ends, in one piece.
///
/// Refusals come in this order: `Usage`, before anything is read; `ReadFault` or `TooLong`, whichever is met first while reading;
/// `BadScript`; then for each session `DiskFault` or `Damaged` at its opening, and `WriteFault`. With all of these but the last the
/// reports of the sessions before are written whole. Where the disk fails within a session that ends by it, and the next one is
/// opened on what the disk holds then; each such end is counted. The disk is handed back.
pub fn run_words<R: Threads + Wait + Sync, S: Source, K: Sink, D: Disk + Send, G: Gate + Sync>(
    rt: &R,
    alloc: Global,
    words: &[Text],
    source: &mut S,
    sink: &mut K,
    disk: D,
    gate: &G,
) -> Ended<D>
    // The source was read to its end, and what was read is a script; each of its sessions has a legal report, from the databases
    // that are found in what reads gave as it was opened; that may be left by the session before it, behind which the disk was
    // started again once; and the texts of these reports were appended, and nothing else. What a stop may leave now is what the last
    // session may leave, and the disk wasn't started since.
    ensures done { result.status ≡ Status.Done
        → (script : Script) × (done : List SessionDone)
        × ReadsAs (S.left source.old) (S.left source.new) (Ok script)
        × AreReported (D.shows disk) None 1 script.sessions done
        × LeavesAfter (D.shows disk) (last_run None done) (D.shows result.disk)
        × ((D.shows result.disk).starts ≡ starts_of (D.shows disk) (last_run None done))
        × Appends (K.held sink.old) (K.held sink.new) (texts_of done)
        × IsCounted (D.shows disk).faults (fault_ends done) (D.shows result.disk).faults }

    // Of the first sessions so many are reported so; a front of the last report was written, and all of those before it.
    ensures write_fault { result.status ≡ Status.WriteFault
        → (script : Script) × ReadsAs (S.left source.old) (S.left source.new) (Ok script)
        × IsCutOff (D.shows disk) (D.shows result.disk) script.sessions (K.held sink.old) (K.held sink.new) }

    // The first sessions are reported, and no other began; or one more began, and what a stop may leave is what it may leave, with the
    // commits of what it had done. Where the disk failed or is damaged, one more was to be opened; where it failed, one fault more was
    // counted than those by which sessions ended.
    ensures disk_fault { result.status ≡ Status.DiskFault
        → (script : Script) × ReadsAs (S.left source.old) (S.left source.new) (Ok script)
        × EndsByFault (D.shows disk) (D.shows result.disk) script.sessions
        (K.held sink.old) (K.held sink.new) }
    ensures damaged { (area : Area) (place : ℕ) → result.status ≡ status.Damaged area place
        → (script : Script) × ReadsAs (S.left source.old) (S.left source.new) (Ok script)
        × EndsAtOpening (D.shows disk) (D.shows result.disk) script.sessions
        (K.held sink.old) (K.held sink.new) }
    ensures no_memory { result.status ≡ Status.NoMemory
        → ((sink.new ≡ sink.old) × (result.disk ≡ disk))
        ⊎ ((script : Script) × ReadsAs (S.left source.old) (S.left source.new) (Ok script)
        × (EndsBetween (D.shows disk) (D.shows result.disk) script.sessions
        (K.held sink.old) (K.held sink.new)
        ⊎ EndsWithin (D.shows disk) (D.shows result.disk) script.sessions
        (K.held sink.old) (K.held sink.new))) }

    // The cause of each status. Where the disk tells what it holds, it came damaged: no session leaves it so.
    ensures usage { (text : List ℕ) → result.status ≡ Status.Usage text → (text ≡ usage_text)
        × (IsRun words.now → ⊥) }
    ensures too_long { result.status ≡ Status.TooLong → ReadsTooMuch (S.left source.old) (S.left source.new) }
    ensures bad_script { (place : ℕ) → result.status ≡ status.BadScript place
        → ReadsAs (S.left source.old) (S.left source.new) (Err place) }
    ensures read_cause { result.status ≡ Status.ReadFault → Rose (S.faults source.old) (S.faults source.new) }
    ensures write_cause { result.status ≡ Status.WriteFault → Rose (K.faults sink.old) (K.faults sink.new) }
    ensures disk_cause { result.status ≡ Status.DiskFault
        → Rose (D.shows disk).faults (D.shows result.disk).faults }
    ensures damage { (area : Area) (place : ℕ) → result.status ≡ status.Damaged area place
        → WhereTold (D.shows disk) (λ areas. found areas ≡ Err (area, place)) }

    // Other words come to nothing else, and nothing is read then.
    ensures refused { (IsRun words.now → ⊥) → (result.status ≡ Status.Usage usage_text)
        ⊎ (result.status ≡ Status.NoMemory) }
    ensures untouched { (IsRun words.now → ⊥)
        → (source.new ≡ source.old) × (sink.new ≡ sink.old) × (result.disk ≡ disk) }

    // Where nothing fails and memory lasts, each input gets its status on a disk that tells what it holds.
    ensures complete { IsRun words.now → (input : List ℕ) → S.left source.old ≡ Some input
        → (Rose (S.faults source.old) (S.faults source.new) → ⊥)
        → (Rose (K.faults sink.old) (K.faults sink.new) → ⊥)
        → (Rose (D.shows disk).faults (D.shows result.disk).faults → ⊥)
        → WhereTold (D.shows disk) (λ areas. (result.status ≡ due_of (found areas) input)
        ⊎ (result.status ≡ Status.NoMemory)) }

    ensures unwritten { IsUnwritten result.status → (sink.new ≡ sink.old) × (result.disk ≡ disk) }
    ensures taken { ConsumesAtMost (S.left source.old) (S.left source.new) (MOST_SCRIPT_BYTES + 1) }
    ensures told { is_some (D.shows result.disk).reads ≡ is_some (D.shows disk).reads }
    ensures read_count { S.faults source.old ≤ S.faults source.new }
    ensures write_count { K.faults sink.old ≤ K.faults sink.new }
    ensures disk_count { (D.shows disk).faults ≤ (D.shows result.disk).faults }
{
    if !is_run(words) {
        return Ended {
            status: usage(alloc),
            disk,
        };
    }
    let script = match read_sessions(alloc, source) {
        Ok(script) => script,
        Err(NoScript::ReadFault) => return Ended {
            status: Status::ReadFault,
            disk,
        },
        Err(NoScript::TooLong) => return Ended {
            status: Status::TooLong,
            disk,
        },
        Err(NoScript::BadScript { place }) => return Ended {
            status: Status::BadScript { place },
            disk,
        },
        Err(NoScript::NoMemory) => return Ended {
            status: Status::NoMemory,
            disk,
        },
    };
    let (ran, disk) = run_sessions(alloc, gate, script.sessions, sink, disk);
    match ran {
        Ok(()) => Ended {
            status: Status::Done,
            disk,
        },
        Err(Stop::DiskFault) => Ended {
            status: Status::DiskFault,
            disk,
        },
        Err(Stop::Damaged { area, place }) => Ended {
            status: Status::Damaged { area, place },
            disk,
        },
        Err(Stop::WriteFault) => Ended {
            status: Status::WriteFault,
            disk,
        },
        Err(Stop::NoMemory) => Ended {
            status: Status::NoMemory,
            disk,
        },
    }
}
