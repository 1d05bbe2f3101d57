// The sessions of a script, one after another on a disk.
ghost use Rattle.std.specs.Prelude.{◌≡◌, ◌≤◌, ◌+◌, List, true, is_some, if◌then◌else◌, OnOk, OnErr, IfOk, IfErr, IsErrOf, None};
ghost use Rattle.std.specs.Io.KnownBytes.{Appends};
ghost use Rattle.edge_traits.specs.Faults.{Rose, HasFaultCause};
ghost use Rattle.edge_traits.specs.Streams.{AppendsFront};
ghost use Rattle.disk_trait.specs.Disk.{WhereTold, NoNewImage};
ghost use Rattle.report_lines.specs.ReportText.{text_of_report};
ghost use Rattle.report_lines.specs.declared.reports.Report.{Report};
ghost use Rattle.script_runner.specs.Sessions.{SessionDone, AreReported, starts_of, LeavesAfter, last_run, texts_of, fault_ends, IsCounted};
ghost use Rattle.script_runner.specs.Running.{RanOn, StopsBy, EndsBy};
ghost use Rattle.script_runner.specs.declared.stops.Stop.{Stop};

use crate::reporting::{NoReport, write_report};
use crate::stops::{Stop, unopened};
use disk_trait::{Disk, Failed};
use edge_traits::{Gate, Sink};
use idb_base::NoMemory;
use idb_recovery::recover;
use report_lines::Report;
use script_statements::{ScriptSession, ScriptSessions};
use session_driver::{interruption_laws, run_session};
use std::alloc::Global;
use store_tables::LeafTables;

/// Starts the disk again, but for the first session.
fn restart<D: Disk>(disk: &mut D, is_first: bool) -> Result<(), Failed>
    ensures first { is_first ≡ true → (D.shows disk.new).reads ≡ (D.shows disk.old).reads }
    ensures given { OnOk result (WhereTold (D.shows disk.new) (D.shows disk.old).may_leave) }
    ensures images { NoNewImage (D.shows disk.old) (D.shows disk.new) }
    ensures started { OnOk result ((D.shows disk.new).starts
        ≡ (if is_first then (D.shows disk.old).starts else (D.shows disk.old).starts + 1)) }
    ensures told { is_some (D.shows disk.new).reads ≡ is_some (D.shows disk.old).reads }
    ensures cause { HasFaultCause (D.shows disk.old).faults (D.shows disk.new).faults result }
{
    if is_first {
        return Ok(());
    }
    disk.restart()
}

/// The number of the next session. There is no memory for so many that it has none.
fn next_number(number: u32) -> Result<u32, NoMemory>
    ensures { IfOk result (λ next. next ≡ number + 1) }
{
    match number.checked_add(1) {
        Some(next) => Ok(next),
        None => Err(NoMemory),
    }
}

/// Opens what the disk holds, and runs the session on it.
fn run_on<D: Disk, G: Gate>(
    alloc: Global,
    gate: &G,
    session: ScriptSession,
    number: u32,
    disk: D,
) -> (Result<Report, Stop>, D)
    ensures runs { IfOk result.0 (λ report.
        RanOn (D.shows disk) (D.shows result.1) number session report) }
    ensures stops { IfErr result.0 (λ stop. StopsBy ⊥ session stop (D.shows disk) (D.shows result.1)) }
    ensures told { is_some (D.shows result.1).reads ≡ is_some (D.shows disk).reads }
    ensures count { (D.shows disk).faults ≤ (D.shows result.1).faults }
{
    let opened = match recover::<D, LeafTables>(alloc, disk) {
        Ok(opened) => opened,
        Err((error, disk)) => return (Err(unopened(error)), disk),
    };
    let (ran, disk) = run_session(alloc, gate, session, number, opened);
    match ran {
        Ok(report) => (Ok(report), disk),
        Err(NoMemory) => (Err(Stop::NoMemory), disk),
    }
}

/// Opens what the disk holds, runs the session on it, and writes its report. Nothing is written before the session has ended.
fn report_session<K: Sink, D: Disk, G: Gate>(
    alloc: Global,
    gate: &G,
    session: ScriptSession,
    number: u32,
    sink: &mut K,
    disk: D,
) -> (Result<(), Stop>, D)
    ensures done { OnOk result.0 ((report : Report)
        × RanOn (D.shows disk) (D.shows result.1) number session report
        × Appends (K.held sink.old) (K.held sink.new) (text_of_report report)) }
    ensures stops { IfErr result.0 (λ stop. StopsBy ((report : Report)
        × RanOn (D.shows disk) (D.shows result.1) number session report
        × AppendsFront (K.held sink.old) (K.held sink.new) (text_of_report report))
        session stop (D.shows disk) (D.shows result.1)) }
    ensures write_cause { IsErrOf result.0 Stop.WriteFault → Rose (K.faults sink.old) (K.faults sink.new) }
    ensures unwritten { (IsErrOf result.0 Stop.WriteFault → ⊥) → OnErr result.0 (sink.new ≡ sink.old) }
    ensures told { is_some (D.shows result.1).reads ≡ is_some (D.shows disk).reads }
    ensures disk_count { (D.shows disk).faults ≤ (D.shows result.1).faults }
    ensures write_count { K.faults sink.old ≤ K.faults sink.new }
{
    interruption_laws();
    let (ran, disk) = run_on(alloc, gate, session, number, disk);
    let report = match ran {
        Ok(report) => report,
        Err(stop) => return (Err(stop), disk),
    };
    match write_report(alloc, &report, sink) {
        Ok(()) => (Ok(()), disk),
        Err(NoReport::WriteFault) => (Err(Stop::WriteFault), disk),
        Err(NoReport::NoMemory) => (Err(Stop::NoMemory), disk),
    }
}

/// Runs the sessions, one after another, each on what the one before it left on the disk, and writes the report of each as it ends.
pub(crate) fn run_sessions<K: Sink, D: Disk, G: Gate>(
    alloc: Global,
    gate: &G,
    sessions: ScriptSessions,
    sink: &mut K,
    disk: D,
) -> (Result<(), Stop>, D)
    ensures done { OnOk result.0 ((done : List SessionDone)
        × AreReported (D.shows disk) None 1 sessions done
        × LeavesAfter (D.shows disk) (last_run None done) (D.shows result.1)
        × ((D.shows result.1).starts ≡ starts_of (D.shows disk) (last_run None done))
        × Appends (K.held sink.old) (K.held sink.new) (texts_of done)
        × IsCounted (D.shows disk).faults (fault_ends done) (D.shows result.1).faults) }
    ensures stops { IfErr result.0 (λ stop. EndsBy stop (D.shows disk) (D.shows result.1) sessions
        (K.held sink.old) (K.held sink.new)) }
    ensures write_cause { IsErrOf result.0 Stop.WriteFault → Rose (K.faults sink.old) (K.faults sink.new) }
    ensures told { is_some (D.shows result.1).reads ≡ is_some (D.shows disk).reads }
    ensures disk_count { (D.shows disk).faults ≤ (D.shows result.1).faults }
    ensures write_count { K.faults sink.old ≤ K.faults sink.new }
{
    let mut disk = disk;
    let mut number = 0;
    for session in sessions.into_vec() {
        match restart(&mut disk, number == 0) {
            Ok(()) => (),
            Err(_) => return (Err(Stop::DiskFault), disk),
        }
        number = match next_number(number) {
            Ok(next) => next,
            Err(_) => return (Err(Stop::NoMemory), disk),
        };
        let (reported, rest) = report_session(alloc, gate, session, number, sink, disk);
        disk = rest;
        match reported {
            Ok(()) => {}
            Err(stop) => return (Err(stop), disk),
        }
    }
    (Ok(()), disk)
}
