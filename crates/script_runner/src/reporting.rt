// Writes a report to a sink.
ghost use Rattle.std.specs.Prelude.{◌≡◌, ◌≤◌, OnOk, IsErrOf};
ghost use Rattle.std.specs.Io.KnownBytes.{Appends};
ghost use Rattle.edge_traits.specs.Faults.{Rose};
ghost use Rattle.edge_traits.specs.Streams.{AppendsFront};
ghost use Rattle.report_lines.specs.ReportText.{text_of_report};

use edge_traits::{Sink, write_all};
use report_lines::{Report, report_text};
use std::alloc::Global;

/// Why there is no whole report.
#[derive(Clone, Copy, Debug)]
pub(crate) enum NoReport {
    WriteFault,
    NoMemory,
}

/// Writes the text of a report.
pub(crate) fn write_report<K: Sink>(
    alloc: Global,
    report: &Report,
    sink: &mut K,
) -> Result<(), NoReport>
    ensures done { OnOk result
        (Appends (K.held sink.old) (K.held sink.new) (text_of_report report.now)) }
    ensures front { IsErrOf result NoReport.WriteFault
        → AppendsFront (K.held sink.old) (K.held sink.new) (text_of_report report.now) }
    ensures fault { IsErrOf result NoReport.WriteFault → Rose (K.faults sink.old) (K.faults sink.new) }
    ensures unwritten { IsErrOf result NoReport.NoMemory → sink.new ≡ sink.old }
    ensures count { K.faults sink.old ≤ K.faults sink.new }
{
    let text = match report_text(alloc, report) {
        Ok(text) => text,
        Err(_) => return Err(NoReport::NoMemory),
    };
    match write_all(sink, text.as_slice()) {
        Ok(()) => Ok(()),
        Err(_) => Err(NoReport::WriteFault),
    }
}
