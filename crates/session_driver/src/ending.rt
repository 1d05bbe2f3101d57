// The log of a session is ended.
ghost use Rattle.std.specs.Prelude.{◌≡◌, true, IfOk, OnOk};
ghost use Rattle.legal_sessions.specs.Legal.{EndsSo, report_end};
ghost use Rattle.office_moves.specs.Running.{BookGoesOn};
ghost use Rattle.office_moves.specs.Scenes.{done_of_book, is_open_end};

use disk_trait::Disk;
use idb_base::NoMemory;
use index_tables::Tables;
use report_lines::ReportEnd;
use session_books::{EnterError, SessionBook};

/// Where no commit met a fault the commits that wait are written, unless the session drops them; how the session ends.
pub(crate) fn end_log<D: Disk, T: Tables>(
    book: &mut SessionBook<D, T>,
    drop_end: bool,
) -> Result<ReportEnd, NoMemory>
    requires { is_open_end book.old.end ≡ true }
    ensures same { done_of_book book.new ≡ done_of_book book.old }
    ensures ends { OnOk result (EndsSo drop_end (done_of_book book.old).doubts book.new.end) }
    ensures end { IfOk result (λ e. e ≡ report_end book.new.end) }
    ensures goes { BookGoesOn D.shows book.old book.new }
{
    if !book.runs() {
        return Ok(ReportEnd::Fault);
    }
    if drop_end {
        return Ok(ReportEnd::Drop);
    }
    match book.flush() {
        Ok(()) => Ok(ReportEnd::Flush),
        Err(EnterError::DiskFault) => Ok(ReportEnd::Fault),
        Err(EnterError::NoMemory) => Err(NoMemory),
    }
}
