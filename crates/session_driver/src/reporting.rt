// The report of a session.
ghost use Rattle.std.specs.Prelude.{◌≡◌, map, List, IfOk, [], ◌∷◌, ◌++◌};
ghost use Rattle.std.specs.FinMap as finite;
ghost use Rattle.client_machine.specs.Acts.{written_from};
ghost use Rattle.session_states.specs.Sessions.{report_now};
ghost use Rattle.session_driver.specs.Reporting.{lines_seen, report_told};
ghost use Rattle.session_driver.specs.Seats.{session_seen};

use crate::seats::Seat;
use client_machine::GREATEST_POST_COUNT;
use clone_values::{Numbers, Text};
use idb_base::NoMemory;
use idb_desk::Desk;
use idb_keys::ErrorName;
use report_lines::{ClientLines, Line, Lines, Opening, Report, ReportEnd};
use script_runs::{Note, Notes};
use std::alloc::Global;

/// Writes a note behind the lines, after so many posts: a post past the limit is refused. How many posts there were then.
fn write_note(alloc: Global, lines: &mut Lines, posts: u32, note: Note) -> Result<u32, NoMemory>
    ensures written { (rest : List Note) → IfOk result (λ more. lines.new ++ written_from more rest
        ≡ lines.old ++ written_from posts (note ∷ rest)) }
{
    match note {
        Note::Line(line) => {
            lines.push(line)?;
            Ok(posts)
        }
        Note::Posted(_) => {
            if posts < GREATEST_POST_COUNT {
                return Ok(posts + 1);
            }
            lines.push(Line::Refused {
                op: Text::copy_of(alloc, "post")?,
                error: ErrorName::QuotaExceededError,
            })?;
            Ok(posts)
        }
    }
}

/// The lines that a client prints.
fn lines_of(alloc: Global, notes: Notes) -> Result<Lines, NoMemory>
    ensures { IfOk result (λ lines. lines ≡ written_from 0 notes) }
{
    let mut lines = Lines::new(alloc);
    let mut posts = 0;
    for note in notes.into_vec() {
        posts = write_note(alloc, &mut lines, posts, note)?;
    }
    Ok(lines)
}

/// The lines of each client.
fn client_lines_of(alloc: Global, seats: Vec<Seat>) -> Result<ClientLines, NoMemory>
    ensures { IfOk result (λ clients. clients ≡ map lines_seen seats.items) }
{
    let mut clients = ClientLines::new(alloc);
    for seat in seats {
        let Seat { notes, .. } = seat;
        clients.push(lines_of(alloc, notes)?)?;
    }
    Ok(clients)
}

/// What the session reports at its end.
pub(crate) fn report_of(
    alloc: Global,
    desk: Desk,
    seats: Vec<Seat>,
    opening: Opening,
    finish: Numbers,
    commits: Numbers,
    number: u32,
    end: ReportEnd,
) -> Result<Report, NoMemory>
    ensures { IfOk result (λ report.
        report ≡ report_told desk seats.items opening finish commits number end) }
{
    let clients = client_lines_of(alloc, seats)?;
    let order = desk.tokens()?;
    let pending = desk.pending()?;
    Ok(Report {
        session: number,
        opening,
        clients,
        order,
        finish,
        commits,
        pending,
        end,
    })
}
