ghost use Rattle.std.specs.Prelude.{◌≡◌, ◌↔◌, IsTrue, Some};
ghost use Rattle.script_runner.specs.Statuses.{number_of, number_of_area, line_of};

use clone_values::Text;
use disk_trait::Area;
use std::fmt;

/// How a call of the program ended. Its `Display` is the line for standard error, without its line feed; it is empty where all reports
/// are written.
#[derive(Debug, Drop)]
pub enum Status {
    /// The reports of all sessions are written.
    Done,
    /// The words aren't a command; the text says what is.
    Usage { text: Text },
    /// More than 16,777,216 bytes were read.
    TooLong,
    /// What was read is no script. The place is that of the first faulty node of its JSON document: nodes are numbered from 1, each
    /// before those in it, the members of an object in the order of their names. It is 0 where the bytes are no such document.
    BadScript { place: u64 },
    /// The source failed.
    ReadFault,
    /// The sink failed; what was written are the reports of the sessions before, and a front of the last one.
    WriteFault,
    /// The disk failed as it was started again, or as what it holds was opened for a session. The reports of those before are written.
    DiskFault,
    /// What the disk holds is damaged, first at this place of this area. The reports of the sessions before are written.
    Damaged { area: Area, place: u64 },
    /// Memory ran out. The reports of the sessions before are written.
    NoMemory,
}

impl Status {
    /// The number that the program ends with.
    pub fn number(&self) -> u8
        ensures { result ≡ number_of self.now }
    {
        match self {
            Status::Done => 0,
            Status::Usage { text: _ } => 2,
            Status::TooLong => 3,
            Status::BadScript { place: _ } => 4,
            Status::ReadFault => 5,
            Status::WriteFault => 6,
            Status::DiskFault => 7,
            Status::Damaged { area: _, place: _ } => 8,
            Status::NoMemory => 9,
        }
    }

    /// Whether the reports of all sessions are written.
    pub fn is_done(&self) -> bool
        ensures { IsTrue result ↔ self.now ≡ Status.Done }
    {
        match self {
            Status::Done => true,
            _ => false,
        }
    }
}

impl fmt::Display for Status {
    ghost output = { λ x. Some (line_of x) };

    fn fmt<W: fmt::Write>(&self, f: &mut fmt::Formatter<W>) -> fmt::Result {
        match self {
            Status::Done => Ok(()),
            Status::Usage { text } => {
                let text = text.as_str();
                write!(f, "{text}")
            }
            Status::TooLong => write!(f, "idbrun: script too long"),
            Status::BadScript { place } => write!(f, "idbrun: bad script at {place}"),
            Status::ReadFault => write!(f, "idbrun: read fault"),
            Status::WriteFault => write!(f, "idbrun: write fault"),
            Status::DiskFault => write!(f, "idbrun: disk fault"),
            Status::Damaged { area, place } => {
                let area = number_of_area(*area);
                write!(f, "idbrun: damaged area {area} at {place}")
            }
            Status::NoMemory => write!(f, "idbrun: no memory"),
        }
    }
}

fn number_of_area(area: Area) -> u8
    ensures { result ≡ number_of_area area }
{
    match area {
        Area::Zero => 0,
        Area::One => 1,
    }
}

/// A status, and the disk as it is handed back.
#[derive(Debug, Drop)]
pub struct Ended<D> {
    pub status: Status,
    pub disk: D,
}
