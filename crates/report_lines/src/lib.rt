// What a session of a script reports, and its text.
//
// The layers above make a `Report` of plain lists, which contracts see as they are, and write its text: `report_text` gives
// exactly `text_of_report`, or wants memory.
#![tactic(auto)]

mod bytes;
mod line_text;
mod lines;
mod reports;
mod writing;

pub use lines::{ClientLines, Line, Lines};
pub use reports::{Has, Opening, Report, ReportEnd, Reports};
pub use writing::report_text;
