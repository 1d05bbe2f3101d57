// The whole program as one call: it reads a script, runs its sessions one after another on a disk, and writes their reports.
//
// The layer above uses `run_words`: what is written are the texts of legal reports of the sessions that were read and nothing else, each
// session begins with what the one before it left on the disk, and each status has its cause.
#![tactic(auto)]

mod limits;
mod reporting;
mod run;
mod scripts;
mod sessions;
mod status;
mod stops;

pub use limits::MOST_SCRIPT_BYTES;
pub use run::run_words;
pub use status::{Ended, Status};
