// The book of a session: it keeps by its type how its log stands to the session's commits.
//
// The layer above uses `SessionBook`. It sees the items on which the book was opened, the commits since, and how the session ended;
// after any answer each image of the disk is found as the opening with so many of the commits as may be kept.
#![tactic(auto)]

mod entering;
mod error;
mod notes;
mod session_book;

pub use clone_values::Numbers;
pub use error::EnterError;
pub use idb_recovery::Opened;
pub use session_book::SessionBook;

#[cfg(test)]
mod keeper;
#[cfg(test)]
mod tests;
