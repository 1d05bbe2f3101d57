// The book: each transaction is entered in it as it finishes, and a commit goes into the log with its batch.
//
// The layer above uses `Book`. Its clauses speak of the batches of its log: each commit is in them, or waits for the end of
// its batch, or is in doubt after a fault. A stop at any moment leaves the batches from before a call, or these with the new one.
#![tactic(auto)]

mod answers;
mod book;
mod committing;
mod held;
mod laws;
mod place;
mod sealing;
mod waiting;

pub use answers::{Finish, Flush};
pub use book::Book;
pub use clone_values::Numbers;
pub use gate_log::{Disk, GateLog};
pub use idb_calls::TxTrace;
pub use laws::book_laws;

#[cfg(test)]
mod keeper;
#[cfg(test)]
mod tests;
