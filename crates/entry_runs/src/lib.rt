// Running one entry of a transaction's list: a request, and one further turn of a cursor.
//
// Layers above take the entry off the list and call `run_request` or `run_turn`. Each leaves what the list machine says of that entry:
// its answer, the stores, the changes and the counts, with the limits of a transaction.
#![tactic(auto)]

mod asked;
mod deleting;
mod reading;
mod replies;
mod requests;
mod storing;
mod turns;

pub use replies::Reply;
pub use requests::run_request;
pub use turns::run_turn;
pub use tx_courses::{Course, CourseParts, run_change};
