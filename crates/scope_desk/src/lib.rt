// The start rule: transactions draw numbers, and one may start when no earlier unfinished one conflicts with it.
//
// Contracts see the unfinished transactions by number, and the next number. The layers above read who may start, and who
// blocks whom; each item keeps the numbers that wait for it, so that no answer looks at all transactions.
#![tactic(auto)]

mod lanes;
mod laws_of_starts;
mod tickets;
mod unfinished;

pub use laws_of_starts::start_laws;
pub use tickets::Ticket;
pub use unfinished::{MayStart, ScopeDesk};
