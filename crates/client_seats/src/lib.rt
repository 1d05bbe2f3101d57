// Where the client of a script sits at the desk.
//
// There is no code here but a definition and its laws: what ties what a client keeps to what the desk keeps of it. The code of
// clients relies on it where it numbers its asks, keeps its transactions by number, and makes steps that are allowed.
#![tactic(auto)]

mod laws_of_seats;

pub use client_machine::GREATEST_POST_COUNT;
pub use laws_of_seats::seat_laws;
