// What one client does in its office, where no thread beside it acts: it is served, or one of its transactions is run whole.
//
// The layer above moves a client and the desk into an `Office`, and lets it make a move. `make_move` runs the client's oldest task or takes its
// oldest event; or it runs a transaction turn by turn, enters it in the session's book, and finishes it as the book answers: where
// the disk failed as its commit was written it is in doubt, and the host is faulted. What the contracts say of a move holds in every session in which
// the client stands so: what a driver can go on with before the move, it can go on with behind it.
#![tactic(auto)]

mod dropping;
mod entering;
mod moving;
mod running;
mod serving;
mod settling;

pub use moving::make_move;
pub use office_scenes::{Office, fitting_laws, showing_laws};
