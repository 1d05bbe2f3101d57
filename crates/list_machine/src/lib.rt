// The list machine of a transaction: what each entry of its list does, and what follows from how its handler ends.
//
// There is no code here but limits, the word for a step, and the laws of the definitions. What is determined is a function; only
// a handler is a relation, and the machine is the same for every one. Layers above show that their steps are its turns.
#![tactic(auto)]

mod laws_of_seeing;
mod laws_of_turns;
mod limits;
mod steps;

pub use laws_of_seeing::seeing_laws;
pub use laws_of_turns::{abort_laws, list_laws, noting_laws};
pub use limits::{GREATEST_REQUEST_COUNT, GREATEST_STORE_COUNT, GREATEST_VALUE_BYTES};
pub use steps::Step;
pub use store_requests::leaving_laws;
