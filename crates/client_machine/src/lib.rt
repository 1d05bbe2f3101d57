// The client machine of scripts: what a client does, step by step, and how that stands to the steps of the desk.
//
// There is no code here but a limit, definitions and their laws. The machine knows no desk: what a step of the desk is answered
// is free in it, and the run of the desk fixes it.
#![tactic(auto)]

mod laws_of_answers;
mod limits;

pub use laws_of_answers::agreeing_laws;
pub use limits::GREATEST_POST_COUNT;
pub use serial_order::serial_laws;
