// What is known of the calls that wait in a front, since each was checked when it was placed.
//
// There is no code here but the laws of the definition: a transaction begins with fit calls, and its handlers leave them so. Layers
// above run a call without checking it again.
#![tactic(auto)]

mod laws_of_calls;

pub use laws_of_calls::fitting_laws;
