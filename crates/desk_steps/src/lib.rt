// The steps of the desk: what the desk is, which step it allows, and what each makes of it.
//
// Definitions with their laws, and the types of a step and of what drew a number. `idb_desk` is the machine that takes these
// steps.
#![tactic(auto)]

mod laws_of_desks;
mod stands;
mod steps;

pub use laws_of_desks::{desk_laws, durability_laws, item_laws, quiet_laws};
pub use stands::{DeskPlace, DeskRequest, DrawnTx, Stand, TxKind, TxStage};
pub use steps::DeskStep;
