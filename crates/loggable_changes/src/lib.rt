// What a transaction changes can be written to a log.
//
// There is no code here but laws of the list machine: each change that a turn makes has parts that a record of a log can hold,
// where the stores are sound before the turn and after it, and they are few enough for one record. A layer above follows a
// transaction turn by turn by `logging_laws`, and then may enter its changes.
#![tactic(auto)]

mod laws_of_changes;
mod laws_of_turns;

pub use laws_of_changes::loggable_change_laws;
pub use laws_of_turns::logging_laws;
