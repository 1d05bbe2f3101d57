// The databases of a session in memory, and the parts that transactions take out of them.
//
// Layers above hold a `SessionDatabases`, which contracts see as the items: none, or those that stood when the session began. `take`
// moves the part of a scope out, `give` puts it back; the laws say that what was changed in the part is changed in the whole.
#![tactic(auto)]

mod databases;
mod entries;
mod laws_of_parts;
mod moving;
mod opening;

pub use databases::SessionDatabases;
pub use laws_of_parts::part_laws;
