// The changes of transactions made of the databases, one by one, as recovery makes them.
//
// Layers above make each change of a record by `change_databases`: the items are then as the definition of changes says, and a
// change that finds not what it names is refused.
#![tactic(auto)]

mod databases;
mod names;
mod stores;

pub use databases::change_databases;
