// Tables whose entries lie in leaves of at most 64: an insertion or a removal moves no more than a leaf.
//
// `LeafTable` is an `OrderedTable`; layers above hold it by that trait. Leaves that are not in use are kept, so that an
// insertion takes no memory.
#![tactic(auto)]

mod editing;
mod near;
mod searching;
mod table;

pub use table::LeafTable;
