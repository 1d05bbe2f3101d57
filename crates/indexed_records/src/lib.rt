// Records with the rows of their indexes kept beside them.
//
// Layers above hold an `IndexedRecords`, which contracts see as the definition of a store and its records by key; the rows of
// each index are what computing them afresh from all records gives.
#![tactic(auto)]

mod building;
mod clashing;
mod comparing;
mod copying;
mod dropping;
mod emptying;
mod extracting;
mod growing;
mod index_error;
mod keyed;
mod reading;
mod records;
mod row_lists;

pub use dropping::Dropped;
pub use emptying::Emptied;
pub use index_error::IndexError;
pub use index_tables::Tables;
pub use records::IndexedRecords;
pub use row_lists::{RowLists, plus};
