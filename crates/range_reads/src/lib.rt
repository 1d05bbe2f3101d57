// What the reading requests of an object store or an index answer.
//
// Layers above call `get`, `get_key`, `get_all`, `get_all_keys` and `count`; each answers by the members that a range selects,
// and visits and copies no others. `span` says where these stand, and `reading_laws` what a source shows.
#![tactic(auto)]

mod meanings;
mod reads;
mod spans;

pub use indexed_records::{Dropped, Emptied, IndexError, IndexedRecords, RowLists, plus};
pub use meanings::reading_laws;
pub use reads::{get, get_all, get_all_keys, get_key};
pub use spans::{count, span};
