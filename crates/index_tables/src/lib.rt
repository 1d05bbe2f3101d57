// The rows of an index (Indexed Database API 3.0, "index"): index key and primary key, in the order of both.
//
// Layers above hold an `IndexTable`, which contracts see as the finite set of its rows and a number of spare places, and
// show that these are `index_rows` of the records after every change. Its tables are chosen by `Tables`.
#![tactic(auto)]

mod changing;
mod index;
mod meanings;
mod rows;
mod searching;
mod tables;

pub use index::IndexTable;
pub use meanings::{change_laws, record_laws, row_laws, unique_laws};
pub use rows::{Row, Rows};
pub use tables::{FlatTables, Tables};
