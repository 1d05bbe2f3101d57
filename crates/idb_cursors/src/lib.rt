// Cursors (Indexed Database API 3.0, "cursor"): which member of a list that stands in order comes next.
//
// Layers above show the records of a store or the rows of an index as a `RowView`, and move a `Cursor` over it by `iterate`, which
// answers `iterated` of the whole list. A place is found by halving, however many members have one key, and the cursor keeps
// the keys of its member, so that it goes on where it was whatever is put in or deleted.
#![tactic(auto)]

mod cursor;
mod cursor_laws;
mod row_view;
mod seeking;
mod turns;

pub use cursor::Cursor;
pub use cursor_laws::{turn_laws, visit_laws};
pub use row_view::{RecordsShown, RowView, RowsShown};
