// Cursors over object stores: what a store or one of its indexes shows is lent to a cursor, which takes a member of it and its value.
#![tactic(auto)]

mod shown;

pub use shown::{Member, member_at, member_laws, take_turn};
