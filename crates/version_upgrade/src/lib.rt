// What an upgrade may do to the schema of its database (Indexed Database API 3.0, "createObjectStore", "deleteObjectStore",
// "createIndex" and "deleteIndex").
//
// Layers above ask `check_schema` for the first cause to refuse a call, and then `apply_schema` for the schema that it leaves,
// which contracts see as `refusal_of_schema` and `schema_after`. Both speak of the schema alone: whether an upgrade is running
// and active, and whether the store is deleted, was asked before.
#![tactic(auto)]

mod applying;
mod checking;
mod upgrade_laws;

pub use applying::apply_schema;
pub use checking::check_schema;
pub use upgrade_laws::{name_laws, sound_law};
