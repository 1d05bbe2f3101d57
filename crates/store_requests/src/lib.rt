// What the requests of a transaction do to one store: what each answers, what the store is then, and which changes were made,
// in order. Which requests may run was decided when they were placed; when they run is decided above.
#![tactic(auto)]

mod answers;
mod changes;
mod cursors;
mod laws_of_leaving;

pub use answers::{count_records, get_all_keys, get_all_values, get_key, get_value};
pub use changes::{StoreNames, clear_store, delete_records, put_record};
pub use cursors::{member_value, turn_cursor};
pub use laws_of_leaving::leaving_laws;
