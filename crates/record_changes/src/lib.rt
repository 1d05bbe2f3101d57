// The changes of one record made of the databases in place.
//
// Replay makes each record of a log by `change_by_record`: the items are then what the definition of a record gives, and a record that
// doesn't apply is refused. In its middle a unique index may be broken, which no store in memory can be: so the indexes of such a store are
// kept aside until the record's end. What is kept aside is databases too, of stores without records, so changes of these indexes are made
// of them as of any other.
#![tactic(auto)]

mod changes;
mod error;
mod finding;
mod index_changes;
mod indexes;
mod loosening;
mod record;
mod restoring;
mod safe;

pub use error::RecordError;
pub use record::change_by_record;
