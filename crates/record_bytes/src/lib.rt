// The records and batches of a log, both ways.
//
// Layers above cite `SpellsRecord` and `SpellsBatch`: what is written is the one spelling of a record, what is read is the
// batch that all of the bytes spell, and no batch is refused. `records_in_batch` is the same as a function.
#![tactic(auto)]

mod delta_reading;
mod kinds;
mod limits;
mod paths;
mod reading;
mod record_laws;
mod records;
mod writing;

pub use limits::GREATEST_LOGGED_VERSION;
pub use reading::read_batch;
pub use record_laws::{batch_spelling_laws, record_spelling_laws};
pub use records::{LogRecord, Records};
pub use writing::write_record;
