// The least layer above a log that relies on what its calls don't touch. It is proved from the log's public clauses alone, so it shows
// that they say enough: what stands in the area to which a log doesn't write is kept, at whatever moment a stop comes.
#![tactic(auto)]

mod keeping;

pub use keeping::{make_keeping, open_keeping};
