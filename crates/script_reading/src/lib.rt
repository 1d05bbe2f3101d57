// Scripts as JSON documents: the reader, with the place of a bad script.
//
// The layer above uses `read_script`, which reads exactly the documents that are scripts and tells the place of the
// first fault of all others.
#![tactic(auto)]

mod block_places;
mod error;
mod fields;
mod kinds;
mod layers;
mod limits;
mod ops;
mod places;
mod reading;
mod statements;

pub use error::ScriptError;
pub use layers::script_from_json;
pub use limits::{MOST_CLIENTS, MOST_SESSIONS, MOST_TIMES};
pub use reading::read_script;
