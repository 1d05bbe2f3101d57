// Values and keys as JSON.
//
// The layers above use `value_from_json`, which reads exactly the documents that spell a value, and `push_value_text`,
// which writes the text of a value's document.
#![tactic(auto)]

mod building;
mod error;
mod laws;
mod levels;
mod marks;
mod parts;
mod reading;
mod text;
mod tokens;
mod writing;

pub use error::JsonError;
pub use laws::{json_laws, level_laws};
pub use levels::{Level, level_of};
pub use reading::value_from_json;
pub use text::{push_key_text, push_value_text};
pub use writing::{key_to_json, value_to_json};
