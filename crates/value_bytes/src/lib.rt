// The bytes of values and keys, both ways.
//
// Layers above cite `SpellsValue` and `SpellsKey`: what is written is the one spelling, what is read is spelled so at its
// place, and nothing that is spelled there is refused. Formats made of the same fields are read and written with the
// readers and writers of fields.
#![tactic(auto)]

mod error;
mod fields;
mod key_reading;
mod key_writing;
mod kinds;
mod names;
mod put_fields;
mod reading;
mod sizes;
mod spelling_laws;
mod writing;

pub use error::SpellingError;
pub use fields::{
    byte_from, bytes_from, count_from, date_from, front_from, int_from, number_from, string_from,
    text_from, word_from,
};
pub use key_reading::{key_from, read_key};
pub use key_writing::write_key;
pub use put_fields::{put_byte, put_count, put_number, put_string, put_word};
pub use reading::{read_value, value_from};
pub use sizes::value_size;
pub use spelling_laws::{key_spelling_laws, value_spelling_laws};
pub use writing::write_value;
