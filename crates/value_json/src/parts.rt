// Values without members.
ghost use Rattle.std.specs.Prelude.{◌≡◌, IsTrue};
ghost use Rattle.serde_json.specs.View.{number_view};
ghost use Rattle.clone_values.specs.View.{tree_of};
ghost use Rattle.clone_values.specs.WellFormed.{is_text, is_byte_string};
ghost use Rattle.idb_base.specs.Lists.{IsWithinLimit};
ghost use Rattle.idb_base.specs.Results.{Gives};
ghost use Rattle.value_json.specs.Reading.{IsUnread, int_in, date_in, text_in, bytes_in};

use crate::JsonError;
use clone_values::{Bytes, Text, Value, is_date, is_int};
use hex::FromHexError;
use idb_base::GREATEST_LENGTH;
use serde_json::Number;
use std::alloc::Global;

/// Whether a text is short enough to be stored.
#[tactic(auto, using(crate::proofs::Documents::is_unicode))]
pub(crate) fn is_text(s: &str) -> bool
    ensures text { result ≡ is_text s.now }
    ensures short { IsTrue result → IsWithinLimit s.now }
{
    s.as_bytes().len() <= GREATEST_LENGTH
}

fn is_byte_string(bytes: &[u8]) -> bool
    ensures bytes { result ≡ is_byte_string bytes.now }
    ensures short { IsTrue result → IsWithinLimit bytes.now }
{
    bytes.len() <= GREATEST_LENGTH
}

pub(crate) fn read_int(number: &Number) -> Result<Value, JsonError>
    ensures { Gives IsUnread tree_of result (int_in (number_view number.now)) }
{
    match number.as_i64() {
        Some(n) if is_int(n) => Ok(Value::Int(n)),
        _ => Err(JsonError::Spelling),
    }
}

pub(crate) fn read_date(number: &Number) -> Result<Value, JsonError>
    ensures { Gives IsUnread tree_of result (date_in (number_view number.now)) }
{
    match number.as_i64() {
        Some(d) if is_date(d) => Ok(Value::Date(d)),
        _ => Err(JsonError::Spelling),
    }
}

pub(crate) fn read_text(alloc: Global, text: &str) -> Result<Value, JsonError>
    ensures { Gives IsUnread tree_of result (text_in text.now) }
{
    if !is_text(text) {
        return Err(JsonError::Spelling);
    }
    Ok(Value::Text(Text::copy_of(alloc, text)?))
}

pub(crate) fn read_bytes(alloc: Global, digits: &str) -> Result<Value, JsonError>
    ensures { Gives IsUnread tree_of result (bytes_in digits.now) }
{
    match hex::decode(alloc, digits.as_bytes()) {
        Ok(bytes) if is_byte_string(bytes.as_slice()) => {
            Ok(Value::Bytes(Bytes::from_vec(alloc, bytes)?))
        }
        Err(FromHexError::OutOfMemory) => Err(JsonError::NoMemory),
        _ => Err(JsonError::Spelling),
    }
}
