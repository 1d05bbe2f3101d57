// The fields that spellings are made of, read from the front of the bytes that are left, which then begin behind them.
ghost use Rattle.std.specs.Prelude.{◌≡◌, length, IfOk};
ghost use Rattle.idb_base.specs.Lists.{IsWithinLimit};
ghost use Rattle.idb_base.specs.Results.{Gives};
ghost use Rattle.clone_values.specs.WellFormed.{is_int, is_date};
ghost use Rattle.value_bytes.specs.Steps.{IsUnspelled, byte_at, count_at, whole_number_at, word_at, front_at, string_at, text_at, checked_at};

use crate::SpellingError;
use clone_values::{Bytes, Text, is_date, is_int};
use idb_base::NoMemory;
use std::alloc::Global;

/// One byte.
pub fn byte_from(rest: &mut &[u8]) -> Result<u8, SpellingError>
    ensures { Gives IsUnspelled (λ b. (b, rest.new.now)) result (byte_at rest.old.now) }
{
    let all = *rest;
    match all {
        [] => Err(SpellingError::NotInGrammar),
        [first, behind @ ..] => {
            *rest = behind;
            Ok(*first)
        }
    }
}

/// So many bytes.
pub fn front_from<'a>(rest: &mut &'a [u8], count: usize) -> Result<&'a [u8], SpellingError>
    ensures front { Gives IsUnspelled (λ f. (f.now, rest.new.now)) result (front_at count rest.old.now) }
    ensures count { IfOk result (λ f. length f.now ≡ count) }
{
    let all = *rest;
    if all.len() < count {
        return Err(SpellingError::NotInGrammar);
    }
    let (front, behind) = all.split_at(count);
    *rest = behind;
    Ok(front)
}

/// A count or a length: four bytes, the highest first.
pub fn count_from(rest: &mut &[u8]) -> Result<u32, SpellingError>
    ensures { Gives IsUnspelled (λ n. (n, rest.new.now)) result (count_at rest.old.now) }
{
    let b = front_from(rest, 4)?;
    Ok(u32::from_be_bytes([b[0], b[1], b[2], b[3]]))
}

/// A whole number: eight bytes in two's complement, the highest first.
pub fn number_from(rest: &mut &[u8]) -> Result<i64, SpellingError>
    ensures { Gives IsUnspelled (λ n. (n, rest.new.now)) result (whole_number_at rest.old.now) }
{
    let b = front_from(rest, 8)?;
    Ok(i64::from_be_bytes([b[0], b[1], b[2], b[3], b[4], b[5], b[6], b[7]]))
}

/// A natural number: eight bytes, the highest first.
pub fn word_from(rest: &mut &[u8]) -> Result<u64, SpellingError>
    ensures { Gives IsUnspelled (λ n. (n, rest.new.now)) result (word_at rest.old.now) }
{
    let b = front_from(rest, 8)?;
    Ok(u64::from_be_bytes([b[0], b[1], b[2], b[3], b[4], b[5], b[6], b[7]]))
}

/// A number of a value or a key, at most 2^53 and at least -2^53.
pub fn int_from(rest: &mut &[u8]) -> Result<i64, SpellingError>
    ensures { Gives IsUnspelled
        (λ n. (n, rest.new.now)) result (checked_at is_int whole_number_at rest.old.now) }
{
    let n = number_from(rest)?;
    if is_int(n) {
        Ok(n)
    } else {
        Err(SpellingError::NotInGrammar)
    }
}

/// The milliseconds of a date of a value or a key.
pub fn date_from(rest: &mut &[u8]) -> Result<i64, SpellingError>
    ensures { Gives IsUnspelled
        (λ n. (n, rest.new.now)) result (checked_at is_date whole_number_at rest.old.now) }
{
    let n = number_from(rest)?;
    if is_date(n) {
        Ok(n)
    } else {
        Err(SpellingError::NotInGrammar)
    }
}

/// The bytes of a text or a byte string, behind their length.
pub fn string_from<'a>(rest: &mut &'a [u8]) -> Result<&'a [u8], SpellingError>
    ensures string { Gives IsUnspelled (λ s. (s.now, rest.new.now)) result (string_at rest.old.now) }
    ensures limit { IfOk result (λ s. IsWithinLimit s.now) }
{
    let count = count_from(rest)?;
    front_from(rest, count as usize)
}

/// A text, behind its length; its bytes are UTF-8.
pub fn text_from(alloc: Global, rest: &mut &[u8]) -> Result<Text, SpellingError>
    ensures { Gives IsUnspelled (λ t. (t, rest.new.now)) result (text_at rest.old.now) }
{
    let bytes = string_from(rest)?;
    match str::from_utf8(bytes) {
        Ok(text) => Ok(Text::copy_of(alloc, text)?),
        Err(_) => Err(SpellingError::NotInGrammar),
    }
}

/// A byte string, behind its length.
pub fn bytes_from(alloc: Global, rest: &mut &[u8]) -> Result<Bytes, SpellingError>
    ensures { Gives IsUnspelled (λ b. (b, rest.new.now)) result (string_at rest.old.now) }
{
    let bytes = string_from(rest)?;
    Ok(bytes_of(alloc, bytes)?)
}

fn bytes_of(alloc: Global, bytes: &[u8]) -> Result<Bytes, NoMemory>
    requires { IsWithinLimit bytes.now }
    ensures { IfOk result (λ b. b ≡ bytes.now) }
{
    Bytes::from_vec(alloc, Vec::from_slice(alloc, bytes)?)
}
