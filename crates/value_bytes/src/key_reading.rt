// Keys, read from their bytes.
ghost use Rattle.std.specs.Prelude.{ℕ, IfOk, IsErrOf};
ghost use Rattle.clone_values.specs.KeyTree.{KeyTree};
ghost use Rattle.clone_values.specs.View.{key_tree_of};
ghost use Rattle.value_bytes.specs.KeySpelling.{KeyStands};
ghost use Rattle.idb_base.specs.Results.{Gives};
ghost use Rattle.idb_base.specs.declared.limits.TheConstants.{GREATEST_DEPTH};
ghost use Rattle.value_bytes.specs.Steps.{IsUnspelled, counted_at};
ghost use Rattle.value_bytes.specs.KeyReading.{key_at, key_body_at};

use crate::SpellingError;
use crate::fields::{byte_from, bytes_from, count_from, date_from, int_from, text_from};
use crate::kinds::{KeyKind, key_kind_of};
use clone_values::{Key, Keys};
use idb_base::GREATEST_DEPTH;
use std::alloc::Global;

/// The key whose spelling stands in the bytes from this place on, counted from 0, and the place behind it. Bytes may
/// follow it; past the end of the bytes no spelling stands. How much memory is asked for depends on the bytes that are
/// there, and not on a count that they state.
pub fn read_key(alloc: Global, bytes: &[u8], from: usize) -> Result<(Key, usize), SpellingError>
    ensures found { IfOk result (λ r. KeyStands bytes.now from r.1 (key_tree_of r.0)) }
    ensures refused { IsErrOf result SpellingError.NotInGrammar →
        (k : KeyTree) (end : ℕ) → ¬ (KeyStands bytes.now from end k) }
{
    if from > bytes.len() {
        return Err(SpellingError::NotInGrammar);
    }
    let (_, mut rest) = bytes.split_at(from);
    let key = key_from(alloc, &mut rest)?;
    Ok((key, bytes.len() - rest.len()))
}

/// A key, read from the front of the bytes that are left.
pub fn key_from(alloc: Global, rest: &mut &[u8]) -> Result<Key, SpellingError>
    ensures { Gives IsUnspelled
        (λ k. (key_tree_of k, rest.new.now)) result (key_at GREATEST_DEPTH rest.old.now) }
{
    key_within(alloc, rest, GREATEST_DEPTH)
}

// A key of at most this depth.
#[cycle(read)]
fn key_within(alloc: Global, rest: &mut &[u8], depth: usize) -> Result<Key, SpellingError>
    ensures { Gives IsUnspelled (λ k. (key_tree_of k, rest.new.now)) result (key_at depth rest.old.now) }
{
    if depth == 0 {
        return Err(SpellingError::NotInGrammar);
    }
    let byte = byte_from(rest)?;
    match key_kind_of(byte) {
        Some(kind) => body_from(alloc, rest, kind, depth - 1),
        None => Err(SpellingError::NotInGrammar),
    }
}

#[cycle(read)]
fn body_from(
    alloc: Global,
    rest: &mut &[u8],
    kind: KeyKind,
    depth: usize,
) -> Result<Key, SpellingError>
    ensures { Gives IsUnspelled (λ k. (key_tree_of k, rest.new.now)) result
        (key_body_at (key_at depth) kind rest.old.now) }
{
    match kind {
        KeyKind::Number => Ok(Key::Number(int_from(rest)?)),
        KeyKind::Date => Ok(Key::Date(date_from(rest)?)),
        KeyKind::Text => Ok(Key::Text(text_from(alloc, rest)?)),
        KeyKind::Binary => Ok(Key::Binary(bytes_from(alloc, rest)?)),
        KeyKind::Array => Ok(Key::Array(keys_from(alloc, rest, depth)?)),
    }
}

#[cycle(read)]
fn keys_from(alloc: Global, rest: &mut &[u8], depth: usize) -> Result<Keys, SpellingError>
    ensures { Gives IsUnspelled (λ x. (x, rest.new.now)) result (counted_at (key_at depth) rest.old.now) }
{
    let count = count_from(rest)?;
    let mut keys = Vec::new(alloc);
    for _ in 0..count {
        let key = key_within(alloc, rest, depth)?;
        keys.push(key)?;
    }
    Ok(Keys::from_vec(alloc, keys)?)
}
