// Key paths and flags, read from the front of the bytes that are left.
ghost use Rattle.idb_base.specs.Results.{Gives};
ghost use Rattle.value_bytes.specs.Steps.{IsUnspelled, text_at, counted_at};
ghost use Rattle.record_bytes.specs.Reading.{flag_at, path_body_at, key_path_at, path_at};

use clone_values::{PathSpec, Texts};
use path_grammar::{KeyPath, PathError};
use std::alloc::Global;
use value_bytes::{SpellingError, byte_from, count_from, text_from};

/// One byte: 0 for no, 1 for yes.
pub(crate) fn flag_from(rest: &mut &[u8]) -> Result<bool, SpellingError>
    ensures { Gives IsUnspelled (λ b. (b, rest.new.now)) result (flag_at rest.old.now) }
{
    let byte = byte_from(rest)?;
    match byte {
        0 => Ok(false),
        1 => Ok(true),
        _ => Err(SpellingError::NotInGrammar),
    }
}

/// A count, and so many texts.
fn texts_from(alloc: Global, rest: &mut &[u8]) -> Result<Texts, SpellingError>
    ensures { Gives IsUnspelled (λ x. (x, rest.new.now)) result (counted_at text_at rest.old.now) }
{
    let count = count_from(rest)?;
    let mut texts = Vec::new(alloc);
    for _ in 0..count {
        let text = text_from(alloc, rest)?;
        texts.push(text)?;
    }
    Ok(Texts::from_vec(texts))
}

/// What stands behind the byte of a path.
fn path_body_from(alloc: Global, rest: &mut &[u8], byte: u8) -> Result<PathSpec, SpellingError>
    ensures { Gives IsUnspelled (λ p. (p, rest.new.now)) result (path_body_at byte rest.old.now) }
{
    match byte {
        0x41 => Ok(PathSpec::One(text_from(alloc, rest)?)),
        0x42 => Ok(PathSpec::Many(texts_from(alloc, rest)?)),
        _ => Err(SpellingError::NotInGrammar),
    }
}

/// A key path.
#[tactic(auto, unfolding(crate::specs::Reading::key_path_at))]
pub(crate) fn key_path_from(alloc: Global, rest: &mut &[u8]) -> Result<KeyPath, SpellingError>
    ensures { Gives IsUnspelled (λ p. (p, rest.new.now)) result (key_path_at rest.old.now) }
{
    let byte = byte_from(rest)?;
    let spec = path_body_from(alloc, rest, byte)?;
    match KeyPath::parse(spec) {
        Ok(path) => Ok(path),
        Err(PathError::Syntax) => Err(SpellingError::NotInGrammar),
        Err(PathError::NoMemory) => Err(SpellingError::NoMemory),
    }
}

/// A key path, or that there is none.
#[tactic(auto, unfolding(crate::specs::Reading::path_at))]
pub(crate) fn path_from(alloc: Global, rest: &mut &[u8]) -> Result<Option<KeyPath>, SpellingError>
    ensures { Gives IsUnspelled (λ p. (p, rest.new.now)) result (path_at rest.old.now) }
{
    let all = *rest;
    match all {
        [] => Err(SpellingError::NotInGrammar),
        [first, behind @ ..] => {
            if *first == 0x40 {
                *rest = behind;
                return Ok(None);
            }
            let path = key_path_from(alloc, rest)?;
            Ok(Some(path))
        }
    }
}
