// Whether two values give a record the same rows.
ghost use Rattle.std.specs.Prelude.{◌≡◌, ◌+◌, ◌<◌, ◌≤◌, ◌&&◌, length, drop, IfOk, IfSome, IfNone};
ghost use Rattle.clone_values.specs.View.{key_tree_of, tree_of};
ghost use Rattle.idb_base.specs.Lists.{StandsAt};
ghost use Rattle.store_contents.specs.Sameness.{keys_given, same_keys, gives_same_keys, gives_same_rows};

use crate::clashing::ties;
use clone_values::{Key, Value};
use idb_base::NoMemory;
use idb_schema::{IndexInfo, IndexInfos};
use key_paths::{Extracted, extract};
use std::alloc::Global;

/// Whether each index gets the same keys of both values.
pub(crate) fn gives_same_in_each(
    alloc: Global,
    indexes: &IndexInfos,
    one: &Value,
    other: &Value,
) -> Result<bool, NoMemory>
    ensures { IfOk result (λ same. same
        ≡ gives_same_rows indexes.now (tree_of one.now) (tree_of other.now)) }
{
    for place in 0..indexes.len() {
        if let Some(index) = indexes.at(place) {
            if !gives_same_in_one(alloc, index, one, other)? {
                return Ok(false);
            }
        }
    }
    Ok(true)
}

/// Whether the index gets the same keys of both values.
fn gives_same_in_one(
    alloc: Global,
    index: &IndexInfo,
    one: &Value,
    other: &Value,
) -> Result<bool, NoMemory>
    ensures { IfOk result (λ same. same
        ≡ gives_same_keys index.now (tree_of one.now) (tree_of other.now)) }
{
    let keys = extract(alloc, &index.path, index.multi, one)?;
    let others = extract(alloc, &index.path, index.multi, other)?;
    Ok(has_same(&keys, &others))
}

/// Whether these are the same keys.
fn has_same(keys: &Extracted, others: &Extracted) -> bool
    ensures { result ≡ same_keys (keys_given keys.now) (keys_given others.now) }
{
    let count = key_count(keys);
    if key_count(others) != count {
        return false;
    }
    for place in 0..count {
        if !ties_at(keys, others, place) {
            return false;
        }
    }
    true
}

/// Whether the keys at this place are the same.
fn ties_at(keys: &Extracted, others: &Extracted, place: usize) -> bool
    requires one { place < length (keys_given keys.now) }
    requires other { place < length (keys_given others.now) }
    ensures { same_keys (drop place (keys_given keys.now)) (drop place (keys_given others.now))
        ≡ (result && same_keys (drop (place + 1) (keys_given keys.now))
        (drop (place + 1) (keys_given others.now))) }
{
    match key_at(keys, place) {
        Some(key) => match key_at(others, place) {
            Some(other) => ties(key, other),
            None => unreachable!(),
        },
        None => unreachable!(),
    }
}

/// How many keys these are.
fn key_count(keys: &Extracted) -> usize
    ensures { result ≡ length (keys_given keys.now) }
{
    match keys {
        Extracted::One(_) => 1,
        Extracted::Many(keys) => keys.len(),
        Extracted::Invalid => 0,
        Extracted::Failure => 0,
    }
}

/// The key at this place, counted from 0; `None` past the end.
fn key_at(keys: &Extracted, place: usize) -> Option<&Key>
    ensures stands { IfSome result (λ key. StandsAt (keys_given keys.now) place (key_tree_of key.now)) }
    ensures past_end { IfNone result (length (keys_given keys.now) ≤ place) }
{
    match keys {
        Extracted::One(key) => { if place == 0 { Some(key) } else { None } }
        Extracted::Many(keys) => keys.at(place),
        Extracted::Invalid => None,
        Extracted::Failure => None,
    }
}
