// Changes, read from the front of the bytes that are left.
ghost use Rattle.std.specs.Prelude.{◌≡◌};
ghost use Rattle.idb_base.specs.Results.{Gives};
ghost use Rattle.idb_schema.specs.Definitions.{takes_generator, is_list_path};
ghost use Rattle.clone_values.specs.View.{key_tree_of, tree_of};
ghost use Rattle.idb_calls.specs.View.{delta_of};
ghost use Rattle.value_bytes.specs.Steps.{IsUnspelled};
ghost use Rattle.record_bytes.specs.declared.kinds.DeltaKind.TheVariants as kind;
ghost use Rattle.record_bytes.specs.Reading.{store_name_at, index_name_at, logged_version_at, logged_current_at, store_kind_at, index_kind_at, record_entry_at, delta_body_at, delta_at};

use crate::kinds::{DeltaKind, delta_kind_of};
use crate::limits::GREATEST_LOGGED_VERSION;
use crate::paths::{flag_from, key_path_from, path_from};
use clone_values::{Key, PathSpec, Text, Value};
use idb_calls::Delta;
use key_generators::LAST_NUMBER;
use path_grammar::KeyPath;
use std::alloc::Global;
use value_bytes::{SpellingError, byte_from, key_from, text_from, value_from, word_from};

/// The name of a store, behind that of its database.
fn store_name_from(alloc: Global, rest: &mut &[u8]) -> Result<(Text, Text), SpellingError>
    ensures { Gives IsUnspelled (λ x. (x, rest.new.now)) result (store_name_at rest.old.now) }
{
    let db = text_from(alloc, rest)?;
    let store = text_from(alloc, rest)?;
    Ok((db, store))
}

/// The name of an index, behind that of its store.
fn index_name_from(alloc: Global, rest: &mut &[u8]) -> Result<((Text, Text), Text), SpellingError>
    ensures { Gives IsUnspelled (λ x. (x, rest.new.now)) result (index_name_at rest.old.now) }
{
    let store = store_name_from(alloc, rest)?;
    let index = text_from(alloc, rest)?;
    Ok((store, index))
}

/// The version of a database.
fn version_from(rest: &mut &[u8]) -> Result<u64, SpellingError>
    ensures { Gives IsUnspelled (λ n. (n, rest.new.now)) result (logged_version_at rest.old.now) }
{
    let number = word_from(rest)?;
    if 1 <= number && number <= GREATEST_LOGGED_VERSION {
        Ok(number)
    } else {
        Err(SpellingError::NotInGrammar)
    }
}

/// The current number of a key generator.
fn current_from(rest: &mut &[u8]) -> Result<u64, SpellingError>
    ensures { Gives IsUnspelled (λ n. (n, rest.new.now)) result (logged_current_at rest.old.now) }
{
    let number = word_from(rest)?;
    if 1 <= number && number <= LAST_NUMBER + 1 {
        Ok(number)
    } else {
        Err(SpellingError::NotInGrammar)
    }
}

/// Whether a generator's number can be put at the path: there is none, or it is one string that is not empty.
fn may_take_generator(path: &Option<KeyPath>) -> bool
    ensures { result ≡ takes_generator path.now }
{
    match path {
        None => true,
        Some(path) => match path.spec() {
            PathSpec::One(string) => !string.as_str().is_empty(),
            PathSpec::Many(_) => false,
        },
    }
}

/// Whether the path is a list of strings.
fn is_list(path: &KeyPath) -> bool
    ensures { result ≡ is_list_path path.now }
{
    match path.spec() {
        PathSpec::One(_) => false,
        PathSpec::Many(_) => true,
    }
}

/// The key path of a new store, and whether it has a generator.
fn store_kind_from(
    alloc: Global,
    rest: &mut &[u8],
) -> Result<(Option<KeyPath>, bool), SpellingError>
    ensures { Gives IsUnspelled (λ x. (x, rest.new.now)) result (store_kind_at rest.old.now) }
{
    let path = path_from(alloc, rest)?;
    let auto = flag_from(rest)?;
    if !auto || may_take_generator(&path) {
        Ok((path, auto))
    } else {
        Err(SpellingError::NotInGrammar)
    }
}

/// The key path of a new index, and whether it is unique and multi-entry.
fn index_kind_from(
    alloc: Global,
    rest: &mut &[u8],
) -> Result<(KeyPath, (bool, bool)), SpellingError>
    ensures { Gives IsUnspelled (λ x. (x, rest.new.now)) result (index_kind_at rest.old.now) }
{
    let path = key_path_from(alloc, rest)?;
    let unique = flag_from(rest)?;
    let multi = flag_from(rest)?;
    if multi && is_list(&path) {
        Err(SpellingError::NotInGrammar)
    } else {
        Ok((path, (unique, multi)))
    }
}

/// A record's key and its value.
fn record_entry_from(alloc: Global, rest: &mut &[u8]) -> Result<(Key, Value), SpellingError>
    ensures { Gives IsUnspelled
        (λ x. ((key_tree_of x.0, tree_of x.1), rest.new.now)) result (record_entry_at rest.old.now) }
{
    let key = key_from(alloc, rest)?;
    let value = value_from(alloc, rest)?;
    Ok((key, value))
}

fn new_version_from(alloc: Global, rest: &mut &[u8]) -> Result<Delta, SpellingError>
    ensures { Gives IsUnspelled
        (λ d. (delta_of d, rest.new.now)) result (delta_body_at kind.Version rest.old.now) }
{
    let db = text_from(alloc, rest)?;
    let version = version_from(rest)?;
    Ok(Delta::Version { db, version })
}

fn new_store_from(alloc: Global, rest: &mut &[u8]) -> Result<Delta, SpellingError>
    ensures { Gives IsUnspelled
        (λ d. (delta_of d, rest.new.now)) result (delta_body_at kind.CreateStore rest.old.now) }
{
    let (db, store) = store_name_from(alloc, rest)?;
    let (path, auto) = store_kind_from(alloc, rest)?;
    Ok(Delta::CreateStore {
        db,
        store,
        path,
        auto,
    })
}

fn new_index_from(alloc: Global, rest: &mut &[u8]) -> Result<Delta, SpellingError>
    ensures { Gives IsUnspelled
        (λ d. (delta_of d, rest.new.now)) result (delta_body_at kind.CreateIndex rest.old.now) }
{
    let ((db, store), index) = index_name_from(alloc, rest)?;
    let (path, (unique, multi)) = index_kind_from(alloc, rest)?;
    Ok(Delta::CreateIndex {
        db,
        store,
        index,
        path,
        unique,
        multi,
    })
}

fn put_from(alloc: Global, rest: &mut &[u8]) -> Result<Delta, SpellingError>
    ensures { Gives IsUnspelled
        (λ d. (delta_of d, rest.new.now)) result (delta_body_at kind.Put rest.old.now) }
{
    let (db, store) = store_name_from(alloc, rest)?;
    let (key, value) = record_entry_from(alloc, rest)?;
    Ok(Delta::Put {
        db,
        store,
        key,
        value,
    })
}

fn remove_from(alloc: Global, rest: &mut &[u8]) -> Result<Delta, SpellingError>
    ensures { Gives IsUnspelled
        (λ d. (delta_of d, rest.new.now)) result (delta_body_at kind.Remove rest.old.now) }
{
    let (db, store) = store_name_from(alloc, rest)?;
    let key = key_from(alloc, rest)?;
    Ok(Delta::Remove { db, store, key })
}

fn new_current_from(alloc: Global, rest: &mut &[u8]) -> Result<Delta, SpellingError>
    ensures { Gives IsUnspelled
        (λ d. (delta_of d, rest.new.now)) result (delta_body_at kind.Current rest.old.now) }
{
    let (db, store) = store_name_from(alloc, rest)?;
    let current = current_from(rest)?;
    Ok(Delta::Current { db, store, current })
}

/// What stands behind the byte of a kind.
fn delta_body_from(alloc: Global, rest: &mut &[u8], kind: DeltaKind) -> Result<Delta, SpellingError>
    ensures { Gives IsUnspelled (λ d. (delta_of d, rest.new.now)) result (delta_body_at kind rest.old.now) }
{
    match kind {
        DeltaKind::Version => new_version_from(alloc, rest),
        DeltaKind::CreateStore => new_store_from(alloc, rest),
        DeltaKind::CreateIndex => new_index_from(alloc, rest),
        DeltaKind::Put => put_from(alloc, rest),
        DeltaKind::Remove => remove_from(alloc, rest),
        DeltaKind::Current => new_current_from(alloc, rest),
        DeltaKind::DropDatabase => Ok(Delta::DropDatabase {
            db: text_from(alloc, rest)?,
        }),
        DeltaKind::DropStore => {
            let (db, store) = store_name_from(alloc, rest)?;
            Ok(Delta::DropStore { db, store })
        }
        DeltaKind::DropIndex => {
            let ((db, store), index) = index_name_from(alloc, rest)?;
            Ok(Delta::DropIndex { db, store, index })
        }
        DeltaKind::Clear => {
            let (db, store) = store_name_from(alloc, rest)?;
            Ok(Delta::Clear { db, store })
        }
    }
}

/// A change.
#[tactic(auto, unfolding(crate::specs::Reading::delta_at))]
pub(crate) fn delta_from(alloc: Global, rest: &mut &[u8]) -> Result<Delta, SpellingError>
    ensures { Gives IsUnspelled (λ d. (delta_of d, rest.new.now)) result (delta_at rest.old.now) }
{
    let byte = byte_from(rest)?;
    match delta_kind_of(byte) {
        Some(kind) => delta_body_from(alloc, rest, kind),
        None => Err(SpellingError::NotInGrammar),
    }
}
