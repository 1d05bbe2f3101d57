// The key under which a value is stored.
ghost use Rattle.std.specs.Prelude.{◌≡◌, ◌≤◌, true, false, option_map, IfOk, IfSome};
ghost use Rattle.clone_values.specs.View.{key_tree_of, tree_of};
ghost use Rattle.clone_values.specs.Values.{IsCloneable};
ghost use Rattle.clone_values.specs.WellFormed.{IsValue};
ghost use Rattle.idb_base.specs.declared.limits.TheConstants.{GREATEST_DEPTH};
ghost use Rattle.clone_values.specs.KeyValues.{IsKey, key_depth};
ghost use Rattle.key_paths.specs.Evaluation.{failure, extracted};
ghost use Rattle.key_paths.specs.Injection.{can_inject, has_room_for, injected};
ghost use Rattle.store_contents.specs.IsStore.{IsCurrent, IsStored};
ghost use Rattle.store_contents.specs.Storing.{noted, in_line, key_found, generated, entry_for, CanInject, CanStore};
ghost use Rattle.object_stores.specs.View.{entry_seen};

use clone_values::{Key, Value};
use idb_base::NoMemory;
use idb_schema::StoreInfo;
use key_generators::{Generator, generator_laws};
use key_paths::{Extracted, conversion_laws, extract, extraction_laws, inject, injection_laws};
use path_grammar::KeyPath;
use std::alloc::Global;

/// The key that is given, that stands in the value or that the generator gives, and the value with it. There is none where
/// the generator is used up. Where memory is wanting, the generator may have gone on.
pub(crate) fn choose(
    alloc: Global,
    info: &StoreInfo,
    generator: &mut Generator,
    value: Value,
    key: Option<Key>,
) -> Result<Option<(Key, Value)>, NoMemory>
    requires can { CanStore info.now.path info.now.auto (tree_of value) (option_map key_tree_of key) }
    requires current { IsCurrent info.now.auto generator.old }
    ensures value { IfOk result (λ e. option_map (entry_seen generator.new) e
        ≡ entry_for info.now.path info.now.auto generator.old (tree_of value) (option_map key_tree_of key)) }
    ensures fits { IfOk result (λ e. IfSome e (λ e. IsStored (key_tree_of e.0) (tree_of e.1))) }
    ensures current { IsCurrent info.now.auto generator.new }
{
    match key {
        Some(key) => {
            note(info, generator, &key);
            return Ok(Some((key, value)));
        }
        None => match key_in_line(alloc, info, &value)? {
            Some(key) => {
                note(info, generator, &key);
                return Ok(Some((key, value)));
            }
            None => return generate(alloc, info, generator, value),
        },
    }
}

fn note(info: &StoreInfo, generator: &mut Generator, key: &Key)
    requires { IsCurrent info.now.auto generator.old }
    ensures value { generator.new ≡ noted info.now.auto generator.old (key_tree_of key.now) }
    ensures current { IsCurrent info.now.auto generator.new }
{
    generator_laws();
    if info.auto {
        generator.note_key(key);
    }
}

/// The key that the store's key path gives, if it gives one.
fn key_in_line(alloc: Global, info: &StoreInfo, value: &Value) -> Result<Option<Key>, NoMemory>
    requires { IsValue (tree_of value.now) }
    ensures key { IfOk result (λ k. option_map key_tree_of k
        ≡ key_found (in_line info.now.path (tree_of value.now))) }
    ensures fits { IfOk result (λ k. IfSome k (λ k. IsKey (key_tree_of k)
        × (key_depth (key_tree_of k) ≤ GREATEST_DEPTH))) }
{
    match &info.path {
        None => Ok(None),
        Some(path) => key_at(alloc, path, value),
    }
}

/// The key that this path gives, if it gives one.
fn key_at(alloc: Global, path: &KeyPath, value: &Value) -> Result<Option<Key>, NoMemory>
    requires { IsValue (tree_of value.now) }
    ensures key { IfOk result (λ k. option_map key_tree_of k
        ≡ key_found (extracted path.now false (tree_of value.now))) }
    ensures fits { IfOk result (λ k. IfSome k (λ k. IsKey (key_tree_of k)
        × (key_depth (key_tree_of k) ≤ GREATEST_DEPTH))) }
{
    extraction_laws();
    conversion_laws();
    let _spec = path.spec();
    match extract(alloc, path, false, value)? {
        Extracted::One(key) => Ok(Some(key)),
        Extracted::Many(_) => Ok(None),
        Extracted::Invalid => Ok(None),
        Extracted::Failure => Ok(None),
    }
}

/// The next number as a key, put into the value where the store has a key path.
fn generate(
    alloc: Global,
    info: &StoreInfo,
    generator: &mut Generator,
    value: Value,
) -> Result<Option<(Key, Value)>, NoMemory>
    requires auto { info.now.auto ≡ true }
    requires current { IsCurrent info.now.auto generator.old }
    requires place { CanInject info.now.path (tree_of value) }
    requires absent { in_line info.now.path (tree_of value) ≡ failure }
    requires fits { IsValue (tree_of value) }
    requires cloneable { IsCloneable (tree_of value) }
    ensures value { IfOk result (λ e. option_map (entry_seen generator.new) e
        ≡ generated info.now.path generator.old (tree_of value)) }
    ensures fits { IfOk result (λ e. IfSome e (λ e. IsStored (key_tree_of e.0) (tree_of e.1))) }
    ensures current { IsCurrent info.now.auto generator.new }
{
    match generator.generate() {
        Err(_) => Ok(None),
        Ok(number) => {
            let key = Key::Number(number as i64);
            match &info.path {
                None => Ok(Some((key, value))),
                Some(path) => {
                    let value = with_key_in(alloc, path, value, &key)?;
                    Ok(Some((key, value)))
                }
            }
        }
    }
}

/// The value with the key at the end of the path.
fn with_key_in(alloc: Global, path: &KeyPath, value: Value, key: &Key) -> Result<Value, NoMemory>
    requires possible { can_inject path.now (tree_of value) ≡ true }
    requires room { has_room_for path.now (tree_of value) ≡ true }
    requires absent { extracted path.now false (tree_of value) ≡ failure }
    requires fits { IsValue (tree_of value) }
    requires cloneable { IsCloneable (tree_of value) }
    requires key { IsKey (key_tree_of key.now) }
    requires flat { key_depth (key_tree_of key.now) ≤ 1 }
    ensures value { IfOk result (λ v. tree_of v ≡ injected path.now (tree_of value) (key_tree_of key.now)) }
    ensures fits { IfOk result (λ v. IsStored (key_tree_of key.now) (tree_of v)) }
{
    injection_laws();
    let _spec = path.spec();
    let mut value = value;
    inject(alloc, path, &mut value, key)?;
    Ok(value)
}
