// Conversion of values to keys, and of keys to values.
ghost use Rattle.std.specs.Prelude.{◌≡◌, ℕ, ◌≤◌, nat_le, true, List, Some, None, is_some, option_map, IfOk, IfSome, IsOk};
ghost use Rattle.std.specs.List.{All};
ghost use Rattle.clone_values.specs.Tree.{Tree, trees_of};
ghost use Rattle.clone_values.specs.KeyTree.{KeyTree, key_trees_of};
ghost use Rattle.clone_values.specs.View.{tree_of, key_tree_of};
ghost use Rattle.key_order.specs.Conversion.{key_of, key_within, keys_within, is_convertible, are_convertible, fits_in_array, keys_of, AreDistinctKeys};
ghost use Rattle.clone_values.specs.KeyValues.{IsKey, value_of_key, values_of_keys, key_depth};
ghost use Rattle.clone_values.specs.WellFormed.{IsValue, are_values};
ghost use Rattle.clone_values.specs.Values.{depth_of, IsCloneable};

use clone_values::{Items, Key, Keys, Props, Value, depth};
use idb_base::{GREATEST_DEPTH, NoMemory};
use std::alloc::Global;

/// The key of a value; `None` where it is invalid, before any memory is asked for (Indexed Database API 3.0, "convert a
/// value to a key").
pub fn to_key(alloc: Global, v: &Value) -> Result<Option<Key>, NoMemory>
    ensures key { IfOk result (λ r. option_map key_tree_of r ≡ key_of (tree_of v.now)) }
    ensures refused { key_of (tree_of v.now) ≡ None → IsOk result }
{
    if !is_key(v) {
        return Ok(None);
    }
    key_within(alloc, v)
}

/// Whether the value has a key; it takes no memory.
#[tactic(auto, using(crate::proofs::Convertible::array_tests))]
pub fn is_key(v: &Value) -> bool
    ensures { result ≡ is_some (key_of (tree_of v.now)) }
{
    match v {
        Value::Int(_) | Value::Date(_) | Value::Text(_) | Value::Bytes(_) => true,
        Value::Array(items, _) => are_convertible(items) && is_shallow(v),
        _ => false,
    }
}

/// Whether the value is no deeper than what can have a key.
fn is_shallow(v: &Value) -> bool
    ensures { result ≡ nat_le (depth_of (tree_of v.now)) 100 }
{
    depth(v) as usize <= GREATEST_DEPTH
}

/// Whether an Array with this item can have a key.
pub(crate) fn fits_in_array(v: &Value) -> bool
    ensures { result ≡ fits_in_array (tree_of v.now) }
{
    match v {
        Value::Int(_) | Value::Date(_) | Value::Text(_) | Value::Bytes(_) => true,
        Value::Array(items, _) => are_convertible(items) && (depth(v) as usize) < GREATEST_DEPTH,
        _ => false,
    }
}

/// Whether the value is of a kind that converts, as are all items in it, however deep.
#[cycle(convertible)]
#[tactic(auto, using(clone_values::specs::Falls::smaller_tree))]
pub(crate) fn is_convertible(v: &Value) -> bool
    ensures { result ≡ is_convertible (tree_of v.now) }
{
    match v {
        Value::Int(_) | Value::Date(_) | Value::Text(_) | Value::Bytes(_) => true,
        Value::Array(items, _) => are_convertible(items),
        _ => false,
    }
}

#[cycle(convertible)]
#[tactic(auto, using(clone_values::specs::Falls::smaller_tree))]
fn are_convertible(items: &Items) -> bool
    ensures { result ≡ are_convertible (trees_of items.now) }
{
    for place in 0..items.len() {
        if let Some(item) = items.at(place) {
            if !is_convertible(item) {
                return false;
            }
        }
    }
    true
}

#[cycle(to_key)]
#[tactic(auto, using(clone_values::specs::Falls::smaller_tree))]
fn key_within(alloc: Global, v: &Value) -> Result<Option<Key>, NoMemory>
    ensures { IfOk result (λ r. option_map key_tree_of r ≡ key_within (tree_of v.now)) }
{
    match v {
        Value::Int(n) => Ok(Some(Key::Number(*n))),
        Value::Date(d) => Ok(Some(Key::Date(*d))),
        Value::Text(s) => Ok(Some(Key::Text(s.copy(alloc)?))),
        Value::Bytes(b) => Ok(Some(Key::Binary(b.copy(alloc)?))),
        Value::Array(items, _) => match keys_within(alloc, items)? {
            Some(keys) => Ok(Some(Key::Array(keys))),
            None => Ok(None),
        },
        _ => Ok(None),
    }
}

#[cycle(to_key)]
#[tactic(auto, using(clone_values::specs::Falls::smaller_tree))]
fn keys_within(alloc: Global, items: &Items) -> Result<Option<Keys>, NoMemory>
    ensures { IfOk result (λ r. option_map key_trees_of r ≡ keys_within (trees_of items.now)) }
{
    let mut keys = Vec::new(alloc);
    for place in 0..items.len() {
        if let Some(item) = items.at(place) {
            match key_within(alloc, item)? {
                Some(key) => keys.push(key)?,
                None => return Ok(None),
            }
        }
    }
    Ok(Some(Keys::from_vec(alloc, keys)?))
}

/// The value of a key (Indexed Database API 3.0, "convert a key to a value").
#[cycle(to_value)]
#[tactic(auto, using(clone_values::specs::Falls::smaller_key))]
pub fn to_value(alloc: Global, key: &Key) -> Result<Value, NoMemory>
    ensures { IfOk result (λ r. tree_of r ≡ value_of_key (key_tree_of key.now)) }
{
    match key {
        Key::Number(n) => Ok(Value::Int(*n)),
        Key::Date(d) => Ok(Value::Date(*d)),
        Key::Text(s) => Ok(Value::Text(s.copy(alloc)?)),
        Key::Binary(b) => Ok(Value::Bytes(b.copy(alloc)?)),
        Key::Array(keys) => {
            let items = values_of(alloc, keys)?;
            Ok(Value::Array(items, Props::new(alloc)))
        }
    }
}

#[cycle(to_value)]
#[tactic(auto, using(clone_values::specs::Falls::smaller_key))]
fn values_of(alloc: Global, keys: &Keys) -> Result<Items, NoMemory>
    ensures { IfOk result (λ r. trees_of r ≡ values_of_keys (key_trees_of keys.now)) }
{
    let mut items = Vec::new(alloc);
    for place in 0..keys.len() {
        if let Some(key) = keys.at(place) {
            items.push(to_value(alloc, key)?)?;
        }
    }
    Ok(Items::from_vec(alloc, items)?)
}

/// The laws of conversion: the key of a key's value is that key, for every key that is at most 100 deep; every key of a
/// value and of an item is at most 100 deep, and well formed where the value is; multi-entry conversion gives no key
/// twice; the value of a well formed key is well formed, and can be cloned where the key is at most 100 deep.
pub fn conversion_laws()
    ensures again { (k : KeyTree) → key_depth k ≤ GREATEST_DEPTH → key_of (value_of_key k) ≡ Some k }
    ensures shallow { (t : Tree) → IfSome (key_of t) (λ k. key_depth k ≤ GREATEST_DEPTH) }
    ensures all_shallow { (ts : List Tree) → All (λ k. key_depth k ≤ GREATEST_DEPTH) (keys_of ts) }
    ensures once { (ts : List Tree) → AreDistinctKeys (keys_of ts) }

    // well formed
    ensures key { (t : Tree) → IsValue t → IfSome (key_of t) IsKey }
    ensures keys { (ts : List Tree) → are_values (trees_of ts) ≡ true → All IsKey (keys_of ts) }
    ensures value { (k : KeyTree) → IsKey k → IsValue (value_of_key k) }
    ensures cloneable { (k : KeyTree) → key_depth k ≤ GREATEST_DEPTH → IsCloneable (value_of_key k) }
{}
