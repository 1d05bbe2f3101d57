// Comparing the keys of values without making them.
ghost use Rattle.std.specs.Prelude.{◌≡◌, true, false, Some};
ghost use Rattle.clone_values.specs.Tree.{trees_of};
ghost use Rattle.clone_values.specs.KeyTree.{array, key_trees_of};
ghost use Rattle.clone_values.specs.View.{tree_of, key_tree_of};
ghost use Rattle.key_order.specs.KeyOrder.{key_cmp, keys_cmp, type_rank};
ghost use Rattle.clone_values.specs.declared.path_types.PathSpec.TheVariants.{Many};
ghost use Rattle.key_paths.specs.Comparing.{compared, as_key, as_keys, comes_to, is_item};
ghost use Rattle.key_order.specs.Conversion.{key_of, is_convertible, are_convertible};
ghost use Rattle.key_paths.specs.Evaluation.{converted, extracted, extracted_from};
ghost use Rattle.key_paths.specs.View.{value_found};

use crate::conversion::{fits_in_array, is_key};
use crate::evaluation::{Found, string_found};
use clone_values::{Items, Key, Keys, PathSpec, Texts, Value};
use key_order::{compare, compare_texts, type_rank};
use path_grammar::KeyPath;
use std::cmp::Ordering;

/// How a key and the key of a value lie; `None` where the value has no key. It takes no memory.
#[tactic(auto, using(crate::proofs::Convertible::has_key, crate::proofs::Convertible::has_none))]
pub fn compare_key(key: &Key, value: &Value) -> Option<Ordering>
    ensures { result ≡ compared (Some (key_tree_of key.now)) (key_of (tree_of value.now)) }
{
    if !is_key(value) {
        return None;
    }
    Some(order_with(key, value))
}

/// How the keys of two values lie; `None` where either has no key. It takes no memory.
#[tactic(auto, using(crate::proofs::Convertible::has_key, crate::proofs::Convertible::has_none))]
pub fn compare_values(a: &Value, b: &Value) -> Option<Ordering>
    ensures { result ≡ compared (key_of (tree_of a.now)) (key_of (tree_of b.now)) }
{
    if !is_key(a) || !is_key(b) {
        return None;
    }
    Some(order_of_values(a, b))
}

/// Whether a path gives just this key on a value (Indexed Database API 3.0, "extract a key from a value using a key path",
/// without multi-entry). It takes no memory.
pub fn gives_key(path: &KeyPath, v: &Value, key: &Key) -> bool
    ensures { result ≡ comes_to (extracted path.now false (tree_of v.now)) (key_tree_of key.now) }
{
    match path.spec() {
        PathSpec::One(string) => is_found(string_found(string.as_str(), v), key),
        PathSpec::Many(strings) => list_gives(strings, v, key),
    }
}

fn is_found(found: Found, key: &Key) -> bool
    ensures { result ≡ comes_to (extracted_from false (value_found found.entry)) (key_tree_of key.now) }
{
    match found {
        Found::Part(v) => is_key_of(v, key),
        Found::Length(n) => compare(&Key::Number(n), key).is_eq(),
        Found::Nothing => false,
    }
}

fn is_key_of(v: &Value, key: &Key) -> bool
    ensures { result ≡ comes_to (converted false (tree_of v.now)) (key_tree_of key.now) }
{
    is_key(v) && order_with(key, v).is_eq()
}

fn list_gives(strings: &Texts, v: &Value, key: &Key) -> bool
    ensures { result ≡ comes_to (extracted (Many strings.now) false (tree_of v.now)) (key_tree_of key.now) }
{
    match key {
        Key::Number(_) | Key::Date(_) | Key::Text(_) | Key::Binary(_) => false,
        Key::Array(keys) => strings_give(strings, v, keys),
    }
}

fn strings_give(strings: &Texts, v: &Value, keys: &Keys) -> bool
    ensures { result
        ≡ comes_to (extracted (Many strings.now) false (tree_of v.now)) (array (key_trees_of keys.now)) }
{
    for place in 0..strings.len() {
        if let Some(string) = strings.at(place) {
            match keys.at(place) {
                Some(key) => {
                    if !is_item(string_found(string.as_str(), v), key) {
                        return false;
                    }
                }
                None => return false,
            }
        }
    }
    match keys.at(strings.len()) {
        Some(_) => false,
        None => true,
    }
}

fn is_item(found: Found, key: &Key) -> bool
    ensures { result ≡ is_item (value_found found.entry) (key_tree_of key.now) }
{
    match found {
        Found::Part(v) => fits_in_array(v) && order_with(key, v).is_eq(),
        Found::Length(n) => compare(&Key::Number(n), key).is_eq(),
        Found::Nothing => false,
    }
}

#[cycle(order_with)]
#[tactic(auto, using(clone_values::specs::Falls::smaller_key))]
pub(crate) fn order_with(key: &Key, value: &Value) -> Ordering
    requires { is_convertible (tree_of value.now) ≡ true }
    ensures { result ≡ key_cmp (key_tree_of key.now) (as_key (tree_of value.now)) }
{
    match (key, value) {
        (Key::Number(m), Value::Int(n)) => m.cmp(n),
        (Key::Date(m), Value::Date(n)) => m.cmp(n),
        (Key::Text(s), Value::Text(t)) => compare_texts(s.as_str(), t.as_str()),
        (Key::Binary(a), Value::Bytes(b)) => a.as_slice().cmp(b.as_slice()),
        (Key::Array(keys), Value::Array(items, _)) => order_with_items(keys, items),
        _ => type_rank(key).cmp(&rank_of(value)),
    }
}

#[cycle(order_with)]
#[tactic(auto, using(clone_values::specs::Falls::smaller_key))]
fn order_with_items(keys: &Keys, items: &Items) -> Ordering
    requires { are_convertible (trees_of items.now) ≡ true }
    ensures { result ≡ keys_cmp (key_trees_of keys.now) (as_keys (trees_of items.now)) }
{
    for place in 0..keys.len() {
        if let Some(key) = keys.at(place) {
            match items.at(place) {
                Some(item) => match order_with(key, item) {
                    Ordering::Equal => {}
                    other => return other,
                },
                None => return Ordering::Greater,
            }
        }
    }
    match items.at(keys.len()) {
        Some(_) => Ordering::Less,
        None => Ordering::Equal,
    }
}

#[cycle(order_of_values)]
#[tactic(auto, using(clone_values::specs::Falls::smaller_tree))]
fn order_of_values(a: &Value, b: &Value) -> Ordering
    requires first { is_convertible (tree_of a.now) ≡ true }
    requires second { is_convertible (tree_of b.now) ≡ true }
    ensures { result ≡ key_cmp (as_key (tree_of a.now)) (as_key (tree_of b.now)) }
{
    match (a, b) {
        (Value::Int(m), Value::Int(n)) => m.cmp(n),
        (Value::Date(m), Value::Date(n)) => m.cmp(n),
        (Value::Text(s), Value::Text(t)) => compare_texts(s.as_str(), t.as_str()),
        (Value::Bytes(a), Value::Bytes(b)) => a.as_slice().cmp(b.as_slice()),
        (Value::Array(a, _), Value::Array(b, _)) => order_of_items(a, b),
        _ => rank_of(a).cmp(&rank_of(b)),
    }
}

#[cycle(order_of_values)]
#[tactic(auto, using(clone_values::specs::Falls::smaller_tree))]
fn order_of_items(a: &Items, b: &Items) -> Ordering
    requires first { are_convertible (trees_of a.now) ≡ true }
    requires second { are_convertible (trees_of b.now) ≡ true }
    ensures { result ≡ keys_cmp (as_keys (trees_of a.now)) (as_keys (trees_of b.now)) }
{
    for place in 0..a.len() {
        if let Some(x) = a.at(place) {
            match b.at(place) {
                Some(y) => match order_of_values(x, y) {
                    Ordering::Equal => {}
                    other => return other,
                },
                None => return Ordering::Greater,
            }
        }
    }
    match b.at(a.len()) {
        Some(_) => Ordering::Less,
        None => Ordering::Equal,
    }
}

/// Where the type of the key of a value that converts stands.
fn rank_of(value: &Value) -> u8
    ensures { result ≡ type_rank (as_key (tree_of value.now)) }
{
    match value {
        Value::Int(_) => 0,
        Value::Date(_) => 1,
        Value::Text(_) => 2,
        Value::Bytes(_) => 3,
        _ => 4,
    }
}
