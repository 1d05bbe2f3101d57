// Whether a value keeps to the ranges, sizes and names.
ghost use Rattle.std.specs.Prelude.{◌≡◌, ℕ, ◌+◌, ◌≤◌, true, List, length, map, drop};
ghost use Rattle.std.specs.List.{list_any, list_all};
ghost use Rattle.value_trees.specs.Tree.{trees_of, members_of, pairs_of};
ghost use Rattle.clone_values.specs.View.{tree_of};
ghost use Rattle.value_trees.specs.Names.{names_of};
ghost use Rattle.value_trees.specs.Sameness.{repeats};
ghost use Rattle.value_trees.specs.WellFormed.{is_value, is_well_made, are_values, member_values, pair_values, is_int, is_date, are_once, is_array_name, are_properties, is_within_limit, are_digits, is_text, is_byte_string};

use crate::putting::repeats;
use crate::small_lists::Text;
use crate::value_types::{Items, Pairs, Props, Value};
use value_trees::{GREATEST_DATE, GREATEST_INT, GREATEST_LENGTH, LEAST_DATE, LEAST_INT};

/// Whether the value keeps to the ranges of numbers and dates, the sizes, the names of properties, and primitive
/// members that stand once; it takes no memory.
#[cycle(well_formed)]
#[tactic(auto, using(crate::specs::Falls::smaller_tree))]
pub fn well_formed(v: &Value) -> bool
    ensures { result ≡ is_value (tree_of v.now) }
{
    match v {
        Value::Array(items, props) => {
            is_well_made(v) && items_well_formed(items) && props_well_formed(props)
        }
        Value::Object(props) => is_well_made(v) && props_well_formed(props),
        Value::Map(pairs) => is_well_made(v) && pairs_well_formed(pairs),
        Value::Set(items) => is_well_made(v) && items_well_formed(items),
        _ => is_well_made(v),
    }
}

/// Whether the value by itself keeps to the rules, whatever stands in its lists.
#[tactic(auto, using(value_trees::proofs::Laws::trees_again, value_trees::proofs::Laws::members_again, value_trees::proofs::Laws::pairs_again))]
fn is_well_made(v: &Value) -> bool
    ensures { result ≡ is_well_made (tree_of v.now) }
{
    match v {
        Value::Int(n) => is_int(*n),
        Value::Date(d) => is_date(*d),
        Value::Text(s) => is_text(s),
        Value::Bytes(b) => is_byte_string(b.as_slice()),
        Value::Array(items, props) => {
            items.len() <= GREATEST_LENGTH && are_properties(props) && are_array_names(props)
        }
        Value::Object(props) => are_properties(props),
        Value::Map(pairs) => pairs.len() <= GREATEST_LENGTH && keys_are_once(pairs),
        Value::Set(items) => items.len() <= GREATEST_LENGTH && items_are_once(items),
        _ => true,
    }
}

#[cycle(well_formed)]
#[tactic(auto, using(crate::specs::Falls::smaller_tree))]
fn items_well_formed(items: &Items) -> bool
    ensures { result ≡ are_values (trees_of items.now) }
{
    for place in 0..items.len() {
        if let Some(item) = items.at(place) {
            if !well_formed(item) {
                return false;
            }
        }
    }
    true
}

#[cycle(well_formed)]
fn props_well_formed(props: &Props) -> bool
    ensures { result ≡ member_values (members_of props.now) }
{
    for place in 0..props.len() {
        if let Some(prop) = props.at(place) {
            if !well_formed(&prop.value) {
                return false;
            }
        }
    }
    true
}

#[cycle(well_formed)]
fn pairs_well_formed(pairs: &Pairs) -> bool
    ensures { result ≡ pair_values (pairs_of pairs.now) }
{
    for place in 0..pairs.len() {
        if let Some(pair) = pairs.at(place) {
            if !(well_formed(&pair.key) && well_formed(&pair.value)) {
                return false;
            }
        }
    }
    true
}

#[tactic(auto, using(value_trees::proofs::Laws::is_unicode))]
fn is_text(s: &Text) -> bool
    ensures { result ≡ is_text s.now }
{
    s.as_str().len() <= GREATEST_LENGTH
}

fn is_byte_string(bytes: &[u8]) -> bool
    ensures { result ≡ is_byte_string bytes.now }
{
    bytes.len() <= GREATEST_LENGTH
}

/// Whether the number is in the range of a value's numbers.
pub fn is_int(n: i64) -> bool
    ensures { result ≡ is_int n }
{
    (LEAST_INT..=GREATEST_INT).contains(&n)
}

/// Whether the milliseconds are in the range of dates.
pub fn is_date(d: i64) -> bool
    ensures { result ≡ is_date d }
{
    (LEAST_DATE..=GREATEST_DATE).contains(&d)
}

fn are_properties(props: &Props) -> bool
    ensures { result ≡ are_properties props.now }
{
    if props.len() > GREATEST_LENGTH {
        return false;
    }
    for place in 0..props.len() {
        if let Some(prop) = props.at(place) {
            if !is_text(&prop.name) {
                return false;
            }
        }
    }
    true
}

fn are_array_names(props: &Props) -> bool
    ensures { result ≡ list_all is_array_name (names_of props.now) }
{
    for place in 0..props.len() {
        if let Some(prop) = props.at(place) {
            if !is_array_name(prop.name.as_str()) {
                return false;
            }
        }
    }
    true
}

/// Whether a named property of an Array may be called so: neither `length` nor by digits alone.
pub fn is_array_name(name: &str) -> bool
    ensures { result ≡ is_array_name name.now }
{
    name != "length" && !are_digits(name.as_bytes())
}

fn are_digits(name: &[u8]) -> bool
    ensures { result ≡ are_digits name.now }
{
    for b in name {
        if *b < b'0' || *b > b'9' {
            return false;
        }
    }
    !name.is_empty()
}

fn items_are_once(items: &Items) -> bool
    ensures { result ≡ are_once items.now }
{
    for place in 0..items.len() {
        if let Some(item) = items.at(place) {
            if stands_from(items, place + 1, item) {
                return false;
            }
        }
    }
    true
}

fn stands_from(items: &Items, from: usize, item: &Value) -> bool
    ensures { result ≡ list_any (λ s. repeats (tree_of item.now) s) (drop from items.now) }
{
    for place in from..items.len() {
        if let Some(other) = items.at(place) {
            if repeats(item, other) {
                return true;
            }
        }
    }
    false
}

fn keys_are_once(pairs: &Pairs) -> bool
    ensures { result ≡ are_once (map (λ p. p.0) pairs.now) }
{
    for place in 0..pairs.len() {
        if let Some(pair) = pairs.at(place) {
            if key_stands_from(pairs, place + 1, &pair.key) {
                return false;
            }
        }
    }
    true
}

fn key_stands_from(pairs: &Pairs, from: usize, key: &Value) -> bool
    ensures { result ≡ list_any (λ s. repeats (tree_of key.now) s) (map (λ p. p.0) (drop from pairs.now)) }
{
    for place in from..pairs.len() {
        if let Some(pair) = pairs.at(place) {
            if repeats(key, &pair.key) {
                return true;
            }
        }
    }
    false
}
