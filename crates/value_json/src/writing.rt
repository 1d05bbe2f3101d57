// Writes values and keys as documents.
ghost use Rattle.std.specs.Prelude.{◌≡◌, true, false, map, IfOk};
ghost use Rattle.clone_values.specs.KeyTree.{key_trees_of};
ghost use Rattle.clone_values.specs.Tree.{array as array_tree, bytes as bytes_tree, object as object_tree, map_object, set_object, trees_of, members_of, pairs_of};
ghost use Rattle.clone_values.specs.View.{tree_of, key_tree_of};
ghost use Rattle.serde_json.specs.Data.{string, no_members};
ghost use Rattle.serde_json.specs.View.{view, members_view};
ghost use Rattle.value_json.specs.Writing.{json_of, marked, pair_data, array_data, list_data, any_marked_name, items_json, pairs_json, named_json, members_json};
ghost use Rattle.clone_values.specs.KeyValues.{value_of_key, values_of_keys};

use crate::marks::begins_marked;
use clone_values::{Bytes, Items, Key, Keys, Pairs, Props, Value};
use idb_base::NoMemory;
use serde_json::{Map, Value as Json};
use std::alloc::Global;

/// Writes a value as a document.
#[cycle(write)]
pub fn value_to_json(alloc: Global, v: &Value) -> Result<Json, NoMemory>
    ensures { IfOk result (λ j. view j ≡ json_of (tree_of v.now)) }
{
    match v {
        Value::Undefined => marked(alloc, "$undefined", Json::Null),
        Value::Null => Ok(Json::Null),
        Value::Bool(b) => Ok(Json::from(*b)),
        Value::Int(n) => Ok(Json::from(*n)),
        Value::Text(s) => text(alloc, s.as_str()),
        Value::Date(d) => marked(alloc, "$date", Json::from(*d)),
        Value::Bytes(b) => write_bytes(alloc, b),
        Value::Array(items, props) => write_array(alloc, items, props),
        Value::Object(props) => {
            if any_marked_name(props) {
                write_named_object(alloc, props)
            } else {
                write_object(alloc, props)
            }
        }
        Value::Map(pairs) => write_map(alloc, pairs),
        Value::Set(items) => write_set(alloc, items),
        Value::Function => marked(alloc, "$function", Json::Null),
    }
}

#[cycle(write)]
fn write_array(alloc: Global, items: &Items, props: &Props) -> Result<Json, NoMemory>
    ensures { IfOk result (λ j. view j ≡ json_of (array_tree (trees_of items.now) (members_of props.now))) }
{
    let items = write_items(alloc, items)?;
    array(alloc, items, write_named(alloc, props)?)
}

// The properties of an Object of which some name begins with `$`.
#[cycle(write)]
fn write_named_object(alloc: Global, props: &Props) -> Result<Json, NoMemory>
    requires { any_marked_name (members_of props.now) ≡ true }
    ensures { IfOk result (λ j. view j ≡ json_of (object_tree (members_of props.now))) }
{
    let named = write_named(alloc, props)?;
    marked(alloc, "$object", Json::from(named))
}

// The properties of an Object of which no name begins with `$`.
#[cycle(write)]
fn write_object(alloc: Global, props: &Props) -> Result<Json, NoMemory>
    requires { any_marked_name (members_of props.now) ≡ false }
    ensures { IfOk result (λ j. view j ≡ json_of (object_tree (members_of props.now))) }
{
    Ok(Json::from(write_members(alloc, props)?))
}

#[cycle(write)]
fn write_map(alloc: Global, pairs: &Pairs) -> Result<Json, NoMemory>
    ensures { IfOk result (λ j. view j ≡ json_of (map_object (pairs_of pairs.now))) }
{
    let entries = write_pairs(alloc, pairs)?;
    marked(alloc, "$map", Json::from(entries))
}

#[cycle(write)]
fn write_set(alloc: Global, items: &Items) -> Result<Json, NoMemory>
    ensures { IfOk result (λ j. view j ≡ json_of (set_object (trees_of items.now))) }
{
    let members = write_items(alloc, items)?;
    marked(alloc, "$set", Json::from(members))
}

#[cycle(write)]
#[tactic(auto, using(clone_values::specs::Falls::smaller_tree))]
fn write_items(alloc: Global, items: &Items) -> Result<Vec<Json>, NoMemory>
    ensures { IfOk result (λ js. map view js.items ≡ items_json (trees_of items.now)) }
{
    let mut written = Vec::new(alloc);
    for place in 0..items.len() {
        if let Some(item) = items.at(place) {
            written.push(value_to_json(alloc, item)?)?;
        }
    }
    Ok(written)
}

#[cycle(write)]
fn write_pairs(alloc: Global, pairs: &Pairs) -> Result<Vec<Json>, NoMemory>
    ensures { IfOk result (λ js. map view js.items ≡ pairs_json (pairs_of pairs.now)) }
{
    let mut written = Vec::new(alloc);
    for place in 0..pairs.len() {
        if let Some(entry) = pairs.at(place) {
            let key = value_to_json(alloc, &entry.key)?;
            let value = value_to_json(alloc, &entry.value)?;
            written.push(pair(alloc, key, value)?)?;
        }
    }
    Ok(written)
}

#[cycle(write)]
fn write_named(alloc: Global, props: &Props) -> Result<Vec<Json>, NoMemory>
    ensures { IfOk result (λ js. map view js.items ≡ named_json (members_of props.now)) }
{
    let mut written = Vec::new(alloc);
    for place in 0..props.len() {
        if let Some(prop) = props.at(place) {
            let name = text(alloc, prop.name.as_str())?;
            let value = value_to_json(alloc, &prop.value)?;
            written.push(pair(alloc, name, value)?)?;
        }
    }
    Ok(written)
}

#[cycle(write)]
fn write_members(alloc: Global, props: &Props) -> Result<Map<String, Json>, NoMemory>
    ensures { IfOk result (λ m. members_view m.entries ≡ members_json no_members (members_of props.now)) }
{
    let mut written = Map::new(alloc);
    for place in 0..props.len() {
        if let Some(prop) = props.at(place) {
            let value = value_to_json(alloc, &prop.value)?;
            serde_json::put(&mut written, alloc, prop.name.as_str(), value)?;
        }
    }
    Ok(written)
}

/// Writes a key as the value that converts to it: a number, a date, a text, bytes, or an Array of such.
#[cycle(write_key)]
pub fn key_to_json(alloc: Global, key: &Key) -> Result<Json, NoMemory>
    ensures { IfOk result (λ j. view j ≡ json_of (value_of_key (key_tree_of key.now))) }
{
    match key {
        Key::Number(n) => Ok(Json::from(*n)),
        Key::Date(d) => marked(alloc, "$date", Json::from(*d)),
        Key::Text(s) => text(alloc, s.as_str()),
        Key::Binary(b) => write_bytes(alloc, b),
        Key::Array(keys) => Ok(Json::from(write_keys(alloc, keys)?)),
    }
}

#[cycle(write_key)]
#[tactic(auto, using(clone_values::specs::Falls::smaller_key))]
fn write_keys(alloc: Global, keys: &Keys) -> Result<Vec<Json>, NoMemory>
    ensures { IfOk result (λ js. map view js.items ≡ items_json (values_of_keys (key_trees_of keys.now))) }
{
    let mut written = Vec::new(alloc);
    for place in 0..keys.len() {
        if let Some(key) = keys.at(place) {
            written.push(key_to_json(alloc, key)?)?;
        }
    }
    Ok(written)
}

fn text(alloc: Global, s: &str) -> Result<Json, NoMemory>
    ensures { IfOk result (λ j. view j ≡ string s.now) }
{
    Ok(Json::try_from_str(alloc, s)?)
}

fn marked(alloc: Global, name: &str, value: Json) -> Result<Json, NoMemory>
    ensures { IfOk result (λ j. view j ≡ marked name.now (view value)) }
{
    let mut object = Map::new(alloc);
    serde_json::put(&mut object, alloc, name, value)?;
    Ok(Json::from(object))
}

fn write_bytes(alloc: Global, bytes: &Bytes) -> Result<Json, NoMemory>
    ensures { IfOk result (λ j. view j ≡ json_of (bytes_tree bytes.now)) }
{
    let digits = hex::encode(alloc, bytes.as_slice())?;
    marked(alloc, "$bytes", Json::from(digits))
}

fn pair(alloc: Global, first: Json, second: Json) -> Result<Json, NoMemory>
    ensures { IfOk result (λ j. view j ≡ pair_data (view first) (view second)) }
{
    Ok(Json::from(vec![in alloc; first, second]?))
}

fn array(alloc: Global, items: Vec<Json>, named: Vec<Json>) -> Result<Json, NoMemory>
    ensures { IfOk result (λ j. view j ≡ array_data (map view items.items) (map view named.items)) }
{
    if named.is_empty() {
        return Ok(Json::from(items));
    }
    let mut object = Map::new(alloc);
    serde_json::put(&mut object, alloc, "$array", Json::from(items))?;
    serde_json::put(&mut object, alloc, "$named", Json::from(named))?;
    Ok(Json::from(object))
}

pub(crate) fn any_marked_name(props: &Props) -> bool
    ensures { result ≡ any_marked_name (members_of props.now) }
{
    for place in 0..props.len() {
        if let Some(prop) = props.at(place) {
            if begins_marked(prop.name.as_str()) {
                return true;
            }
        }
    }
    false
}
