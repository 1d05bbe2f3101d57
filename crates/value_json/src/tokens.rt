// The text of a value's document, written as its tokens.
ghost use Rattle.std.specs.Prelude.{◌≡◌, ◌<◌, true, length, ◌++◌, [], ◌∷◌, OnOk, OnErr, IfOk, string_bytes, IsUtf8};
ghost use Rattle.clone_values.specs.Tree.{array, date, bytes, object as object_tree, map_object, set_object, trees_of, members_of, pairs_of};
ghost use Rattle.clone_values.specs.KeyTree.{key_trees_of};
ghost use Rattle.clone_values.specs.KeyValues.{value_of_key, values_of_keys};
ghost use Rattle.clone_values.specs.View.{tree_of, key_tree_of};
ghost use Rattle.json.specs.Tree.{json_tokens};
ghost use Rattle.serde_json.specs.Data.{object, no_members};
ghost use Rattle.json.specs.Token.{begin_object, end_object, begin_array, end_array, key, string, null};
ghost use Rattle.serde_json.specs.Written.{compact_text, outline};
ghost use Rattle.value_json.specs.Writing.{json_of, any_marked_name, members_json};
ghost use Rattle.hex.specs.Hex.{encode_lower};
ghost use Rattle.value_json.specs.Marks.{begins_marked};
ghost use Rattle.value_json.specs.Tokens.{tokens_of, rest_of_items, rest_of_pairs, rest_of_named, rest_of_members};

use crate::writing::any_marked_name;
use clone_values::{Bytes, Items, Key, Keys, Pairs, Props, Value};
use json::Writer;
use std::alloc::{AllocError, Global};

/// Writes the tokens of a value's document.
#[cycle(write)]
pub(crate) fn write_value(alloc: Global, out: &mut Writer, v: &Value) -> Result<(), AllocError>
    ensures written { OnOk result (out.new.tokens ≡ out.old.tokens ++ tokens_of (tree_of v.now)) }
    ensures before { out.new.before ≡ out.old.before }
{
    match v {
        Value::Undefined => marked_null(out, "$undefined"),
        Value::Null => out.null(),
        Value::Bool(b) => out.boolean(*b),
        Value::Int(n) => out.i64(*n),
        Value::Text(s) => out.string(s.as_str()),
        Value::Date(d) => date(out, *d),
        Value::Bytes(b) => binary(alloc, out, b),
        Value::Array(items, props) => {
            if props.len() == 0 {
                return write_items(alloc, out, items);
            }
            write_both(alloc, out, items, props)
        }
        Value::Object(props) => {
            if !any_marked_name(props) {
                return write_members(alloc, out, props);
            }
            write_named_object(alloc, out, props)
        }
        Value::Map(pairs) => write_map(alloc, out, pairs),
        Value::Set(items) => write_set(alloc, out, items),
        Value::Function => marked_null(out, "$function"),
    }
}

#[cycle(write)]
#[tactic(auto, using(clone_values::specs::Falls::smaller_tree))]
fn write_items(alloc: Global, out: &mut Writer, items: &Items) -> Result<(), AllocError>
    ensures written { OnOk result (out.new.tokens
        ≡ out.old.tokens ++ begin_array ∷ rest_of_items (trees_of items.now)) }
    ensures before { out.new.before ≡ out.old.before }
{
    out.begin_array()?;
    for place in 0..items.len() {
        if let Some(item) = items.at(place) {
            write_value(alloc, out, item)?;
        }
    }
    out.end_array()
}

// The properties of an Object of which some name begins with `$`.
#[cycle(write)]
fn write_named_object(alloc: Global, out: &mut Writer, props: &Props) -> Result<(), AllocError>
    requires { any_marked_name (members_of props.now) ≡ true }
    ensures written { OnOk result (out.new.tokens
        ≡ out.old.tokens ++ tokens_of (object_tree (members_of props.now))) }
    ensures before { out.new.before ≡ out.old.before }
{
    begin_marked(out, "$object")?;
    write_named(alloc, out, props)?;
    out.end_object()
}

#[cycle(write)]
fn write_map(alloc: Global, out: &mut Writer, pairs: &Pairs) -> Result<(), AllocError>
    ensures written { OnOk result (out.new.tokens
        ≡ out.old.tokens ++ tokens_of (map_object (pairs_of pairs.now))) }
    ensures before { out.new.before ≡ out.old.before }
{
    begin_marked(out, "$map")?;
    write_pairs(alloc, out, pairs)?;
    out.end_object()
}

#[cycle(write)]
fn write_set(alloc: Global, out: &mut Writer, items: &Items) -> Result<(), AllocError>
    ensures written { OnOk result (out.new.tokens
        ≡ out.old.tokens ++ tokens_of (set_object (trees_of items.now))) }
    ensures before { out.new.before ≡ out.old.before }
{
    begin_marked(out, "$set")?;
    write_items(alloc, out, items)?;
    out.end_object()
}

// Items, and named properties where there are some.
#[cycle(write)]
fn write_both(
    alloc: Global,
    out: &mut Writer,
    items: &Items,
    props: &Props,
) -> Result<(), AllocError>
    requires { 0 < length props.now }
    ensures written { OnOk result (out.new.tokens
        ≡ out.old.tokens ++ tokens_of (array (trees_of items.now) (members_of props.now))) }
    ensures before { out.new.before ≡ out.old.before }
{
    begin_marked(out, "$array")?;
    write_items(alloc, out, items)?;
    out.key("$named")?;
    write_named(alloc, out, props)?;
    out.end_object()
}

#[cycle(write)]
fn write_pairs(alloc: Global, out: &mut Writer, pairs: &Pairs) -> Result<(), AllocError>
    ensures written { OnOk result (out.new.tokens
        ≡ out.old.tokens ++ begin_array ∷ rest_of_pairs (pairs_of pairs.now)) }
    ensures before { out.new.before ≡ out.old.before }
{
    out.begin_array()?;
    for place in 0..pairs.len() {
        if let Some(entry) = pairs.at(place) {
            out.begin_array()?;
            write_value(alloc, out, &entry.key)?;
            write_value(alloc, out, &entry.value)?;
            out.end_array()?;
        }
    }
    out.end_array()
}

#[cycle(write)]
fn write_named(alloc: Global, out: &mut Writer, props: &Props) -> Result<(), AllocError>
    ensures written { OnOk result (out.new.tokens
        ≡ out.old.tokens ++ begin_array ∷ rest_of_named (members_of props.now)) }
    ensures before { out.new.before ≡ out.old.before }
{
    out.begin_array()?;
    for place in 0..props.len() {
        if let Some(prop) = props.at(place) {
            out.begin_array()?;
            out.string(prop.name.as_str())?;
            write_value(alloc, out, &prop.value)?;
            out.end_array()?;
        }
    }
    out.end_array()
}

#[cycle(write)]
fn write_members(alloc: Global, out: &mut Writer, props: &Props) -> Result<(), AllocError>
    ensures written { OnOk result (out.new.tokens
        ≡ out.old.tokens ++ json_tokens (outline (object (members_json no_members (members_of props.now))))) }
    ensures before { out.new.before ≡ out.old.before }
{
    out.begin_object()?;
    for place in 0..props.len() {
        if let Some(prop) = props.at(place) {
            out.key(prop.name.as_str())?;
            write_value(alloc, out, &prop.value)?;
        }
    }
    out.end_object()
}

fn begin_marked(out: &mut Writer, name: &str) -> Result<(), AllocError>
    ensures written { OnOk result (out.new.tokens ≡ out.old.tokens ++ begin_object ∷ key name.now ∷ []) }
    ensures before { out.new.before ≡ out.old.before }
{
    out.begin_object()?;
    out.key(name)
}

fn marked_null(out: &mut Writer, name: &str) -> Result<(), AllocError>
    ensures written { OnOk result (out.new.tokens
        ≡ out.old.tokens ++ begin_object ∷ key name.now ∷ null ∷ end_object ∷ []) }
    ensures before { out.new.before ≡ out.old.before }
{
    begin_marked(out, name)?;
    out.null()?;
    out.end_object()
}

fn digits(alloc: Global, out: &mut Writer, bytes: &Bytes) -> Result<(), AllocError>
    ensures written { OnOk result (out.new.tokens ≡ out.old.tokens ++ string (encode_lower bytes.now) ∷ []) }
    ensures before { out.new.before ≡ out.old.before }
{
    let digits = hex::encode(alloc, bytes.as_slice())?;
    out.string(digits.as_str())
}

/// Writes the tokens of the document of a key's value.
#[cycle(write_key)]
pub(crate) fn write_key(alloc: Global, out: &mut Writer, key: &Key) -> Result<(), AllocError>
    ensures written { OnOk result (out.new.tokens
        ≡ out.old.tokens ++ tokens_of (value_of_key (key_tree_of key.now))) }
    ensures before { out.new.before ≡ out.old.before }
{
    match key {
        Key::Number(n) => out.i64(*n),
        Key::Date(d) => date(out, *d),
        Key::Text(s) => out.string(s.as_str()),
        Key::Binary(b) => binary(alloc, out, b),
        Key::Array(keys) => write_keys(alloc, out, keys),
    }
}

#[cycle(write_key)]
#[tactic(auto, using(clone_values::specs::Falls::smaller_key))]
fn write_keys(alloc: Global, out: &mut Writer, keys: &Keys) -> Result<(), AllocError>
    ensures written { OnOk result (out.new.tokens
        ≡ out.old.tokens ++ begin_array ∷ rest_of_items (values_of_keys (key_trees_of keys.now))) }
    ensures before { out.new.before ≡ out.old.before }
{
    out.begin_array()?;
    for place in 0..keys.len() {
        if let Some(key) = keys.at(place) {
            write_key(alloc, out, key)?;
        }
    }
    out.end_array()
}

fn date(out: &mut Writer, d: i64) -> Result<(), AllocError>
    ensures written { OnOk result (out.new.tokens ≡ out.old.tokens ++ tokens_of (date d)) }
    ensures before { out.new.before ≡ out.old.before }
{
    begin_marked(out, "$date")?;
    out.i64(d)?;
    out.end_object()
}

fn binary(alloc: Global, out: &mut Writer, b: &Bytes) -> Result<(), AllocError>
    ensures written { OnOk result (out.new.tokens ≡ out.old.tokens ++ tokens_of (bytes b.now)) }
    ensures before { out.new.before ≡ out.old.before }
{
    begin_marked(out, "$bytes")?;
    digits(alloc, out, b)?;
    out.end_object()
}
