// Reads documents, by the nesting of their values.
ghost use Rattle.std.specs.Prelude.{◌≡◌, ◌≤◌, ◌<◌, [], length, Bool, false, true, None, Some, map, option_map, IfOk, IsErrOf, OnOk};
ghost use Rattle.serde_json.specs.Data.{array};
ghost use Rattle.serde_json.specs.View.{view, items_view, members_view};
ghost use Rattle.serde_json.specs.Events.{items_len, members_len};
ghost use Rattle.idb_base.specs.Lists.{IsWithinLimit};
ghost use Rattle.clone_values.specs.Tree.{object, members_of};
ghost use Rattle.clone_values.specs.Names.{set_members};
ghost use Rattle.clone_values.specs.View.{tree_of, pair_of};
ghost use Rattle.clone_values.specs.WellFormed.{IsValue};
ghost use Rattle.idb_base.specs.Results.{Gives};
ghost use Rattle.value_json.specs.Reading.{IsUnread, tree_in, object_in, marked_in, full_array, list_in, pair_list_in, trees_in, members_in, pair_in, pairs_in, short_list, named_in, plain_object};
ghost use Rattle.value_json.specs.declared.marks.Mark.TheVariants as mark;

use crate::JsonError;
use crate::building::{map_from, named_from, set_from};
use crate::marks::{Mark, any_marked, is_full_array, mark_of};
use crate::parts::{is_text, read_bytes, read_date, read_int, read_text};
use clone_values::{Items, Pair, Props, Text, Value};
use idb_base::GREATEST_LENGTH;
use serde_json::{Map, Value as Json};
use std::alloc::Global;

/// Reads a value from a document. `Spelling` comes exactly where the document has no reading.
///
/// A list of more than 4,294,967,295 members has none, whatever stands in it.
pub fn value_from_json(alloc: Global, j: &Json) -> Result<Value, JsonError>
    ensures found { IfOk result (λ v. tree_in (view j.now) ≡ Some (tree_of v)) }
    ensures well_formed { IfOk result (λ v. IsValue (tree_of v)) }
    ensures no_reading { IsErrOf result JsonError.Spelling → tree_in (view j.now) ≡ None }
{
    read(alloc, j)
}

#[cycle(read)]
fn read(alloc: Global, json: &Json) -> Result<Value, JsonError>
    ensures { Gives IsUnread tree_of result (tree_in (view json.now)) }
{
    match json {
        Json::Null => Ok(Value::Null),
        Json::Bool(b) => Ok(Value::Bool(*b)),
        Json::Number(number) => read_int(number),
        Json::String(text) => read_text(alloc, text.as_str()),
        Json::Array(list) => read_array(alloc, list),
        Json::Object(members) => {
            if any_marked(members) {
                read_object(alloc, members)
            } else {
                read_members(alloc, members)
            }
        }
    }
}

// An object with a name that begins with `$`.
#[cycle(read)]
fn read_object(alloc: Global, members: &Map<String, Json>) -> Result<Value, JsonError>
    ensures { Gives IsUnread tree_of result (object_in (members_view members.now.entries)) }
{
    let mut each = members.iter();
    let Some((name, member)) = each.next() else {
        return Err(JsonError::Spelling);
    };
    let Some((other, named)) = each.next() else {
        return read_marked(alloc, mark_of(name.as_str()), member);
    };
    let None = each.next() else {
        return Err(JsonError::Spelling);
    };
    if !is_full_array(name.as_str(), other.as_str()) {
        return Err(JsonError::Spelling);
    }
    let items = read_list(alloc, member)?;
    let pairs = read_pair_list(alloc, named)?;
    full_array(alloc, items, pairs)
}

// An Array of these items, with the properties that the pairs name.
fn full_array(alloc: Global, items: Items, pairs: Vec<Pair>) -> Result<Value, JsonError>
    requires { IsWithinLimit pairs.items }
    ensures { Gives IsUnread tree_of result
        (full_array (Some items) (named_in true (Some (map pair_of pairs.items)))) }
{
    let props = named_from(alloc, pairs, true)?;
    Ok(Value::Array(items, props))
}

// What stands behind the one name of an object.
#[cycle(read)]
fn read_marked(alloc: Global, mark: Option<Mark>, json: &Json) -> Result<Value, JsonError>
    ensures { Gives IsUnread tree_of result (marked_in mark (view json.now)) }
{
    match (mark, json) {
        (Some(Mark::Undefined), Json::Null) => Ok(Value::Undefined),
        (Some(Mark::Function), Json::Null) => Ok(Value::Function),
        (Some(Mark::Date), Json::Number(number)) => read_date(number),
        (Some(Mark::Bytes), Json::String(text)) => read_bytes(alloc, text.as_str()),
        (Some(Mark::Array), Json::Array(list)) => read_array(alloc, list),
        (Some(Mark::Object), Json::Array(list)) => read_named(alloc, list),
        (Some(Mark::Map), Json::Array(list)) => read_map(alloc, list),
        (Some(Mark::Set), Json::Array(list)) => read_set(alloc, list),
        _ => Err(JsonError::Spelling),
    }
}

// An Array of the values of a list.
#[cycle(read)]
fn read_array(alloc: Global, list: &Vec<Json>) -> Result<Value, JsonError>
    ensures { Gives IsUnread tree_of result
        (marked_in (Some mark.Array) (array (items_view list.now.items))) }
{
    let items = read_items(alloc, list)?;
    Ok(Value::Array(items, Props::new(alloc)))
}

// An Object of the properties of a list.
#[cycle(read)]
fn read_named(alloc: Global, list: &Vec<Json>) -> Result<Value, JsonError>
    ensures { Gives IsUnread tree_of result
        (marked_in (Some mark.Object) (array (items_view list.now.items))) }
{
    let pairs = read_pairs(alloc, list)?;
    Ok(Value::Object(named_from(alloc, pairs, false)?))
}

#[cycle(read)]
fn read_map(alloc: Global, list: &Vec<Json>) -> Result<Value, JsonError>
    ensures { Gives IsUnread tree_of result
        (marked_in (Some mark.Map) (array (items_view list.now.items))) }
{
    let pairs = read_pairs(alloc, list)?;
    Ok(Value::Map(map_from(alloc, pairs)?))
}

#[cycle(read)]
fn read_set(alloc: Global, list: &Vec<Json>) -> Result<Value, JsonError>
    ensures { Gives IsUnread tree_of result
        (marked_in (Some mark.Set) (array (items_view list.now.items))) }
{
    let values = read_values(alloc, list)?;
    Ok(Value::Set(set_from(alloc, values)?))
}

#[cycle(read)]
fn read_list(alloc: Global, json: &Json) -> Result<Items, JsonError>
    ensures { Gives IsUnread (λ ts. ts) result (list_in (view json.now)) }
{
    match json {
        Json::Array(list) => read_items(alloc, list),
        _ => Err(JsonError::Spelling),
    }
}

#[cycle(read)]
fn read_pair_list(alloc: Global, json: &Json) -> Result<Vec<Pair>, JsonError>
    ensures read { Gives IsUnread (λ ps. map pair_of ps.items) result (pair_list_in (view json.now)) }
    ensures short { IfOk result (λ ps. IsWithinLimit ps.items) }
{
    match json {
        Json::Array(list) => read_pairs(alloc, list),
        _ => Err(JsonError::Spelling),
    }
}

// The values of a list, as items.
#[cycle(read)]
fn read_items(alloc: Global, list: &Vec<Json>) -> Result<Items, JsonError>
    ensures { Gives IsUnread (λ ts. ts) result
        (short_list (items_len (items_view list.now.items)) (trees_in (items_view list.now.items))) }
{
    let values = read_values(alloc, list)?;
    Ok(Items::from_vec(alloc, values)?)
}

// The values of a list.
#[cycle(read)]
#[tactic(auto, using(crate::proofs::Documents::short_items, crate::proofs::Documents::long_items))]
fn read_values(alloc: Global, list: &Vec<Json>) -> Result<Vec<Value>, JsonError>
    ensures read { Gives IsUnread (λ vs. map tree_of vs.items) result
        (short_list (items_len (items_view list.now.items)) (trees_in (items_view list.now.items))) }
    ensures short { IfOk result (λ vs. IsWithinLimit vs.items) }
{
    if list.len() > GREATEST_LENGTH {
        return Err(JsonError::Spelling);
    }
    let mut values = Vec::new(alloc);
    for json in list {
        values.push(read(alloc, json)?)?;
    }
    Ok(values)
}

// The pairs of a list.
#[cycle(read)]
#[tactic(auto, using(crate::proofs::Documents::short_items, crate::proofs::Documents::long_items))]
fn read_pairs(alloc: Global, list: &Vec<Json>) -> Result<Vec<Pair>, JsonError>
    ensures read { Gives IsUnread (λ ps. map pair_of ps.items) result
        (short_list (items_len (items_view list.now.items)) (pairs_in (items_view list.now.items))) }
    ensures short { IfOk result (λ ps. IsWithinLimit ps.items) }
{
    if list.len() > GREATEST_LENGTH {
        return Err(JsonError::Spelling);
    }
    let mut pairs = Vec::new(alloc);
    for json in list {
        pairs.push(read_pair(alloc, json)?)?;
    }
    Ok(pairs)
}

// A list of two values.
#[cycle(read)]
fn read_pair(alloc: Global, json: &Json) -> Result<Pair, JsonError>
    ensures { Gives IsUnread pair_of result (pair_in (view json.now)) }
{
    match json {
        Json::Array(list) => match list.as_slice() {
            [first, second] => {
                let key = read(alloc, first)?;
                let value = read(alloc, second)?;
                Ok(Pair { key, value })
            }
            _ => Err(JsonError::Spelling),
        },
        _ => Err(JsonError::Spelling),
    }
}

// A plain object.
#[cycle(read)]
#[tactic(auto, using(crate::proofs::Documents::short_members, crate::proofs::Documents::long_members, clone_values::proofs::Laws::set_longer))]
fn read_members(alloc: Global, members: &Map<String, Json>) -> Result<Value, JsonError>
    ensures { Gives IsUnread tree_of result (option_map plain_object (option_map (set_members [])
        (short_list (members_len (members_view members.now.entries)) (members_in (members_view members.now.entries))))) }
{
    if members.len() > GREATEST_LENGTH {
        return Err(JsonError::Spelling);
    }
    let mut props = Props::new(alloc);
    for (name, json) in members.iter() {
        let text = name.as_str();
        if !is_text(text) {
            return Err(JsonError::Spelling);
        }
        let value = read(alloc, json)?;
        props.set(Text::copy_of(alloc, text)?, value)?;
    }
    Ok(Value::Object(props))
}
