// One level of a value's document, with what the value holds still unread.
ghost use Rattle.std.specs.Prelude.{◌≡◌, Option, Some, option_map, IfOk};
ghost use Rattle.clone_values.specs.Tree.{Tree};
ghost use Rattle.clone_values.specs.View.{tree_of};
ghost use Rattle.serde_json.specs.Data.{object, array};
ghost use Rattle.serde_json.specs.View.{view, items_view, members_view};
ghost use Rattle.idb_base.specs.Lists.{IsWithinLimit};
ghost use Rattle.idb_base.specs.Results.{Gives};
ghost use Rattle.value_json.specs.Reading.{IsUnread};
ghost use Rattle.value_json.specs.Levels.{leaf, level_in, object_level, marked_level, lists_level, short_in, few_in, level_seen, IsShort};

use crate::JsonError;
use crate::marks::{Mark, any_marked, is_full_array, mark_of};
use crate::parts::{read_bytes, read_date, read_int, read_text};
use clone_values::Value;
use idb_base::GREATEST_LENGTH;
use serde_json::{Map, Value as Json};
use std::alloc::Global;

/// The kind of value that a document spells, with the documents of what it holds.
#[derive(Drop)]
pub enum Level<'a> {
    /// A value that holds no other.
    Leaf(Value),
    /// An Array of these items.
    Array(&'a Vec<Json>),
    /// An Array of the items of the first list, with the properties of the second: lists of a name and a value.
    NamedArray(&'a Vec<Json>, &'a Vec<Json>),
    /// An Object of these members.
    Object(&'a Map<String, Json>),
    /// An Object of the properties of this list: lists of a name and a value.
    NamedObject(&'a Vec<Json>),
    /// A Map of the entries of this list: lists of a key and a value.
    Map(&'a Vec<Json>),
    /// A Set of the members of this list, where one that repeats another counts once.
    Set(&'a Vec<Json>),
}

/// The level of the document. `Spelling` comes exactly where it has none: where it is neither a value without members
/// nor a list or object that the members of a value may stand in.
pub fn level_of<'a>(alloc: Global, json: &'a Json) -> Result<Level<'a>, JsonError>
    ensures read { Gives IsUnread level_seen result (level_in (view json.now)) }
    ensures short { IfOk result IsShort }
{
    match json {
        Json::Null => Ok(Level::Leaf(Value::Null)),
        Json::Bool(b) => Ok(Level::Leaf(Value::Bool(*b))),
        Json::Number(number) => leaf(read_int(number)),
        Json::String(text) => leaf(read_text(alloc, text.as_str())),
        Json::Array(list) => list_level(Mark::Array, list),
        Json::Object(members) => members_level(alloc, members),
    }
}

// The level of a value that holds no other.
fn leaf<'a>(value: Result<Value, JsonError>) -> Result<Level<'a>, JsonError>
    ensures read { (read : Option Tree) → Gives IsUnread tree_of value read
        → Gives IsUnread level_seen result (option_map leaf read) }
    ensures short { IfOk result IsShort }
{
    Ok(Level::Leaf(value?))
}

// The members of an object.
fn members_level<'a>(alloc: Global, members: &'a Map<String, Json>) -> Result<Level<'a>, JsonError>
    ensures read { Gives IsUnread level_seen result (level_in (object (members_view members.now.entries))) }
    ensures short { IfOk result IsShort }
{
    if any_marked(members) {
        return object_level(alloc, members);
    }
    Ok(Level::Object(few(members)?))
}

// An object with a name that begins with `$`.
fn object_level<'a>(alloc: Global, members: &'a Map<String, Json>) -> Result<Level<'a>, JsonError>
    ensures read { Gives IsUnread level_seen result (object_level (members_view members.now.entries)) }
    ensures short { IfOk result IsShort }
{
    let mut each = members.iter();
    let Some((name, member)) = each.next() else {
        return Err(JsonError::Spelling);
    };
    let Some((other, named)) = each.next() else {
        return marked_level(alloc, mark_of(name.as_str()), member);
    };
    let None = each.next() else {
        return Err(JsonError::Spelling);
    };
    if !is_full_array(name.as_str(), other.as_str()) {
        return Err(JsonError::Spelling);
    }
    lists_level(member, named)
}

// Members that aren't too many.
#[tactic(auto, using(crate::proofs::Documents::short_members, crate::proofs::Documents::long_members))]
fn few(members: &Map<String, Json>) -> Result<&Map<String, Json>, JsonError>
    ensures read { Gives IsUnread
        (λ m. members_view m.now.entries) result (few_in (members_view members.now.entries)) }
    ensures short { IfOk result (λ m. IsWithinLimit m.now.entries) }
{
    if members.len() > GREATEST_LENGTH {
        return Err(JsonError::Spelling);
    }
    Ok(members)
}

// A list that isn't too long.
#[tactic(auto, using(crate::proofs::Documents::short_items, crate::proofs::Documents::long_items))]
fn short(list: &Vec<Json>) -> Result<&Vec<Json>, JsonError>
    ensures read { Gives IsUnread
        (λ l. items_view l.now.items) result (short_in (items_view list.now.items)) }
    ensures short { IfOk result (λ l. IsWithinLimit l.now.items) }
{
    if list.len() > GREATEST_LENGTH {
        return Err(JsonError::Spelling);
    }
    Ok(list)
}

fn lists_level<'a>(items: &'a Json, names: &'a Json) -> Result<Level<'a>, JsonError>
    ensures read { Gives IsUnread level_seen result (lists_level (view items.now) (view names.now)) }
    ensures short { IfOk result IsShort }
{
    match (items, names) {
        (Json::Array(items), Json::Array(names)) => {
            let items = short(items)?;
            Ok(Level::NamedArray(items, short(names)?))
        }
        _ => Err(JsonError::Spelling),
    }
}

// What stands behind the one name of an object.
fn marked_level<'a>(
    alloc: Global,
    mark: Option<Mark>,
    json: &'a Json,
) -> Result<Level<'a>, JsonError>
    ensures read { Gives IsUnread level_seen result (marked_level mark (view json.now)) }
    ensures short { IfOk result IsShort }
{
    match (mark, json) {
        (Some(Mark::Undefined), Json::Null) => Ok(Level::Leaf(Value::Undefined)),
        (Some(Mark::Function), Json::Null) => Ok(Level::Leaf(Value::Function)),
        (Some(Mark::Date), Json::Number(number)) => leaf(read_date(number)),
        (Some(Mark::Bytes), Json::String(text)) => leaf(read_bytes(alloc, text.as_str())),
        (Some(mark), Json::Array(list)) => list_level(mark, list),
        _ => Err(JsonError::Spelling),
    }
}

// A list behind the one name of an object.
fn list_level<'a>(mark: Mark, list: &'a Vec<Json>) -> Result<Level<'a>, JsonError>
    ensures read { Gives IsUnread level_seen result
        (marked_level (Some mark) (array (items_view list.now.items))) }
    ensures short { IfOk result IsShort }
{
    let list = short(list)?;
    match mark {
        Mark::Array => Ok(Level::Array(list)),
        Mark::Object => Ok(Level::NamedObject(list)),
        Mark::Map => Ok(Level::Map(list)),
        Mark::Set => Ok(Level::Set(list)),
        _ => Err(JsonError::Spelling),
    }
}
