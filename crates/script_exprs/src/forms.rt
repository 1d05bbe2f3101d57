// Which form of expression a document spells, and which documents its parts are.
ghost use Rattle.std.specs.Prelude.{◌≡◌, [], ◌∷◌, ◌++◌, map, Bool, true, false, None, Some, option_map, IfOk, IsTrue, if◌then◌else◌};
ghost use Rattle.idb_base.specs.Results.{Gives};
ghost use Rattle.idb_base.specs.Lists.{IsWithinLimit};
ghost use Rattle.clone_values.specs.Tree.{undefined};
ghost use Rattle.clone_values.specs.View.{prop_of};
ghost use Rattle.clone_values.specs.WellFormed.{is_within_limit};
ghost use Rattle.serde_json.specs.View.{view, items_view, members_view};
ghost use Rattle.value_json.specs.Reading.{IsUnread};
ghost use Rattle.value_json.specs.Levels.{level_seen, items_level, named_items_level, members_level, named_members_level, entries_level, set_level};
ghost use Rattle.script_exprs.specs.Forms.{two_in, three_in, name_in, formula_named, formula_of, path_of_one, formula_in, listed_behind, entries_behind, property_name, named_behind, members_behind, are_apart, apart_as, level_parts, spelled_in};
ghost use Rattle.script_exprs.specs.Documents.{datas_of, form_seen, named_seen};
ghost use Rattle.script_exprs.specs.declared.forms.Formula.TheVariants as formula;

use crate::expr::{ExprForm, Literal};
use clone_values::{PathSpec, Prop, Props, Text, Value, is_array_name};
use idb_base::{GREATEST_LENGTH, Listed, NoMemory};
use path_grammar::{KeyPath, PathError};
use serde_json::{Map, Value as Json};
use std::alloc::Global;
use value_json::{JsonError, Level, level_of};

/// The forms that are no values, which the one member of an object names.
#[derive(Clone, Copy, Debug, PartialEq, Eq)]
pub(crate) enum Formula {
    Var,
    Plus,
    Prop,
    With,
    Same,
}

/// The form of a document and the documents of its parts.
pub(crate) fn spelled<'a>(
    alloc: Global,
    json: &'a Json,
) -> Result<(ExprForm, Vec<&'a Json>), JsonError>
    ensures { Gives IsUnread form_seen result (spelled_in (view json.now)) }
{
    match formula_of(json) {
        Some((formula, of)) => formula_parts(alloc, formula, of),
        None => level_parts(alloc, level_of(alloc, json)?),
    }
}

// What the one member of an object stands for, and what stands there.
fn formula_of(json: &Json) -> Option<(Formula, &Json)>
    ensures { option_map (λ p. (p.0, view p.1.now)) result ≡ formula_of (view json.now) }
{
    match json {
        Json::Object(members) => {
            let mut each = members.iter();
            let (name, member) = each.next()?;
            if each.next().is_some() {
                return None;
            }
            let formula = formula_named(name.as_str())?;
            Some((formula, member))
        }
        _ => None,
    }
}

fn formula_named(name: &str) -> Option<Formula>
    ensures { result ≡ formula_named name.now }
{
    if name == "$var" {
        Some(Formula::Var)
    } else if name == "$plus" {
        Some(Formula::Plus)
    } else if name == "$prop" {
        Some(Formula::Prop)
    } else if name == "$with" {
        Some(Formula::With)
    } else if name == "$same" {
        Some(Formula::Same)
    } else {
        None
    }
}

fn formula_parts<'a>(
    alloc: Global,
    formula: Formula,
    json: &'a Json,
) -> Result<(ExprForm, Vec<&'a Json>), JsonError>
    ensures { Gives IsUnread form_seen result (formula_in formula (view json.now)) }
{
    match formula {
        Formula::Var => var_parts(alloc, json),
        Formula::Plus => plus_parts(alloc, json),
        Formula::Prop => prop_parts(alloc, json),
        Formula::With => with_parts(alloc, json),
        Formula::Same => same_parts(alloc, json),
    }
}

fn var_parts<'a>(alloc: Global, json: &'a Json) -> Result<(ExprForm, Vec<&'a Json>), JsonError>
    ensures { Gives IsUnread form_seen result (formula_in formula.Var (view json.now)) }
{
    let name = name_from_json(alloc, json)?;
    Ok((ExprForm::Var(name), Vec::new(alloc)))
}

fn plus_parts<'a>(alloc: Global, json: &'a Json) -> Result<(ExprForm, Vec<&'a Json>), JsonError>
    ensures { Gives IsUnread form_seen result (formula_in formula.Plus (view json.now)) }
{
    let (first, second) = two_of(json)?;
    let parts = list_of_two(alloc, first, second)?;
    Ok((ExprForm::Plus, parts))
}

fn prop_parts<'a>(alloc: Global, json: &'a Json) -> Result<(ExprForm, Vec<&'a Json>), JsonError>
    ensures { Gives IsUnread form_seen result (formula_in formula.Prop (view json.now)) }
{
    let (of, path) = two_of(json)?;
    let mut parts = Vec::new(alloc);
    parts.push(of)?;
    let name = name_from_json(alloc, path)?;
    let form = path_of(name)?;
    Ok((form, parts))
}

fn with_parts<'a>(alloc: Global, json: &'a Json) -> Result<(ExprForm, Vec<&'a Json>), JsonError>
    ensures { Gives IsUnread form_seen result (formula_in formula.With (view json.now)) }
{
    let (of, name, value) = three_of(json)?;
    let parts = list_of_two(alloc, of, value)?;
    let name = name_from_json(alloc, name)?;
    Ok((ExprForm::With(name), parts))
}

fn same_parts<'a>(alloc: Global, json: &'a Json) -> Result<(ExprForm, Vec<&'a Json>), JsonError>
    ensures { Gives IsUnread form_seen result (formula_in formula.Same (view json.now)) }
{
    let (first, second) = two_of(json)?;
    let parts = list_of_two(alloc, first, second)?;
    Ok((ExprForm::Same, parts))
}

fn list_of_two<'a>(
    alloc: Global,
    first: &'a Json,
    second: &'a Json,
) -> Result<Vec<&'a Json>, NoMemory>
    ensures { IfOk result (λ parts. datas_of parts.items ≡ view first.now ∷ view second.now ∷ []) }
{
    let mut parts = Vec::new(alloc);
    parts.push(first)?;
    parts.push(second)?;
    Ok(parts)
}

// What a list of two holds.
fn two_of(json: &Json) -> Result<(&Json, &Json), JsonError>
    ensures { Gives IsUnread (λ p. (view p.0.now, view p.1.now)) result (two_in (view json.now)) }
{
    let Json::Array(list) = json else {
        return Err(JsonError::Spelling);
    };
    let mut each = list.iter();
    let Some(first) = each.next() else {
        return Err(JsonError::Spelling);
    };
    let Some(second) = each.next() else {
        return Err(JsonError::Spelling);
    };
    let None = each.next() else {
        return Err(JsonError::Spelling);
    };
    Ok((first, second))
}

// What a list of three holds.
fn three_of(json: &Json) -> Result<(&Json, &Json, &Json), JsonError>
    ensures { Gives IsUnread (λ p. (view p.0.now, view p.1.now, view p.2.now)) result
        (three_in (view json.now)) }
{
    let Json::Array(list) = json else {
        return Err(JsonError::Spelling);
    };
    let mut each = list.iter();
    let Some(first) = each.next() else {
        return Err(JsonError::Spelling);
    };
    let Some(second) = each.next() else {
        return Err(JsonError::Spelling);
    };
    let Some(third) = each.next() else {
        return Err(JsonError::Spelling);
    };
    let None = each.next() else {
        return Err(JsonError::Spelling);
    };
    Ok((first, second, third))
}

// Whether a text of this length is stored.
fn is_short(s: &str) -> bool
    ensures test { result ≡ is_within_limit s.now }
    ensures short { IsTrue result → IsWithinLimit s.now }
{
    s.as_bytes().len() <= GREATEST_LENGTH
}

/// A string that is no longer than a text may be.
pub fn name_from_json(alloc: Global, json: &Json) -> Result<Text, JsonError>
    ensures { Gives IsUnread (λ t. t) result (name_in (view json.now)) }
{
    match json {
        Json::String(name) => text_of(alloc, name.as_str()),
        _ => Err(JsonError::Spelling),
    }
}

fn text_of(alloc: Global, name: &str) -> Result<Text, JsonError>
    ensures { Gives IsUnread (λ t. t) result (if is_within_limit name.now then Some name.now else None) }
{
    if !is_short(name) {
        return Err(JsonError::Spelling);
    }
    Ok(Text::copy_of(alloc, name)?)
}

// A property of one valid path string.
fn path_of(path: Text) -> Result<ExprForm, JsonError>
    ensures { Gives IsUnread (λ f. f) result (path_of_one path) }
{
    match KeyPath::parse(PathSpec::One(path)) {
        Ok(path) => Ok(ExprForm::Prop(path)),
        Err(PathError::Syntax) => Err(JsonError::Spelling),
        Err(PathError::NoMemory) => Err(JsonError::NoMemory),
    }
}

// The form of a value, by its level.
fn level_parts<'a>(alloc: Global, level: Level<'a>) -> Result<(ExprForm, Vec<&'a Json>), JsonError>
    ensures { Gives IsUnread form_seen result (level_parts (level_seen level.entry)) }
{
    match level {
        Level::Leaf(value) => Ok((ExprForm::Literal(Literal::new(value)), Vec::new(alloc))),
        Level::Array(list) => array_parts(alloc, list),
        Level::NamedArray(list, names) => named_array_parts(alloc, list, names),
        Level::Object(members) => object_parts(alloc, members),
        Level::NamedObject(names) => named_object_parts(alloc, names),
        Level::Map(list) => map_parts(alloc, list),
        Level::Set(list) => set_parts(alloc, list),
    }
}

fn array_parts<'a>(
    alloc: Global,
    list: &'a Vec<Json>,
) -> Result<(ExprForm, Vec<&'a Json>), JsonError>
    ensures { Gives IsUnread form_seen result (level_parts (items_level (items_view list.now.items))) }
{
    let parts = listed_behind(Vec::new(alloc), list)?;
    Ok((ExprForm::Array(Listed::new(alloc)), parts))
}

fn named_array_parts<'a>(
    alloc: Global,
    list: &'a Vec<Json>,
    names: &'a Vec<Json>,
) -> Result<(ExprForm, Vec<&'a Json>), JsonError>
    ensures { Gives IsUnread form_seen result
        (level_parts (named_items_level (items_view list.now.items) (items_view names.now.items))) }
{
    let items = listed_behind(Vec::new(alloc), list)?;
    let (names, parts) = named_behind(alloc, true, items, names)?;
    Ok((ExprForm::Array(names_apart(alloc, names)?), parts))
}

fn object_parts<'a>(
    alloc: Global,
    members: &'a Map<String, Json>,
) -> Result<(ExprForm, Vec<&'a Json>), JsonError>
    ensures { Gives IsUnread form_seen result
        (level_parts (members_level (members_view members.now.entries))) }
{
    let (names, parts) = members_behind(alloc, members)?;
    Ok((ExprForm::Object(names), parts))
}

fn named_object_parts<'a>(
    alloc: Global,
    names: &'a Vec<Json>,
) -> Result<(ExprForm, Vec<&'a Json>), JsonError>
    ensures { Gives IsUnread form_seen result
        (level_parts (named_members_level (items_view names.now.items))) }
{
    let (names, parts) = named_behind(alloc, false, Vec::new(alloc), names)?;
    Ok((ExprForm::Object(names_apart(alloc, names)?), parts))
}

fn map_parts<'a>(alloc: Global, list: &'a Vec<Json>) -> Result<(ExprForm, Vec<&'a Json>), JsonError>
    ensures { Gives IsUnread form_seen result (level_parts (entries_level (items_view list.now.items))) }
{
    let parts = entries_behind(Vec::new(alloc), list)?;
    Ok((ExprForm::Map, parts))
}

fn set_parts<'a>(alloc: Global, list: &'a Vec<Json>) -> Result<(ExprForm, Vec<&'a Json>), JsonError>
    ensures { Gives IsUnread form_seen result (level_parts (set_level (items_view list.now.items))) }
{
    let parts = listed_behind(Vec::new(alloc), list)?;
    Ok((ExprForm::Set, parts))
}

// The documents of a list, behind those before it.
fn listed_behind<'a>(before: Vec<&'a Json>, list: &'a Vec<Json>) -> Result<Vec<&'a Json>, NoMemory>
    ensures { IfOk result (λ parts. datas_of parts.items
        ≡ listed_behind (datas_of before.entry.items) (items_view list.now.items)) }
{
    let mut parts = before;
    for part in list {
        parts.push(part)?;
    }
    Ok(parts)
}

// The keys and values of a list of lists of two, in turn.
fn entries_behind<'a>(
    before: Vec<&'a Json>,
    list: &'a Vec<Json>,
) -> Result<Vec<&'a Json>, JsonError>
    ensures { Gives IsUnread (λ parts. datas_of parts.items) result
        (entries_behind (datas_of before.entry.items) (items_view list.now.items)) }
{
    let mut parts = before;
    for entry in list {
        let (key, value) = two_of(entry)?;
        parts.push(key)?;
        parts.push(value)?;
    }
    Ok(parts)
}

// A name that a property may have.
fn property_name(alloc: Global, of_array: bool, json: &Json) -> Result<Text, JsonError>
    ensures { Gives IsUnread (λ t. t) result (property_name of_array (view json.now)) }
{
    let name = name_from_json(alloc, json)?;
    if of_array && !is_array_name(name.as_str()) {
        return Err(JsonError::Spelling);
    }
    Ok(name)
}

// The names of a list of lists of a name and a document; the documents stand behind those before them.
fn named_behind<'a>(
    alloc: Global,
    of_array: bool,
    before: Vec<&'a Json>,
    list: &'a Vec<Json>,
) -> Result<(Listed<Text>, Vec<&'a Json>), JsonError>
    ensures { Gives IsUnread named_seen result
        (named_behind of_array ([], datas_of before.entry.items) (items_view list.now.items)) }
{
    let mut names = Listed::new(alloc);
    let mut parts = before;
    for entry in list {
        let (name, part) = two_of(entry)?;
        names.push(property_name(alloc, of_array, name)?)?;
        parts.push(part)?;
    }
    Ok((names, parts))
}

// The names of an object's members, and their documents.
fn members_behind<'a>(
    alloc: Global,
    members: &'a Map<String, Json>,
) -> Result<(Listed<Text>, Vec<&'a Json>), JsonError>
    ensures { Gives IsUnread named_seen result
        (members_behind ([], []) (members_view members.now.entries)) }
{
    let mut names = Listed::new(alloc);
    let mut parts = Vec::new(alloc);
    for (name, part) in members.iter() {
        names.push(text_of(alloc, name.as_str())?)?;
        parts.push(part)?;
    }
    Ok((names, parts))
}

// These names, where none stands twice.
fn names_apart(alloc: Global, names: Listed<Text>) -> Result<Listed<Text>, JsonError>
    ensures { Gives IsUnread (λ ns. ns) result (if are_apart names then Some names else None) }
{
    if names.len() > GREATEST_LENGTH {
        return Err(JsonError::Spelling);
    }
    let props = Props::from_unsorted(alloc, undefined_under(alloc, names.as_slice())?)?;
    if props.len() == names.len() {
        Ok(names)
    } else {
        Err(JsonError::Spelling)
    }
}

// Properties of these names.
fn undefined_under(alloc: Global, names: &[Text]) -> Result<Vec<Prop>, NoMemory>
    ensures { IfOk result (λ props. map prop_of props.items ≡ map (λ n. (n, undefined)) names.now) }
{
    let mut props = Vec::new(alloc);
    for name in names {
        props.push(Prop {
            name: name.copy(alloc)?,
            value: Value::Undefined,
        })?;
    }
    Ok(props)
}
