// The kinds of fields, each with its form as a whole.
ghost use Rattle.std.specs.Prelude.{◌≡◌, [], Some, IfSome, option_and_then};
ghost use Rattle.idb_base.specs.Results.{Gives};
ghost use Rattle.serde_json.specs.View.{view, items_view, members_view};
ghost use Rattle.serde_json.specs.Find.{as_bool};
ghost use Rattle.value_json.specs.Reading.{IsUnread};
ghost use Rattle.script_reading.specs.BlockPlaces.{places_seen};
ghost use Rattle.script_reading.specs.Kinds.{block_in, natural_in, times_in, names_behind, within_limit, names_in, path_in, mode_named, mode_in, durability_named, durability_in, direction_named, direction_in, no_range, range_with, range_members, bounded, range_in};

use crate::block_places::{BlockPlaces, place_of};
use crate::limits::MOST_TIMES;
use clone_values::{PathSpec, Text, Texts};
use idb_base::GREATEST_LENGTH;
use idb_keys::{Direction, Durability, Mode};
use script_exprs::{expr_from_json, name_from_json};
use script_statements::{BlockPlace, RangeExpr};
use serde_json::{Map, Value as Json};
use std::alloc::Global;
use std::mem::replace;
use value_json::JsonError;

/// The place of the block that is named.
pub(crate) fn block_of(
    alloc: Global,
    blocks: &BlockPlaces,
    json: &Json,
) -> Result<BlockPlace, JsonError>
    ensures { Gives IsUnread (λ p. p) result (block_in (places_seen blocks.now) (view json.now)) }
{
    let name = name_from_json(alloc, json)?;
    match place_of(blocks, name.as_str()) {
        Some(place) => Ok(place),
        None => Err(JsonError::Spelling),
    }
}

/// A whole number from 0.
pub(crate) fn number_of(json: &Json) -> Result<u64, JsonError>
    ensures { Gives IsUnread (λ n. n) result (natural_in (view json.now)) }
{
    match json.as_u64() {
        Some(number) => Ok(number),
        None => Err(JsonError::Spelling),
    }
}

/// How often a block is repeated.
pub(crate) fn times_of(json: &Json) -> Result<u64, JsonError>
    ensures { Gives IsUnread (λ n. n) result (times_in (view json.now)) }
{
    let times = number_of(json)?;
    if times > MOST_TIMES {
        return Err(JsonError::Spelling);
    }
    Ok(times)
}

// The names of a list.
fn names_of(alloc: Global, list: &Vec<Json>) -> Result<Vec<Text>, JsonError>
    ensures { Gives IsUnread (λ names. names.items) result
        (names_behind [] (items_view list.now.items)) }
{
    let mut names = Vec::new(alloc);
    for name in list {
        names.push(name_from_json(alloc, name)?)?;
    }
    Ok(names)
}

fn few_names(names: Vec<Text>) -> Result<Texts, JsonError>
    ensures { Gives IsUnread (λ ts. ts) result (within_limit names.items) }
{
    if names.len() > GREATEST_LENGTH {
        return Err(JsonError::Spelling);
    }
    Ok(Texts::from_vec(names))
}

/// A list of names.
pub(crate) fn scope_of(alloc: Global, json: &Json) -> Result<Texts, JsonError>
    ensures { Gives IsUnread (λ ts. ts) result (names_in (view json.now)) }
{
    match json {
        Json::Array(list) => few_names(names_of(alloc, list)?),
        _ => Err(JsonError::Spelling),
    }
}

/// One string, or a list of strings.
pub(crate) fn path_spec_of(alloc: Global, json: &Json) -> Result<PathSpec, JsonError>
    ensures { Gives IsUnread (λ p. p) result (path_in (view json.now)) }
{
    match json {
        Json::Array(list) => {
            let names = few_names(names_of(alloc, list)?)?;
            Ok(PathSpec::Many(names))
        }
        Json::String(_) => {
            let name = name_from_json(alloc, json)?;
            Ok(PathSpec::One(name))
        }
        _ => Err(JsonError::Spelling),
    }
}

fn mode_named(word: &str) -> Option<Mode>
    ensures { result ≡ mode_named word.now }
{
    if word == "readonly" {
        Some(Mode::ReadOnly)
    } else if word == "readwrite" {
        Some(Mode::ReadWrite)
    } else if word == "versionchange" {
        Some(Mode::VersionChange)
    } else {
        None
    }
}

/// The word of a mode.
pub(crate) fn mode_of(json: &Json) -> Result<Mode, JsonError>
    ensures { Gives IsUnread (λ m. m) result (mode_in (view json.now)) }
{
    let Some(word) = json.as_str() else {
        return Err(JsonError::Spelling);
    };
    match mode_named(word) {
        Some(mode) => Ok(mode),
        None => Err(JsonError::Spelling),
    }
}

fn durability_named(word: &str) -> Option<Durability>
    ensures { result ≡ durability_named word.now }
{
    if word == "strict" {
        Some(Durability::Strict)
    } else if word == "relaxed" {
        Some(Durability::Relaxed)
    } else if word == "default" {
        Some(Durability::Relaxed)
    } else {
        None
    }
}

/// The word of a durability.
pub(crate) fn durability_of(json: &Json) -> Result<Durability, JsonError>
    ensures { Gives IsUnread (λ d. d) result (durability_in (view json.now)) }
{
    let Some(word) = json.as_str() else {
        return Err(JsonError::Spelling);
    };
    match durability_named(word) {
        Some(durability) => Ok(durability),
        None => Err(JsonError::Spelling),
    }
}

fn direction_named(word: &str) -> Option<Direction>
    ensures { result ≡ direction_named word.now }
{
    if word == "next" {
        Some(Direction::Next)
    } else if word == "nextunique" {
        Some(Direction::NextUnique)
    } else if word == "prev" {
        Some(Direction::Prev)
    } else if word == "prevunique" {
        Some(Direction::PrevUnique)
    } else {
        None
    }
}

/// The word of a direction.
pub(crate) fn direction_of(json: &Json) -> Result<Direction, JsonError>
    ensures { Gives IsUnread (λ d. d) result (direction_in (view json.now)) }
{
    let Some(word) = json.as_str() else {
        return Err(JsonError::Spelling);
    };
    match direction_named(word) {
        Some(direction) => Ok(direction),
        None => Err(JsonError::Spelling),
    }
}

/// True or false.
pub(crate) fn flag_of(json: &Json) -> Result<bool, JsonError>
    ensures { Gives IsUnread (λ b. b) result (as_bool (view json.now)) }
{
    match json.as_bool() {
        Some(flag) => Ok(flag),
        None => Err(JsonError::Spelling),
    }
}

// A range with one member more.
#[tactic(auto, unfolding(crate::specs::Kinds::range_with))]
fn read_bound(
    alloc: Global,
    name: &str,
    json: &Json,
    range: &mut RangeExpr,
) -> Result<(), JsonError>
    ensures { Gives IsUnread (λ _. range.new) result (range_with name.now (view json.now) range.old) }
{
    if name == "lower" {
        let bound = expr_from_json(alloc, json)?;
        drop(replace(&mut range.lower, Some(bound)));
    } else if name == "upper" {
        let bound = expr_from_json(alloc, json)?;
        drop(replace(&mut range.upper, Some(bound)));
    } else if name == "lowerOpen" {
        range.lower_open = flag_of(json)?;
    } else if name == "upperOpen" {
        range.upper_open = flag_of(json)?;
    } else {
        return Err(JsonError::Spelling);
    }
    Ok(())
}

// What the members say.
fn read_bounds(
    alloc: Global,
    members: &Map<String, Json>,
    range: &mut RangeExpr,
) -> Result<(), JsonError>
    ensures { Gives IsUnread (λ _. range.new) result
        (range_members range.old (members_view members.now.entries)) }
{
    for (name, json) in members.iter() {
        read_bound(alloc, name.as_str(), json, range)?;
    }
    Ok(())
}

// The range, where it has a bound.
fn bounded(range: RangeExpr) -> Result<RangeExpr, JsonError>
    ensures { Gives IsUnread (λ r. r) result (bounded range) }
{
    if range.lower.is_some() || range.upper.is_some() {
        Ok(range)
    } else {
        drop(range);
        Err(JsonError::Spelling)
    }
}

// The range of these members.
fn range_from(alloc: Global, members: &Map<String, Json>) -> Result<RangeExpr, JsonError>
    ensures { Gives IsUnread (λ r. r) result
        (option_and_then bounded (range_members no_range (members_view members.now.entries))) }
{
    let mut range = RangeExpr {
        lower: None,
        upper: None,
        lower_open: false,
        upper_open: false,
    };
    match read_bounds(alloc, members, &mut range) {
        Ok(()) => bounded(range),
        Err(e) => {
            drop(range);
            Err(e)
        }
    }
}

/// A range with one bound or both.
#[tactic(auto, unfolding(crate::specs::Kinds::range_in))]
pub(crate) fn range_of(alloc: Global, json: &Json) -> Result<RangeExpr, JsonError>
    ensures { Gives IsUnread (λ r. r) result (range_in (view json.now)) }
{
    match json {
        Json::Object(members) => range_from(alloc, members),
        _ => Err(JsonError::Spelling),
    }
}
