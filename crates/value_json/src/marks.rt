// The member names that begin with `$`.
ghost use Rattle.std.specs.Prelude.{◌≡◌};
ghost use Rattle.serde_json.specs.View.{members_view};
ghost use Rattle.value_json.specs.Marks.{mark_in, is_full_array, begins_marked, any_marked};

use serde_json::{Map, Value as Json};

/// The kind of value that the one member of an object spells.
#[derive(Clone, Copy, Debug, PartialEq, Eq)]
pub(crate) enum Mark {
    Undefined,
    Function,
    Date,
    Bytes,
    Array,
    Object,
    Map,
    Set,
}

pub(crate) fn mark_of(name: &str) -> Option<Mark>
    ensures { result ≡ mark_in name.now }
{
    if name == "$undefined" {
        Some(Mark::Undefined)
    } else if name == "$function" {
        Some(Mark::Function)
    } else if name == "$date" {
        Some(Mark::Date)
    } else if name == "$bytes" {
        Some(Mark::Bytes)
    } else if name == "$array" {
        Some(Mark::Array)
    } else if name == "$object" {
        Some(Mark::Object)
    } else if name == "$map" {
        Some(Mark::Map)
    } else if name == "$set" {
        Some(Mark::Set)
    } else {
        None
    }
}

pub(crate) fn is_full_array(name: &str, other: &str) -> bool
    ensures { result ≡ is_full_array name.now other.now }
{
    name == "$array" && other == "$named"
}

pub(crate) fn begins_marked(name: &str) -> bool
    ensures { result ≡ begins_marked name.now }
{
    match name.as_bytes().first() {
        Some(b) => *b == b'$',
        None => false,
    }
}

pub(crate) fn any_marked(members: &Map<String, Json>) -> bool
    ensures { result ≡ any_marked (members_view members.now.entries) }
{
    for (name, _member) in members.iter() {
        if begins_marked(name.as_str()) {
            return true;
        }
    }
    false
}
