// The numbers of nodes.
ghost use Rattle.std.specs.Prelude.{◌≡◌, ◌+◌, IfOk};
ghost use Rattle.serde_json.specs.View.{view, items_view, members_view};
ghost use Rattle.script_reading.specs.Places.{behind, behind_items, behind_members};

use idb_base::NoMemory;
use serde_json::{Map, Value as Json};

/// The next number. A document of more than 2^64 nodes wants more memory than there is.
pub(crate) fn next(n: u64) -> Result<u64, NoMemory>
    ensures { IfOk result (λ m. m ≡ n + 1) }
{
    match n.checked_add(1) {
        Some(m) => Ok(m),
        None => Err(NoMemory),
    }
}

/// The number of the next node behind a document that has this number.
#[cycle(behind)]
pub(crate) fn behind(n: u64, json: &Json) -> Result<u64, NoMemory>
    ensures { IfOk result (λ m. m ≡ behind n (view json.now)) }
{
    let first = next(n)?;
    match json {
        Json::Array(list) => behind_list(first, list),
        Json::Object(members) => behind_members(first, members),
        _ => Ok(first),
    }
}

// The number of the next node behind the items of a list, of which the first has this number.
#[cycle(behind)]
fn behind_list(n: u64, list: &Vec<Json>) -> Result<u64, NoMemory>
    ensures { IfOk result (λ m. m ≡ behind_items n (items_view list.now.items)) }
{
    let mut m = n;
    for item in list {
        m = behind(m, item)?;
    }
    Ok(m)
}

// And behind the members of an object.
#[cycle(behind)]
fn behind_members(n: u64, members: &Map<String, Json>) -> Result<u64, NoMemory>
    ensures { IfOk result (λ m. m ≡ behind_members n (members_view members.now.entries)) }
{
    let mut m = n;
    for (_name, member) in members.iter() {
        m = behind(m, member)?;
    }
    Ok(m)
}
