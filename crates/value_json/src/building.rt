// Sets, Maps and named properties out of what a list gave.
ghost use Rattle.std.specs.Prelude.{◌≡◌, [], map, length, Some, None, option_and_then, IfOk};
ghost use Rattle.idb_base.specs.Lists.{IsWithinLimit};
ghost use Rattle.clone_values.specs.Tree.{Tree};
ghost use Rattle.clone_values.specs.View.{tree_of, prop_of, pair_of};
ghost use Rattle.idb_base.specs.Results.{Gives};
ghost use Rattle.value_json.specs.Reading.{IsUnread, set_of, map_of, each_named, named_one, named_apart};

use crate::JsonError;
use clone_values::{Items, Pair, Pairs, Prop, Props, Text, Value, is_array_name};
use idb_base::NoMemory;
use std::alloc::Global;
use value_members::{MapBuilder, SetBuilder};

/// The members of a Set.
#[tactic(auto, using(clone_values::proofs::Laws::put_longer))]
pub(crate) fn set_from(alloc: Global, values: Vec<Value>) -> Result<Items, NoMemory>
    requires { IsWithinLimit values.items }
    ensures { IfOk result (λ once. once ≡ set_of (map tree_of values.items)) }
{
    let mut once = SetBuilder::new(alloc);
    for value in values {
        once.put(value)?;
    }
    once.finish()
}

/// The entries of a Map.
#[tactic(auto, using(clone_values::proofs::Laws::pair_longer))]
pub(crate) fn map_from(alloc: Global, pairs: Vec<Pair>) -> Result<Pairs, NoMemory>
    requires { IsWithinLimit pairs.items }
    ensures { IfOk result (λ once. once ≡ map_of (map pair_of pairs.items)) }
{
    let mut once = MapBuilder::new(alloc);
    for pair in pairs {
        once.put(pair.key, pair.value)?;
    }
    once.finish()
}

/// The named properties of an Array or an Object; no name stands twice.
pub(crate) fn named_from(
    alloc: Global,
    pairs: Vec<Pair>,
    of_array: bool,
) -> Result<Props, JsonError>
    requires { IsWithinLimit pairs.items }
    ensures { Gives IsUnread (λ ms. ms) result
        (option_and_then named_apart (each_named of_array (map pair_of pairs.items))) }
{
    let listed = each_named(alloc, pairs, of_array)?;
    let count = listed.len();
    let props = Props::from_unsorted(alloc, listed)?;
    if props.len() == count {
        Ok(props)
    } else {
        Err(JsonError::Spelling)
    }
}

fn each_named(alloc: Global, pairs: Vec<Pair>, of_array: bool) -> Result<Vec<Prop>, JsonError>
    ensures read { Gives IsUnread
        (λ ps. map prop_of ps.items) result (each_named of_array (map pair_of pairs.items)) }
    ensures count { IfOk result (λ ps. length ps.items ≡ length pairs.items) }
{
    let mut props = Vec::new(alloc);
    for pair in pairs {
        props.push(named_one(pair.key, pair.value, of_array)?)?;
    }
    Ok(props)
}

// A property whose name is a text that is allowed.
fn named_one(key: Value, value: Value, of_array: bool) -> Result<Prop, JsonError>
    ensures { Gives IsUnread prop_of result (named_one of_array (tree_of key) (tree_of value)) }
{
    let name = name_in(key, of_array)?;
    Ok(Prop { name, value })
}

// A text that is allowed as a name, of whatever value.
fn name_in(key: Value, of_array: bool) -> Result<Text, JsonError>
    ensures { (v : Tree) → Gives IsUnread (λ n. (n, v)) result (named_one of_array (tree_of key) v) }
{
    let Value::Text(name) = key else {
        return Err(JsonError::Spelling);
    };
    if of_array && !is_array_name(name.as_str()) {
        return Err(JsonError::Spelling);
    }
    Ok(name)
}
