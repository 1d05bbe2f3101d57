// Copies, clones, depth and sameness of values (HTML, StructuredSerializeForStorage).
ghost use Rattle.std.specs.Prelude.{◌≡◌, ℕ, ◌≤◌, ◌↔◌, min, IsTrue, IfOk, OnOk, IsErrOf};
ghost use Rattle.value_trees.specs.Tree.{trees_of, members_of, pairs_of};
ghost use Rattle.clone_values.specs.View.{tree_of};
ghost use Rattle.value_trees.specs.Values.{depth_of, trees_depth, members_depth, pairs_depth, IsCloneable};
ghost use Rattle.value_trees.specs.Cloneable.{is_cloneable_within, are_cloneable_within, members_cloneable_within, pairs_cloneable_within};

use crate::copies::copy_value;
use crate::value_types::{Items, Pairs, Props, Value};
use std::alloc::Global;
use value_trees::{GREATEST_DEPTH, NoMemory};

/// Why a value was not cloned.
#[derive(Clone, Copy, Debug, PartialEq, Eq)]
pub enum CloneError {
    /// A Function is in the value, or it is deeper than 100.
    DataClone,
    NoMemory,
}

impl From<NoMemory> for CloneError {
    ghost use Rattle.clone_values.specs.declared.cloning.CloneError.TheVariants as error;

    ghost from_gives = { λ _ e. e ≡ error.NoMemory };

    fn from(_e: NoMemory) -> CloneError {
        CloneError::NoMemory
    }
}

/// How deep the value is: 1 without members, else 1 more than its deepest member; u32::MAX from there on.
/// It takes no memory.
#[cycle(depth)]
#[tactic(auto, using(crate::specs::Falls::smaller_tree, crate::specs::Falls::smaller_member, crate::specs::Falls::smaller_pair))]
pub fn depth(v: &Value) -> u32
    ensures { result ≡ min (depth_of (tree_of v.now)) 4294967295 }
{
    match v {
        Value::Array(items, props) => items_depth(items).max(props_depth(props)).saturating_add(1),
        Value::Object(props) => props_depth(props).saturating_add(1),
        Value::Map(pairs) => pairs_depth(pairs).saturating_add(1),
        Value::Set(items) => items_depth(items).saturating_add(1),
        _ => 1,
    }
}

#[cycle(depth)]
#[tactic(auto, using(crate::specs::Falls::smaller_tree))]
fn items_depth(items: &Items) -> u32
    ensures { result ≡ min (trees_depth (trees_of items.now)) 4294967295 }
{
    let mut deepest = 0;
    for place in 0..items.len() {
        if let Some(item) = items.at(place) {
            deepest = depth(item).max(deepest);
        }
    }
    deepest
}

#[cycle(depth)]
#[tactic(auto, using(crate::specs::Falls::smaller_member))]
fn props_depth(props: &Props) -> u32
    ensures { result ≡ min (members_depth (members_of props.now)) 4294967295 }
{
    let mut deepest = 0;
    for place in 0..props.len() {
        if let Some(prop) = props.at(place) {
            deepest = depth(&prop.value).max(deepest);
        }
    }
    deepest
}

#[cycle(depth)]
#[tactic(auto, using(crate::specs::Falls::smaller_pair))]
fn pairs_depth(pairs: &Pairs) -> u32
    ensures { result ≡ min (pairs_depth (pairs_of pairs.now)) 4294967295 }
{
    let mut deepest = 0;
    for place in 0..pairs.len() {
        if let Some(pair) = pairs.at(place) {
            deepest = depth(&pair.key).max(depth(&pair.value)).max(deepest);
        }
    }
    deepest
}

/// Whether the value can be cloned (HTML, "StructuredSerializeForStorage"). One walk, no deeper than what can be cloned;
/// it takes no memory.
pub fn is_cloneable(v: &Value) -> bool
    ensures { IsTrue result ↔ IsCloneable (tree_of v.now) }
{
    is_within(v, GREATEST_DEPTH)
}

#[cycle(cloneable)]
#[tactic(auto, using(crate::specs::Falls::smaller_tree))]
fn is_within(v: &Value, levels: usize) -> bool
    ensures { result ≡ is_cloneable_within levels (tree_of v.now) }
{
    match v {
        Value::Array(items, props) => {
            levels > 0 && items_within(items, levels - 1) && props_within(props, levels - 1)
        }
        Value::Object(props) => levels > 0 && props_within(props, levels - 1),
        Value::Map(pairs) => levels > 0 && pairs_within(pairs, levels - 1),
        Value::Set(items) => levels > 0 && items_within(items, levels - 1),
        Value::Function => false,
        _ => levels > 0,
    }
}

#[cycle(cloneable)]
#[tactic(auto, using(crate::specs::Falls::smaller_tree))]
fn items_within(items: &Items, levels: usize) -> bool
    ensures { result ≡ are_cloneable_within levels (trees_of items.now) }
{
    for place in 0..items.len() {
        if let Some(item) = items.at(place) {
            if !is_within(item, levels) {
                return false;
            }
        }
    }
    true
}

#[cycle(cloneable)]
fn props_within(props: &Props, levels: usize) -> bool
    ensures { result ≡ members_cloneable_within levels (members_of props.now) }
{
    for place in 0..props.len() {
        if let Some(prop) = props.at(place) {
            if !is_within(&prop.value, levels) {
                return false;
            }
        }
    }
    true
}

#[cycle(cloneable)]
fn pairs_within(pairs: &Pairs, levels: usize) -> bool
    ensures { result ≡ pairs_cloneable_within levels (pairs_of pairs.now) }
{
    for place in 0..pairs.len() {
        if let Some(pair) = pairs.at(place) {
            if !(is_within(&pair.key, levels) && is_within(&pair.value, levels)) {
                return false;
            }
        }
    }
    true
}

/// An equal value, where it can be cloned (HTML, StructuredSerializeForStorage and StructuredDeserialize).
/// The refusal comes before any memory is asked for.
pub fn clone_value(alloc: Global, v: &Value) -> Result<Value, CloneError>
    ensures cloned { IfOk result (λ r. r ≡ v.now) }
    ensures cloneable { OnOk result (IsCloneable (tree_of v.now)) }
    ensures refused { IsErrOf result CloneError.DataClone ↔ ¬ (IsCloneable (tree_of v.now)) }
{
    if !is_cloneable(v) {
        return Err(CloneError::DataClone);
    }
    Ok(copy_value(alloc, v)?)
}
