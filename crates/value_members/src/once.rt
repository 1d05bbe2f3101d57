// Whether members are once, told by a set of those that were seen.
ghost use Rattle.std.specs.Prelude.{◌≡◌, ◌||◌, not, map, IfOk, OnOk};
ghost use Rattle.clone_values.specs.Tree.{Tree};
ghost use Rattle.clone_values.specs.View.{tree_of};
ghost use Rattle.clone_values.specs.Sameness.{repeats};
ghost use Rattle.clone_values.specs.WellFormed.{are_once};
ghost use Rattle.value_members.specs.Primitives.{has};
ghost use Rattle.value_members.specs.Shown.{mark_shown};

use crate::primitives::{Primitive, primitive_of};
use clone_values::{Items, Pairs, Value};
use idb_base::NoMemory;
use std::alloc::Global;
use std::collections::BTreeSet;

/// Whether no primitive stands twice among the items. It takes the time of a sort.
pub fn are_once(alloc: Global, items: &Items) -> Result<bool, NoMemory>
    ensures { IfOk result (λ b. b ≡ are_once items.now) }
{
    let mut seen = BTreeSet::new(alloc);
    for place in 0..items.len() {
        if let Some(item) = items.at(place) {
            if !is_new(&mut seen, item)? {
                return Ok(false);
            }
        }
    }
    Ok(true)
}

/// Whether no primitive is the key of two entries. It takes the time of a sort.
pub fn keys_are_once(alloc: Global, pairs: &Pairs) -> Result<bool, NoMemory>
    ensures { IfOk result (λ b. b ≡ are_once (map (λ p. p.0) pairs.now)) }
{
    let mut seen = BTreeSet::new(alloc);
    for place in 0..pairs.len() {
        if let Some(pair) = pairs.at(place) {
            if !is_new(&mut seen, &pair.key)? {
                return Ok(false);
            }
        }
    }
    Ok(true)
}

/// Notes a value that is a primitive, and answers whether it was new; one that isn't a primitive is always new.
fn is_new<'a>(seen: &mut BTreeSet<Primitive<'a>>, value: &'a Value) -> Result<bool, NoMemory>
    ensures new { IfOk result (λ b. b ≡ not (has mark_shown seen.old.keys (tree_of value.now))) }
    ensures noted { OnOk result ((t : Tree) → has mark_shown seen.new.keys t
        ≡ (has mark_shown seen.old.keys t || repeats (tree_of value.now) t)) }
{
    match primitive_of(value) {
        Some(primitive) => Ok(seen.insert(primitive)?),
        None => Ok(true),
    }
}
