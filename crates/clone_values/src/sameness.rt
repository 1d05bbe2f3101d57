// Whether two values are the same tree.
ghost use Rattle.std.specs.Prelude.{◌≡◌, ◌↔◌, IsTrue};
ghost use Rattle.value_trees.specs.Tree.{trees_of, members_of, pairs_of};
ghost use Rattle.clone_values.specs.View.{tree_of};
ghost use Rattle.value_trees.specs.Sameness.{same_tree, same_trees, same_members, same_pairs};

use crate::value_types::{Items, Pairs, Props, Value};

/// Whether the two values are equal trees; it takes no memory.
pub fn same_value(a: &Value, b: &Value) -> bool
    ensures { IsTrue result ↔ (tree_of a.now ≡ tree_of b.now) }
{
    is_same(a, b)
}

#[cycle(same)]
#[tactic(auto, using(crate::specs::Falls::smaller_tree))]
pub(crate) fn is_same(a: &Value, b: &Value) -> bool
    ensures { result ≡ same_tree (tree_of a.now) (tree_of b.now) }
{
    match (a, b) {
        (Value::Undefined, Value::Undefined) => true,
        (Value::Null, Value::Null) => true,
        (Value::Bool(x), Value::Bool(y)) => *x == *y,
        (Value::Int(x), Value::Int(y)) => *x == *y,
        (Value::Text(x), Value::Text(y)) => x.as_str() == y.as_str(),
        (Value::Date(x), Value::Date(y)) => *x == *y,
        (Value::Bytes(x), Value::Bytes(y)) => x.as_slice() == y.as_slice(),
        (Value::Array(x, p), Value::Array(y, q)) => same_items(x, y) && same_props(p, q),
        (Value::Object(p), Value::Object(q)) => same_props(p, q),
        (Value::Map(p), Value::Map(q)) => same_pairs(p, q),
        (Value::Set(x), Value::Set(y)) => same_items(x, y),
        (Value::Function, Value::Function) => true,
        _ => false,
    }
}

#[cycle(same)]
#[tactic(auto, using(crate::specs::Falls::smaller_tree))]
fn same_items(a: &Items, b: &Items) -> bool
    ensures { result ≡ same_trees (trees_of a.now) (trees_of b.now) }
{
    for place in 0..a.len() {
        if let Some(x) = a.at(place) {
            match b.at(place) {
                Some(y) if is_same(x, y) => {}
                _ => return false,
            }
        }
    }
    match b.at(a.len()) {
        Some(_) => false,
        None => true,
    }
}

#[cycle(same)]
fn same_props(a: &Props, b: &Props) -> bool
    ensures { result ≡ same_members (members_of a.now) (members_of b.now) }
{
    for place in 0..a.len() {
        if let Some(x) = a.at(place) {
            match b.at(place) {
                Some(y) if x.name.as_str() == y.name.as_str() && is_same(&x.value, &y.value) => {}
                _ => return false,
            }
        }
    }
    match b.at(a.len()) {
        Some(_) => false,
        None => true,
    }
}

#[cycle(same)]
fn same_pairs(a: &Pairs, b: &Pairs) -> bool
    ensures { result ≡ same_pairs (pairs_of a.now) (pairs_of b.now) }
{
    for place in 0..a.len() {
        if let Some(x) = a.at(place) {
            match b.at(place) {
                Some(y) if is_same(&x.key, &y.key) && is_same(&x.value, &y.value) => {}
                _ => return false,
            }
        }
    }
    match b.at(a.len()) {
        Some(_) => false,
        None => true,
    }
}
