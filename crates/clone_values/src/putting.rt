// Putting members into Sets and Maps: a repeated primitive keeps its first place.
ghost use Rattle.std.specs.Prelude.{◌≡◌, ◌<◌, length, IsTrue, IfSome, OnOk, OnErr, IsOk};
ghost use Rattle.std.specs.List.{list_any, position_from};
ghost use Rattle.value_trees.specs.Lists.{FitsOneMore};
ghost use Rattle.clone_values.specs.View.{tree_of};
ghost use Rattle.value_trees.specs.Sameness.{is_primitive, repeats, put_once, put_pair};

use crate::holding::{push, replace_held};
use crate::sameness::is_same;
use crate::value_types::{Items, Pair, Pairs, Value};
use value_trees::NoMemory;

impl Items {
    /// Puts a member into a Set: a primitive that is there already stays where it is, and no memory is asked for.
    pub fn put_once(&mut self, value: Value) -> Result<(), NoMemory>
        requires { FitsOneMore self.old }
        ensures stored { OnOk result (self.new ≡ put_once self.old (tree_of value)) }
        ensures repeated { IsTrue (list_any (λ s. repeats s (tree_of value)) self.old) → IsOk result }
        ensures unchanged { OnErr result (self.new ≡ self.old) }
    {
        if holds_repeat(self, &value) {
            return Ok(());
        }
        self.push(value)
    }
}

impl Pairs {
    /// Puts an entry into a Map: a primitive key that is there already keeps its place and takes the value, and no
    /// memory is asked for.
    pub fn put(&mut self, key: Value, value: Value) -> Result<(), NoMemory>
        requires { FitsOneMore self.old }
        ensures stored { OnOk result (self.new ≡ put_pair self.old (tree_of key) (tree_of value)) }
        ensures unchanged { OnErr result (self.new ≡ self.old) }
    {
        match place_of_key(self, &key) {
            Some(place) => replace_held(self.alloc, &mut self.pairs, place, Pair { key, value }),
            None => push(self.alloc, &mut self.pairs, Pair { key, value }),
        }
    }
}

fn holds_repeat(items: &Items, value: &Value) -> bool
    ensures { result ≡ list_any (λ s. repeats s (tree_of value.now)) items.now }
{
    for place in 0..items.len() {
        if let Some(item) = items.at(place) {
            if repeats(item, value) {
                return true;
            }
        }
    }
    false
}

fn place_of_key(pairs: &Pairs, key: &Value) -> Option<usize>
    ensures place { result ≡ position_from (λ p. repeats p.0 (tree_of key.now)) 0 pairs.now }
    ensures within { IfSome result (λ i. i < length pairs.now) }
{
    for place in 0..pairs.len() {
        if let Some(pair) = pairs.at(place) {
            if repeats(&pair.key, key) {
                return Some(place);
            }
        }
    }
    None
}

pub(crate) fn repeats(a: &Value, b: &Value) -> bool
    ensures { result ≡ repeats (tree_of a.now) (tree_of b.now) }
{
    is_primitive(a) && is_same(a, b)
}

fn is_primitive(v: &Value) -> bool
    ensures { result ≡ is_primitive (tree_of v.now) }
{
    match v {
        Value::Undefined | Value::Null | Value::Bool(_) | Value::Int(_) | Value::Text(_) => true,
        _ => false,
    }
}
