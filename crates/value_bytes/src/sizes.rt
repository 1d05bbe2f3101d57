// How many bytes a value's spelling has.
ghost use Rattle.std.specs.Prelude.{◌≡◌, ◌+◌, min, length};
ghost use Rattle.clone_values.specs.Tree.{trees_of, members_of, pairs_of};
ghost use Rattle.clone_values.specs.View.{tree_of};
ghost use Rattle.value_bytes.specs.Spelling.{spelling_of, items_spelling, members_spelling, pairs_spelling};

use clone_values::{Items, Pairs, Props, Value};

/// The bytes of a count, and of the length of a text or a byte string.
const COUNT: u64 = 4;

/// How many bytes the value's spelling has, a Function counting as one; u64::MAX where they are more. It takes no memory.
#[cycle(size)]
#[tactic(auto, using(clone_values::specs::Falls::smaller_tree))]
pub fn value_size(v: &Value) -> u64
    ensures { result ≡ min (length (spelling_of (tree_of v.now))) 18446744073709551615 }
{
    match v {
        Value::Undefined | Value::Null | Value::Bool(_) | Value::Function => 1,
        Value::Int(_) | Value::Date(_) => 9,
        Value::Text(s) => (s.as_str().len() as u64).saturating_add(1 + COUNT),
        Value::Bytes(b) => (b.len() as u64).saturating_add(1 + COUNT),
        Value::Array(items, props) => items_size(items)
            .saturating_add(props_size(props))
            .saturating_add(1),
        Value::Object(props) => props_size(props).saturating_add(1),
        Value::Map(pairs) => pairs_size(pairs).saturating_add(1),
        Value::Set(items) => items_size(items).saturating_add(1),
    }
}

#[cycle(size)]
#[tactic(auto, using(clone_values::specs::Falls::smaller_tree))]
fn items_size(items: &Items) -> u64
    ensures { result ≡ min (4 + length (items_spelling (trees_of items.now))) 18446744073709551615 }
{
    let mut size = COUNT;
    for place in 0..items.len() {
        if let Some(item) = items.at(place) {
            size = size.saturating_add(value_size(item));
        }
    }
    size
}

#[cycle(size)]
fn props_size(props: &Props) -> u64
    ensures { result ≡ min (4 + length (members_spelling (members_of props.now))) 18446744073709551615 }
{
    let mut size = COUNT;
    for place in 0..props.len() {
        if let Some(prop) = props.at(place) {
            let name = (prop.name.as_str().len() as u64).saturating_add(COUNT);
            size = size.saturating_add(name.saturating_add(value_size(&prop.value)));
        }
    }
    size
}

#[cycle(size)]
fn pairs_size(pairs: &Pairs) -> u64
    ensures { result ≡ min (4 + length (pairs_spelling (pairs_of pairs.now))) 18446744073709551615 }
{
    let mut size = COUNT;
    for place in 0..pairs.len() {
        if let Some(pair) = pairs.at(place) {
            let entry = value_size(&pair.key).saturating_add(value_size(&pair.value));
            size = size.saturating_add(entry);
        }
    }
    size
}
