// What each form gives of the values of its parts.
ghost use Rattle.std.specs.Prelude.{◌≡◌, ◌-◌, ◌≤◌, [], length, take, drop, IfOk, Some, None, option_map, unwrap_or};
ghost use Rattle.std.specs.List.{zip, fold};
ghost use Rattle.clone_values.specs.Tree.{Tree, undefined, boolean};
ghost use Rattle.clone_values.specs.Names.{set_members, get_member};
ghost use Rattle.clone_values.specs.Sameness.{same_tree, put_once};
ghost use Rattle.clone_values.specs.View.{tree_of, prop_of};
ghost use Rattle.key_paths.specs.Evaluation.{evaluated};
ghost use Rattle.script_values.specs.Evaluating.{form_made, array_made, entries_put, addend, sum_of_two, with_property, only_part, both_parts, of_one, of_two};
ghost use Rattle.script_values.specs.Seeing.{seen_one, seen_two};

use clone_values::{Items, Pairs, Prop, Props, Text, Value, is_int, same_value};
use idb_base::{GREATEST_LENGTH, Listed, NoMemory};
use key_paths::evaluate;
use path_grammar::KeyPath;
use script_exprs::ExprForm;
use std::alloc::Global;
use value_members::{MapBuilder, SetBuilder};

/// What the form gives of the values of its parts. More members than a list may have are want of memory.
pub(crate) fn form_made(
    alloc: Global,
    variables: &Props,
    form: &ExprForm,
    parts: &Items,
) -> Result<Value, NoMemory>
    ensures { IfOk result (λ v. tree_of v ≡ form_made variables.now form.now parts.now) }
{
    match form {
        ExprForm::Literal(literal) => Ok(literal.value().clone()?),
        ExprForm::Array(names) => array_made(alloc, names, parts),
        ExprForm::Object(names) => Ok(Value::Object(named(alloc, names, parts, 0)?)),
        ExprForm::Map => Ok(Value::Map(entries_put(alloc, parts)?)),
        ExprForm::Set => Ok(Value::Set(members_put(alloc, parts)?)),
        ExprForm::Var(name) => variable(variables, name),
        ExprForm::Plus => Ok(sum_of_parts(parts)),
        ExprForm::Prop(path) => property_at(alloc, path, parts),
        ExprForm::With(name) => with_part(alloc, name, parts),
        ExprForm::Same => Ok(are_same(parts)),
    }
}

// The Array of the first values; the last ones are its named properties.
fn array_made(alloc: Global, names: &Listed<Text>, parts: &Items) -> Result<Value, NoMemory>
    ensures { IfOk result (λ v. tree_of v ≡ array_made names.now parts.now) }
{
    let count = parts.len().saturating_sub(names.len());
    let items = first_of(alloc, parts, count)?;
    Ok(Value::Array(items, named(alloc, names, parts, count)?))
}

// The first values, so many of them.
fn first_of(alloc: Global, parts: &Items, count: usize) -> Result<Items, NoMemory>
    ensures { IfOk result (λ ts. ts ≡ take count parts.now) }
{
    if count >= parts.len() {
        return Ok(parts.clone()?);
    }
    let mut items = Items::new(alloc);
    for place in 0..count {
        let Some(item) = parts.at(place) else {
            return Err(NoMemory);
        };
        if items.len() >= GREATEST_LENGTH {
            return Err(NoMemory);
        }
        items.push(item.clone()?)?;
    }
    Ok(items)
}

// The values from a place on as properties of these names.
fn named(alloc: Global, names: &Listed<Text>, parts: &Items, from: usize) -> Result<Props, NoMemory>
    requires { from ≤ length parts.now }
    ensures { IfOk result (λ ms. ms ≡ set_members [] (zip names.now (drop from parts.now))) }
{
    let mut props: Vec<Prop> = Vec::new(alloc);
    for place in 0..names.len() {
        let Some(name) = names.at(place) else {
            return Err(NoMemory);
        };
        if place >= parts.len() - from {
            break;
        }
        let Some(value) = parts.at(from + place) else {
            return Err(NoMemory);
        };
        props.push(Prop {
            name: name.clone()?,
            value: value.clone()?,
        })?;
    }
    if props.len() > GREATEST_LENGTH {
        return Err(NoMemory);
    }
    Props::from_unsorted(alloc, props)
}

// The entries of a Map whose keys and values stand in turn.
fn entries_put(alloc: Global, parts: &Items) -> Result<Pairs, NoMemory>
    ensures { IfOk result (λ ps. ps ≡ entries_put [] parts.now) }
{
    let mut entries = MapBuilder::new(alloc);
    for entry in 0..parts.len() / 2 {
        let Some(key) = parts.at(2 * entry) else {
            return Err(NoMemory);
        };
        let Some(value) = parts.at(2 * entry + 1) else {
            return Err(NoMemory);
        };
        if entries.len() >= GREATEST_LENGTH {
            return Err(NoMemory);
        }
        entries.put(key.clone()?, value.clone()?)?;
    }
    entries.finish()
}

// The members of a Set.
fn members_put(alloc: Global, parts: &Items) -> Result<Items, NoMemory>
    ensures { IfOk result (λ ts. ts ≡ fold put_once [] parts.now) }
{
    let mut members = SetBuilder::new(alloc);
    for place in 0..parts.len() {
        let Some(member) = parts.at(place) else {
            return Err(NoMemory);
        };
        if members.len() >= GREATEST_LENGTH {
            return Err(NoMemory);
        }
        members.put(member.clone()?)?;
    }
    members.finish()
}

// The variable of this name, Undefined where it isn't set.
fn variable(variables: &Props, name: &Text) -> Result<Value, NoMemory>
    ensures { IfOk result (λ v. tree_of v ≡ unwrap_or (get_member variables.now name.now) undefined) }
{
    match variables.get(name) {
        Some(value) => Ok(value.clone()?),
        None => Ok(Value::Undefined),
    }
}

// The one part, where there is one.
fn only_part(parts: &Items) -> Option<&Value>
    ensures { seen_one result ≡ only_part parts.now }
{
    if parts.len() != 1 {
        return None;
    }
    parts.at(0)
}

// The two parts, where there are two.
fn both_parts(parts: &Items) -> Option<(&Value, &Value)>
    ensures { seen_two result ≡ both_parts parts.now }
{
    if parts.len() != 2 {
        return None;
    }
    let first = parts.at(0)?;
    let second = parts.at(1)?;
    Some((first, second))
}

// The sum of the two parts.
fn sum_of_parts(parts: &Items) -> Value
    ensures { tree_of result ≡ of_two sum_of_two (both_parts parts.now) }
{
    match both_parts(parts) {
        Some((first, second)) => sum_of_two(first, second),
        None => Value::Undefined,
    }
}

fn sum_of_two(first: &Value, second: &Value) -> Value
    ensures { tree_of result ≡ sum_of_two (tree_of first.now) (tree_of second.now) }
{
    let Some(m) = addend(first) else {
        return Value::Undefined;
    };
    let Some(n) = addend(second) else {
        return Value::Undefined;
    };
    match m.checked_add(n) {
        Some(sum) if is_int(sum) => Value::Int(sum),
        _ => Value::Undefined,
    }
}

// What counts as a whole number in a sum.
fn addend(value: &Value) -> Option<i64>
    ensures { result ≡ addend (tree_of value.now) }
{
    match value {
        Value::Undefined => Some(0),
        Value::Int(n) => Some(*n),
        _ => None,
    }
}

// What the path gives at the one part.
fn property_at(alloc: Global, path: &KeyPath, parts: &Items) -> Result<Value, NoMemory>
    ensures { IfOk result (λ v. tree_of v
        ≡ of_one (λ t. unwrap_or (evaluated path.now t) undefined) (only_part parts.now)) }
{
    let Some(part) = only_part(parts) else {
        return Ok(Value::Undefined);
    };
    match evaluate(alloc, path, part)? {
        Some(value) => Ok(value),
        None => Ok(Value::Undefined),
    }
}

// The first part, an Object, with its property of this name set to the second.
fn with_part(alloc: Global, name: &Text, parts: &Items) -> Result<Value, NoMemory>
    ensures { IfOk result (λ v. tree_of v ≡ of_two (with_property name.now) (both_parts parts.now)) }
{
    match both_parts(parts) {
        Some((Value::Object(props), value)) => {
            if props.len() >= GREATEST_LENGTH {
                return Err(NoMemory);
            }
            let mut props = props.clone()?;
            props.set(name.clone()?, value.clone()?)?;
            Ok(Value::Object(props))
        }
        _ => Ok(Value::Undefined),
    }
}

// Whether the two parts are equal.
fn are_same(parts: &Items) -> Value
    ensures { tree_of result ≡ of_two (λ s t. boolean (same_tree s t)) (both_parts parts.now) }
{
    match both_parts(parts) {
        Some((first, second)) => Value::Bool(same_value(first, second)),
        None => Value::Undefined,
    }
}
