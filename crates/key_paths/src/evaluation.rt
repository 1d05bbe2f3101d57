// Evaluation of key paths on values.
ghost use Rattle.std.specs.Prelude.{◌≡◌, ◌<◌, ◌^◌, length, option_map, IfOk};
ghost use Rattle.std.specs.Option.{is_some, option_copied};
ghost use Rattle.clone_values.specs.View.{tree_of};
ghost use Rattle.clone_values.specs.declared.path_types.PathSpec.TheVariants.{Many};
ghost use Rattle.key_order.specs.KeyOrder.{code_units};
ghost use Rattle.path_grammar.specs.KeyPath.{parts_of};
ghost use Rattle.key_paths.specs.View.{value_found};
ghost use Rattle.key_paths.specs.Evaluation.{evaluated, string_evaluated, walked, step_of, takes_length, property_of, unless_undefined, length_of};

use clone_values::{Items, PathSpec, Props, Texts, Value, copy_value};
use idb_base::NoMemory;
use path_grammar::KeyPath;
use std::alloc::Global;

/// What a string of a key path gives on a value; nothing is copied.
#[derive(Clone, Copy)]
pub(crate) enum Found<'a> {
    /// A part of the value, or the value.
    Part(&'a Value),
    /// How many code units a Text has, or items an Array.
    Length(i64),
    Nothing,
}

/// The value that a key path gives on a value, as a copy; `None` exactly where it gives none, which is failure
/// (Indexed Database API 3.0, "evaluate a key path on a value").
pub fn evaluate(alloc: Global, path: &KeyPath, v: &Value) -> Result<Option<Value>, NoMemory>
    ensures { IfOk result (λ r. option_map tree_of r ≡ evaluated path.now (tree_of v.now)) }
{
    match path.spec() {
        PathSpec::One(string) => copied(alloc, string_found(string.as_str(), v)),
        PathSpec::Many(strings) => evaluate_list(alloc, strings, v),
    }
}

pub(crate) fn evaluate_list(
    alloc: Global,
    strings: &Texts,
    v: &Value,
) -> Result<Option<Value>, NoMemory>
    ensures { IfOk result (λ r. option_map tree_of r ≡ evaluated (Many strings.now) (tree_of v.now)) }
{
    let mut values = Vec::new(alloc);
    for place in 0..strings.len() {
        if let Some(string) = strings.at(place) {
            match copied(alloc, string_found(string.as_str(), v))? {
                Some(value) => values.push(value)?,
                None => return Ok(None),
            }
        }
    }
    let items = Items::from_vec(alloc, values)?;
    Ok(Some(Value::Array(items, Props::new(alloc))))
}

fn copied(alloc: Global, found: Found) -> Result<Option<Value>, NoMemory>
    ensures { IfOk result (λ r. option_map tree_of r ≡ value_found found.entry) }
{
    match found {
        Found::Part(v) => Ok(Some(copy_value(alloc, v)?)),
        Found::Length(n) => Ok(Some(Value::Int(n))),
        Found::Nothing => Ok(None),
    }
}

/// What one string of a key path gives.
pub(crate) fn string_found<'a>(s: &str, v: &'a Value) -> Found<'a>
    ensures { value_found result ≡ string_evaluated s.now (tree_of v.now) }
{
    if s.is_empty() {
        return Found::Part(v);
    }
    walk(s, v)
}

/// Goes one identifier further at each call. A length has no properties.
fn walk<'a>(s: &str, v: &'a Value) -> Found<'a>
    ensures { value_found result ≡ walked (parts_of s.now) (tree_of v.now) }
{
    match s.split_once('.') {
        None => step(s, v),
        Some((name, more)) => {
            if takes_length(name, v) {
                return Found::Nothing;
            }
            match property(name, v) {
                Some(inner) => walk(more, inner),
                None => Found::Nothing,
            }
        }
    }
}

fn step<'a>(name: &str, v: &'a Value) -> Found<'a>
    ensures { value_found result ≡ step_of name.now (tree_of v.now) }
{
    if takes_length(name, v) {
        return length_of(v);
    }
    match property(name, v) {
        Some(inner) => Found::Part(inner),
        None => Found::Nothing,
    }
}

/// Whether the identifier is `length`, of a Text or an Array.
pub(crate) fn takes_length(name: &str, v: &Value) -> bool
    ensures { result ≡ takes_length name.now (tree_of v.now) }
{
    name == "length" && has_length(v)
}

fn has_length(v: &Value) -> bool
    ensures { result ≡ is_some (length_of (tree_of v.now)) }
{
    match v {
        Value::Text(_) | Value::Array(_, _) => true,
        _ => false,
    }
}

/// The named property, unless it is missing or Undefined.
#[tactic(auto, using(clone_values::proofs::Laws::members_again))]
fn property<'a>(name: &str, v: &'a Value) -> Option<&'a Value>
    ensures { option_map tree_of (option_copied result) ≡ property_of name.now (tree_of v.now) }
{
    match v {
        Value::Array(_, props) | Value::Object(props) => unless_undefined(props.find(name)),
        _ => None,
    }
}

fn unless_undefined(found: Option<&Value>) -> Option<&Value>
    ensures { option_map tree_of (option_copied result)
        ≡ unless_undefined (option_map tree_of (option_copied found.entry)) }
{
    match found {
        Some(Value::Undefined) | None => None,
        Some(value) => Some(value),
    }
}

/// What `length` gives on a Text or an Array.
#[tactic(auto, using(clone_values::proofs::Laws::trees_again))]
fn length_of(v: &Value) -> Found
    ensures { value_found result ≡ length_of (tree_of v.now) }
{
    match v {
        Value::Text(s) => Found::Length(count_code_units(s.as_str()) as i64),
        Value::Array(items, _) => Found::Length(items.len() as i64),
        _ => Found::Nothing,
    }
}

/// How many UTF-16 code units the text has; they are not written out.
fn count_code_units(s: &str) -> usize
    ensures count { result ≡ length (code_units s.now) }
    ensures small { result < 2 ^ 63 }
{
    let mut count = 0;
    let mut rest = s.chars();
    while let Some(c) = rest.next() {
        count += c.len_utf16();
    }
    count
}
