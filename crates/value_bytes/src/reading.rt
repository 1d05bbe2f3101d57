// Values, read from their bytes.
ghost use Rattle.std.specs.Prelude.{ℕ, IfOk, IsErrOf};
ghost use Rattle.clone_values.specs.Tree.{Tree, int, text, date, bytes};
ghost use Rattle.clone_values.specs.View.{tree_of, prop_of, pair_of};
ghost use Rattle.clone_values.specs.WellFormed.{is_int, is_date};
ghost use Rattle.value_bytes.specs.Spelling.{ValueStands};
ghost use Rattle.idb_base.specs.Results.{Gives};
ghost use Rattle.idb_base.specs.declared.limits.TheConstants.{GREATEST_DEPTH};
ghost use Rattle.value_bytes.specs.Steps.{IsUnspelled, whole_number_at, string_at, text_at, mapped_at, checked_at, pair_at, counted_at};
ghost use Rattle.value_bytes.specs.declared.kinds.Kind.TheVariants as kind;
ghost use Rattle.value_bytes.specs.Reading.{value_at, body_at, properties_at};

use crate::SpellingError;
use crate::fields::{byte_from, bytes_from, count_from, date_from, int_from, text_from};
use crate::kinds::{Kind, kind_of};
use crate::names::{are_array_names, names_rise};
use clone_values::{Items, Pair, Pairs, Prop, Props, Value};
use idb_base::GREATEST_DEPTH;
use std::alloc::Global;
use value_members::{are_once, keys_are_once};

/// The value whose spelling stands in the bytes from this place on, counted from 0, and the place behind it. Bytes may
/// follow it; past the end of the bytes no spelling stands. How much memory is asked for depends on the bytes that are
/// there, and not on a count that they state.
pub fn read_value(alloc: Global, bytes: &[u8], from: usize) -> Result<(Value, usize), SpellingError>
    ensures found { IfOk result (λ r. ValueStands bytes.now from r.1 (tree_of r.0)) }
    ensures refused { IsErrOf result SpellingError.NotInGrammar →
        (t : Tree) (end : ℕ) → ¬ (ValueStands bytes.now from end t) }
{
    if from > bytes.len() {
        return Err(SpellingError::NotInGrammar);
    }
    let (_, mut rest) = bytes.split_at(from);
    let value = value_from(alloc, &mut rest)?;
    Ok((value, bytes.len() - rest.len()))
}

/// A value, read from the front of the bytes that are left.
pub fn value_from(alloc: Global, rest: &mut &[u8]) -> Result<Value, SpellingError>
    ensures { Gives IsUnspelled
        (λ v. (tree_of v, rest.new.now)) result (value_at GREATEST_DEPTH rest.old.now) }
{
    value_within(alloc, rest, GREATEST_DEPTH)
}

// A value of at most this depth.
#[cycle(read)]
fn value_within(alloc: Global, rest: &mut &[u8], depth: usize) -> Result<Value, SpellingError>
    ensures { Gives IsUnspelled (λ v. (tree_of v, rest.new.now)) result (value_at depth rest.old.now) }
{
    if depth == 0 {
        return Err(SpellingError::NotInGrammar);
    }
    let byte = byte_from(rest)?;
    match kind_of(byte) {
        Some(kind) => body_from(alloc, rest, kind, depth - 1),
        None => Err(SpellingError::NotInGrammar),
    }
}

#[cycle(read)]
fn body_from(
    alloc: Global,
    rest: &mut &[u8],
    kind: Kind,
    depth: usize,
) -> Result<Value, SpellingError>
    ensures { Gives IsUnspelled
        (λ v. (tree_of v, rest.new.now)) result (body_at (value_at depth) kind rest.old.now) }
{
    match kind {
        Kind::Undefined => Ok(Value::Undefined),
        Kind::Null => Ok(Value::Null),
        Kind::False => Ok(Value::Bool(false)),
        Kind::True => Ok(Value::Bool(true)),
        Kind::Int => int_value(rest),
        Kind::Text => text_value(alloc, rest),
        Kind::Date => date_value(rest),
        Kind::Bytes => bytes_value(alloc, rest),
        Kind::Array => array_from(alloc, rest, depth),
        Kind::Object => object_from(alloc, rest, depth),
        Kind::Map => map_from(alloc, rest, depth),
        Kind::Set => set_from(alloc, rest, depth),
    }
}

fn int_value(rest: &mut &[u8]) -> Result<Value, SpellingError>
    ensures { Gives IsUnspelled (λ v. (tree_of v, rest.new.now)) result
        (mapped_at int (checked_at is_int whole_number_at) rest.old.now) }
{
    Ok(Value::Int(int_from(rest)?))
}

fn text_value(alloc: Global, rest: &mut &[u8]) -> Result<Value, SpellingError>
    ensures { Gives IsUnspelled
        (λ v. (tree_of v, rest.new.now)) result (mapped_at text text_at rest.old.now) }
{
    Ok(Value::Text(text_from(alloc, rest)?))
}

fn date_value(rest: &mut &[u8]) -> Result<Value, SpellingError>
    ensures { Gives IsUnspelled (λ v. (tree_of v, rest.new.now)) result
        (mapped_at date (checked_at is_date whole_number_at) rest.old.now) }
{
    Ok(Value::Date(date_from(rest)?))
}

fn bytes_value(alloc: Global, rest: &mut &[u8]) -> Result<Value, SpellingError>
    ensures { Gives IsUnspelled
        (λ v. (tree_of v, rest.new.now)) result (mapped_at bytes string_at rest.old.now) }
{
    Ok(Value::Bytes(bytes_from(alloc, rest)?))
}

#[cycle(read)]
fn object_from(alloc: Global, rest: &mut &[u8], depth: usize) -> Result<Value, SpellingError>
    ensures { Gives IsUnspelled
        (λ v. (tree_of v, rest.new.now)) result (body_at (value_at depth) kind.Object rest.old.now) }
{
    Ok(Value::Object(props_from(alloc, rest, depth)?))
}

#[cycle(read)]
fn items_from(alloc: Global, rest: &mut &[u8], depth: usize) -> Result<Items, SpellingError>
    ensures { Gives IsUnspelled (λ x. (x, rest.new.now)) result (counted_at (value_at depth) rest.old.now) }
{
    let count = count_from(rest)?;
    let mut items = Vec::new(alloc);
    for _ in 0..count {
        let item = value_within(alloc, rest, depth)?;
        items.push(item)?;
    }
    Ok(Items::from_vec(alloc, items)?)
}

#[cycle(read)]
fn set_from(alloc: Global, rest: &mut &[u8], depth: usize) -> Result<Value, SpellingError>
    ensures { Gives IsUnspelled
        (λ v. (tree_of v, rest.new.now)) result (body_at (value_at depth) kind.Set rest.old.now) }
{
    let items = items_from(alloc, rest, depth)?;
    if are_once(alloc, &items)? {
        Ok(Value::Set(items))
    } else {
        Err(SpellingError::NotInGrammar)
    }
}

#[cycle(read)]
fn array_from(alloc: Global, rest: &mut &[u8], depth: usize) -> Result<Value, SpellingError>
    ensures { Gives IsUnspelled
        (λ v. (tree_of v, rest.new.now)) result (body_at (value_at depth) kind.Array rest.old.now) }
{
    let items = items_from(alloc, rest, depth)?;
    let props = props_from(alloc, rest, depth)?;
    if are_array_names(&props) {
        Ok(Value::Array(items, props))
    } else {
        Err(SpellingError::NotInGrammar)
    }
}

#[cycle(read)]
fn map_from(alloc: Global, rest: &mut &[u8], depth: usize) -> Result<Value, SpellingError>
    ensures { Gives IsUnspelled
        (λ v. (tree_of v, rest.new.now)) result (body_at (value_at depth) kind.Map rest.old.now) }
{
    let pairs = pairs_from(alloc, rest, depth)?;
    if keys_are_once(alloc, &pairs)? {
        Ok(Value::Map(pairs))
    } else {
        Err(SpellingError::NotInGrammar)
    }
}

#[cycle(read)]
fn pairs_from(alloc: Global, rest: &mut &[u8], depth: usize) -> Result<Pairs, SpellingError>
    ensures { Gives IsUnspelled (λ x. (x, rest.new.now)) result
        (counted_at (pair_at (value_at depth) (value_at depth)) rest.old.now) }
{
    let count = count_from(rest)?;
    let mut pairs = Vec::new(alloc);
    for _ in 0..count {
        let pair = pair_from(alloc, rest, depth)?;
        pairs.push(pair)?;
    }
    Ok(Pairs::from_vec(alloc, pairs)?)
}

#[cycle(read)]
fn pair_from(alloc: Global, rest: &mut &[u8], depth: usize) -> Result<Pair, SpellingError>
    ensures { Gives IsUnspelled (λ p. (pair_of p, rest.new.now)) result
        (pair_at (value_at depth) (value_at depth) rest.old.now) }
{
    let key = value_within(alloc, rest, depth)?;
    let value = value_within(alloc, rest, depth)?;
    Ok(Pair { key, value })
}

#[cycle(read)]
fn props_from(alloc: Global, rest: &mut &[u8], depth: usize) -> Result<Props, SpellingError>
    ensures { Gives IsUnspelled
        (λ x. (x, rest.new.now)) result (properties_at (value_at depth) rest.old.now) }
{
    let count = count_from(rest)?;
    let mut props = Vec::new(alloc);
    for _ in 0..count {
        let prop = prop_from(alloc, rest, depth)?;
        props.push(prop)?;
    }
    if names_rise(&props) {
        Ok(Props::from_vec(alloc, props)?)
    } else {
        Err(SpellingError::NotInGrammar)
    }
}

#[cycle(read)]
fn prop_from(alloc: Global, rest: &mut &[u8], depth: usize) -> Result<Prop, SpellingError>
    ensures { Gives IsUnspelled
        (λ p. (prop_of p, rest.new.now)) result (pair_at text_at (value_at depth) rest.old.now) }
{
    let name = text_from(alloc, rest)?;
    let value = value_within(alloc, rest, depth)?;
    Ok(Prop { name, value })
}
