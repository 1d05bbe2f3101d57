// Values, written as their bytes.
ghost use Rattle.std.specs.Prelude.{◌≡◌, ◌++◌, OnOk, OnErr};
ghost use Rattle.clone_values.specs.Tree.{array, trees_of, members_of, pairs_of};
ghost use Rattle.clone_values.specs.View.{tree_of};
ghost use Rattle.clone_values.specs.Values.{IsCloneable};
ghost use Rattle.clone_values.specs.WellFormed.{IsValue};
ghost use Rattle.value_bytes.specs.Spelling.{SpellsValue, spelling_of, items_field, members_field, pairs_field, string_bytes};
ghost use Rattle.value_bytes.specs.Writing.{BeginsWith};

use crate::put_fields::{put_byte, put_count, put_kind_number, put_kind_string, put_string};
use clone_values::{Items, Pair, Pairs, Prop, Props, Value};
use idb_base::NoMemory;

/// Puts the spelling of the value at the end.
pub fn write_value(out: &mut Vec<u8>, v: &Value) -> Result<(), NoMemory>
    requires well_formed { IsValue (tree_of v.now) }
    requires cloneable { IsCloneable (tree_of v.now) }
    ensures written { OnOk result (out.new.items ≡ out.old.items ++ spelling_of (tree_of v.now)) }
    ensures spelled { OnOk result (SpellsValue (spelling_of (tree_of v.now)) (tree_of v.now)) }
    ensures unchanged { OnErr result (out.new.items ≡ out.old.items) }
{
    let before = out.len();
    match put_value(out, v) {
        Ok(()) => Ok(()),
        Err(e) => {
            out.truncate(before);
            Err(e)
        }
    }
}

#[cycle(put)]
#[tactic(auto, using(clone_values::specs::Falls::smaller_tree, crate::proofs::Puts::begins_more))]
fn put_value(out: &mut Vec<u8>, v: &Value) -> Result<(), NoMemory>
    ensures written { OnOk result (out.new.items ≡ out.old.items ++ spelling_of (tree_of v.now)) }
    ensures front { OnErr result (BeginsWith out.old.items out.new.items) }
{
    match v {
        Value::Undefined => put_byte(out, 0x00),
        Value::Null => put_byte(out, 0x01),
        Value::Bool(false) => put_byte(out, 0x02),
        Value::Bool(true) => put_byte(out, 0x03),
        Value::Int(n) => put_kind_number(out, 0x04, *n),
        Value::Text(s) => put_kind_string(out, 0x05, s.as_str().as_bytes()),
        Value::Date(d) => put_kind_number(out, 0x06, *d),
        Value::Bytes(b) => put_kind_string(out, 0x07, b.as_slice()),
        Value::Array(items, props) => put_array(out, items, props),
        Value::Object(props) => {
            put_byte(out, 0x09)?;
            put_props(out, props)
        }
        Value::Map(pairs) => {
            put_byte(out, 0x0a)?;
            put_pairs(out, pairs)
        }
        Value::Set(items) => {
            put_byte(out, 0x0b)?;
            put_items(out, items)
        }
        // no cloneable value has one
        Value::Function => put_byte(out, 0xff),
    }
}

#[cycle(put)]
#[tactic(auto, using(crate::proofs::Puts::begins_more, crate::proofs::Puts::begins_two_more))]
fn put_array(out: &mut Vec<u8>, items: &Items, props: &Props) -> Result<(), NoMemory>
    ensures written { OnOk result (out.new.items
        ≡ out.old.items ++ spelling_of (array (trees_of items.now) (members_of props.now))) }
    ensures front { OnErr result (BeginsWith out.old.items out.new.items) }
{
    put_byte(out, 0x08)?;
    put_items(out, items)?;
    put_props(out, props)
}

#[cycle(put)]
#[tactic(auto, using(clone_values::specs::Falls::smaller_tree, crate::proofs::Puts::begins_more, crate::proofs::Puts::begins_then))]
fn put_items(out: &mut Vec<u8>, items: &Items) -> Result<(), NoMemory>
    ensures written { OnOk result (out.new.items ≡ out.old.items ++ items_field (trees_of items.now)) }
    ensures front { OnErr result (BeginsWith out.old.items out.new.items) }
{
    put_count(out, items.len())?;
    for place in 0..items.len() {
        if let Some(item) = items.at(place) {
            put_value(out, item)?;
        }
    }
    Ok(())
}

#[cycle(put)]
#[tactic(auto, using(clone_values::specs::Falls::smaller_tree, crate::proofs::Puts::begins_more, crate::proofs::Puts::begins_then))]
fn put_props(out: &mut Vec<u8>, props: &Props) -> Result<(), NoMemory>
    ensures written { OnOk result (out.new.items ≡ out.old.items ++ members_field (members_of props.now)) }
    ensures front { OnErr result (BeginsWith out.old.items out.new.items) }
{
    put_count(out, props.len())?;
    for place in 0..props.len() {
        if let Some(prop) = props.at(place) {
            put_prop(out, prop)?;
        }
    }
    Ok(())
}

#[cycle(put)]
#[tactic(auto, using(crate::proofs::Puts::begins_more))]
fn put_prop(out: &mut Vec<u8>, prop: &Prop) -> Result<(), NoMemory>
    ensures written { OnOk result (out.new.items
        ≡ out.old.items ++ (string_bytes prop.now.name ++ spelling_of (tree_of prop.now.value))) }
    ensures front { OnErr result (BeginsWith out.old.items out.new.items) }
{
    put_string(out, prop.name.as_str().as_bytes())?;
    put_value(out, &prop.value)
}

#[cycle(put)]
#[tactic(auto, using(clone_values::specs::Falls::smaller_tree, crate::proofs::Puts::begins_more, crate::proofs::Puts::begins_then))]
fn put_pairs(out: &mut Vec<u8>, pairs: &Pairs) -> Result<(), NoMemory>
    ensures written { OnOk result (out.new.items ≡ out.old.items ++ pairs_field (pairs_of pairs.now)) }
    ensures front { OnErr result (BeginsWith out.old.items out.new.items) }
{
    put_count(out, pairs.len())?;
    for place in 0..pairs.len() {
        if let Some(pair) = pairs.at(place) {
            put_pair(out, pair)?;
        }
    }
    Ok(())
}

#[cycle(put)]
#[tactic(auto, using(crate::proofs::Puts::begins_more))]
fn put_pair(out: &mut Vec<u8>, pair: &Pair) -> Result<(), NoMemory>
    ensures written { OnOk result (out.new.items
        ≡ out.old.items ++ (spelling_of (tree_of pair.now.key) ++ spelling_of (tree_of pair.now.value))) }
    ensures front { OnErr result (BeginsWith out.old.items out.new.items) }
{
    put_value(out, &pair.key)?;
    put_value(out, &pair.value)
}
