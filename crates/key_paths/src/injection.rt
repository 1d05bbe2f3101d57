// Injection of keys into values by a key path.
ghost use Rattle.std.specs.Prelude.{◌≡◌, ◌≤◌, true, [], None, Some, is_some, IfSome, IfNone, IfOk, OnOk, OnErr, MatchOption};
ghost use Rattle.idb_base.specs.Lists.{FitsOneMore, IsWithinLimit};
ghost use Rattle.clone_values.specs.Names.{get_member, set_member};
ghost use Rattle.clone_values.specs.KeyTree.{KeyTree};
ghost use Rattle.clone_values.specs.Values.{IsCloneable};
ghost use Rattle.clone_values.specs.WellFormed.{IsValue};
ghost use Rattle.clone_values.specs.declared.path_types.PathSpec.{PathSpec};
ghost use Rattle.clone_values.specs.Tree.{Tree, object, no_members, member_more};
ghost use Rattle.clone_values.specs.View.{tree_of, key_tree_of};
ghost use Rattle.path_grammar.specs.KeyPath.{parts_of, is_key_path};
ghost use Rattle.clone_values.specs.KeyValues.{IsKey, value_of_key, key_depth};
ghost use Rattle.key_paths.specs.Evaluation.{evaluated, named_properties};
ghost use Rattle.key_paths.specs.Injection.{can_inject, injected, has_room_for, is_holder, all_but_last, ends_at_holder, placed, has_room_along, ends_in, placed_in, has_room_in};

use crate::conversion::to_value;
use crate::evaluation::takes_length;
use clone_values::{Key, PathSpec, Props, Text, Value, copy_value};
use idb_base::{GREATEST_LENGTH, NoMemory};
use path_grammar::KeyPath;
use std::alloc::Global;

/// Whether a key could be injected into the value at the end of the path; it takes no memory (Indexed Database API 3.0,
/// "check that a key could be injected into a value").
pub fn could_inject(path: &KeyPath, v: &Value) -> bool
    ensures { result ≡ can_inject path.now (tree_of v.now) }
{
    match path.spec() {
        PathSpec::One(string) => {
            let s = string.as_str();
            !s.is_empty() && ends_at_holder(s, v)
        }
        PathSpec::Many(_) => false,
    }
}

/// Goes one identifier further at each call, up to the last but one.
fn ends_at_holder(s: &str, v: &Value) -> bool
    ensures { result ≡ ends_at_holder (all_but_last (parts_of s.now)) (tree_of v.now) }
{
    let Some(props) = properties_of(v) else {
        return false;
    };
    match s.split_once('.') {
        None => true,
        Some((name, more)) => {
            if takes_length(name, v) {
                return false;
            }
            match props.find(name) {
                Some(inner) => ends_at_holder(more, inner),
                None => true,
            }
        }
    }
}

#[tactic(auto, using(clone_values::proofs::Laws::members_again))]
fn properties_of(v: &Value) -> Option<&Props>
    ensures holder { is_some result ≡ is_holder (tree_of v.now) }
    ensures properties { IfSome result (λ p. p.now ≡ named_properties (tree_of v.now)) }
    ensures none { IfNone result (named_properties (tree_of v.now) ≡ []) }
{
    match v {
        Value::Array(_, props) | Value::Object(props) => Some(props),
        _ => None,
    }
}

/// Whether the list of properties that gets a member has room for it; `inject` asks this. It takes no memory.
pub fn has_room(path: &KeyPath, v: &Value) -> bool
    ensures { result ≡ has_room_for path.now (tree_of v.now) }
{
    match path.spec() {
        PathSpec::One(string) => has_room_along(string.as_str(), v),
        PathSpec::Many(_) => true,
    }
}

/// Goes one identifier further at each call.
fn has_room_along(s: &str, v: &Value) -> bool
    ensures { result ≡ has_room_along (parts_of s.now) (tree_of v.now) }
{
    let Some(props) = properties_of(v) else {
        return true;
    };
    match s.split_once('.') {
        None => match props.find(s) {
            Some(_) => true,
            None => props.len() < GREATEST_LENGTH,
        },
        Some((name, more)) => match props.find(name) {
            Some(inner) => has_room_along(more, inner),
            None => props.len() < GREATEST_LENGTH,
        },
    }
}

/// Puts the key's value at the end of the path, and makes the missing Objects on the way (Indexed Database API 3.0,
/// "inject a key into a value using a key path").
pub fn inject(alloc: Global, path: &KeyPath, v: &mut Value, key: &Key) -> Result<(), NoMemory>
    requires possible { can_inject path.now (tree_of v.old) ≡ true }
    requires absent { evaluated path.now (tree_of v.old) ≡ None }
    requires room { has_room_for path.now (tree_of v.old) ≡ true }
    ensures injected { OnOk result (tree_of v.new ≡ injected path.now (tree_of v.old) (key_tree_of key.now)) }
    ensures found { OnOk result (evaluated path.now (tree_of v.new)
        ≡ Some (value_of_key (key_tree_of key.now))) }
    ensures unchanged { OnErr result (v.new ≡ v.old) }
{
    match path.spec() {
        PathSpec::One(string) => {
            let value = to_value(alloc, key)?;
            place(alloc, string.as_str(), v, value)
        }
        PathSpec::Many(_) => unreachable!(),
    }
}

#[cycle(place)]
fn place(alloc: Global, s: &str, v: &mut Value, value: Value) -> Result<(), NoMemory>
    requires possible { ends_at_holder (all_but_last (parts_of s.now)) (tree_of v.old) ≡ true }
    requires room { has_room_along (parts_of s.now) (tree_of v.old) ≡ true }
    requires short { IsWithinLimit s.now }
    ensures placed { OnOk result (tree_of v.new ≡ placed (parts_of s.now) (tree_of v.old) (tree_of value)) }
    ensures unchanged { OnErr result (v.new ≡ v.old) }
{
    match v {
        Value::Array(_, props) => place_in(alloc, s, props, value),
        Value::Object(props) => place_in(alloc, s, props, value),
        _ => unreachable!(),
    }
}

/// Goes one identifier further at each call: what the property holds is copied, which shares its lists, and changed.
#[cycle(place)]
fn place_in(alloc: Global, s: &str, props: &mut Props, value: Value) -> Result<(), NoMemory>
    requires possible { ends_in (all_but_last (parts_of s.now)) props.old ≡ true }
    requires room { has_room_in (parts_of s.now) props.old ≡ true }
    requires short { IsWithinLimit s.now }
    ensures placed { OnOk result (props.new ≡ placed_in (parts_of s.now) props.old (tree_of value)) }
    ensures unchanged { OnErr result (props.new ≡ props.old) }
{
    match s.split_once('.') {
        None => set_property(alloc, props, s, value),
        Some((name, more)) => match props.find(name) {
            Some(before) => {
                let mut inner = copy_value(alloc, before)?;
                place(alloc, more, &mut inner, value)?;
                set_property(alloc, props, name, inner)
            }
            None => {
                let inner = nested(alloc, more, value)?;
                set_property(alloc, props, name, inner)
            }
        },
    }
}

fn set_property(alloc: Global, props: &mut Props, name: &str, value: Value) -> Result<(), NoMemory>
    requires room { MatchOption (get_member props.old name.now) (FitsOneMore props.old) (λ _. Unit {0}) }
    requires short { IsWithinLimit name.now }
    ensures stored { OnOk result (props.new ≡ set_member props.old name.now (tree_of value)) }
    ensures unchanged { OnErr result (props.new ≡ props.old) }
{
    match props.place_of(name) {
        Ok(at) => {
            let _ = props.replace(at, value)?;
            Ok(())
        }
        Err(_) => {
            let name = Text::copy_of(alloc, name)?;
            props.set(name, value)
        }
    }
}

/// Objects along the identifiers, the innermost with the value.
fn nested(alloc: Global, s: &str, value: Value) -> Result<Value, NoMemory>
    requires { IsWithinLimit s.now }
    ensures { IfOk result (λ r. tree_of r ≡ placed (parts_of s.now) (object no_members) (tree_of value)) }
{
    match s.split_once('.') {
        None => object_of(alloc, s, value),
        Some((name, more)) => {
            let inner = nested(alloc, more, value)?;
            object_of(alloc, name, inner)
        }
    }
}

fn object_of(alloc: Global, name: &str, value: Value) -> Result<Value, NoMemory>
    requires { IsWithinLimit name.now }
    ensures { IfOk result (λ r. tree_of r ≡ object (member_more name.now (tree_of value) no_members)) }
{
    let mut props = Props::new(alloc);
    let name = Text::copy_of(alloc, name)?;
    props.set(name, value)?;
    Ok(Value::Object(props))
}

/// The laws of injection by a key path: it leaves a well formed value well formed; and a key without members leaves a
/// value that can be cloned one that can be cloned. A path has at most 99 identifiers, so such a value is at most 100 deep.
pub fn injection_laws()
    ensures value { (path : PathSpec) (t : Tree) (k : KeyTree) → is_key_path path ≡ true
        → can_inject path t ≡ true → evaluated path t ≡ None → has_room_for path t ≡ true
        → IsValue t → IsKey k → IsValue (injected path t k) }
    ensures cloneable { (path : PathSpec) (t : Tree) (k : KeyTree) → is_key_path path ≡ true
        → key_depth k ≤ 1 → IsCloneable t → IsCloneable (injected path t k) }
{}
