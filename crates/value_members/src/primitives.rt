// Primitives in an order of their own, by which a set of them halves.
ghost use Rattle.std.specs.Prelude.{◌≡◌, true, false, MatchOption, IfOk};
ghost use Rattle.clone_values.specs.View.{tree_of};
ghost use Rattle.clone_values.specs.Sameness.{is_primitive};
ghost use Rattle.value_members.specs.Primitives.{mark_of};
ghost use Rattle.value_members.specs.Shown.{mark_shown, key_mark_shown};

use clone_values::Value;
use idb_base::NoMemory;
use std::alloc::Global;

/// What a primitive is told apart by: its kind, its number and its text.
#[derive(Clone, Copy, PartialEq, Eq, PartialOrd, Ord)]
pub(crate) struct Primitive<'a> {
    pub(crate) kind: u8,
    pub(crate) number: i64,
    pub(crate) text: &'a str,
}

/// The same, owned.
#[derive(PartialEq, Eq, PartialOrd, Ord, Drop)]
pub(crate) struct PrimitiveKey {
    pub(crate) kind: u8,
    pub(crate) number: i64,
    pub(crate) text: String,
}

/// The primitive that a value is, if it is one.
pub(crate) fn primitive_of(v: &Value) -> Option<Primitive<'_>>
    ensures { MatchOption result (is_primitive (tree_of v.now) ≡ false)
        (λ p. (is_primitive (tree_of v.now) ≡ true) × (mark_shown p ≡ mark_of (tree_of v.now))) }
{
    let (kind, number, text) = match v {
        Value::Undefined => (0, 0, ""),
        Value::Null => (1, 0, ""),
        Value::Bool(b) => (2, if *b { 1 } else { 0 }, ""),
        Value::Int(n) => (3, *n, ""),
        Value::Text(s) => (4, 0, s.as_str()),
        _ => return None,
    };
    Some(Primitive { kind, number, text })
}

/// The same, owned.
pub(crate) fn key_of(alloc: Global, v: &Value) -> Result<Option<PrimitiveKey>, NoMemory>
    ensures { IfOk result (λ key. MatchOption key (is_primitive (tree_of v.now) ≡ false)
        (λ p. (is_primitive (tree_of v.now) ≡ true) × (key_mark_shown p ≡ mark_of (tree_of v.now)))) }
{
    match primitive_of(v) {
        Some(primitive) => Ok(Some(PrimitiveKey {
            kind: primitive.kind,
            number: primitive.number,
            text: String::from_str(alloc, primitive.text)?,
        })),
        None => Ok(None),
    }
}
