// The order of keys (Indexed Database API 3.0, "compare two keys"): by type, and then by value.
//
// Layers above keep records by `key_cmp`, which is a total order in which only equal keys tie; `compare` answers it.
#![tactic(auto)]

ghost use Rattle.std.specs.Prelude.{◌≡◌, ◌≢◌, ℕ, ◌≤◌, ◌⊎◌, List, length, take};
ghost use Rattle.std.specs.Ordering.{nat_cmp, on};
ghost use Rattle.std.specs.Cmp.{IsTotalOrder};
ghost use Rattle.std.specs.Cmp.Lexicographic.{slice_cmp};
ghost use Rattle.std.specs.FinMap.{IsAntisymmetric};
ghost use Rattle.std.specs.Str.{IsUtf8};
ghost use Rattle.clone_values.specs.View.{key_tree_of};
ghost use Rattle.clone_values.specs.KeyTree.{key_trees_of};
ghost use Rattle.key_order.specs.KeyOrder.{key_cmp, keys_cmp, text_cmp, byte_rank, type_rank, code_units, DifferAt, SurrogateMeetsHigh};

pub use clone_values::{Key, Keys, Text};
use std::cmp::Ordering;

/// The bytes that are passed over at once where two strings begin alike.
const BLOCK: usize = 16;

/// The order of two keys; it takes no memory, and time in proportion to the shorter. Small, so that two numbers are
/// compared where it is called.
pub fn compare(a: &Key, b: &Key) -> Ordering
    ensures { result ≡ key_cmp (key_tree_of a.now) (key_tree_of b.now) }
{
    match (a, b) {
        (Key::Number(x), Key::Number(y)) => x.cmp(y),
        _ => compare_any(a, b),
    }
}

#[cycle(compare)]
#[inline(never)]
#[tactic(auto, using(clone_values::specs::Falls::smaller_key))]
fn compare_any(a: &Key, b: &Key) -> Ordering
    ensures { result ≡ key_cmp (key_tree_of a.now) (key_tree_of b.now) }
{
    match (a, b) {
        (Key::Number(x), Key::Number(y)) => x.cmp(y),
        (Key::Date(x), Key::Date(y)) => x.cmp(y),
        (Key::Text(x), Key::Text(y)) => compare_texts(x.as_str(), y.as_str()),
        (Key::Binary(x), Key::Binary(y)) => x.as_slice().cmp(y.as_slice()),
        (Key::Array(x), Key::Array(y)) => compare_lists(x, y),
        _ => type_rank(a).cmp(&type_rank(b)),
    }
}

#[cycle(compare)]
#[tactic(auto, using(clone_values::specs::Falls::smaller_key))]
fn compare_lists(a: &Keys, b: &Keys) -> Ordering
    ensures { result ≡ keys_cmp (key_trees_of a.now) (key_trees_of b.now) }
{
    for place in 0..a.len() {
        if let Some(x) = a.at(place) {
            match b.at(place) {
                Some(y) => match compare_any(x, y) {
                    Ordering::Equal => {}
                    other => return other,
                },
                None => return Ordering::Greater,
            }
        }
    }
    match b.at(a.len()) {
        Some(_) => Ordering::Less,
        None => Ordering::Equal,
    }
}

/// Where the key's type stands: number, date, string, binary, array.
pub fn type_rank(key: &Key) -> u8
    ensures { result ≡ type_rank (key_tree_of key.now) }
{
    match key {
        Key::Number(_) => 0,
        Key::Date(_) => 1,
        Key::Text(_) => 2,
        Key::Binary(_) => 3,
        Key::Array(_) => 4,
    }
}

/// The order of two texts by their UTF-16 code units, which are not written out: that of their bytes, but that U+E000 to
/// U+FFFF stand behind the characters above, which are written with surrogates. It takes no memory, and time in proportion to
/// the shorter.
pub fn compare_texts(a: &str, b: &str) -> Ordering
    ensures { result ≡ text_cmp a.now b.now }
{
    compare_ranked(a.as_bytes(), b.as_bytes())
}

/// The order of two lists of bytes by the ranks of the first that differ.
fn compare_ranked(a: &[u8], b: &[u8]) -> Ordering
    ensures { result ≡ slice_cmp (on byte_rank nat_cmp) a.now b.now }
{
    for place in same_front(a, b)..a.len().min(b.len()) {
        if a[place] != b[place] {
            return byte_rank(a[place]).cmp(&byte_rank(b[place]));
        }
    }
    a.len().cmp(&b.len())
}

/// How many bytes in front are the same, in whole blocks.
fn same_front(a: &[u8], b: &[u8]) -> usize
    ensures within { (result ≤ length a.now) × (result ≤ length b.now) }
    ensures same { take result a.now ≡ take result b.now }
{
    let mut place = 0;
    while place + BLOCK <= a.len().min(b.len()) {
        if a[place..place + BLOCK] != b[place..place + BLOCK] {
            return place;
        }
        place += BLOCK;
    }
    place
}

/// The leading bytes of U+E000 to U+FFFF stand behind those of the characters above.
fn byte_rank(b: u8) -> u16
    ensures { result ≡ byte_rank b }
{
    if b == 0xEE || b == 0xEF {
        u16::from(b) + 18
    } else {
        u16::from(b)
    }
}

/// The laws of the order: it is total, only equal keys tie, and the order of UTF-8 bytes differs from it only where a
/// surrogate meets a code unit from U+E000 on.
pub fn key_order_laws()
    ensures total { IsTotalOrder key_cmp }
    ensures same { IsAntisymmetric key_cmp }
    ensures bytes_differ { (s t : List ℕ) → IsUtf8 s → IsUtf8 t → text_cmp s t ≢ slice_cmp nat_cmp s t
        → (u : ℕ) × (v : ℕ) × DifferAt (code_units s) (code_units t) u v
        × (SurrogateMeetsHigh u v ⊎ SurrogateMeetsHigh v u) }
{}
