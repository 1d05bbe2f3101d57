// Key paths: the grammar of their strings (Indexed Database API 3.0, "valid key path").
//
// Layers above hold a `KeyPath`, which contracts see as the `PathSpec` that it was read from, always a valid one.
#![tactic(auto)]

ghost use Rattle.std.specs.Prelude.{◌≡◌, ◌≤◌, ◌==◌, ◌↔◌, ℕ, List, nat_le, true, length, IsTrue, IfOk, OnOk, IsErrOf, IsOkUnless, false};
ghost use Rattle.std.specs.List.{list_all};
ghost use Rattle.std.specs.Str.{chars};
ghost use Rattle.path_grammar.specs.KeyPath.{starts_identifier, continues_identifier, is_identifier, parts_of, is_part_name, fits_grammar, is_path_string, is_key_path};

use clone_values::{PathSpec, Text, Texts};
use idb_base::NoMemory;
use std::alloc::Global;
use std::marker::Model;

/// The greatest number of identifiers in one string.
pub const GREATEST_PART_COUNT: usize = 99;

/// Why a key path was not read.
#[derive(Clone, Copy, Debug, PartialEq, Eq)]
pub enum PathError {
    /// A string is neither empty nor at most 99 identifiers joined by single full stops, or the list is empty.
    Syntax,
    /// Memory ran out.
    NoMemory,
}

/// A valid key path; contracts see the string or the list of strings that it was read from.
#[derive(Debug, Drop)]
pub struct KeyPath {
    spec: PathSpec,
}

impl Model for KeyPath {
    ghost use Rattle.std.specs.Prelude.{◌≡◌, true};
    ghost use Rattle.clone_values.specs.declared.path_types.PathSpec.{PathSpec};

    ghost Value = { PathSpec };

    ghost use Rattle.path_grammar.specs.KeyPath.{is_key_path};

    ghost view = { λ a. a.spec };

    ghost invariant = { λ a. is_key_path a.spec ≡ true };
}

impl KeyPath {
    /// Reads a key path. It takes no memory, and answers no error but `Syntax`.
    pub fn parse(spec: PathSpec) -> Result<KeyPath, PathError>
        ensures read { IfOk result (λ p. p ≡ spec) }
        ensures valid { OnOk result (is_key_path spec ≡ true) }
        ensures refused { IsErrOf result PathError.Syntax ↔ (is_key_path spec ≡ false) }
        ensures no_other { IsOkUnless result PathError.Syntax }
    {
        if !is_key_path(&spec) {
            return Err(PathError::Syntax);
        }
        Ok(KeyPath { spec })
    }

    /// What the path was read from.
    pub fn spec(&self) -> &PathSpec
        ensures value { result.now ≡ self.now }
        ensures valid { is_key_path self.now ≡ true }
    {
        &self.spec
    }

    /// An equal path.
    pub fn copy(&self, alloc: Global) -> Result<KeyPath, NoMemory>
        ensures { IfOk result (λ p. p ≡ self.now) }
    {
        Ok(KeyPath {
            spec: self.spec.copy(alloc)?,
        })
    }
}

/// Whether the string, or each string of the list, is a key path: what `parse` takes. It takes no memory.
pub fn is_key_path(spec: &PathSpec) -> bool
    ensures { result ≡ is_key_path spec.now }
{
    match spec {
        PathSpec::One(string) => is_path_string(string),
        PathSpec::Many(strings) => strings.len() != 0 && are_path_strings(strings),
    }
}

fn are_path_strings(strings: &Texts) -> bool
    ensures { result ≡ list_all is_path_string strings.now }
{
    for place in 0..strings.len() {
        if let Some(string) = strings.at(place) {
            if !is_path_string(string) {
                return false;
            }
        }
    }
    true
}

/// Whether the string is a key path.
#[tactic(auto, using(crate::proofs::PathParts::is_path))]
fn is_path_string(string: &Text) -> bool
    ensures { result ≡ is_path_string string.now }
{
    fits_grammar(string.as_str())
}

fn fits_grammar(s: &str) -> bool
    ensures { result ≡ fits_grammar s.now }
{
    s.is_empty() || (has_few_parts(s.as_bytes()) && are_identifiers(s))
}

/// Whether the full stops make few enough parts.
fn has_few_parts(s: &[u8]) -> bool
    ensures { result ≡ nat_le (length (parts_of s.now)) GREATEST_PART_COUNT }
{
    s.iter().filter(|b| **b == b'.').count() < GREATEST_PART_COUNT
}

/// Whether each part is an identifier.
fn are_identifiers(s: &str) -> bool
    ensures { result ≡ list_all (λ p. is_identifier (chars p)) (parts_of s.now) }
{
    s.split('.').all(|part| is_identifier(part))
}

fn is_identifier(part: &str) -> bool
    ensures { result ≡ is_identifier (chars part.now) }
{
    let mut rest = part.chars();
    match rest.next() {
        Some(first) => starts_identifier(first) && rest.all(|c| continues_identifier(c)),
        None => false,
    }
}

fn starts_identifier(c: char) -> bool
    ensures { result ≡ starts_identifier c }
{
    c == '$' || c == '_' || unicode_ident::is_xid_start(c)
}

fn continues_identifier(c: char) -> bool
    ensures { result ≡ continues_identifier c }
{
    c == '$' || c == '\u{200C}' || c == '\u{200D}' || unicode_ident::is_xid_continue(c)
}

/// The laws of the parts of a string: there is one, and those of a key path are names for properties.
pub fn path_grammar_laws()
    ensures some { (s : List ℕ) → 1 ≤ length (parts_of s) }
    ensures few { (s : List ℕ) → is_path_string s ≡ true → length (parts_of s) ≤ GREATEST_PART_COUNT }
    ensures names { (s : List ℕ) → is_path_string s ≡ true → (length s == 0) ≡ false
        → list_all is_part_name (parts_of s) ≡ true }
{}
