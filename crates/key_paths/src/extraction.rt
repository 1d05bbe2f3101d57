// Extraction of keys from values by a key path.
ghost use Rattle.std.specs.Prelude.{◌≡◌, Bool, true, option_map, IfOk, IfSome, IsOk};
ghost use Rattle.clone_values.specs.Tree.{Tree};
ghost use Rattle.clone_values.specs.View.{tree_of};
ghost use Rattle.clone_values.specs.WellFormed.{IsValue};
ghost use Rattle.clone_values.specs.declared.path_types.PathSpec.{PathSpec};
ghost use Rattle.path_grammar.specs.KeyPath.{is_key_path};
ghost use Rattle.key_order.specs.Conversion.{key_of, fits_in_array};
ghost use Rattle.key_paths.specs.Evaluation.{evaluated, converted, AreKeys, extracted, extracted_from, one_or_invalid, invalid, failure};
ghost use Rattle.clone_values.specs.declared.path_types.PathSpec.TheVariants.{Many};
ghost use Rattle.key_paths.specs.View.{value_found, extract_of, extraction_of, key_or_invalid};

use crate::conversion::{fits_in_array, is_key, to_key};
use crate::evaluation::{Found, evaluate_list, string_found};
use crate::multi_entry::keys_of;
use clone_values::{Key, Keys, PathSpec, Texts, Value};
use idb_base::NoMemory;
use path_grammar::KeyPath;
use std::alloc::Global;

/// What an extraction comes to.
#[derive(Drop)]
pub enum Extracted {
    /// The key of what the path gives.
    One(Key),
    /// The keys of the valid items of an Array, each once, where multi-entry was asked for.
    Many(Keys),
    /// The path gives a value that is no key.
    Invalid,
    /// The path gives nothing.
    Failure,
}

/// What an extraction comes to, without its keys.
#[derive(Clone, Copy, Debug, PartialEq, Eq)]
pub enum Extraction {
    Key,
    Keys,
    Invalid,
    Failure,
}

/// The key or keys that a path gives on a value (Indexed Database API 3.0, "extract a key from a value using a key path").
/// Where there is none, no memory is asked for.
pub fn extract(alloc: Global, path: &KeyPath, multi: bool, v: &Value) -> Result<Extracted, NoMemory>
    ensures keys { IfOk result (λ r. extract_of r ≡ extracted path.now multi (tree_of v.now)) }
    ensures refused { extracted path.now multi (tree_of v.now) ≡ invalid → IsOk result }
    ensures failed { extracted path.now multi (tree_of v.now) ≡ failure → IsOk result }
{
    match path.spec() {
        PathSpec::One(string) => convert_found(alloc, multi, string_found(string.as_str(), v)),
        PathSpec::Many(strings) => extract_list(alloc, strings, multi, v),
    }
}

fn convert_found(alloc: Global, multi: bool, found: Found) -> Result<Extracted, NoMemory>
    ensures keys { IfOk result (λ r. extract_of r ≡ extracted_from multi (value_found found.entry)) }
    ensures refused { extracted_from multi (value_found found.entry) ≡ invalid → IsOk result }
    ensures failed { extracted_from multi (value_found found.entry) ≡ failure → IsOk result }
{
    match found {
        Found::Part(v) => convert(alloc, multi, v),
        Found::Length(n) => Ok(Extracted::One(Key::Number(n))),
        Found::Nothing => Ok(Extracted::Failure),
    }
}

#[tactic(auto, using(clone_values::proofs::Laws::trees_again))]
fn convert(alloc: Global, multi: bool, v: &Value) -> Result<Extracted, NoMemory>
    ensures keys { IfOk result (λ r. extract_of r ≡ converted multi (tree_of v.now)) }
    ensures refused { converted multi (tree_of v.now) ≡ invalid → IsOk result }
{
    match v {
        Value::Array(items, _) if multi => Ok(Extracted::Many(keys_of(alloc, items)?)),
        Value::Array(_, _) => convert_one(alloc, v),
        _ => convert_one(alloc, v),
    }
}

fn convert_one(alloc: Global, v: &Value) -> Result<Extracted, NoMemory>
    ensures keys { IfOk result (λ r. extract_of r ≡ one_or_invalid (key_of (tree_of v.now))) }
    ensures refused { one_or_invalid (key_of (tree_of v.now)) ≡ invalid → IsOk result }
{
    match to_key(alloc, v)? {
        Some(key) => Ok(Extracted::One(key)),
        None => Ok(Extracted::Invalid),
    }
}

fn extract_list(
    alloc: Global,
    strings: &Texts,
    multi: bool,
    v: &Value,
) -> Result<Extracted, NoMemory>
    ensures keys { IfOk result (λ r. extract_of r ≡ extracted (Many strings.now) multi (tree_of v.now)) }
    ensures refused { extracted (Many strings.now) multi (tree_of v.now) ≡ invalid → IsOk result }
    ensures failed { extracted (Many strings.now) multi (tree_of v.now) ≡ failure → IsOk result }
{
    match list_would_extract(strings, multi, v) {
        Extraction::Failure => Ok(Extracted::Failure),
        Extraction::Invalid => Ok(Extracted::Invalid),
        Extraction::Key | Extraction::Keys => match evaluate_list(alloc, strings, v)? {
            Some(value) => convert(alloc, multi, &value),
            None => Ok(Extracted::Failure),
        },
    }
}

/// What the extraction by a path would come to on a value; it takes no memory.
pub fn would_extract(path: &KeyPath, multi: bool, v: &Value) -> Extraction
    ensures { result ≡ extraction_of (extracted path.now multi (tree_of v.now)) }
{
    match path.spec() {
        PathSpec::One(string) => would_convert(multi, string_found(string.as_str(), v)),
        PathSpec::Many(strings) => list_would_extract(strings, multi, v),
    }
}

fn would_convert(multi: bool, found: Found) -> Extraction
    ensures { result ≡ extraction_of (extracted_from multi (value_found found.entry)) }
{
    match found {
        Found::Part(v) => value_would_convert(multi, v),
        Found::Length(_) => Extraction::Key,
        Found::Nothing => Extraction::Failure,
    }
}

fn value_would_convert(multi: bool, v: &Value) -> Extraction
    ensures { result ≡ extraction_of (converted multi (tree_of v.now)) }
{
    match v {
        Value::Array(_, _) if multi => Extraction::Keys,
        Value::Array(_, _) => one_would_convert(v),
        _ => one_would_convert(v),
    }
}

#[tactic(auto, using(crate::proofs::Extracting::kind_of_one))]
fn one_would_convert(v: &Value) -> Extraction
    ensures { result ≡ extraction_of (one_or_invalid (key_of (tree_of v.now))) }
{
    key_or_invalid(is_key(v))
}

fn key_or_invalid(is_key: bool) -> Extraction
    ensures { result ≡ key_or_invalid is_key }
{
    if is_key {
        Extraction::Key
    } else {
        Extraction::Invalid
    }
}

fn list_would_extract(strings: &Texts, multi: bool, v: &Value) -> Extraction
    ensures { result ≡ extraction_of (extracted (Many strings.now) multi (tree_of v.now)) }
{
    let mut are_keys = true;
    for place in 0..strings.len() {
        if let Some(string) = strings.at(place) {
            match found_fits(string_found(string.as_str(), v)) {
                Some(fits) => are_keys = are_keys & fits,
                None => return Extraction::Failure,
            }
        }
    }
    if multi {
        return Extraction::Keys;
    }
    key_or_invalid(are_keys)
}

/// Whether an Array with what was found can have a key; `None` where nothing was.
fn found_fits(found: Found) -> Option<bool>
    ensures { result ≡ option_map fits_in_array (value_found found.entry) }
{
    match found {
        Found::Part(v) => Some(fits_in_array(v)),
        Found::Length(_) => Some(true),
        Found::Nothing => None,
    }
}

/// The laws of a key path on a well formed value: the value that it gives is well formed, and so is each key.
pub fn extraction_laws()
    ensures value { (path : PathSpec) (t : Tree) → is_key_path path ≡ true → IsValue t
        → IfSome (evaluated path t) IsValue }
    ensures keys { (path : PathSpec) (multi : Bool) (t : Tree) → is_key_path path ≡ true → IsValue t
        → AreKeys (extracted path multi t) }
{}
