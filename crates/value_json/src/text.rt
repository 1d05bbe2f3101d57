// The text of a value or a key, with no document made of it.
ghost use Rattle.std.specs.Prelude.{◌≡◌, ◌++◌, IfOk, OnOk, OnErr};
ghost use Rattle.clone_values.specs.KeyValues.{value_of_key};
ghost use Rattle.clone_values.specs.View.{tree_of, key_tree_of};
ghost use Rattle.serde_json.specs.Written.{compact_text};
ghost use Rattle.value_json.specs.Writing.{json_of};

use crate::tokens::{write_key, write_value};
use clone_values::{Key, Value};
use idb_base::NoMemory;
use json::Writer;
use std::alloc::Global;

/// Puts the text of the value's document at the end, with no space, as `serde_json` writes it of what `value_to_json` gives.
pub fn push_value_text(alloc: Global, out: &mut Vec<u8>, v: &Value) -> Result<(), NoMemory>
    ensures written { OnOk result (out.new.items ≡ out.old.items ++ compact_text (json_of (tree_of v.now))) }
    ensures unchanged { OnErr result (out.new.items ≡ out.old.items) }
{
    let text = value_text(alloc, v)?;
    out.extend_from_slice(text.as_slice())?;
    Ok(())
}

/// Puts the text of the key's document at the end, with no space, as `serde_json` writes it of what `key_to_json` gives.
pub fn push_key_text(alloc: Global, out: &mut Vec<u8>, key: &Key) -> Result<(), NoMemory>
    ensures written { OnOk result
        (out.new.items ≡ out.old.items ++ compact_text (json_of (value_of_key (key_tree_of key.now)))) }
    ensures unchanged { OnErr result (out.new.items ≡ out.old.items) }
{
    let text = key_text(alloc, key)?;
    out.extend_from_slice(text.as_slice())?;
    Ok(())
}

#[tactic(auto, using(crate::proofs::TokensLemmas::printed))]
fn value_text(alloc: Global, v: &Value) -> Result<Vec<u8>, NoMemory>
    ensures { IfOk result (λ b. b.items ≡ compact_text (json_of (tree_of v.now))) }
{
    let mut out = Writer::new(Vec::with_capacity(alloc, 128)?);
    write_value(alloc, &mut out, v)?;
    Ok(out.into_inner())
}

#[tactic(auto, using(crate::proofs::TokensLemmas::printed))]
fn key_text(alloc: Global, key: &Key) -> Result<Vec<u8>, NoMemory>
    ensures { IfOk result (λ b. b.items ≡ compact_text (json_of (value_of_key (key_tree_of key.now)))) }
{
    let mut out = Writer::new(Vec::with_capacity(alloc, 128)?);
    write_key(alloc, &mut out, key)?;
    Ok(out.into_inner())
}
