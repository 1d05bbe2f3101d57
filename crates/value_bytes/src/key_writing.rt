// Keys, written as their bytes.
ghost use Rattle.std.specs.Prelude.{◌≡◌, ◌≤◌, ◌++◌, OnOk, OnErr};
ghost use Rattle.idb_base.specs.declared.limits.TheConstants.{GREATEST_DEPTH};
ghost use Rattle.clone_values.specs.KeyTree.{key_trees_of};
ghost use Rattle.clone_values.specs.KeyValues.{IsKey, key_depth};
ghost use Rattle.clone_values.specs.View.{key_tree_of};
ghost use Rattle.value_bytes.specs.KeySpelling.{SpellsKey, key_spelling_of, keys_field};
ghost use Rattle.value_bytes.specs.Writing.{BeginsWith};

use crate::put_fields::{put_byte, put_count, put_kind_number, put_kind_string};
use clone_values::{Key, Keys};
use idb_base::NoMemory;

/// Puts the spelling of the key at the end.
pub fn write_key(out: &mut Vec<u8>, key: &Key) -> Result<(), NoMemory>
    requires well_formed { IsKey (key_tree_of key.now) }
    requires depth { key_depth (key_tree_of key.now) ≤ GREATEST_DEPTH }
    ensures written { OnOk result (out.new.items ≡ out.old.items ++ key_spelling_of (key_tree_of key.now)) }
    ensures spelled { OnOk result (SpellsKey (key_spelling_of (key_tree_of key.now)) (key_tree_of key.now)) }
    ensures unchanged { OnErr result (out.new.items ≡ out.old.items) }
{
    let before = out.len();
    match put_key(out, key) {
        Ok(()) => Ok(()),
        Err(e) => {
            out.truncate(before);
            Err(e)
        }
    }
}

#[cycle(put)]
#[tactic(auto, using(clone_values::specs::Falls::smaller_key, crate::proofs::Puts::begins_more))]
fn put_key(out: &mut Vec<u8>, key: &Key) -> Result<(), NoMemory>
    ensures written { OnOk result (out.new.items ≡ out.old.items ++ key_spelling_of (key_tree_of key.now)) }
    ensures front { OnErr result (BeginsWith out.old.items out.new.items) }
{
    match key {
        Key::Number(n) => put_kind_number(out, 0x21, *n),
        Key::Date(d) => put_kind_number(out, 0x22, *d),
        Key::Text(s) => put_kind_string(out, 0x23, s.as_str().as_bytes()),
        Key::Binary(b) => put_kind_string(out, 0x24, b.as_slice()),
        Key::Array(keys) => {
            put_byte(out, 0x25)?;
            put_keys(out, keys)
        }
    }
}

#[cycle(put)]
#[tactic(auto, using(clone_values::specs::Falls::smaller_key, crate::proofs::Puts::begins_more, crate::proofs::Puts::begins_then))]
fn put_keys(out: &mut Vec<u8>, keys: &Keys) -> Result<(), NoMemory>
    ensures written { OnOk result (out.new.items ≡ out.old.items ++ keys_field (key_trees_of keys.now)) }
    ensures front { OnErr result (BeginsWith out.old.items out.new.items) }
{
    put_count(out, keys.len())?;
    for place in 0..keys.len() {
        if let Some(key) = keys.at(place) {
            put_key(out, key)?;
        }
    }
    Ok(())
}
