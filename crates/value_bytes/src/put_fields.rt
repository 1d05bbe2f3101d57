// The fields that spellings are made of, written at the end of a vector. Where memory runs out the vector begins as it
// did: a caller that takes care of a refusal cuts it off where it ended.
ghost use Rattle.std.specs.Prelude.{◌≡◌, ◌≤◌, [], ◌∷◌, ◌++◌, OnOk, OnErr};
ghost use Rattle.idb_base.specs.Lists.{IsWithinLimit};
ghost use Rattle.idb_base.specs.declared.limits.TheConstants.{GREATEST_LENGTH};
ghost use Rattle.value_bytes.specs.Spelling.{count_bytes, number_bytes, word_bytes, string_bytes};
ghost use Rattle.value_bytes.specs.Writing.{BeginsWith};

use idb_base::NoMemory;

/// Puts one byte.
pub fn put_byte(out: &mut Vec<u8>, byte: u8) -> Result<(), NoMemory>
    ensures written { OnOk result (out.new.items ≡ out.old.items ++ byte ∷ []) }
    ensures front { OnErr result (BeginsWith out.old.items out.new.items) }
{
    out.push(byte)?;
    Ok(())
}

/// Puts a count or a length: four bytes, the highest first.
pub fn put_count(out: &mut Vec<u8>, count: usize) -> Result<(), NoMemory>
    requires { count ≤ GREATEST_LENGTH }
    ensures written { OnOk result (out.new.items ≡ out.old.items ++ count_bytes count) }
    ensures front { OnErr result (BeginsWith out.old.items out.new.items) }
{
    out.extend_from_slice(&(count as u32).to_be_bytes())?;
    Ok(())
}

/// Puts a whole number: eight bytes in two's complement, the highest first.
pub fn put_number(out: &mut Vec<u8>, number: i64) -> Result<(), NoMemory>
    ensures written { OnOk result (out.new.items ≡ out.old.items ++ number_bytes number) }
    ensures front { OnErr result (BeginsWith out.old.items out.new.items) }
{
    out.extend_from_slice(&number.to_be_bytes())?;
    Ok(())
}

/// Puts a natural number: eight bytes, the highest first.
pub fn put_word(out: &mut Vec<u8>, number: u64) -> Result<(), NoMemory>
    ensures written { OnOk result (out.new.items ≡ out.old.items ++ word_bytes number) }
    ensures front { OnErr result (BeginsWith out.old.items out.new.items) }
{
    out.extend_from_slice(&number.to_be_bytes())?;
    Ok(())
}

/// Puts the length of a text or a byte string, and its bytes.
pub fn put_string(out: &mut Vec<u8>, string: &[u8]) -> Result<(), NoMemory>
    requires { IsWithinLimit string.now }
    ensures written { OnOk result (out.new.items ≡ out.old.items ++ string_bytes string.now) }
    ensures front { OnErr result (BeginsWith out.old.items out.new.items) }
{
    put_count(out, string.len())?;
    out.extend_from_slice(string)?;
    Ok(())
}

/// Puts the byte of a kind, and a whole number.
#[tactic(auto, using(crate::proofs::Puts::begins_more))]
pub(crate) fn put_kind_number(out: &mut Vec<u8>, kind: u8, number: i64) -> Result<(), NoMemory>
    ensures written { OnOk result (out.new.items ≡ out.old.items ++ kind ∷ number_bytes number) }
    ensures front { OnErr result (BeginsWith out.old.items out.new.items) }
{
    put_byte(out, kind)?;
    put_number(out, number)
}

/// Puts the byte of a kind, the length of a text or a byte string, and its bytes.
#[tactic(auto, using(crate::proofs::Puts::begins_more))]
pub(crate) fn put_kind_string(out: &mut Vec<u8>, kind: u8, string: &[u8]) -> Result<(), NoMemory>
    requires { IsWithinLimit string.now }
    ensures written { OnOk result (out.new.items ≡ out.old.items ++ kind ∷ string_bytes string.now) }
    ensures front { OnErr result (BeginsWith out.old.items out.new.items) }
{
    put_byte(out, kind)?;
    put_string(out, string)
}
