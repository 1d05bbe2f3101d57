// Records, written as their bytes.
ghost use Rattle.std.specs.Prelude.{◌≡◌, ◌++◌, ◌∷◌, length, true, OnOk, OnErr};
ghost use Rattle.std.specs.List.{AllByRecursion, flat_map};
ghost use Rattle.idb_base.specs.Lists.{IsWithinLimit};
ghost use Rattle.clone_values.specs.View.{key_tree_of, tree_of};
ghost use Rattle.clone_values.specs.WellFormed.{is_text};
ghost use Rattle.idb_calls.specs.View.{delta_of};
ghost use Rattle.value_bytes.specs.Spelling.{string_bytes, count_bytes, spelling_of, SpellsValue};
ghost use Rattle.value_bytes.specs.KeySpelling.{key_spelling_of, SpellsKey};
ghost use Rattle.value_bytes.specs.Writing.{BeginsWith};
ghost use Rattle.record_bytes.specs.Loggable.{HasLoggableParts, IsNamed};
ghost use Rattle.record_bytes.specs.Spelling.{flag_bytes, key_path_spelling, path_spelling, store_name_bytes, index_name_bytes, delta_spelling, record_spelling};
ghost use Rattle.record_bytes.specs.Records.{recorded, IsRecord, SpellsRecord};

use clone_values::{Key, PathSpec, Text, Texts, Value};
use idb_base::NoMemory;
use idb_calls::{Delta, Deltas, TxTrace};
use path_grammar::KeyPath;
use value_bytes::{put_byte, put_count, put_string, put_word, write_key, write_value};

/// Puts the record of a transaction's changes at the end.
pub fn write_record(out: &mut Vec<u8>, trace: &TxTrace) -> Result<(), NoMemory>
    requires count { IsWithinLimit trace.now.deltas }
    requires parts { AllByRecursion HasLoggableParts trace.now.deltas }
    ensures written { OnOk result (out.new.items ≡ out.old.items ++ record_spelling (recorded trace.now)) }
    ensures spelled { OnOk result (SpellsRecord (record_spelling (recorded trace.now)) (recorded trace.now)) }
    ensures unchanged { OnErr result (out.new.items ≡ out.old.items) }
{
    let before = out.len();
    match put_record(out, trace) {
        Ok(()) => Ok(()),
        Err(e) => {
            out.truncate(before);
            Err(e)
        }
    }
}

/// Whether memory sufficed; where it didn't, the vector begins as it did.
#[tactic(auto, using(crate::proofs::Puts::fits_record, value_bytes::proofs::Laws::begins_more))]
fn put_record(out: &mut Vec<u8>, trace: &TxTrace) -> Result<(), NoMemory>
    requires count { IsWithinLimit trace.now.deltas }
    requires parts { AllByRecursion HasLoggableParts trace.now.deltas }
    ensures written { OnOk result (out.new.items ≡ out.old.items ++ record_spelling (recorded trace.now)) }
    ensures fits { OnOk result (IsRecord (recorded trace.now)) }
    ensures front { OnErr result (BeginsWith out.old.items out.new.items) }
{
    put_word(out, trace.number)?;
    put_deltas(out, &trace.deltas)
}

#[tactic(auto, using(crate::proofs::Puts::named_more, value_bytes::proofs::Laws::begins_more, value_bytes::proofs::Laws::begins_then))]
fn put_deltas(out: &mut Vec<u8>, deltas: &Deltas) -> Result<(), NoMemory>
    requires count { IsWithinLimit deltas.now }
    requires parts { AllByRecursion HasLoggableParts deltas.now }
    ensures written { OnOk result (out.new.items
        ≡ out.old.items ++ (count_bytes (length deltas.now) ++ flat_map delta_spelling deltas.now)) }
    ensures named { OnOk result (AllByRecursion IsNamed deltas.now) }
    ensures front { OnErr result (BeginsWith out.old.items out.new.items) }
{
    put_count(out, deltas.len())?;
    for place in 0..deltas.len() {
        if let Some(delta) = deltas.at(place) {
            name_delta(delta);
            put_delta(out, delta)?;
        }
    }
    Ok(())
}

/// What the types of a change say: its names are texts, and its paths key paths.
fn name_delta(delta: &Delta)
    ensures { IsNamed (delta_of delta.now) }
{
    match delta {
        Delta::Version { db, version: _ } => name(db),
        Delta::DropDatabase { db } => name(db),
        Delta::CreateStore {
            db,
            store,
            path,
            auto: _,
        } => {
            name(db);
            name(store);
            if let Some(path) = path {
                let _spec = path.spec();
            }
        }
        Delta::DropStore { db, store } => {
            name(db);
            name(store);
        }
        Delta::CreateIndex {
            db,
            store,
            index,
            path,
            unique: _,
            multi: _,
        } => {
            name(db);
            name(store);
            name(index);
            let _spec = path.spec();
        }
        Delta::DropIndex { db, store, index } => {
            name(db);
            name(store);
            name(index);
        }
        Delta::Put {
            db,
            store,
            key: _,
            value: _,
        } => {
            name(db);
            name(store);
        }
        Delta::Remove { db, store, key: _ } => {
            name(db);
            name(store);
        }
        Delta::Clear { db, store } => {
            name(db);
            name(store);
        }
        Delta::Current {
            db,
            store,
            current: _,
        } => {
            name(db);
            name(store);
        }
    }
}

/// A name is a text.
#[tactic(auto, using(crate::proofs::Named::is_named))]
fn name(name: &Text)
    ensures { is_text name.now ≡ true }
{
    let _characters = name.as_str();
}

fn put_name(out: &mut Vec<u8>, name: &Text) -> Result<(), NoMemory>
    ensures written { OnOk result (out.new.items ≡ out.old.items ++ string_bytes name.now) }
    ensures front { OnErr result (BeginsWith out.old.items out.new.items) }
{
    put_string(out, name.as_str().as_bytes())
}

/// The byte of a change, and the name of a store behind that of its database.
#[tactic(auto, using(value_bytes::proofs::Laws::begins_more, value_bytes::proofs::Laws::begins_then))]
fn put_store_name(out: &mut Vec<u8>, kind: u8, db: &Text, store: &Text) -> Result<(), NoMemory>
    ensures written { OnOk result (out.new.items
        ≡ out.old.items ++ kind ∷ store_name_bytes db.now store.now) }
    ensures front { OnErr result (BeginsWith out.old.items out.new.items) }
{
    put_byte(out, kind)?;
    put_name(out, db)?;
    put_name(out, store)
}

#[tactic(auto, using(value_bytes::proofs::Laws::begins_more, value_bytes::proofs::Laws::begins_then))]
fn put_index_name(
    out: &mut Vec<u8>,
    kind: u8,
    db: &Text,
    store: &Text,
    index: &Text,
) -> Result<(), NoMemory>
    ensures written { OnOk result (out.new.items
        ≡ out.old.items ++ kind ∷ index_name_bytes db.now store.now index.now) }
    ensures front { OnErr result (BeginsWith out.old.items out.new.items) }
{
    put_store_name(out, kind, db, store)?;
    put_name(out, index)
}

fn put_flag(out: &mut Vec<u8>, flag: bool) -> Result<(), NoMemory>
    ensures written { OnOk result (out.new.items ≡ out.old.items ++ flag_bytes flag) }
    ensures front { OnErr result (BeginsWith out.old.items out.new.items) }
{
    match flag {
        false => put_byte(out, 0x00),
        true => put_byte(out, 0x01),
    }
}

/// A count, and the strings.
#[tactic(auto, using(value_bytes::proofs::Laws::begins_more, value_bytes::proofs::Laws::begins_then))]
fn put_texts(out: &mut Vec<u8>, texts: &Texts) -> Result<(), NoMemory>
    ensures written { OnOk result (out.new.items
        ≡ out.old.items ++ (count_bytes (length texts.now) ++ flat_map string_bytes texts.now)) }
    ensures front { OnErr result (BeginsWith out.old.items out.new.items) }
{
    put_count(out, texts.len())?;
    for place in 0..texts.len() {
        if let Some(text) = texts.at(place) {
            put_name(out, text)?;
        }
    }
    Ok(())
}

#[tactic(auto, using(value_bytes::proofs::Laws::begins_more, value_bytes::proofs::Laws::begins_then))]
fn put_key_path(out: &mut Vec<u8>, path: &KeyPath) -> Result<(), NoMemory>
    ensures written { OnOk result (out.new.items ≡ out.old.items ++ key_path_spelling path.now) }
    ensures front { OnErr result (BeginsWith out.old.items out.new.items) }
{
    match path.spec() {
        PathSpec::One(string) => {
            put_byte(out, 0x41)?;
            put_name(out, string)
        }
        PathSpec::Many(strings) => {
            put_byte(out, 0x42)?;
            put_texts(out, strings)
        }
    }
}

fn put_path(out: &mut Vec<u8>, path: &Option<KeyPath>) -> Result<(), NoMemory>
    ensures written { OnOk result (out.new.items ≡ out.old.items ++ path_spelling path.now) }
    ensures front { OnErr result (BeginsWith out.old.items out.new.items) }
{
    match path {
        None => put_byte(out, 0x40),
        Some(path) => put_key_path(out, path),
    }
}

/// The key path of a store, and whether it has a generator.
#[tactic(auto, using(value_bytes::proofs::Laws::begins_more, value_bytes::proofs::Laws::begins_then))]
fn put_store_kind(out: &mut Vec<u8>, path: &Option<KeyPath>, auto: bool) -> Result<(), NoMemory>
    ensures written { OnOk result (out.new.items
        ≡ out.old.items ++ (path_spelling path.now ++ flag_bytes auto)) }
    ensures front { OnErr result (BeginsWith out.old.items out.new.items) }
{
    put_path(out, path)?;
    put_flag(out, auto)
}

/// The key path of an index, and whether it is unique and multi-entry.
#[tactic(auto, using(value_bytes::proofs::Laws::begins_more, value_bytes::proofs::Laws::begins_then))]
fn put_index_kind(
    out: &mut Vec<u8>,
    path: &KeyPath,
    unique: bool,
    multi: bool,
) -> Result<(), NoMemory>
    ensures written { OnOk result (out.new.items
        ≡ out.old.items ++ (key_path_spelling path.now ++ (flag_bytes unique ++ flag_bytes multi))) }
    ensures front { OnErr result (BeginsWith out.old.items out.new.items) }
{
    put_key_path(out, path)?;
    put_flag(out, unique)?;
    put_flag(out, multi)
}

/// A record's key and its value.
#[tactic(auto, using(value_bytes::proofs::Laws::begins_more, value_bytes::proofs::Laws::begins_then))]
fn put_entry(out: &mut Vec<u8>, key: &Key, value: &Value) -> Result<(), NoMemory>
    requires key { SpellsKey (key_spelling_of (key_tree_of key.now)) (key_tree_of key.now) }
    requires value { SpellsValue (spelling_of (tree_of value.now)) (tree_of value.now) }
    ensures written { OnOk result (out.new.items
        ≡ out.old.items ++ (key_spelling_of (key_tree_of key.now) ++ spelling_of (tree_of value.now))) }
    ensures front { OnErr result (BeginsWith out.old.items out.new.items) }
{
    write_key(out, key)?;
    write_value(out, value)
}

#[tactic(auto, using(value_bytes::proofs::Laws::begins_more, value_bytes::proofs::Laws::begins_then))]
fn put_delta(out: &mut Vec<u8>, delta: &Delta) -> Result<(), NoMemory>
    requires { HasLoggableParts (delta_of delta.now) }
    ensures written { OnOk result (out.new.items ≡ out.old.items ++ delta_spelling (delta_of delta.now)) }
    ensures front { OnErr result (BeginsWith out.old.items out.new.items) }
{
    match delta {
        Delta::Version { db, version } => {
            put_byte(out, 0x31)?;
            put_name(out, db)?;
            put_word(out, *version)
        }
        Delta::DropDatabase { db } => {
            put_byte(out, 0x32)?;
            put_name(out, db)
        }
        Delta::CreateStore {
            db,
            store,
            path,
            auto,
        } => {
            put_store_name(out, 0x33, db, store)?;
            put_store_kind(out, path, *auto)
        }
        Delta::DropStore { db, store } => put_store_name(out, 0x34, db, store),
        Delta::CreateIndex {
            db,
            store,
            index,
            path,
            unique,
            multi,
        } => {
            put_index_name(out, 0x35, db, store, index)?;
            put_index_kind(out, path, *unique, *multi)
        }
        Delta::DropIndex { db, store, index } => put_index_name(out, 0x36, db, store, index),
        Delta::Put {
            db,
            store,
            key,
            value,
        } => {
            put_store_name(out, 0x37, db, store)?;
            put_entry(out, key, value)
        }
        Delta::Remove { db, store, key } => {
            put_store_name(out, 0x38, db, store)?;
            write_key(out, key)
        }
        Delta::Clear { db, store } => put_store_name(out, 0x39, db, store),
        Delta::Current { db, store, current } => {
            put_store_name(out, 0x3a, db, store)?;
            put_word(out, *current)
        }
    }
}
