use clone_values::{
    Bytes, Items, Key, Keys, Pairs, Props, Text, Value, clone_value, same_value, well_formed,
};
use idb_base::{GREATEST_LENGTH, NoMemory};
use std::alloc::Global;
use std::fmt::Write;
use std::process::Abort;
use value_bytes::*;

fn text(rt: &impl Abort, alloc: Global, s: &str) -> Text {
    assert!(rt; s.len() <= GREATEST_LENGTH);
    Text::copy_of(alloc, s).expect(rt, "memory")
}

fn one_item(rt: &impl Abort, alloc: Global, item: Value) -> Items {
    let mut items = Items::new(alloc);
    items.push(item).expect(rt, "memory");
    items
}

fn one_prop(rt: &impl Abort, alloc: Global, name: &str, value: Value) -> Props {
    let mut props = Props::new(alloc);
    props.set(text(rt, alloc, name), value).expect(rt, "memory");
    props
}

/// The bytes of a value, behind one that was there.
fn written(rt: &impl Abort, alloc: Global, value: &Value) -> Vec<u8> {
    assert!(rt; well_formed(value) && clone_value(alloc, value).is_ok());
    let mut out = Vec::new(alloc);
    out.push(7).expect(rt, "memory");
    write_value(&mut out, value).expect(rt, "memory");
    out
}

fn is_written_as(rt: &impl Abort, alloc: Global, value: &Value, bytes: &[u8]) -> bool {
    let out = written(rt, alloc, value);
    out.as_slice().get(1..) == Some(bytes) && value_size(value) == bytes.len() as u64
}

/// Whether the value is read from this place on, to this end.
fn is_read_from(
    rt: &impl Abort,
    alloc: Global,
    value: &Value,
    bytes: &[u8],
    from: usize,
    end: usize,
) -> bool {
    let (found, found_end) = read_value(alloc, bytes, from).expect(rt, "a value");
    same_value(&found, value) && found_end == end
}

fn is_refused(alloc: Global, bytes: &[u8], from: usize) -> bool {
    matches!(
        read_value(alloc, bytes, from),
        Err(SpellingError::NotInGrammar)
    )
}

fn is_refused_key(alloc: Global, bytes: &[u8], from: usize) -> bool {
    matches!(
        read_key(alloc, bytes, from),
        Err(SpellingError::NotInGrammar)
    )
}

fn is_each_front_refused(alloc: Global, bytes: &[u8]) -> bool {
    let mut is_refused_yet = true;
    for len in 0..bytes.len() {
        is_refused_yet = is_refused_yet && is_refused(alloc, &bytes[..len], 0);
    }
    is_refused_yet
}

/// A value to be made.
#[derive(Clone, Copy)]
enum Made {
    Undefined,
    Null,
    Bool(bool),
    Int(i64),
    Date(i64),
    Text(&'static str),
    /// One byte.
    Byte(u8),
    /// An empty Array with a property of this name, which is null.
    Named(&'static str),
    /// A Map that takes null to this.
    NullTo(bool),
    /// A Set with this alone.
    SetOf(bool),
    /// The object {"a":[1]}.
    Worked,
}

fn byte_string(rt: &impl Abort, alloc: Global, byte: u8) -> Value {
    let mut bytes = Bytes::new(alloc);
    bytes.push(byte).expect(rt, "memory");
    Value::Bytes(bytes)
}

fn named_array(rt: &impl Abort, alloc: Global, name: &str) -> Value {
    let props = one_prop(rt, alloc, name, Value::Null);
    Value::Array(Items::new(alloc), props)
}

fn null_to(rt: &impl Abort, alloc: Global, b: bool) -> Value {
    let mut pairs = Pairs::new(alloc);
    pairs.put(Value::Null, Value::Bool(b)).expect(rt, "memory");
    Value::Map(pairs)
}

fn worked(rt: &impl Abort, alloc: Global) -> Value {
    let one = Value::Array(one_item(rt, alloc, Value::Int(1)), Props::new(alloc));
    Value::Object(one_prop(rt, alloc, "a", one))
}

fn value_of(rt: &impl Abort, alloc: Global, made: Made) -> Value {
    match made {
        Made::Undefined => Value::Undefined,
        Made::Null => Value::Null,
        Made::Bool(b) => Value::Bool(b),
        Made::Int(n) => Value::Int(n),
        Made::Date(d) => Value::Date(d),
        Made::Text(s) => Value::Text(text(rt, alloc, s)),
        Made::Byte(byte) => byte_string(rt, alloc, byte),
        Made::Named(name) => named_array(rt, alloc, name),
        Made::NullTo(b) => null_to(rt, alloc, b),
        Made::SetOf(b) => Value::Set(one_item(rt, alloc, Value::Bool(b))),
        Made::Worked => worked(rt, alloc),
    }
}

/// Whether the value is written as these bytes, behind what was there, and its size is told; and from these bytes it is
/// read, and no proper front of them is a spelling.
fn is_spelled_as(rt: &impl Abort, alloc: Global, value: &Value, bytes: &[u8]) -> bool {
    is_written_as(rt, alloc, value, bytes)
        && is_read_from(rt, alloc, value, bytes, 0, bytes.len())
        && is_each_front_refused(alloc, bytes)
}

fn is_spelled(rt: &impl Abort, alloc: Global, made: Made, bytes: &[u8]) -> bool {
    let value = value_of(rt, alloc, made);
    is_spelled_as(rt, alloc, &value, bytes)
}

fn are_spelled(rt: &impl Abort, alloc: Global, rows: &[(Made, &[u8])]) -> bool {
    for (made, bytes) in rows {
        if !is_spelled(rt, alloc, *made, *bytes) {
            return false;
        }
    }
    true
}

/// The object {"a":[1]} has 28 bytes.
#[test]
fn the_worked_object(rt: HostRuntime) {
    let bytes = b"\x09\0\0\0\x01\0\0\0\x01a\x08\0\0\0\x01\x04\0\0\0\0\0\0\0\x01\0\0\0\0";
    assert!(rt; bytes.len() == 28 && is_spelled(&rt, rt.alloc(), Made::Worked, bytes));
}

const WITHOUT_MEMBERS: [(Made, &[u8]); 6] = [
    (Made::Undefined, b"\0"),
    (Made::Null, b"\x01"),
    (Made::Bool(false), b"\x02"),
    (Made::Bool(true), b"\x03"),
    (
        Made::Int(-9_007_199_254_740_992),
        b"\x04\xff\xe0\0\0\0\0\0\0",
    ),
    (
        Made::Date(8_640_000_000_000_000),
        b"\x06\0\x1e\xb2\x08\xc2\xdc\0\0",
    ),
];

#[test]
fn kinds_without_members(rt: HostRuntime) {
    assert!(rt; are_spelled(&rt, rt.alloc(), &WITHOUT_MEMBERS));
}

const WITH_MEMBERS: [(Made, &[u8]); 5] = [
    (Made::Text("é"), b"\x05\0\0\0\x02\xc3\xa9"),
    (Made::Byte(0), b"\x07\0\0\0\x01\0"),
    (Made::Named("a"), b"\x08\0\0\0\0\0\0\0\x01\0\0\0\x01a\x01"),
    (Made::NullTo(true), b"\x0a\0\0\0\x01\x01\x03"),
    (Made::SetOf(false), b"\x0b\0\0\0\x01\x02"),
];

#[test]
fn kinds_with_members(rt: HostRuntime) {
    assert!(rt; are_spelled(&rt, rt.alloc(), &WITH_MEMBERS));
}

/// Names that don't rise, and then each other rule of the grammar.
const REFUSED: [&[u8]; 17] = [
    b"\x09\0\0\0\x02\0\0\0\x01b\x01\0\0\0\x01a\x01",
    b"\x09\0\0\0\x02\0\0\0\x01a\x01\0\0\0\x01a\x01",
    b"",
    b"\x0c",
    b"\xff",
    b"\x04\0\x20\0\0\0\0\0\x01",
    b"\x04\xff\xdf\xff\xff\xff\xff\xff\xff",
    b"\x06\0\x1e\xb2\x08\xc2\xdc\0\x01",
    b"\x05\0\0\0\x01\xff",
    b"\x07\0\0\0\x02\0",
    b"\x08\xff\xff\xff\xff\0",
    b"\x08\0\0\0\0\0\0\0\x01\0\0\0\x06length\x01",
    b"\x08\0\0\0\0\0\0\0\x01\0\0\0\x0210\x01",
    b"\x0a\0\0\0\x02\x01\x02\x01\x03",
    b"\x0b\0\0\0\x02\x05\0\0\0\0\x05\0\0\0\0",
    b"\x0b\0\0\0\x01\xff",
    b"\x09\0\0\0\x01\0\0\0\x01\x80\x01",
];

fn are_refused(alloc: Global, rows: &[&[u8]]) -> bool {
    for bytes in rows {
        if !is_refused(alloc, *bytes, 0) {
            return false;
        }
    }
    true
}

#[test]
fn refused_values(rt: HostRuntime) {
    assert!(rt; are_refused(rt.alloc(), &REFUSED));
}

/// These bytes with a head before and a tail behind them.
fn around(rt: &impl Abort, alloc: Global, head: &[u8], inner: &[u8], tail: &[u8]) -> Vec<u8> {
    let mut outer = Vec::new(alloc);
    outer.extend_from_slice(head).expect(rt, "memory");
    outer.extend_from_slice(inner).expect(rt, "memory");
    outer.extend_from_slice(tail).expect(rt, "memory");
    outer
}

/// The bytes of Arrays nested so deep.
fn nested(rt: &impl Abort, alloc: Global, depth: u32) -> Vec<u8> {
    let mut bytes = Vec::from_slice(alloc, b"\x08\0\0\0\0\0\0\0\0").expect(rt, "memory");
    for _ in 1..depth {
        bytes = around(rt, alloc, b"\x08\0\0\0\x01", bytes.as_slice(), b"\0\0\0\0");
    }
    bytes
}

fn end_of(rt: &impl Abort, alloc: Global, bytes: &[u8], from: usize) -> usize {
    read_value(alloc, bytes, from).expect(rt, "a value").1
}

/// Arrays nested 100 deep are read and 101 deep refused.
#[test]
fn depth_is_bounded(rt: HostRuntime) {
    let alloc = rt.alloc();
    let bytes = nested(&rt, alloc, 100);
    let deeper = around(&rt, alloc, b"\x0b\0\0\0\x01", bytes.as_slice(), b"");
    let ends = (
        end_of(&rt, alloc, bytes.as_slice(), 0),
        end_of(&rt, alloc, deeper.as_slice(), 5),
    );
    assert!(rt;
        ends == (900, 905) && bytes.len() == 900 && is_refused(alloc, deeper.as_slice(), 0)
    );
}

fn are_at_their_places(rt: &impl Abort, alloc: Global, bytes: &[u8]) -> bool {
    is_read_from(rt, alloc, &Value::Null, bytes, 1, 2)
        && is_refused(alloc, bytes, 3)
        && is_refused(alloc, bytes, 4)
        && is_refused_key(alloc, bytes, 4)
}

/// A value is read from a place on, whatever stands before and behind it; past the end none stands.
#[test]
fn places(rt: HostRuntime) {
    assert!(rt;
        are_at_their_places(&rt, rt.alloc(), b"\xff\x01\x03") && value_size(&Value::Function) == 1
    );
}

/// Whether a text is read from these bytes to their end, and written as them.
fn is_text_key(rt: &impl Abort, alloc: Global, text: &str, bytes: &[u8]) -> bool {
    let (key, end) = read_key(alloc, bytes, 0).expect(rt, "a key");
    let mut out = Vec::new(alloc);
    write_key(&mut out, &key).expect(rt, "memory");
    end == bytes.len()
        && matches!(&key, Key::Text(letter) if letter.as_str() == text)
        && out.as_slice() == bytes
}

/// The bytes of an array key with one of each other kind.
fn array_written(rt: &impl Abort, alloc: Global) -> Vec<u8> {
    let mut keys = Keys::new(alloc);
    keys.push(Key::Number(1)).expect(rt, "memory");
    keys.push(Key::Date(-1)).expect(rt, "memory");
    keys.push(Key::Binary(Bytes::new(alloc)))
        .expect(rt, "memory");
    let mut out = Vec::new(alloc);
    write_key(&mut out, &Key::Array(keys)).expect(rt, "memory");
    out
}

/// Whether an array key of three is read from these bytes to their end.
fn is_three_keys(rt: &impl Abort, alloc: Global, bytes: &[u8]) -> bool {
    let (found, end) = read_key(alloc, bytes, 0).expect(rt, "a key");
    end == bytes.len() && matches!(&found, Key::Array(keys) if keys.len() == 3)
}

fn is_array_key(rt: &impl Abort, alloc: Global, bytes: &[u8]) -> bool {
    array_written(rt, alloc).as_slice() == bytes && is_three_keys(rt, alloc, bytes)
}

/// The key "a" of six bytes, and an array key with one of each other kind.
#[test]
fn keys(rt: HostRuntime) {
    let letter = b"\x23\0\0\0\x01a";
    let array =
        b"\x25\0\0\0\x03\x21\0\0\0\0\0\0\0\x01\x22\xff\xff\xff\xff\xff\xff\xff\xff\x24\0\0\0\0";
    assert!(rt;
        letter.len() == 6
            && is_text_key(&rt, rt.alloc(), "a", letter)
            && is_array_key(&rt, rt.alloc(), array)
    );
}

const REFUSED_KEYS: [&[u8]; 7] = [
    b"",
    b"\x04\0\0\0\0\0\0\0\x01",
    b"\x21\0\x20\0\0\0\0\0\x01",
    b"\x22\0\x1e\xb2\x08\xc2\xdc\0\x01",
    b"\x23\0\0\0\x01\xff",
    b"\x24\0\0\0\x01",
    b"\x25\xff\xff\xff\xff\x25\0\0\0\0",
];

fn are_refused_keys(alloc: Global, rows: &[&[u8]]) -> bool {
    for bytes in rows {
        if !is_refused_key(alloc, *bytes, 0) {
            return false;
        }
    }
    true
}

#[test]
fn refused_keys(rt: HostRuntime) {
    assert!(rt; are_refused_keys(rt.alloc(), &REFUSED_KEYS));
}

#[derive(Clone, Copy)]
enum Field {
    Byte,
    Count,
    Word,
    Number,
    Text,
    Bytes,
    Int,
    Date,
    Value,
}

const FIELDS: [Field; 9] = [
    Field::Byte,
    Field::Count,
    Field::Word,
    Field::Number,
    Field::Text,
    Field::Bytes,
    Field::Int,
    Field::Date,
    Field::Value,
];

fn put_key(rt: &impl Abort, alloc: Global, out: &mut Vec<u8>) {
    let (key, _) = read_key(alloc, b"\x23\0\0\0\x01k", 0).expect(rt, "a key");
    write_key(out, &key).expect(rt, "memory");
}

fn put_one(out: &mut Vec<u8>, field: Field) -> Result<(), NoMemory> {
    match field {
        Field::Byte => put_byte(out, 0x37),
        Field::Count => put_count(out, 258),
        Field::Word => put_word(out, 1 << 40),
        Field::Number => put_number(out, -2),
        Field::Text => put_string(out, b"ab"),
        Field::Bytes => put_string(out, b"\xff"),
        Field::Int => put_number(out, 9_007_199_254_740_992),
        Field::Date => put_number(out, -1),
        Field::Value => write_value(out, &Value::Null),
    }
}

/// The number that is read, of a field that is one and fits.
fn number_of(rt: &impl Abort, rest: &mut &[u8], field: Field) -> i64 {
    match field {
        Field::Byte => i64::from(byte_from(rest).expect(rt, "a byte")),
        Field::Count => i64::from(count_from(rest).expect(rt, "a count")),
        Field::Number => number_from(rest).expect(rt, "a number"),
        Field::Int => int_from(rest).expect(rt, "an integer"),
        Field::Date => date_from(rest).expect(rt, "a date"),
        _ => panic!(rt; "no number"),
    }
}

fn text_said(rt: &impl Abort, alloc: Global, rest: &mut &[u8], said: &mut String) {
    let text = text_from(alloc, rest).expect(rt, "a text");
    let _ = write!(said, "{} ", text.as_str());
}

fn key_said(rt: &impl Abort, alloc: Global, rest: &mut &[u8], said: &mut String) {
    match key_from(alloc, rest).expect(rt, "a key") {
        Key::Text(name) => {
            let _ = write!(said, "{}", name.as_str());
        }
        _ => panic!(rt; "no text"),
    }
}

fn length_of_bytes(rt: &impl Abort, alloc: Global, rest: &mut &[u8]) -> u64 {
    bytes_from(alloc, rest).expect(rt, "a byte string").len() as u64
}

fn size_of_value(rt: &impl Abort, alloc: Global, rest: &mut &[u8]) -> u64 {
    value_size(&value_from(alloc, rest).expect(rt, "a value"))
}

/// The word that is read, or the length of the bytes or the value.
fn size_of(rt: &impl Abort, alloc: Global, rest: &mut &[u8], field: Field) -> u64 {
    match field {
        Field::Word => word_from(rest).expect(rt, "a word"),
        Field::Bytes => length_of_bytes(rt, alloc, rest),
        Field::Value => size_of_value(rt, alloc, rest),
        _ => panic!(rt; "no size"),
    }
}

/// Reads one field, and writes what it is.
fn read_one(rt: &impl Abort, alloc: Global, rest: &mut &[u8], said: &mut String, field: Field) {
    match field {
        Field::Text => text_said(rt, alloc, rest, said),
        Field::Word | Field::Bytes | Field::Value => {
            let _ = write!(said, "{} ", size_of(rt, alloc, rest, field));
        }
        _ => {
            let _ = write!(said, "{} ", number_of(rt, rest, field));
        }
    }
}

/// Puts each field, and a key behind them.
fn all_put(rt: &impl Abort, alloc: Global) -> Vec<u8> {
    let mut out = Vec::new(alloc);
    for field in FIELDS {
        put_one(&mut out, field).expect(rt, "memory");
    }
    put_key(rt, alloc, &mut out);
    out
}

/// Reads each field, and a key behind them.
fn all_read(rt: &impl Abort, alloc: Global, rest: &mut &[u8]) -> String {
    let mut said = String::new(alloc);
    for field in FIELDS {
        read_one(rt, alloc, rest, &mut said, field);
    }
    key_said(rt, alloc, rest, &mut said);
    said
}

/// Each field and a key is put and read, one after the other.
#[test]
fn fields_one_after_the_other(rt: HostRuntime) {
    let out = all_put(&rt, rt.alloc());
    let mut rest = out.as_slice();
    let read = all_read(&rt, rt.alloc(), &mut rest);
    assert!(rt;
        read.as_str() == "55 258 1099511627776 -2 ab 1 9007199254740992 -1 1 k"
            && (out.len(), rest.len()) == (55, 0)
    );
}
