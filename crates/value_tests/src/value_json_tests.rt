use clone_values::{Bytes, Key, Keys, Pair, Text, Value};
use idb_base::GREATEST_LENGTH;
use serde_json::Value as Json;
use std::alloc::Global;
use std::fmt::Write;
use std::process::Abort;
use value_json::*;

/// Documents with a reading, and as what the value is written.
const READ: [(&str, &str); 34] = [
    ("null", "null"),
    ("true", "true"),
    ("false", "false"),
    ("\"grün $\"", "\"grün $\""),
    ("-9007199254740992", "-9007199254740992"),
    ("9007199254740992", "9007199254740992"),
    ("{\"$undefined\":null}", "{\"$undefined\":null}"),
    ("{\"$function\":null}", "{\"$function\":null}"),
    (
        "{\"$date\":-8640000000000000}",
        "{\"$date\":-8640000000000000}",
    ),
    (
        "{\"$date\":8640000000000000}",
        "{\"$date\":8640000000000000}",
    ),
    ("{\"$bytes\":\"\"}", "{\"$bytes\":\"\"}"),
    ("{\"$bytes\":\"00ff\"}", "{\"$bytes\":\"00ff\"}"),
    ("{\"$bytes\":\"0aFF\"}", "{\"$bytes\":\"0aff\"}"),
    ("[]", "[]"),
    ("[1, [null], {}]", "[1,[null],{}]"),
    ("{\"$array\":[1,2]}", "[1,2]"),
    ("{\"$array\":[1],\"$named\":[]}", "[1]"),
    (
        "{\"$named\":[[\"b\",1],[\"0a\",2]],\"$array\":[3]}",
        "{\"$array\":[3],\"$named\":[[\"0a\",2],[\"b\",1]]}",
    ),
    ("{}", "{}"),
    (
        "{\"b\":1,\"a\":{\"\":2},\"length\":3}",
        "{\"a\":{\"\":2},\"b\":1,\"length\":3}",
    ),
    ("{\"a$\":1}", "{\"a$\":1}"),
    ("{\"$object\":[]}", "{}"),
    ("{\"$object\":[[\"b\",1],[\"a\",2]]}", "{\"a\":2,\"b\":1}"),
    (
        "{\"$object\":[[\"a\",1],[\"$x\",2]]}",
        "{\"$object\":[[\"$x\",2],[\"a\",1]]}",
    ),
    (
        "{\"$object\":[[\"$\",{\"$set\":[]}]]}",
        "{\"$object\":[[\"$\",{\"$set\":[]}]]}",
    ),
    ("{\"$map\":[]}", "{\"$map\":[]}"),
    (
        "{\"$map\":[[1,\"a\"],[2,\"b\"],[1,\"c\"]]}",
        "{\"$map\":[[1,\"c\"],[2,\"b\"]]}",
    ),
    (
        "{\"$map\":[[[],1],[[],2],[{\"$undefined\":null},3]]}",
        "{\"$map\":[[[],1],[[],2],[{\"$undefined\":null},3]]}",
    ),
    ("{\"$set\":[]}", "{\"$set\":[]}"),
    ("{\"$set\":[1,1]}", "{\"$set\":[1]}"),
    (
        "{\"$set\":[\"b\",\"a\",\"b\",null]}",
        "{\"$set\":[\"b\",\"a\",null]}",
    ),
    (
        "{\"$set\":[{\"$date\":1},{\"$date\":1}]}",
        "{\"$set\":[{\"$date\":1},{\"$date\":1}]}",
    ),
    (
        "[{\"$set\":[{\"$map\":[[1,2]]}]}]",
        "[{\"$set\":[{\"$map\":[[1,2]]}]}]",
    ),
    (
        "{\"a\":{\"b\":[{\"$function\":null}]}}",
        "{\"a\":{\"b\":[{\"$function\":null}]}}",
    ),
];

/// Documents without a reading.
const REFUSED: [&str; 36] = [
    "9007199254740993",
    "-9007199254740993",
    "18446744073709551615",
    "1.5",
    "1e2",
    "{\"$date\":8640000000000001}",
    "{\"$date\":-8640000000000001}",
    "{\"$date\":\"1\"}",
    "{\"$undefined\":1}",
    "{\"$function\":{}}",
    "{\"$bytes\":\"0\"}",
    "{\"$bytes\":\"0g\"}",
    "{\"$bytes\":[]}",
    "{\"$x\":1}",
    "{\"$\":1}",
    "{\"a\":1,\"$x\":2}",
    "{\"$date\":1,\"a\":2}",
    "{\"\":1,\"$date\":2}",
    "{\"$array\":{}}",
    "{\"$array\":[],\"a\":1}",
    "{\"$array\":[],\"$named\":[],\"a\":1}",
    "{\"$array\":[],\"$named\":{}}",
    "{\"$named\":[]}",
    "{\"$array\":[],\"$named\":[[\"length\",1]]}",
    "{\"$array\":[],\"$named\":[[\"07\",1]]}",
    "{\"$array\":[],\"$named\":[[\"a\",1],[\"a\",1]]}",
    "{\"$array\":[],\"$named\":[[1,1]]}",
    "{\"$object\":{}}",
    "{\"$object\":[[\"a\",1],[\"a\",2]]}",
    "{\"$object\":[[\"a\"]]}",
    "{\"$map\":[[1]]}",
    "{\"$map\":[[1,2,3]]}",
    "{\"$map\":[1]}",
    "{\"$set\":{}}",
    "[{\"$x\":1}]",
    "{\"a\":[{\"b\":1.5}]}",
];

fn read(rt: &impl Abort, alloc: Global, text: &str) -> Value {
    let document = Json::from_str(alloc, text).expect(rt, "a document");
    value_from_json(alloc, &document).expect(rt, "a value")
}

fn document_again(rt: &impl Abort, alloc: Global, text: &str) -> Json {
    let value = read(rt, alloc, text);
    value_to_json(alloc, &value).expect(rt, "memory")
}

fn written_again(rt: &impl Abort, alloc: Global, text: &str) -> String {
    document_again(rt, alloc, text)
        .to_string(alloc)
        .expect(rt, "memory")
}

fn push_again(rt: &impl Abort, alloc: Global, out: &mut Vec<u8>, text: &str) {
    let value = read(rt, alloc, text);
    push_value_text(alloc, out, &value).expect(rt, "memory");
}

/// The text again, behind one byte.
fn pushed(rt: &impl Abort, alloc: Global, text: &str) -> Vec<u8> {
    let mut out = vec![in alloc; b'.'].expect(rt, "memory");
    push_again(rt, alloc, &mut out, text);
    out
}

fn is_written_as(rt: &impl Abort, alloc: Global, text: &str, written: &str) -> bool {
    written_again(rt, alloc, text).as_str() == written
}

fn is_pushed_as(rt: &impl Abort, alloc: Global, text: &str, written: &str) -> bool {
    pushed(rt, alloc, text).as_slice().get(1..) == Some(written.as_bytes())
}

fn is_refused(rt: &impl Abort, alloc: Global, text: &str) -> bool {
    let document = Json::from_str(alloc, text).expect(rt, "a document");
    matches!(value_from_json(alloc, &document), Err(JsonError::Spelling))
}

/// The first of the documents that isn't written as it is wanted, or nothing.
fn first_unlike(rt: &impl Abort, alloc: Global) -> &'static str {
    for (text, written) in &READ {
        if !(is_written_as(rt, alloc, *text, *written)
            && is_pushed_as(rt, alloc, *text, *written))
        {
            return *text;
        }
    }
    ""
}

#[test]
fn each_form_is_read_and_written(rt: HostRuntime) {
    assert_eq!(rt; first_unlike(&rt, rt.alloc()), "");
}

/// The first of the documents that isn't refused, or nothing.
fn first_read(rt: &impl Abort, alloc: Global) -> &'static str {
    for text in &REFUSED {
        if !is_refused(rt, alloc, *text) {
            return *text;
        }
    }
    ""
}

#[test]
fn what_has_no_reading_is_refused(rt: HostRuntime) {
    assert_eq!(rt; first_read(&rt, rt.alloc()), "");
}

fn is_pair(pair: Option<&Pair>, key: i64, text: &str) -> bool {
    match pair {
        Some(
            Pair {
                key: Value::Int(n),
                value: Value::Text(found),
            },
        ) => *n == key && found.as_str() == text,
        _ => false,
    }
}

/// Whether a Map takes 1 to "c" and then 2 to "b", and has no more.
fn has_two_pairs(map: &Value) -> bool {
    match map {
        Value::Map(pairs) => {
            pairs.len() == 2 && is_pair(pairs.at(0), 1, "c") && is_pair(pairs.at(1), 2, "b")
        }
        _ => false,
    }
}

/// A repeated key keeps its first place and takes the last value.
#[test]
fn a_map_has_each_key_once(rt: HostRuntime) {
    let map = read(
        &rt,
        rt.alloc(),
        "{\"$map\":[[1,\"a\"],[2,\"b\"],[1,\"c\"]]}",
    );
    assert!(rt; has_two_pairs(&map));
}

/// A key to be made.
#[derive(Clone, Copy)]
enum Made {
    Number(i64),
    Date(i64),
    Text(&'static str),
    /// The bytes 0 and 171.
    Binary,
    EmptyArray,
}

const KEYS: [Made; 5] = [
    Made::Number(1),
    Made::Date(-2),
    Made::Text("$"),
    Made::Binary,
    Made::EmptyArray,
];

fn text_of(rt: &impl Abort, alloc: Global, s: &str) -> Text {
    assert!(rt; s.len() <= GREATEST_LENGTH);
    Text::copy_of(alloc, s).expect(rt, "memory")
}

fn two_bytes(rt: &impl Abort, alloc: Global) -> Bytes {
    let bytes = vec![in alloc; 0, 171].expect(rt, "memory");
    Bytes::from_vec(alloc, bytes).expect(rt, "memory")
}

fn key_of(rt: &impl Abort, alloc: Global, made: &Made) -> Key {
    match made {
        Made::Number(n) => Key::Number(*n),
        Made::Date(d) => Key::Date(*d),
        Made::Text(s) => Key::Text(text_of(rt, alloc, s)),
        Made::Binary => Key::Binary(two_bytes(rt, alloc)),
        Made::EmptyArray => Key::Array(Keys::new(alloc)),
    }
}

fn keys_of(rt: &impl Abort, alloc: Global, made: &[Made]) -> Vec<Key> {
    let mut keys = Vec::new(alloc);
    for one in made {
        keys.push(key_of(rt, alloc, one)).expect(rt, "memory");
    }
    keys
}

fn array_key(rt: &impl Abort, alloc: Global, made: &[Made]) -> Key {
    let keys = keys_of(rt, alloc, made);
    assert!(rt; keys.len() <= GREATEST_LENGTH);
    Key::Array(Keys::from_vec(alloc, keys).expect(rt, "memory"))
}

fn key_written(rt: &impl Abort, alloc: Global, key: &Key) -> String {
    key_to_json(alloc, key)
        .expect(rt, "memory")
        .to_string(alloc)
        .expect(rt, "memory")
}

fn key_pushed(rt: &impl Abort, alloc: Global, key: &Key) -> Vec<u8> {
    let mut out = Vec::new(alloc);
    push_key_text(alloc, &mut out, key).expect(rt, "memory");
    out
}

fn is_key_written_as(rt: &impl Abort, alloc: Global, key: &Key, text: &str) -> bool {
    key_written(rt, alloc, key).as_str() == text
        && key_pushed(rt, alloc, key).as_slice() == text.as_bytes()
}

fn is_array_written_as(rt: &impl Abort, alloc: Global, text: &str) -> bool {
    let key = array_key(rt, alloc, &KEYS);
    is_key_written_as(rt, alloc, &key, text)
}

#[test]
fn a_key_is_written_as_its_value(rt: HostRuntime) {
    let text = "[1,{\"$date\":-2},\"$\",{\"$bytes\":\"00ab\"},[]]";
    assert!(rt; is_array_written_as(&rt, rt.alloc(), text));
}

/// The kind of a level and how many documents it holds, in both its lists.
fn told(level: &Level) -> (&'static str, usize, usize) {
    match level {
        Level::Leaf(_) => ("leaf", 0, 0),
        Level::Array(list) => ("array", list.len(), 0),
        Level::NamedArray(list, names) => ("named array", list.len(), names.len()),
        Level::Object(members) => ("object", members.len(), 0),
        Level::NamedObject(names) => ("named object", 0, names.len()),
        Level::Map(list) => ("map", list.len(), 0),
        Level::Set(list) => ("set", list.len(), 0),
    }
}

fn told_of(alloc: Global, document: &Json) -> (&'static str, usize, usize) {
    match level_of(alloc, document) {
        Ok(level) => told(&level),
        Err(_) => ("refused", 0, 0),
    }
}

/// Writes what is told of the level of a document.
fn tell(rt: &impl Abort, alloc: Global, said: &mut String, text: &str) {
    let document = Json::from_str(alloc, text).expect(rt, "a document");
    let (kind, len, names) = told_of(alloc, &document);
    let _ = write!(said, "{kind} {len} {names}; ");
}

const LEVELS: [&str; 10] = [
    "{\"$date\":1}",
    "[{\"$x\":1}]",
    "{\"$array\":[1,{\"$x\":1}]}",
    "{\"$array\":[1,2],\"$named\":[{\"$x\":1}]}",
    "{\"a\":{\"$x\":1}}",
    "{\"$object\":[{\"$x\":1}]}",
    "{\"$map\":[{\"$x\":1}]}",
    "{\"$set\":[{\"$x\":1}]}",
    "{\"$x\":1}",
    "{\"$set\":{}}",
];

fn levels(rt: &impl Abort, alloc: Global) -> String {
    let mut said = String::new(alloc);
    for text in &LEVELS {
        tell(rt, alloc, &mut said, text);
    }
    said
}

/// What a level holds isn't looked at: `{"$x":1}` has no reading, and stands in each of these.
#[test]
fn one_level_is_read(rt: HostRuntime) {
    assert_eq!(rt;
        levels(&rt, rt.alloc()).as_str(),
        "leaf 0 0; array 1 0; array 2 0; named array 2 1; object 1 0; named object 0 1; map 1 0; set 1 0; refused 0 0; refused 0 0; "
    );
}
