use clone_values::{
    Bytes, Items, Key, Keys, Pairs, PathSpec, Props, Text, Texts, Value, same_value,
};
use idb_base::GREATEST_LENGTH;
use key_paths::*;
use path_grammar::KeyPath;
use std::alloc::Global;
use std::cmp::Ordering;
use std::fmt::Write;
use std::process::Abort;

fn text(rt: &impl Abort, alloc: Global, s: &str) -> Text {
    assert!(rt; s.len() <= GREATEST_LENGTH);
    Text::copy_of(alloc, s).expect(rt, "memory")
}

fn text_value(rt: &impl Abort, alloc: Global, s: &str) -> Value {
    Value::Text(text(rt, alloc, s))
}

fn array(rt: &impl Abort, alloc: Global, items: Vec<Value>) -> Value {
    assert!(rt; items.len() <= GREATEST_LENGTH);
    let items = Items::from_vec(alloc, items).expect(rt, "memory");
    Value::Array(items, Props::new(alloc))
}

/// A value in short.
#[derive(Clone, Copy)]
enum Short {
    Undefined,
    Null,
    True,
    Int(i64),
    Date(i64),
    Text(&'static str),
    Bytes(&'static [u8]),
    Function,
    Object,
    Map,
    Set,
}

fn bytes_value(rt: &impl Abort, alloc: Global, all: &[u8]) -> Value {
    let mut bytes = Bytes::new(alloc);
    for b in all {
        assert!(rt; bytes.len() < 100);
        bytes.push(*b).expect(rt, "memory");
    }
    Value::Bytes(bytes)
}

fn value(rt: &impl Abort, alloc: Global, short: Short) -> Value {
    match short {
        Short::Undefined => Value::Undefined,
        Short::Null => Value::Null,
        Short::True => Value::Bool(true),
        Short::Int(n) => Value::Int(n),
        Short::Date(d) => Value::Date(d),
        Short::Text(s) => text_value(rt, alloc, s),
        Short::Bytes(all) => bytes_value(rt, alloc, all),
        Short::Function => Value::Function,
        Short::Object => Value::Object(Props::new(alloc)),
        Short::Map => Value::Map(Pairs::new(alloc)),
        Short::Set => Value::Set(Items::new(alloc)),
    }
}

/// The Array of these values.
fn array_of(rt: &impl Abort, alloc: Global, all: &[Short]) -> Value {
    let mut items = Vec::new(alloc);
    for short in all {
        items.push(value(rt, alloc, *short)).expect(rt, "memory");
    }
    array(rt, alloc, items)
}

fn set(rt: &impl Abort, alloc: Global, props: &mut Props, name: &str, inner: Value) {
    assert!(rt; props.len() < 100);
    props.set(text(rt, alloc, name), inner).expect(rt, "memory");
}

/// Gives the Object or Array one more property.
fn add(rt: &impl Abort, alloc: Global, value: &mut Value, name: &str, inner: Value) {
    match value {
        Value::Object(props) => set(rt, alloc, props, name, inner),
        Value::Array(_, props) => set(rt, alloc, props, name, inner),
        _ => {}
    }
}

/// The Object with this one property.
fn object(rt: &impl Abort, alloc: Global, name: &str, inner: Value) -> Value {
    let mut props = Props::new(alloc);
    set(rt, alloc, &mut props, name, inner);
    Value::Object(props)
}

/// Arrays nested so deep, the innermost one empty.
fn nested(rt: &impl Abort, alloc: Global, depth: u32) -> Value {
    let mut value = array(rt, alloc, Vec::new(alloc));
    for _ in 1..depth {
        value = array(rt, alloc, vec![in alloc; value].expect(rt, "memory"));
    }
    value
}

fn path(rt: &impl Abort, alloc: Global, s: &str) -> KeyPath {
    KeyPath::parse(PathSpec::One(text(rt, alloc, s))).expect(rt, "a path")
}

fn paths(rt: &impl Abort, alloc: Global, all: &[&str]) -> KeyPath {
    let mut strings = Texts::new(alloc);
    for s in all {
        assert!(rt; strings.len() < 100);
        strings.push(text(rt, alloc, s)).expect(rt, "memory");
    }
    KeyPath::parse(PathSpec::Many(strings)).expect(rt, "a list of paths")
}

/// Whether the value has a key, and this key's value is the value again.
fn is_its_key(rt: &impl Abort, alloc: Global, value: &Value) -> bool {
    match to_key(alloc, value).expect(rt, "memory") {
        Some(key) => is_value_of(rt, alloc, &key, value),
        None => false,
    }
}

fn is_value_of(rt: &impl Abort, alloc: Global, key: &Key, value: &Value) -> bool {
    let found = to_value(alloc, key).expect(rt, "memory");
    same_value(&found, value)
}

fn has_key(rt: &impl Abort, alloc: Global, value: &Value) -> bool {
    to_key(alloc, value).expect(rt, "memory").is_some()
}

/// Values of each kind that converts.
const KINDS: [Short; 4] = [
    Short::Int(-3),
    Short::Date(4),
    Short::Text("x"),
    Short::Bytes(&[0, 255]),
];

/// Values that are no keys.
const NO_KEYS: [Short; 7] = [
    Short::Undefined,
    Short::Null,
    Short::True,
    Short::Function,
    Short::Object,
    Short::Map,
    Short::Set,
];

fn short_has_key(rt: &impl Abort, alloc: Global, short: Short) -> bool {
    let value = value(rt, alloc, short);
    has_key(rt, alloc, &value)
}

fn array_has_key(rt: &impl Abort, alloc: Global, all: &[Short]) -> bool {
    let array = array_of(rt, alloc, all);
    has_key(rt, alloc, &array)
}

fn array_is_its_key(rt: &impl Abort, alloc: Global, all: &[Short]) -> bool {
    let array = array_of(rt, alloc, all);
    is_its_key(rt, alloc, &array)
}

/// The Array of these values, with a property.
fn named_array(rt: &impl Abort, alloc: Global, all: &[Short]) -> Value {
    let mut array = array_of(rt, alloc, all);
    add(rt, alloc, &mut array, "p", Value::Null);
    array
}

/// Whether the value has a key, and this key's value is another one.
fn has_other_key(rt: &impl Abort, alloc: Global, value: &Value) -> bool {
    !is_its_key(rt, alloc, value) && has_key(rt, alloc, value)
}

fn named_array_has_other_key(rt: &impl Abort, alloc: Global, all: &[Short]) -> bool {
    let named = named_array(rt, alloc, all);
    has_other_key(rt, alloc, &named)
}

fn nested_is_its_key(rt: &impl Abort, alloc: Global, depth: u32) -> bool {
    let nested = nested(rt, alloc, depth);
    is_its_key(rt, alloc, &nested)
}

fn nested_has_key(rt: &impl Abort, alloc: Global, depth: u32) -> bool {
    let nested = nested(rt, alloc, depth);
    has_key(rt, alloc, &nested)
}

/// An Array of all kinds that convert, and the same with a property.
#[test]
fn values_convert_as_stated(rt: HostRuntime) {
    assert!(rt; array_is_its_key(&rt, rt.alloc(), &KINDS));
    assert!(rt; named_array_has_other_key(&rt, rt.alloc(), &KINDS));
}

/// Arrays nested 100 deep convert, and such nested 101 deep don't.
#[test]
fn nested_arrays_convert_as_stated(rt: HostRuntime) {
    assert!(rt; nested_is_its_key(&rt, rt.alloc(), 100));
    assert!(rt; !nested_has_key(&rt, rt.alloc(), 101));
}

/// The kinds of values that don't convert, and an Array with such a value.
#[test]
fn other_values_are_no_keys(rt: HostRuntime) {
    assert!(rt; !array_has_key(&rt, rt.alloc(), &[Short::Int(1), Short::Null]));
    for short in &NO_KEYS {
        assert!(rt; !short_has_key(&rt, rt.alloc(), *short));
    }
}

fn is_text(key: &Key, s: &str) -> bool {
    match key {
        Key::Text(t) => t.as_str() == s,
        _ => false,
    }
}

fn is_number(key: &Key, n: i64) -> bool {
    match key {
        Key::Number(m) => *m == n,
        _ => false,
    }
}

fn are_a_and_one(keys: &Keys) -> bool {
    keys.len() == 2
        && keys.at(0).is_some_and(|key| is_text(key, "a"))
        && keys.at(1).is_some_and(|key| is_number(key, 1))
}

/// The kind of answer; for the key 5 and the keys "a" and 1 these keys.
fn told(answer: &Extracted) -> &'static str {
    match answer {
        Extracted::One(Key::Number(5)) => "5",
        Extracted::One(_) => "another key",
        Extracted::Many(keys) if are_a_and_one(keys) => "a and 1",
        Extracted::Many(_) => "other keys",
        Extracted::Invalid => "invalid",
        Extracted::Failure => "failure",
    }
}

/// What the path "t" comes to on the value.
fn told_at_t(rt: &impl Abort, alloc: Global, multi: bool, value: &Value) -> &'static str {
    let path = path(rt, alloc, "t");
    told(&extract(alloc, &path, multi, value).expect(rt, "memory"))
}

/// What the path comes to on `{"t": inner}`.
fn extracted(rt: &impl Abort, alloc: Global, multi: bool, inner: Value) -> &'static str {
    let value = object(rt, alloc, "t", inner);
    told_at_t(rt, alloc, multi, &value)
}

/// What the path comes to on `{"t": [..]}`.
fn extracted_of_array(rt: &impl Abort, alloc: Global, multi: bool, all: &[Short]) -> &'static str {
    extracted(rt, alloc, multi, array_of(rt, alloc, all))
}

/// A multi-entry path on `["a", 1, "a", null]` gives "a" and 1; without multi-entry an Array with null is invalid.
#[test]
fn keys_are_extracted_as_stated(rt: HostRuntime) {
    let repeated = [
        Short::Text("a"),
        Short::Int(1),
        Short::Text("a"),
        Short::Null,
    ];
    assert_eq!(rt;
        extracted_of_array(&rt, rt.alloc(), true, &repeated),
        "a and 1"
    );
    let whole = [Short::Int(1), Short::Null];
    assert_eq!(rt;
        extracted_of_array(&rt, rt.alloc(), false, &whole),
        "invalid"
    );
}

/// What a multi-entry path comes to on a value that is no Array.
fn extracted_of_one(rt: &impl Abort, alloc: Global, short: Short) -> &'static str {
    extracted(rt, alloc, true, value(rt, alloc, short))
}

/// What a multi-entry path comes to on `{}`.
fn extracted_of_nothing(rt: &impl Abort, alloc: Global) -> &'static str {
    let nothing = Value::Object(Props::new(alloc));
    told_at_t(rt, alloc, true, &nothing)
}

/// A multi-entry path is invalid on null, and a failure on nothing.
#[test]
fn single_values_are_extracted_as_stated(rt: HostRuntime) {
    for (short, expected) in [
        (Short::Null, "invalid"),
        (Short::Int(5), "5"),
        (Short::Undefined, "failure"),
    ] {
        assert_eq!(rt; extracted_of_one(&rt, rt.alloc(), short), expected);
    }
    assert_eq!(rt; extracted_of_nothing(&rt, rt.alloc()), "failure");
}

fn are_same(found: Option<&Value>, expected: Option<&Value>) -> bool {
    match (found, expected) {
        (Some(found), Some(expected)) => same_value(found, expected),
        (None, None) => true,
        _ => false,
    }
}

/// Whether the path gives this value, or where there is none, fails.
fn gives(
    rt: &impl Abort,
    alloc: Global,
    path: &KeyPath,
    value: &Value,
    expected: Option<&Value>,
) -> bool {
    let found = evaluate(alloc, path, value).expect(rt, "memory");
    are_same(found.as_ref(), expected)
}

/// `{"c": 2, "length": 5}`
fn inner_sample(rt: &impl Abort, alloc: Global) -> Value {
    let mut inner = object(rt, alloc, "c", Value::Int(2));
    add(rt, alloc, &mut inner, "length", Value::Int(5));
    inner
}

fn add_numbers(rt: &impl Abort, alloc: Global, value: &mut Value) {
    let numbers = array_of(rt, alloc, &[Short::Int(7), Short::Int(8), Short::Int(9)]);
    add(rt, alloc, value, "a", numbers)
}

fn add_inner(rt: &impl Abort, alloc: Global, value: &mut Value) {
    add(rt, alloc, value, "b", inner_sample(rt, alloc))
}

fn add_text(rt: &impl Abort, alloc: Global, value: &mut Value) {
    add(rt, alloc, value, "s", text_value(rt, alloc, "\u{10000}x"))
}

fn add_parts(rt: &impl Abort, alloc: Global, value: &mut Value) {
    add_numbers(rt, alloc, value);
    add_inner(rt, alloc, value);
    add_text(rt, alloc, value)
}

/// `{"a": [7, 8, 9], "b": {"c": 2, "length": 5}, "s": "\u{10000}x", "u": Undefined}`
fn sample(rt: &impl Abort, alloc: Global) -> Value {
    let mut value = object(rt, alloc, "u", Value::Undefined);
    add_parts(rt, alloc, &mut value);
    value
}

/// Paths, and the numbers that they give on the sample.
static NUMBERS: [(&str, Option<i64>); 12] = [
    ("a.length", Some(3)),
    ("b.c", Some(2)),
    ("b.length", Some(5)),
    ("s.length", Some(3)),
    ("a.length.length", None),
    ("b.d", None),
    ("b.c.d", None),
    ("s.c", None),
    ("length", None),
    ("u", None),
    ("u.c", None),
    ("x.y", None),
];

fn gives_number(
    rt: &impl Abort,
    alloc: Global,
    s: &str,
    value: &Value,
    number: Option<i64>,
) -> bool {
    let path = path(rt, alloc, s);
    let expected = number.map(Value::Int);
    gives(rt, alloc, &path, value, expected.as_ref())
}

fn check_numbers(rt: &impl Abort, alloc: Global, value: &Value) {
    for (s, number) in &NUMBERS {
        assert!(rt; gives_number(rt, alloc, s, value, *number), "{s}");
    }
}

/// Paths on one sample: numbers that they give, or failure.
#[test]
fn paths_are_evaluated_as_stated(rt: HostRuntime) {
    let value = sample(&rt, rt.alloc());
    check_numbers(&rt, rt.alloc(), &value)
}

/// `{"b": {"c": 2}, "a": 1}`
fn two_parts(rt: &impl Abort, alloc: Global) -> Value {
    let inner = object(rt, alloc, "c", Value::Int(2));
    let mut value = object(rt, alloc, "b", inner);
    add(rt, alloc, &mut value, "a", Value::Int(1));
    value
}

fn gives_itself(rt: &impl Abort, alloc: Global, s: &str, value: &Value) -> bool {
    let path = path(rt, alloc, s);
    gives(rt, alloc, &path, value, Some(value))
}

/// Whether a list of paths gives this value, or where there is none, fails.
fn list_gives(
    rt: &impl Abort,
    alloc: Global,
    list: &[&str],
    value: &Value,
    expected: Option<&Value>,
) -> bool {
    let list = paths(rt, alloc, list);
    gives(rt, alloc, &list, value, expected)
}

/// The empty path gives the value; a list gives an Array of its parts' values, or fails.
#[test]
fn whole_values_and_lists_are_evaluated(rt: HostRuntime) {
    let both = array_of(&rt, rt.alloc(), &[Short::Int(1), Short::Int(2)]);
    let value = two_parts(&rt, rt.alloc());
    assert!(rt; list_gives(&rt, rt.alloc(), &["a", "b.c"], &value, Some(&both)));
    assert!(rt; list_gives(&rt, rt.alloc(), &["a", "b.d"], &value, None));
    assert!(rt; gives_itself(&rt, rt.alloc(), "", &value));
}

/// Paths, and whether a key could be injected by them into the sample.
static INJECTIONS: [(&str, bool); 12] = [
    ("", false),
    ("k", true),
    ("a.k", true),
    ("b.k", true),
    ("x.y.z", true),
    ("b.x.k", true),
    ("b.c.k", false),
    ("s.k", false),
    ("u.k", false),
    ("a.length.k", false),
    ("b.length.k", false),
    ("a.length", true),
];

/// Whether a key could be injected by the path, and whether there is room for it.
fn injectable(rt: &impl Abort, alloc: Global, s: &str, value: &Value) -> (bool, bool) {
    let path = path(rt, alloc, s);
    (could_inject(&path, value), has_room(&path, value))
}

fn injectable_by_list(
    rt: &impl Abort,
    alloc: Global,
    list: &[&str],
    value: &Value,
) -> (bool, bool) {
    let list = paths(rt, alloc, list);
    (could_inject(&list, value), has_room(&list, value))
}

fn check_injections(rt: &impl Abort, alloc: Global, value: &Value) {
    for (s, possible) in &INJECTIONS {
        assert_eq!(rt; injectable(rt, alloc, s, value), (*possible, true), "{s}");
    }
    assert_eq!(rt; injectable_by_list(rt, alloc, &["k"], value), (false, true));
}

/// Paths by which a key could be injected into one sample, and such by which it could not.
#[test]
fn injection_is_possible_as_stated(rt: HostRuntime) {
    let value = sample(&rt, rt.alloc());
    check_injections(&rt, rt.alloc(), &value)
}

/// Values that are no Objects or Arrays take no key.
#[test]
fn other_values_take_no_key(rt: HostRuntime) {
    let path = path(&rt, rt.alloc(), "k");
    assert!(rt; !could_inject(&path, &Value::Set(Items::new(rt.alloc()))));
    assert!(rt; !could_inject(&path, &Value::Date(0)));
}

/// Injects the number where the conditions hold; whether they do.
fn inject_number(
    rt: &impl Abort,
    alloc: Global,
    path: &KeyPath,
    value: &mut Value,
    number: i64,
) -> bool {
    if !could_inject(path, value) || !has_room(path, value) {
        return false;
    }
    if evaluate(alloc, path, value).expect(rt, "memory").is_some() {
        return false;
    }
    inject(alloc, path, value, &Key::Number(number)).expect(rt, "memory");
    true
}

/// `{"a": {"b": inner}}`
fn in_both(rt: &impl Abort, alloc: Global, inner: Value) -> Value {
    object(rt, alloc, "a", object(rt, alloc, "b", inner))
}

/// Whether the key 1 goes into the value by `a.b`.
fn takes_one(rt: &impl Abort, alloc: Global, value: &mut Value) -> bool {
    let path = path(rt, alloc, "a.b");
    inject_number(rt, alloc, &path, value, 1)
}

/// Whether the key 1 goes into the value by `a.b` and makes this of it.
fn becomes(rt: &impl Abort, alloc: Global, value: &mut Value, wanted: &Value) -> bool {
    takes_one(rt, alloc, value) && same_value(value, wanted)
}

fn becomes_in_both(rt: &impl Abort, alloc: Global, value: &mut Value) -> bool {
    let one = in_both(rt, alloc, Value::Int(1));
    becomes(rt, alloc, value, &one)
}

fn nothing_becomes_in_both(rt: &impl Abort, alloc: Global) -> bool {
    let mut value = Value::Object(Props::new(alloc));
    becomes_in_both(rt, alloc, &mut value)
}

/// By `a.b` a key goes into `{}`.
#[test]
fn keys_are_injected_as_stated(rt: HostRuntime) {
    assert!(rt; nothing_becomes_in_both(&rt, rt.alloc()));
}

fn null_takes_one(rt: &impl Abort, alloc: Global) -> bool {
    let mut value = in_both(rt, alloc, Value::Null);
    takes_one(rt, alloc, &mut value)
}

fn number_takes_one(rt: &impl Abort, alloc: Global) -> bool {
    let mut value = object(rt, alloc, "a", Value::Int(3));
    takes_one(rt, alloc, &mut value)
}

/// A key goes by `a.b` neither into `{"a": 3}` nor where something stands.
#[test]
fn keys_are_not_injected_where_something_stands(rt: HostRuntime) {
    assert!(rt; !null_takes_one(&rt, rt.alloc()));
    assert!(rt; !number_takes_one(&rt, rt.alloc()));
}

/// `{"a": {"b": inner}, "z": null}`
fn in_both_with_other(rt: &impl Abort, alloc: Global, inner: Value) -> Value {
    let mut value = in_both(rt, alloc, inner);
    add(rt, alloc, &mut value, "z", Value::Null);
    value
}

fn becomes_with_other(rt: &impl Abort, alloc: Global, value: &mut Value) -> bool {
    let one = in_both_with_other(rt, alloc, Value::Int(1));
    becomes(rt, alloc, value, &one)
}

fn undefined_becomes_one(rt: &impl Abort, alloc: Global) -> bool {
    let mut held = in_both_with_other(rt, alloc, Value::Undefined);
    becomes_with_other(rt, alloc, &mut held)
}

/// What was Undefined takes the key, and other properties stay.
#[test]
fn other_properties_stay(rt: HostRuntime) {
    assert!(rt; undefined_becomes_one(&rt, rt.alloc()));
}

/// Values in the order of their keys: numbers, dates, strings, binaries, Arrays.
fn risen(rt: &impl Abort, alloc: Global, place: usize) -> Value {
    match place {
        0 => Value::Int(-3),
        1 => Value::Int(5),
        2 => Value::Date(-9),
        3 => text_value(rt, alloc, "a"),
        4 => text_value(rt, alloc, "ab"),
        5 => bytes_value(rt, alloc, &[]),
        6 => array_of(rt, alloc, &[]),
        7 => array_of(rt, alloc, &[Short::Int(5)]),
        8 => array_of(rt, alloc, &[Short::Int(5), Short::Text("a")]),
        _ => array_of(rt, alloc, &[Short::Date(-9)]),
    }
}

fn sign(order: Option<Ordering>) -> &'static str {
    match order {
        Some(Ordering::Less) => "<",
        Some(Ordering::Equal) => "=",
        Some(Ordering::Greater) => ">",
        None => "?",
    }
}

/// How the value stands to each of them, by itself and by its key.
fn write_signs(rt: &impl Abort, alloc: Global, value: &Value, said: &mut String) {
    let key = to_key(alloc, value).expect(rt, "memory");
    for place in 0..10 {
        let other = risen(rt, alloc, place);
        let by_key = match &key {
            Some(key) => compare_key(key, &other),
            None => None,
        };
        let _ = write!(
            said,
            "{}{}",
            sign(compare_values(value, &other)),
            sign(by_key)
        );
    }
    let _ = write!(said, "\n");
}

/// Each of ten rising values beside each, and a value without a key.
#[test]
fn keys_of_values_compare_as_stated(rt: HostRuntime) {
    let mut said = String::new(rt.alloc());
    for place in 0..10 {
        write_signs(&rt, rt.alloc(), &risen(&rt, rt.alloc(), place), &mut said);
    }
    write_signs(&rt, rt.alloc(), &Value::Null, &mut said);
    assert!(rt;
        said.as_str()
            == "==<<<<<<<<<<<<<<<<<<
>>==<<<<<<<<<<<<<<<<
>>>>==<<<<<<<<<<<<<<
>>>>>>==<<<<<<<<<<<<
>>>>>>>>==<<<<<<<<<<
>>>>>>>>>>==<<<<<<<<
>>>>>>>>>>>>==<<<<<<
>>>>>>>>>>>>>>==<<<<
>>>>>>>>>>>>>>>>==<<
>>>>>>>>>>>>>>>>>>==
????????????????????
"
    );
}

/// An Object whose n is 5, whose s is ab, and whose t is the Array of both.
fn keyed(rt: &impl Abort, alloc: Global) -> Value {
    let mut value = object(rt, alloc, "n", Value::Int(5));
    add(rt, alloc, &mut value, "s", text_value(rt, alloc, "ab"));
    let both = array_of(rt, alloc, &[Short::Int(5), Short::Text("ab")]);
    add(rt, alloc, &mut value, "t", both);
    value
}

/// Whether the path gives the key of the second value on it.
fn gives_that(rt: &impl Abort, alloc: Global, path: &KeyPath, expected: &Value) -> &'static str {
    let key = to_key(alloc, expected)
        .expect(rt, "memory")
        .expect(rt, "a key");
    if gives_key(path, &keyed(rt, alloc), &key) {
        "y"
    } else {
        "n"
    }
}

/// For a path, whether it gives 5, ab, 2, [5, ab], [5], [5, ab, 5] and [ab, 5].
fn write_given(rt: &impl Abort, alloc: Global, path: &KeyPath, said: &mut String) {
    let five = Short::Int(5);
    let ab = Short::Text("ab");
    for short in &[five, ab, Short::Int(2)] {
        let _ = write!(
            said,
            "{}",
            gives_that(rt, alloc, path, &value(rt, alloc, *short))
        );
    }
    let lists: [&[Short]; 4] = [&[five, ab], &[five], &[five, ab, five], &[ab, five]];
    for list in &lists {
        let _ = write!(
            said,
            "{}",
            gives_that(rt, alloc, path, &array_of(rt, alloc, *list))
        );
    }
    let _ = write!(said, "\n");
}

#[test]
fn paths_give_keys_as_stated(rt: HostRuntime) {
    let alloc = rt.alloc();
    let mut said = String::new(alloc);
    for s in &["n", "s", "t", "t.length", "x", ""] {
        write_given(&rt, alloc, &path(&rt, alloc, *s), &mut said);
    }
    write_given(&rt, alloc, &paths(&rt, alloc, &["n", "s"]), &mut said);
    write_given(&rt, alloc, &paths(&rt, alloc, &["n"]), &mut said);
    write_given(&rt, alloc, &paths(&rt, alloc, &["n", "x"]), &mut said);
    assert!(rt;
        said.as_str()
            == "ynnnnnn
nynnnnn
nnnynnn
nnynnnn
nnnnnnn
nnnnnnn
nnnynnn
nnnnynn
nnnnnnn
"
    );
}
