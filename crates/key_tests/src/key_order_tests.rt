use clone_values::{Bytes, Key, Keys, Text};
use idb_base::GREATEST_LENGTH;
use key_order::*;
use std::alloc::Global;
use std::cmp::Ordering;
use std::process::Abort;

/// A key in short: a number, a date, a string, a binary, or an array of numbers, of strings or of such arrays.
#[derive(Clone, Copy, Debug)]
enum Short {
    Number(i64),
    Date(i64),
    Text(&'static str),
    Binary(&'static [u8]),
    Numbers(&'static [i64]),
    Texts(&'static [&'static str]),
    Arrays(&'static [&'static [i64]]),
}

use Short::{Arrays, Binary, Date, Number, Numbers, Texts};

fn text(rt: &impl Abort, alloc: Global, s: &str) -> Key {
    assert!(rt; s.len() <= GREATEST_LENGTH);
    Key::Text(Text::copy_of(alloc, s).expect(rt, "memory"))
}

fn numbers(rt: &impl Abort, alloc: Global, all: &[i64]) -> Key {
    let mut keys = Keys::new(alloc);
    for n in all {
        assert!(rt; keys.len() < 100);
        keys.push(Key::Number(*n)).expect(rt, "memory");
    }
    Key::Array(keys)
}

fn binary(rt: &impl Abort, alloc: Global, all: &[u8]) -> Key {
    let mut bytes = Bytes::new(alloc);
    for b in all {
        assert!(rt; bytes.len() < 100);
        bytes.push(*b).expect(rt, "memory");
    }
    Key::Binary(bytes)
}

fn texts(rt: &impl Abort, alloc: Global, all: &[&'static str]) -> Key {
    let mut keys = Keys::new(alloc);
    for s in all {
        assert!(rt; keys.len() < 100);
        keys.push(text(rt, alloc, s)).expect(rt, "memory");
    }
    Key::Array(keys)
}

fn arrays(rt: &impl Abort, alloc: Global, all: &[&'static [i64]]) -> Key {
    let mut keys = Keys::new(alloc);
    for part in all {
        assert!(rt; keys.len() < 100);
        keys.push(numbers(rt, alloc, part)).expect(rt, "memory");
    }
    Key::Array(keys)
}

fn key(rt: &impl Abort, alloc: Global, short: &Short) -> Key {
    match short {
        Short::Number(n) => Key::Number(*n),
        Short::Date(d) => Key::Date(*d),
        Short::Text(s) => text(rt, alloc, s),
        Short::Binary(all) => binary(rt, alloc, all),
        Short::Numbers(all) => numbers(rt, alloc, all),
        Short::Texts(all) => texts(rt, alloc, all),
        Short::Arrays(all) => arrays(rt, alloc, all),
    }
}

/// How the first key compares with the second one.
fn order(rt: &impl Abort, alloc: Global, first: &Short, second: &Short) -> Ordering {
    let a = key(rt, alloc, first);
    let b = key(rt, alloc, second);
    compare(&a, &b)
}

/// Pairs of which the first key is less, by the text of "compare two keys" (Indexed Database API 3.0): an array is
/// greater than a binary, this than a string, this than a date, this than a number; within a type by value, by code
/// units, by bytes, by members, and then the shorter first.
const RISING: [(Short, Short); 56] = [
    (Number(5), Date(0)),
    (Date(0), Short::Text("")),
    (Short::Text(""), Binary(&[])),
    (Binary(&[]), Numbers(&[])),
    (Number(5), Short::Text("")),
    (Number(5), Binary(&[])),
    (Number(5), Numbers(&[])),
    (Date(0), Binary(&[])),
    (Date(0), Numbers(&[])),
    (Short::Text(""), Numbers(&[])),
    (Number(9_007_199_254_740_992), Date(-1)),
    (Number(9_007_199_254_740_992), Date(-8_640_000_000_000_000)),
    (Date(8_640_000_000_000_000), Short::Text("")),
    (Short::Text("\u{10FFFF}"), Binary(&[])),
    (Binary(&[255, 255]), Numbers(&[])),
    (Number(9), Short::Text("1")),
    (Date(9), Short::Text("1")),
    (Short::Text("z"), Binary(&[0])),
    (Binary(&[255]), Numbers(&[-1])),
    (Number(-1), Number(0)),
    (Number(0), Number(1)),
    (Number(9), Number(10)),
    (Number(-10), Number(-9)),
    (
        Number(-9_007_199_254_740_992),
        Number(9_007_199_254_740_992),
    ),
    (Date(-1), Date(0)),
    (Date(99), Date(100)),
    (Date(-8_640_000_000_000_000), Date(8_640_000_000_000_000)),
    (Short::Text(""), Short::Text("a")),
    (Short::Text("a"), Short::Text("aa")),
    (Short::Text("a"), Short::Text("b")),
    (Short::Text("Z"), Short::Text("a")),
    (Short::Text("10"), Short::Text("9")),
    (Short::Text("ab"), Short::Text("b")),
    (Short::Text("a\u{0}"), Short::Text("aa")),
    (Short::Text("\u{7F}"), Short::Text("\u{80}")),
    (Short::Text("\u{7FF}"), Short::Text("\u{800}")),
    (Short::Text("\u{D7FF}"), Short::Text("\u{E000}")),
    (Short::Text("\u{D7FF}"), Short::Text("\u{10000}")),
    (Short::Text("\u{10000}"), Short::Text("\u{FF61}")),
    (Short::Text("\u{10FFFF}"), Short::Text("\u{E000}")),
    (Short::Text("\u{10000}"), Short::Text("\u{10001}")),
    (Short::Text("\u{103FF}"), Short::Text("\u{10400}")),
    (Short::Text("a\u{1F600}z"), Short::Text("a\u{FFFD}")),
    (Short::Text("\u{FFFE}"), Short::Text("\u{FFFF}")),
    (Binary(&[]), Binary(&[0])),
    (Binary(&[0]), Binary(&[0, 0])),
    (Binary(&[127]), Binary(&[128])),
    (Binary(&[1, 255]), Binary(&[2])),
    (Numbers(&[]), Numbers(&[-5])),
    (Numbers(&[1]), Numbers(&[1, 0])),
    (Numbers(&[1, 0]), Numbers(&[2])),
    (Numbers(&[1, 9]), Numbers(&[1, 10])),
    (Numbers(&[9, 9, 9]), Texts(&["a"])),
    (Texts(&["\u{10000}"]), Texts(&["\u{FF61}"])),
    (Texts(&["a", "b"]), Arrays(&[&[]])),
    (Arrays(&[&[1], &[2]]), Arrays(&[&[1, 0]])),
];

/// Keys that are equal to themselves alone.
const ALONE: [Short; 8] = [
    Number(0),
    Date(0),
    Short::Text(""),
    Short::Text("\u{10000}\u{FF61}"),
    Binary(&[]),
    Binary(&[0, 255]),
    Numbers(&[]),
    Arrays(&[&[], &[1, 2]]),
];

/// 56 rising pairs, each from both sides.
#[test]
fn keys_compare_as_stated(rt: HostRuntime) {
    for (less, greater) in &RISING {
        let rises = order(&rt, rt.alloc(), less, greater);
        let falls = order(&rt, rt.alloc(), greater, less);
        assert_eq!(rt;
            (rises, falls),
            (Ordering::Less, Ordering::Greater),
            "{less:?} {greater:?}"
        );
    }
}

/// The key at this place of `ALONE` is equal to no other one there.
fn check_alone(rt: &impl Abort, alloc: Global, i: usize, first: &Short) {
    for (j, second) in ALONE.iter().enumerate() {
        let is_equal = order(rt, alloc, first, second) == Ordering::Equal;
        assert_eq!(rt; is_equal, i == j, "{first:?} {second:?}");
    }
}

/// 64 pairs of the keys in `ALONE`.
#[test]
fn keys_are_equal_to_themselves_alone(rt: HostRuntime) {
    for (i, first) in ALONE.iter().enumerate() {
        check_alone(&rt, rt.alloc(), i, first);
    }
}

/// A million equal characters.
fn million(rt: &impl Abort, alloc: Global) -> String {
    let mut long = String::new(alloc);
    for _ in 0..1_000_000 {
        long.push('\u{20AC}').expect(rt, "memory");
    }
    long
}

/// How the texts of two strings compare.
fn order_of_texts(rt: &impl Abort, alloc: Global, first: &str, second: &str) -> Ordering {
    let a = text(rt, alloc, first);
    let b = text(rt, alloc, second);
    compare(&a, &b)
}

/// Two texts of a million equal characters, of which the last differs or is missing.
#[test]
fn long_texts_compare_in_one_pass(rt: HostRuntime) {
    let long = million(&rt, rt.alloc());
    let mut longer = long.clone().expect(&rt, "memory");
    longer.push('a').expect(&rt, "memory");
    let (long, longer) = (long.as_str(), longer.as_str());
    assert_eq!(rt;
        order_of_texts(&rt, rt.alloc(), long, long),
        Ordering::Equal
    );
    assert_eq!(rt;
        order_of_texts(&rt, rt.alloc(), long, longer),
        Ordering::Less
    );
    assert_eq!(rt;
        order_of_texts(&rt, rt.alloc(), longer, long),
        Ordering::Greater
    );
}
