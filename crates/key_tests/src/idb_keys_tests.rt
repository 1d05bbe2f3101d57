use clone_values::{Bytes, Key, Keys, Text};
use idb_base::GREATEST_LENGTH;
use idb_keys::*;
use std::alloc::Global;
use std::process::Abort;

/// Twelve keys that rise by the standard's words (Indexed Database API 3.0, "compare two keys"): by type, numbers and dates by value,
/// strings by code units (U+10000 begins with D800, which is below FF61), binaries by bytes, arrays by members.
fn rising_key(rt: &impl Abort, alloc: Global, place: usize) -> Key {
    match place {
        0 => Key::Number(-1),
        1 => Key::Number(1),
        2 => Key::Date(-1),
        3 => Key::Date(0),
        4 => text_key(rt, alloc, ""),
        5 => text_key(rt, alloc, "a"),
        6 => text_key(rt, alloc, "\u{10000}"),
        7 => text_key(rt, alloc, "\u{FF61}"),
        8 => Key::Binary(Bytes::new(alloc)),
        9 => byte_key(rt, alloc, 255),
        10 => Key::Array(Keys::new(alloc)),
        _ => array_key(rt, alloc, 1),
    }
}

fn text_key(rt: &impl Abort, alloc: Global, s: &str) -> Key {
    assert!(rt; s.len() <= GREATEST_LENGTH);
    Key::Text(Text::copy_of(alloc, s).expect(rt, "memory"))
}

/// A binary of one byte.
fn byte_key(rt: &impl Abort, alloc: Global, byte: u8) -> Key {
    let mut bytes = Bytes::new(alloc);
    bytes.push(byte).expect(rt, "memory");
    Key::Binary(bytes)
}

/// An array of one number.
fn array_key(rt: &impl Abort, alloc: Global, number: i64) -> Key {
    let mut keys = Keys::new(alloc);
    keys.push(Key::Number(number)).expect(rt, "memory");
    Key::Array(keys)
}

/// An x for each of the twelve keys that the range includes, and a full stop for the others.
fn picture(rt: &impl Abort, alloc: Global, range: &KeyRange) -> String {
    let mut marks = String::new(alloc);
    for place in 0..12 {
        marks
            .push(mark(rt, alloc, range, place))
            .expect(rt, "memory");
    }
    marks
}

fn mark(rt: &impl Abort, alloc: Global, range: &KeyRange, place: usize) -> char {
    let key = rising_key(rt, alloc, place);
    if range.includes(&key) { 'x' } else { '.' }
}

/// The range with bounds at these places of the twelve keys; without any, the range of all keys.
fn range_of(rt: &impl Abort, alloc: Global, lower: Place, upper: Place) -> KeyRange {
    match (lower, upper) {
        (Some(low), Some(high)) => range_between(rt, alloc, low, high),
        (Some(low), None) => range_above(rt, alloc, low),
        (None, Some(high)) => range_below(rt, alloc, high),
        (None, None) => KeyRange::all(),
    }
}

fn range_above(rt: &impl Abort, alloc: Global, low: (usize, bool)) -> KeyRange {
    KeyRange::lower(rising_key(rt, alloc, low.0), low.1)
}

fn range_below(rt: &impl Abort, alloc: Global, high: (usize, bool)) -> KeyRange {
    KeyRange::upper(rising_key(rt, alloc, high.0), high.1)
}

fn range_between(
    rt: &impl Abort,
    alloc: Global,
    low: (usize, bool),
    high: (usize, bool),
) -> KeyRange {
    let lower = rising_key(rt, alloc, low.0);
    let upper = rising_key(rt, alloc, high.0);
    KeyRange::bound(lower, upper, low.1, high.1).expect(rt, "a range")
}

type Place = Option<(usize, bool)>;

fn picture_between(rt: &impl Abort, alloc: Global, lower: Place, upper: Place) -> String {
    let range = range_of(rt, alloc, lower, upper);
    picture(rt, alloc, &range)
}

/// The lower bound, the upper bound and what the range includes.
static ROWS: [(Place, Place, &str); 22] = [
    (Some((0, false)), None, "xxxxxxxxxxxx"),
    (Some((0, true)), None, ".xxxxxxxxxxx"),
    (Some((2, false)), None, "..xxxxxxxxxx"),
    (Some((6, true)), None, ".......xxxxx"),
    (Some((9, false)), None, ".........xxx"),
    (Some((11, true)), None, "............"),
    (None, Some((0, false)), "x..........."),
    (None, Some((0, true)), "............"),
    (None, Some((3, false)), "xxxx........"),
    (None, Some((7, true)), "xxxxxxx....."),
    (None, Some((11, false)), "xxxxxxxxxxxx"),
    (Some((1, false)), Some((3, false)), ".xxx........"),
    (Some((1, true)), Some((3, false)), "..xx........"),
    (Some((1, false)), Some((3, true)), ".xx........."),
    (Some((1, true)), Some((3, true)), "..x........."),
    (Some((2, true)), Some((3, true)), "............"),
    (Some((5, true)), Some((7, false)), "......xx...."),
    (Some((6, false)), Some((7, false)), "......xx...."),
    (Some((4, false)), Some((9, true)), "....xxxxx..."),
    (Some((10, true)), Some((11, false)), "...........x"),
    (Some((8, false)), Some((8, false)), "........x..."),
    (None, None, "xxxxxxxxxxxx"),
];

/// Which keys a range includes, over open and closed bounds and keys of all types.
#[test]
fn ranges_include_by_their_bounds(rt: HostRuntime) {
    for (lower, upper, expected) in &ROWS {
        let marks = picture_between(&rt, rt.alloc(), *lower, *upper);
        assert_eq!(rt; marks.as_str(), *expected);
    }
}

/// Numbers as bounds, which of them are open, and whether `bound` takes them.
static BOUNDS: [(i64, i64, bool, bool, bool); 7] = [
    (1, 1, false, false, true),
    (1, 1, true, false, false),
    (1, 1, false, true, false),
    (1, 1, true, true, false),
    (2, 1, false, false, false),
    (2, 1, true, true, false),
    (1, 2, true, true, true),
];

fn is_taken(lower: i64, upper: i64, lower_open: bool, upper_open: bool) -> bool {
    KeyRange::bound(
        Key::Number(lower),
        Key::Number(upper),
        lower_open,
        upper_open,
    )
    .is_ok()
}

fn includes(range: &KeyRange, number: i64) -> bool {
    range.includes(&Key::Number(number))
}

/// Whether a bound is the number 1, closed.
fn is_closed_one(bound: Option<(&Key, bool)>) -> bool {
    matches!(bound, Some((Key::Number(1), false)))
}

/// The range from 1 to 1.
fn one_to_one(rt: &impl Abort) -> KeyRange {
    KeyRange::bound(Key::Number(1), Key::Number(1), false, false).expect(rt, "a range")
}

fn includes_one_alone(range: &KeyRange) -> bool {
    includes(range, 1) && !includes(range, 0) && !includes(range, 2)
}

fn is_bounded_by_one(range: &KeyRange) -> bool {
    is_closed_one(range.lower_bound()) && is_closed_one(range.upper_bound())
}

fn one_is_as_given(rt: &impl Abort) -> bool {
    let one = one_to_one(rt);
    includes_one_alone(&one) && is_bounded_by_one(&one)
}

fn lower_alone_has_upper_bound() -> bool {
    let range = KeyRange::lower(Key::Number(1), true);
    range.upper_bound().is_some()
}

fn only_includes_itself(rt: &impl Abort, alloc: Global, number: i64) -> bool {
    let range = KeyRange::only(alloc, Key::Number(number)).expect(rt, "memory");
    includes(&range, number)
}

/// `bound` refuses a lower bound above the upper one, and two equal bounds of which one is open.
#[test]
fn bounds_that_exclude_each_other_are_refused(rt: HostRuntime) {
    for (lower, upper, lower_open, upper_open, taken) in &BOUNDS {
        assert_eq!(rt; is_taken(*lower, *upper, *lower_open, *upper_open), *taken);
    }
}

/// A range of one number has this number; one without an upper bound says so.
#[test]
fn bounds_are_as_given(rt: HostRuntime) {
    assert!(rt; one_is_as_given(&rt));
    assert!(rt; !lower_alone_has_upper_bound());
    assert!(rt; only_includes_itself(&rt, rt.alloc(), 3));
}

/// A name is printed as it is.
#[test]
fn error_names_are_printed(rt: HostRuntime) {
    let name = ErrorName::TransactionInactiveError;
    let printed = name.to_string(rt.alloc()).expect(&rt, "memory");
    assert_eq!(rt;
        (name.name(), printed.as_str()),
        ("TransactionInactiveError", "TransactionInactiveError")
    );
}
