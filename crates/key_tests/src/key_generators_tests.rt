use clone_values::{Bytes, Key, Keys, Text};
use key_generators::*;
use std::alloc::Global;
use std::process::Abort;

/// The keys that the generator's rows note: numbers from far below 0 to far above 2^53, then one key of each other type.
static NUMBERS: [i64; 10] = [
    -9007199254740993,
    -3,
    0,
    1,
    7,
    8,
    9007199254740990,
    9007199254740991,
    9007199254740992,
    9007199254740993,
];

fn other_key(rt: &impl Abort, alloc: Global, place: usize) -> Key {
    match place {
        0 => Key::Date(99),
        1 => Key::Text(Text::copy_of(alloc, "99").expect(rt, "memory")),
        2 => Key::Binary(Bytes::new(alloc)),
        _ => array_key(rt, alloc),
    }
}

fn array_key(rt: &impl Abort, alloc: Global) -> Key {
    let mut keys = Keys::new(alloc);
    keys.push(Key::Number(99)).expect(rt, "memory");
    Key::Array(keys)
}

/// A generator with this current number.
fn generator_at(current: u64) -> Generator {
    let mut generator = Generator::new();
    if (1..=9007199254740993).contains(&current) {
        generator.restore(current);
    }
    generator
}

/// The current number after a number key was noted.
fn after_number(current: u64, number: i64) -> u64 {
    let mut generator = generator_at(current);
    generator.note_key(&Key::Number(number));
    generator.current()
}

/// The current number of a new generator after a key was noted.
fn after_key(key: &Key) -> u64 {
    let mut generator = Generator::new();
    generator.note_key(key);
    generator.current()
}

/// What a generator gives next, 0 where it is exhausted.
fn given(generator: &mut Generator) -> u64 {
    generator.generate().unwrap_or(0)
}

/// The same by the standard's words over wide integers, in which nothing is cut off early.
fn slow_after_number(current: u64, number: i64) -> u64 {
    let limit: i128 = 9007199254740992;
    let value = if (number as i128) < limit {
        number as i128
    } else {
        limit
    };
    if value < current as i128 {
        current
    } else if value == limit {
        9007199254740993
    } else {
        number as u64 + 1
    }
}

/// The current number, the number that is noted, and the current number afterwards.
static ROWS: [(u64, i64, u64); 14] = [
    (1, -3, 1),
    (1, 0, 1),
    (1, 1, 2),
    (1, 7, 8),
    (8, 7, 8),
    (8, 8, 9),
    (1, 9007199254740990, 9007199254740991),
    (1, 9007199254740991, 9007199254740992),
    (1, 9007199254740992, 9007199254740993),
    (1, 9007199254740993, 9007199254740993),
    (9007199254740992, 9007199254740991, 9007199254740992),
    (9007199254740992, 9007199254740992, 9007199254740993),
    (9007199254740993, 9007199254740992, 9007199254740993),
    (9007199254740993, 1, 9007199254740993),
];

/// A number key that is not less than the current number sets it to one more, up to the limit.
#[test]
fn number_keys_are_passed(rt: HostRuntime) {
    for (current, number, expected) in &ROWS {
        assert_eq!(rt; after_number(*current, *number), *expected);
    }
}

/// Whether each of the numbers is noted by the standard's words.
fn are_noted(current: u64) -> bool {
    let mut are_equal = true;
    for number in &NUMBERS {
        are_equal = are_equal
            && after_number(current, *number) == slow_after_number(current, *number);
    }
    are_equal
}

/// The same as by the standard's words, from several current numbers.
#[test]
fn number_keys_are_passed_as_by_the_standard(rt: HostRuntime) {
    for current in [
        1,
        2,
        8,
        9007199254740991,
        9007199254740992,
        9007199254740993,
    ] {
        assert!(rt; are_noted(current), "{current}");
    }
}

/// Keys of other types change nothing.
#[test]
fn other_keys_change_nothing(rt: HostRuntime) {
    for place in 0..4 {
        let key = other_key(&rt, rt.alloc(), place);
        assert_eq!(rt; after_key(&key), 1);
    }
}

/// The numbers count up from 1.
#[test]
fn numbers_count_up(rt: HostRuntime) {
    let mut generator = Generator::new();
    for expected in 1..4 {
        assert_eq!(rt; given(&mut generator), expected);
    }
}

/// A generator that gave 1, 2 and 3 and noted 2^53 - 1.
fn nearly_spent() -> Generator {
    let mut generator = Generator::new();
    for _ in 1..4 {
        let _ = given(&mut generator);
    }
    generator.note_key(&Key::Number(9007199254740991));
    generator
}

/// The numbers that count up end with 2^53.
#[test]
fn numbers_count_up_and_end(rt: HostRuntime) {
    let mut generator = nearly_spent();
    assert_eq!(rt; given(&mut generator), 9007199254740992);
    for _ in 0..2 {
        let answer = given(&mut generator);
        assert_eq!(rt; (answer, generator.current()), (0, 9007199254740993));
    }
}

/// A generator that noted 2^53 gives nothing.
#[test]
fn a_spent_generator_gives_nothing(rt: HostRuntime) {
    let mut spent = Generator::new();
    spent.note_key(&Key::Number(9007199254740992));
    assert_eq!(rt; given(&mut spent), 0);
}
