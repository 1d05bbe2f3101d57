use clone_values::{Items, Pair, Pairs, Props, Text, Value};
use idb_base::GREATEST_LENGTH;
use std::alloc::Global;
use std::fmt::Write;
use std::process::Abort;
use value_members::*;

/// A member to be made.
#[derive(Clone, Copy, Drop)]
enum Member {
    Undefined,
    Null,
    Bool(bool),
    Int(i64),
    Text(&'static str),
    EmptyArray,
    Date(i64),
    Function,
}

/// One of each primitive, and members that are none but equal.
const DISTINCT: [Member; 15] = [
    Member::Undefined,
    Member::Null,
    Member::Bool(false),
    Member::Bool(true),
    Member::Int(0),
    Member::Int(1),
    Member::Int(-1),
    Member::Text(""),
    Member::Text("0"),
    Member::Text("grün"),
    Member::EmptyArray,
    Member::EmptyArray,
    Member::Date(0),
    Member::Date(0),
    Member::Function,
];

fn value_of(rt: &impl Abort, alloc: Global, member: &Member) -> Value {
    match member {
        Member::Undefined => Value::Undefined,
        Member::Null => Value::Null,
        Member::Bool(b) => Value::Bool(*b),
        Member::Int(n) => Value::Int(*n),
        Member::Text(s) => {
            assert!(rt; s.len() <= GREATEST_LENGTH);
            Value::Text(Text::copy_of(alloc, s).expect(rt, "memory"))
        }
        Member::EmptyArray => Value::Array(Items::new(alloc), Props::new(alloc)),
        Member::Date(d) => Value::Date(*d),
        Member::Function => Value::Function,
    }
}

/// Writes whether the distinct members and one more stand once, as items and as keys.
fn tell(rt: &impl Abort, alloc: Global, said: &mut String, more: &Member) {
    let mut items = Vec::new(alloc);
    let mut pairs = Vec::new(alloc);
    for member in &DISTINCT {
        enlist(rt, alloc, &mut items, &mut pairs, member);
    }
    enlist(rt, alloc, &mut items, &mut pairs, more);
    tell_items(rt, alloc, said, items);
    tell_pairs(rt, alloc, said, pairs)
}

fn tell_once(said: &mut String, is_once: bool) {
    let _ = said.push(if is_once { 'o' } else { '-' });
}

fn tell_items(rt: &impl Abort, alloc: Global, said: &mut String, items: Vec<Value>) {
    assert!(rt; items.len() <= GREATEST_LENGTH);
    let items = Items::from_vec(alloc, items).expect(rt, "memory");
    tell_once(said, are_once(alloc, &items).expect(rt, "memory"));
}

fn tell_pairs(rt: &impl Abort, alloc: Global, said: &mut String, pairs: Vec<Pair>) {
    assert!(rt; pairs.len() <= GREATEST_LENGTH);
    let pairs = Pairs::from_vec(alloc, pairs).expect(rt, "memory");
    tell_once(said, keys_are_once(alloc, &pairs).expect(rt, "memory"));
}

fn enlist(
    rt: &impl Abort,
    alloc: Global,
    items: &mut Vec<Value>,
    pairs: &mut Vec<Pair>,
    member: &Member,
) {
    items.push(value_of(rt, alloc, member)).expect(rt, "memory");
    pairs
        .push(Pair {
            key: value_of(rt, alloc, member),
            value: Value::Null,
        })
        .expect(rt, "memory");
}

/// Equal primitives are told, and nothing else; the values of a Map may be equal.
#[test]
fn a_primitive_that_stands_twice_is_found(rt: HostRuntime) {
    let more = [
        Member::Int(2),
        Member::Date(0),
        Member::EmptyArray,
        Member::Function,
        Member::Text("1"),
        Member::Undefined,
        Member::Null,
        Member::Bool(false),
        Member::Bool(true),
        Member::Int(-1),
        Member::Text(""),
        Member::Text("grün"),
    ];
    let mut said = String::new(rt.alloc());
    for member in &more {
        tell(&rt, rt.alloc(), &mut said, member);
    }
    assert!(rt; said.as_str() == "oooooooooo--------------");
}

/// Puts a number into both builders.
fn put(rt: &impl Abort, set: &mut SetBuilder, map: &mut MapBuilder, n: i64, brings: i64) {
    if set.len() < GREATEST_LENGTH && map.len() < GREATEST_LENGTH {
        set.put(Value::Int(n)).expect(rt, "memory");
        map.put(Value::Int(n), Value::Int(brings))
            .expect(rt, "memory");
    }
}

fn show_items(said: &mut String, members: &Items) {
    for place in 0..members.len() {
        if let Some(Value::Int(n)) = members.at(place) {
            let _ = write!(said, "{n},");
        }
    }
}

fn show_pairs(said: &mut String, entries: &Pairs) {
    for place in 0..entries.len() {
        if let Some(
            Pair {
                key: Value::Int(n),
                value: Value::Int(brings),
            },
        ) = entries.at(place)
        {
            let _ = write!(said, " {n}:{brings}");
        }
    }
}

fn show(rt: &impl Abort, said: &mut String, set: SetBuilder, map: MapBuilder) {
    show_items(said, &set.finish().expect(rt, "memory"));
    show_pairs(said, &map.finish().expect(rt, "memory"));
}

/// A Set keeps the first place of a repeated primitive, and so does a Map of a key, with the last value.
#[test]
fn sets_and_maps_are_built(rt: HostRuntime) {
    let mut set = SetBuilder::new(rt.alloc());
    let mut map = MapBuilder::new(rt.alloc());
    let mut said = String::new(rt.alloc());
    for (n, brings) in [(3, 30), (1, 10), (3, 31), (2, 20), (1, 11)] {
        put(&rt, &mut set, &mut map, n, brings);
    }
    show(&rt, &mut said, set, map);
    assert!(rt; said.as_str() == "3,1,2, 3:31 1:11 2:20");
}

/// Many members take the time of a sort: a way that compared each with each would not end in a test's time.
#[test]
fn many_members_take_the_time_of_a_sort(rt: HostRuntime) {
    let mut set = SetBuilder::new(rt.alloc());
    let mut map = MapBuilder::new(rt.alloc());
    for n in 0..50_000i64 {
        put(&rt, &mut set, &mut map, n / 2, n);
    }
    assert!(rt; set.len() == 25_000 && map.len() == 25_000);
}
