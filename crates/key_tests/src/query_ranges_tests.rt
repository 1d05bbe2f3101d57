// What queries of each form ask for.
use clone_values::{Key, Value};
use idb_calls::Query;
use idb_keys::KeyRange;
use query_ranges::*;
use std::alloc::Global;
use std::fmt::Write;
use std::process::Abort;

/// The bounds that are whole numbers, a square bracket for a closed end and a round one for an open end.
fn write_range(range: &KeyRange, said: &mut String) {
    match range.lower_bound() {
        Some((Key::Number(n), open)) => {
            let _ = write!(said, "{}{n}", if open { "(" } else { "[" });
        }
        _ => {
            let _ = write!(said, "..");
        }
    }
    match range.upper_bound() {
        Some((Key::Number(n), open)) => {
            let _ = write!(said, " {n}{}", if open { ")" } else { "]" });
        }
        _ => {
            let _ = write!(said, " ..");
        }
    }
}

fn write_keys(keys: &QueryKeys, said: &mut String) {
    match keys {
        QueryKeys::Anything => {
            let _ = write!(said, "anything");
        }
        QueryKeys::Keys(range) => write_range(range, said),
        QueryKeys::NoQuery => {
            let _ = write!(said, "no query");
        }
    }
}

fn say_keys(rt: &impl Abort, alloc: Global, query: &Query, said: &mut String) {
    let keys = read_query(alloc, query).expect(rt, "memory");
    write_keys(&keys, said);
}

fn say(rt: &impl Abort, alloc: Global, query: &Query, said: &mut String) {
    say_keys(rt, alloc, query, said);
    let must = is_query_refused(true, query);
    let may = is_query_refused(false, query);
    let _ = write!(said, " {must} {may}\n");
}

/// A query in short.
#[derive(Clone, Copy)]
enum Short {
    Absent,
    Undefined,
    Null,
    Number(i64),
    Function,
    Between(Option<i64>, Option<i64>, bool, bool),
    FromNull,
}

fn between(lower: Option<i64>, upper: Option<i64>, lower_open: bool, upper_open: bool) -> Query {
    Query::Range {
        lower: lower.map(|n| Value::Int(n)),
        upper: upper.map(|n| Value::Int(n)),
        lower_open,
        upper_open,
    }
}

fn from_null() -> Query {
    Query::Range {
        lower: Some(Value::Null),
        upper: None,
        lower_open: false,
        upper_open: false,
    }
}

fn query(short: Short) -> Query {
    match short {
        Short::Absent => Query::Absent,
        Short::Undefined => Query::One(Value::Undefined),
        Short::Null => Query::One(Value::Null),
        Short::Number(n) => Query::One(Value::Int(n)),
        Short::Function => Query::One(Value::Function),
        Short::Between(lower, upper, lower_open, upper_open) => {
            between(lower, upper, lower_open, upper_open)
        }
        Short::FromNull => from_null(),
    }
}

fn say_short(rt: &impl Abort, alloc: Global, short: Short, said: &mut String) {
    let query = query(short);
    say(rt, alloc, &query, said)
}

const QUERIES: [Short; 13] = [
    Short::Absent,
    Short::Undefined,
    Short::Null,
    Short::Number(3),
    Short::Function,
    Short::Between(Some(1), Some(2), true, false),
    Short::Between(Some(1), None, false, true),
    Short::Between(None, Some(2), true, true),
    Short::Between(None, None, false, false),
    Short::Between(Some(2), Some(1), false, false),
    Short::Between(Some(1), Some(1), false, true),
    Short::Between(Some(1), Some(1), false, false),
    Short::FromNull,
];

/// Undefined and Null say nothing; a value that is no key, a lower bound above the upper one, and two equal bounds of which one is
/// open are no query.
#[test]
fn queries_ask_for_keys(rt: HostRuntime) {
    let mut said = String::new(rt.alloc());
    for short in &QUERIES {
        say_short(&rt, rt.alloc(), *short, &mut said);
    }
    assert_eq!(rt;
        said.as_str(),
        "anything true false\nanything true false\nanything true false\n[3 3] false false\nno query true true\n(1 2] false false\n[1 .. false false\n.. 2) false false\n.. .. false false\nno query true true\nno query true true\n[1 1] false false\nno query true true\n"
    );
}
