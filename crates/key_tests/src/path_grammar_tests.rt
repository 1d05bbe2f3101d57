use clone_values::{PathSpec, Text, Texts};
use idb_base::GREATEST_LENGTH;
use path_grammar::*;
use std::alloc::Global;
use std::process::Abort;

fn text(rt: &impl Abort, alloc: Global, s: &str) -> Text {
    assert!(rt; s.len() <= GREATEST_LENGTH);
    Text::copy_of(alloc, s).expect(rt, "memory")
}

/// So many times `a`, joined by full stops.
fn joined(rt: &impl Abort, alloc: Global, count: u32) -> Text {
    let mut s = String::from_str(alloc, "a").expect(rt, "memory");
    for _ in 1..count {
        s.push_str(".a").expect(rt, "memory");
    }
    text(rt, alloc, s.as_str())
}

fn texts(rt: &impl Abort, alloc: Global, all: &[&str]) -> Texts {
    let mut list = Texts::new(alloc);
    for s in all {
        assert!(rt; list.len() < 100);
        list.push(text(rt, alloc, s)).expect(rt, "memory");
    }
    list
}

/// False exactly where the answer is `Syntax`, or what is read or its copy has another spec.
fn is_read(rt: &impl Abort, alloc: Global, spec: PathSpec) -> bool {
    match KeyPath::parse(spec) {
        Ok(path) => is_as_its_copy(rt, alloc, &path),
        Err(error) => error != PathError::Syntax,
    }
}

fn is_as_its_copy(rt: &impl Abort, alloc: Global, path: &KeyPath) -> bool {
    let copy = path.copy(alloc).expect(rt, "memory");
    match (path.spec(), copy.spec()) {
        (PathSpec::One(a), PathSpec::One(b)) => a.as_str() == b.as_str(),
        (PathSpec::Many(a), PathSpec::Many(b)) => a.len() == b.len(),
        _ => false,
    }
}

/// Strings, and whether they are key paths.
static STRINGS: [(&str, bool); 19] = [
    ("", true),
    ("a.b", true),
    ("a..b", false),
    ("1a", false),
    ("$x", true),
    ("_", true),
    ("$", true),
    (".", false),
    ("a.", false),
    (".a", false),
    ("a b", false),
    ("a-b", false),
    ("a1$_", true),
    ("h\u{00E9}.\u{4E2D}\u{6587}", true),
    ("a\u{200C}b\u{200D}", true),
    ("\u{200C}a", false),
    ("\u{1F600}", false),
    ("a.1", false),
    ("length", true),
];

fn string_is_read(rt: &impl Abort, alloc: Global, s: &str) -> bool {
    is_read(rt, alloc, PathSpec::One(text(rt, alloc, s)))
}

fn list_is_read(rt: &impl Abort, alloc: Global, all: &[&str]) -> bool {
    is_read(rt, alloc, PathSpec::Many(texts(rt, alloc, all)))
}

/// Strings that are key paths, and such as are not.
#[test]
fn paths_are_read_as_stated(rt: HostRuntime) {
    for (s, valid) in &STRINGS {
        assert_eq!(rt; string_is_read(&rt, rt.alloc(), s), *valid, "{s}");
    }
}

/// A path of 99 names is read, one of 100 is not.
#[test]
fn long_paths_are_read_as_stated(rt: HostRuntime) {
    for (count, valid) in [(1, true), (99, true), (100, false), (101, false)] {
        let spec = PathSpec::One(joined(&rt, rt.alloc(), count));
        assert_eq!(rt; is_read(&rt, rt.alloc(), spec), valid, "{count}");
    }
}

/// Lists of strings that are key paths, and such as are not.
#[test]
fn lists_are_read_as_stated(rt: HostRuntime) {
    let lists: [(&[&str], bool); 4] = [
        (&[], false),
        (&["a", "b.c"], true),
        (&["", "a", "a"], true),
        (&["a", "b..c"], false),
    ];
    for (list, valid) in &lists {
        assert_eq!(rt; list_is_read(&rt, rt.alloc(), list), *valid);
    }
}
