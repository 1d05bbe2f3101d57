// The start rule on worked values: readers and writers of one item and of others.
use idb_keys::Mode;
use scope_desk::{MayStart, ScopeDesk};
use std::fmt::Write;
use std::process::Abort;

#[derive(Clone, Copy)]
enum Edit {
    Create(u16, Mode),
    Finish(u64),
    MayStart(u64),
    Least,
}

fn create(rt: &impl Abort, desk: &mut ScopeDesk, said: &mut String, item: u16, mode: Mode) {
    if desk.next() < 1000 {
        let number = desk.create(&[item, item], mode).expect(rt, "memory");
        let _ = write!(said, "+{number} ");
    }
}

fn finish(desk: &mut ScopeDesk, number: u64) {
    if desk.has(number) {
        desk.finish(number);
    }
}

fn write_start(desk: &ScopeDesk, said: &mut String, number: u64) {
    if desk.has(number) {
        let _ = match desk.may_start(number) {
            MayStart::Go => write!(said, "{number} "),
            MayStart::NotYet { blocker } => write!(said, "{number}<{blocker} "),
        };
    }
}

fn write_least(desk: &ScopeDesk, said: &mut String) {
    let _ = write!(said, "least {} ", desk.least().unwrap_or(0));
}

/// Makes one edit, and writes what it answered.
fn make(rt: &impl Abort, desk: &mut ScopeDesk, said: &mut String, edit: &Edit) {
    match edit {
        Edit::Create(item, mode) => create(rt, desk, said, *item, *mode),
        Edit::Finish(number) => finish(desk, *number),
        Edit::MayStart(number) => write_start(desk, said, *number),
        Edit::Least => write_least(desk, said),
    }
}

const EDITS: [Edit; 19] = [
    Edit::Create(5, Mode::ReadOnly),
    Edit::Create(5, Mode::ReadWrite),
    Edit::Create(5, Mode::ReadOnly),
    Edit::Create(6, Mode::ReadWrite),
    Edit::MayStart(1),
    Edit::MayStart(2),
    Edit::MayStart(3),
    Edit::MayStart(4),
    Edit::Finish(1),
    Edit::Least,
    Edit::MayStart(2),
    Edit::MayStart(3),
    Edit::MayStart(4),
    Edit::Finish(2),
    Edit::MayStart(3),
    Edit::MayStart(4),
    Edit::Finish(4),
    Edit::Finish(3),
    Edit::Least,
];

#[test]
fn readers_wait_for_writers_and_writers_for_both(rt: HostRuntime) {
    let mut desk = ScopeDesk::new(rt.alloc());
    let mut said = String::new(rt.alloc());
    for edit in &EDITS {
        make(&rt, &mut desk, &mut said, edit);
    }
    assert_eq!(rt;
        said.as_str(),
        "+1 +2 +3 +4 1 2<1 3<2 4 least 2 2 3<2 4 3 4 least 0 "
    );
}
