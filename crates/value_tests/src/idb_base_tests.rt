// The list at a concrete type, and what want of memory is made of.
use idb_base::Listed;
use std::alloc::Global;
use std::fmt::Write;
use std::process::Abort;

#[derive(Drop)]
enum Edit {
    Push(u64),
    InsertAt(usize, u64),
    RemoveAt(usize),
    At(usize),
    Copy,
}

/// Makes one edit, and writes what it answered.
fn make(rt: &impl Abort, alloc: Global, list: &mut Listed<u64>, said: &mut String, edit: &Edit) {
    match edit {
        Edit::Push(n) => list.push(*n).expect(rt, "memory"),
        Edit::InsertAt(place, n) => {
            if *place <= list.len() {
                list.insert_at(*place, *n).expect(rt, "memory");
            }
        }
        Edit::RemoveAt(place) => {
            if *place < list.len() {
                let _ = write!(said, "-{}", list.remove_at(*place));
            }
        }
        Edit::At(place) => match list.at(*place) {
            Some(n) => {
                let _ = write!(said, "={n}");
            }
            None => {
                let _ = write!(said, "=none");
            }
        },
        Edit::Copy => {
            let copied = list.copy(alloc).expect(rt, "memory");
            for n in copied.into_vec() {
                let _ = write!(said, ",{n}");
            }
        }
    }
}

#[test]
fn a_list_keeps_its_items_in_order(rt: HostRuntime) {
    let edits = [
        Edit::Push(7),
        Edit::Push(9),
        Edit::InsertAt(0, 5),
        Edit::At(0),
        Edit::At(3),
        Edit::Copy,
        Edit::RemoveAt(1),
        Edit::Copy,
    ];
    let mut list = Listed::new(rt.alloc());
    let mut said = String::new(rt.alloc());
    for it in &edits {
        make(&rt, rt.alloc(), &mut list, &mut said, it);
    }
    assert!(rt; said.as_str() == "=5=none,5,7,9-7,5,9");
}
