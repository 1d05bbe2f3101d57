// A name and an inbox by themselves.
use clone_values::Text;
use idb_base::GREATEST_LENGTH;
use name_queues::{Ask, ConnId, Inbox, Wants, blank_name, promise, push};
use std::alloc::Global;
use std::process::Abort;

/// Whether an open of a new name waits in its queue.
fn waits(rt: &impl Abort, alloc: Global, name: &str) -> bool {
    assert!(rt; name.len() <= GREATEST_LENGTH);
    let who = ConnId {
        client: 1,
        request: 1,
    };
    let wants = Wants::Open { version: Some(7) };
    let mut named = blank_name(alloc, Text::copy_of(alloc, name).expect(rt, "memory"), None).expect(
        rt, "memory",
    );
    push(&mut named, Ask { who, wants }).expect(rt, "memory");
    named.is_name(name) && !named.holds(who)
}

/// Whether a client to which events are promised has an inbox.
fn has_inbox(rt: &impl Abort, alloc: Global) -> bool {
    let mut boxes: Vec<Inbox> = Vec::new(alloc);
    promise(alloc, &mut boxes, 1, 5).expect(rt, "memory");
    boxes.len() == 1
}

#[test]
fn a_request_waits_for_a_new_name(rt: HostRuntime) {
    assert!(rt; waits(&rt, rt.alloc(), "d"));
    assert!(rt; has_inbox(&rt, rt.alloc()));
}
