// That calls succeed with ample memory.
use gate_areas::*;
use std::alloc::Global;
use std::process::Abort;

fn payload_of_five(rt: &impl Abort, alloc: Global) -> Payload {
    let mut payload = Payload::new(alloc);
    payload.push(5).expect(rt, "memory");
    payload
}

fn is_five(payload: &Payload) -> bool {
    payload.len() == 1 && payload.at(0).copied() == Some(5) && payload.at(1).is_none()
}

fn one_batch(rt: &impl Abort, alloc: Global) -> Batches {
    let payload = payload_of_five(rt, alloc);
    let mut batches = Batches::new(alloc);
    batches
        .push(Batch { place: 17, payload })
        .expect(rt, "memory");
    batches
}

fn is_one(batches: &Batches) -> bool {
    batches.len() == 1
        && matches!(batches.at(0), Some(batch) if batch.payload.as_slice() == b"\x05".as_slice())
}

#[test]
fn bytes_are_added_one_by_one(rt: HostRuntime) {
    let payload = payload_of_five(&rt, rt.alloc());
    assert!(rt; is_five(&payload));
}

#[test]
fn batches_are_added_one_by_one(rt: HostRuntime) {
    let batches = one_batch(&rt, rt.alloc());
    assert!(rt; is_one(&batches));
}
