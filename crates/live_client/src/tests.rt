// Upgrades through planned handlers: each request call once, and what ends an upgrade. The expected texts were derived by hand from
// the rules of the standard.
use crate::bodies::Body;
use crate::calls::Calls;
use crate::clients::run_upgrade;
use crate::plans::Planned;
use crate::saying::{Ended, say_events, say_left, say_name, say_step};
use crate::steps::*;
use idb_calls::Events;
use request_lists::{HandlerEnd, Refusal};
use std::alloc::Global;
use std::process::Abort;

/// Runs the upgrade, and writes what its handlers wrote, how it ended, and what it leaves.
fn run_it(
    rt: &impl Abort,
    alloc: Global,
    body: Body,
    requests: Calls<Planned>,
    throws: bool,
    said: &mut String,
) {
    let mut notes = Events::new(alloc);
    let (step, live): Ended = run_upgrade(alloc, body, requests, throws, &mut notes).expect(
        rt, "memory",
    );
    say_events(&notes, said);
    say_step(step, said);
    say_left(rt, alloc, &live.into_parts(), said);
    let _ = said.push_str("\n");
}

/// The body places these.
const EVERY: [Request; 9] = [
    ((Add, 1, 30), &[&[(Put, 9, 90)]], RETURNS),
    ((Put, 2, 20), &[], RETURNS),
    ((Get, 1, 0), &[], RETURNS),
    ((GetKey, 2, 0), &[], RETURNS),
    ((Count, 0, 0), &[], RETURNS),
    ((All, 0, 0), &[], RETURNS),
    ((Keys, 0, 0), &[], RETURNS),
    (
        (Open, 0, 0),
        &[
            &[(Update(8), 0, 31), (Advance(8), 1, 0)],
            &[(DeleteHere(8), 0, 0), (Continue(8), 0, 0)],
            &[(Delete, 1, 0), (All, 0, 0), (Clear, 0, 0), (Count, 0, 0)],
        ],
        RETURNS,
    ),
    (
        (OpenKeys, 0, 0),
        &[
            &[(ContinuePrimary(9), 30, 1)],
            &[(Continue(9), 0, 0)],
            &[(Advance(9), 1, 0)],
        ],
        RETURNS,
    ),
];

/// What a handler places comes behind all that was placed before: the put of the first handler is the tenth request, and runs when
/// the cursors have opened.
#[test]
fn every_request_is_run_through_handlers(rt: HostRuntime) {
    let mut said = String::new(rt.alloc());
    let (body, at) = begun_body(&rt, rt.alloc(), false);
    let requests = requests_of(&rt, rt.alloc(), at, &EVERY);
    run_it(&rt, rt.alloc(), body, requests, false, &mut said);
    assert_eq!(rt;
        said.as_str(),
        concat!(
            "1:1 2:2 3:30 4:2 5:2 6:30,20, 7:1,2, 8:key=1,primaryKey=1,value=30, 9:key=20,primaryKey=2, ",
            "10:9 11:1 8:key=2,primaryKey=2,value=20, 9:key=31,primaryKey=1, 12:undefined ",
            "8:key=9,primaryKey=9,value=90, 9:key=90,primaryKey=9, ",
            "13:undefined 14:90, 15:undefined 16:0 9:null committed version 2 with\n"
        )
    );
}

/// Whether the index is unique, the requests of the body, and how it ends.
type Upgrade = (bool, &'static [Request], BodyEnd);

const PUT_SEVEN: &[Request] = &[((Put, 1, 7), &[], RETURNS)];

/// The second put breaks a unique index.
const SECOND_REFUSED: &[Request] = &[
    ((Put, 1, 7), &[], RETURNS),
    ((Put, 2, 7), &[], RETURNS),
    ((Put, 3, 8), &[], RETURNS),
];

const SECOND_PREVENTED: &[Request] = &[
    ((Put, 1, 7), &[], RETURNS),
    ((Put, 2, 7), &[&[(Put, 4, 9)]], PREVENTS),
    ((Put, 3, 8), &[], RETURNS),
];

/// The first handler places a put and throws.
const HANDLER_THROWS: &[Request] = &[
    ((Put, 1, 7), &[&[(Put, 3, 9)]], HandlerEnd::Threw),
    ((Put, 2, 8), &[], RETURNS),
];

/// Upgrades, and what is said of each: what was refused, the events, the end, and what is left.
const UPGRADES: [(Upgrade, &str); 7] = [
    (
        (true, SECOND_REFUSED, Returns),
        "1:1 2:ConstraintError 3:AbortError aborted ConstraintError version 1\n",
    ),
    (
        (true, SECOND_PREVENTED, Returns),
        "1:1 2:ConstraintError 3:3 4:4 committed version 2 with 1=7 3=8 4=9\n",
    ),
    (
        (false, HANDLER_THROWS, Returns),
        "1:1 2:AbortError 3:AbortError aborted AbortError version 1\n",
    ),
    (
        (false, PUT_SEVEN, Throws),
        "1:AbortError aborted AbortError version 1\n",
    ),
    (
        (false, PUT_SEVEN, Aborts),
        "1:AbortError aborted null version 1\n",
    ),
    (
        (false, PUT_SEVEN, Commits),
        "TransactionInactiveError 1:1 committed version 2 with 1=7\n",
    ),
    ((false, &[], Returns), "committed version 2 with\n"),
];

/// Asks for the request; what is refused is said.
fn ask(
    rt: &impl Abort,
    alloc: Global,
    at: Place,
    body: &mut Body,
    request: &Request,
    said: &mut String,
) {
    let (ask, turns, ends) = request;
    let handler = handler_of(rt, alloc, at, turns, *ends);
    match body.ask(call_of(rt, at, ask), handler) {
        Ok(()) => {}
        Err(Refusal::Name(name)) => say_name(Some(name), said),
        Err(Refusal::NoMemory) => panic!(rt; "memory"),
    }
}

/// Ends the script of the body. Behind `commit` one put more is asked for.
fn end_body(
    rt: &impl Abort,
    alloc: Global,
    at: Place,
    body: &mut Body,
    end: BodyEnd,
    said: &mut String,
) {
    const MORE: Request = ((Put, 2, 8), &[], RETURNS);
    match end {
        Returns => {}
        Throws => {}
        Aborts => body.abort().expect(rt, "taken"),
        Commits => {
            body.commit().expect(rt, "taken");
            ask(rt, alloc, at, body, &MORE, said);
        }
    }
}

fn upgrade(rt: &impl Abort, alloc: Global, upgrade: &Upgrade, said: &mut String) {
    let (unique, requests, end) = *upgrade;
    let (mut body, at) = begun_body(rt, alloc, unique);
    for request in requests {
        ask(rt, alloc, at, &mut body, request, said);
    }
    end_body(rt, alloc, at, &mut body, end, said);
    let throws = matches!(end, Throws);
    run_it(rt, alloc, body, Calls::new(alloc), throws, said);
}

/// An error that its handler prevents keeps the transaction, any other aborts it; a throw aborts with AbortError, `abort` with null;
/// after `commit` nothing can be placed.
#[test]
fn handlers_and_bodies_say_how_an_upgrade_ends(rt: HostRuntime) {
    let mut said = String::new(rt.alloc());
    let mut wanted = String::new(rt.alloc());
    for (case, lines) in &UPGRADES {
        upgrade(&rt, rt.alloc(), case, &mut said);
        let _ = wanted.push_str(lines);
    }
    assert_eq!(rt; said, wanted);
}
