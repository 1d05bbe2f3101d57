// Upgrades of many requests: as many as a transaction may have, and one more; a long cursor; and an abort that undoes much.
use crate::bodies::Body;
use crate::calls::Calls;
use crate::clients::run_upgrade;
use crate::plans::Planned;
use crate::saying::{Ended, say_step};
use crate::steps::*;
use idb_calls::{Call, Events};
use idb_schema::{SchemaCall, StoreId};
use request_lists::HandlerEnd;
use std::alloc::Global;
use std::fmt::Write;
use std::process::Abort;

/// How an upgrade ended, how many events its handlers wrote, and how many records its store "s" has.
fn say_counts(
    rt: &impl Abort,
    alloc: Global,
    body: Body,
    requests: Calls<Planned>,
    said: &mut String,
) {
    let mut notes = Events::new(alloc);
    let (step, live): Ended = run_upgrade(alloc, body, requests, false, &mut notes).expect(
        rt, "memory",
    );
    say_step(step, said);
    let parts = live.into_parts();
    let records = match parts.stores.store(&text(rt, alloc, "s")) {
        Some(store) => store.len(),
        None => 0,
    };
    let _ = write!(said, "{} events, {records} records", notes.as_slice().len());
}

fn put_at(
    rt: &impl Abort,
    alloc: Global,
    requests: &mut Calls<Planned>,
    store: StoreId,
    key: i64,
    ends: HandlerEnd,
) {
    requests
        .push(putting(rt, store, key, key), Planned::new(alloc, ends))
        .expect(rt, "memory");
}

/// So many puts with rising keys, placed before the first one runs.
fn many_puts(rt: &impl Abort, alloc: Global, count: i64) -> String {
    let mut said = String::new(alloc);
    let (body, at) = begun_body(rt, alloc, false);
    let mut requests = Calls::new(alloc);
    for key in 0..count {
        put_at(rt, alloc, &mut requests, at.store, key, RETURNS);
    }
    say_counts(rt, alloc, body, requests, &mut said);
    said
}

#[test]
fn a_hundred_thousand_requests_are_run(rt: HostRuntime) {
    let said = many_puts(&rt, rt.alloc(), 100_000);
    assert_eq!(rt; said.as_str(), "committed 100000 events, 100000 records");
}

/// The one past the limit isn't run: it is told so, and all before it are undone.
#[test]
fn one_more_aborts_the_upgrade(rt: HostRuntime) {
    let said = many_puts(&rt, rt.alloc(), 100_001);
    assert_eq!(rt;
        said.as_str(),
        "aborted QuotaExceededError 100001 events, 0 records"
    );
}

/// A handler that lets its cursor go on, so many times.
fn walker(rt: &impl Abort, alloc: Global, cursor: u32, turns: i64) -> Planned {
    let mut handler = Planned::new(alloc, RETURNS);
    for _turn in 0..turns {
        let mut turn = Calls::new(alloc);
        turn.push(Call::Continue { cursor, key: None }, RETURNS)
            .expect(rt, "memory");
        handler.push(turn).expect(rt, "memory");
    }
    handler
}

/// As many records as a cursor can visit in the transaction that puts them: each is two requests, and the cursor's own one more.
#[test]
fn a_cursor_visits_all_that_a_transaction_can_put(rt: HostRuntime) {
    let mut said = String::new(rt.alloc());
    let (body, at) = begun_body(&rt, rt.alloc(), false);
    let mut requests = Calls::new(rt.alloc());
    for key in 0..49_999i64 {
        put_at(&rt, rt.alloc(), &mut requests, at.store, key, RETURNS);
    }
    requests
        .push(over_all(at, Open), walker(&rt, rt.alloc(), 50_000, 49_999))
        .expect(&rt, "memory");
    say_counts(&rt, rt.alloc(), body, requests, &mut said);
    assert_eq!(rt; said.as_str(), "committed 99999 events, 49999 records");
}

/// Puts into three stores in turn, an index that is dropped, and one put more, whose handler throws.
#[test]
fn an_abort_undoes_ten_thousand_changes(rt: HostRuntime) {
    let mut said = String::new(rt.alloc());
    let (mut body, at) = begun_body(&rt, rt.alloc(), false);
    let second = made_store(&rt, rt.alloc(), &mut body, "t");
    let third = made_store(&rt, rt.alloc(), &mut body, "u");
    for key in 0..9_999i64 {
        let store = match key % 3 {
            0 => at.store,
            1 => second,
            _ => third,
        };
        let asked = body.ask(
            putting(&rt, store, key, key),
            Planned::new(rt.alloc(), RETURNS),
        );
        assert!(rt; asked.is_ok());
    }
    let dropped = SchemaCall::DropIndex {
        store: at.store,
        name: text(&rt, rt.alloc(), "i"),
    };
    change(&rt, &mut body, dropped);
    let mut last = Calls::new(rt.alloc());
    put_at(
        &rt,
        rt.alloc(),
        &mut last,
        at.store,
        9_999,
        HandlerEnd::Threw,
    );
    say_counts(&rt, rt.alloc(), body, last, &mut said);
    assert_eq!(rt; said.as_str(), "aborted AbortError 10000 events, 0 records");
}
