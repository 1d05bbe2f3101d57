// What the slow program says: of an act, of how it stands, and at the end of a run.
use super::random_acts::{CLIENTS, token_of};
use super::slow_desk::{Act, Kind, Progress, SlowDesk, Tx};
use super::{write_event, write_token};
use idb_keys::{Durability, Mode};
use name_queues::ConnId;
use std::fmt::Write;
use std::process::Abort;

fn say_refusal(rt: &impl Abort, slow: &SlowDesk, said: &mut String, act: Act) {
    match slow.refusal(act) {
        Some(name) => write!(said, "{name}").expect(rt, "memory"),
        None => write!(said, "no").expect(rt, "memory"),
    }
    if let Act::Start(_, number) = act {
        if slow.is_unfinished(number) {
            if let Some(blocker) = slow.blocker(number) {
                write!(said, "<{blocker}").expect(rt, "memory");
            }
        }
    }
}

pub fn say_act(rt: &impl Abort, slow: &mut SlowDesk, said: &mut String, act: Act) {
    if slow.can(act) {
        write_token(said, token_of(act));
        if let Some(event) = slow.make(rt, act) {
            write!(said, ":").expect(rt, "memory");
            write_event(said, &event);
        }
    } else {
        say_refusal(rt, slow, said, act);
    }
    write!(said, " ").expect(rt, "memory");
}

/// A request that waits: at the front of its queue for the least connection that isn't closed, else for the front.
fn say_pending(rt: &impl Abort, slow: &SlowDesk, said: &mut String, who: ConnId) {
    let Some(r) = slow.requests.iter().find(|r| r.who == who) else {
        return;
    };
    let Some(front) = slow.front(r.name) else {
        return;
    };
    let ConnId { client, request } = who;
    if front.who != who {
        write!(
            said,
            "{client}.{request}.{}.{} ",
            front.who.client, front.who.request
        )
        .expect(rt, "memory");
    } else if front.progress != Progress::Runs {
        if let Some(link) = slow.links.iter().find(|c| c.name == r.name) {
            write!(
                said,
                "{client}.{request}<{}.{} ",
                link.who.client, link.who.request
            )
            .expect(rt, "memory");
        }
    }
}

fn say_pending_of(rt: &impl Abort, slow: &SlowDesk, said: &mut String, client: u32) {
    for request in 0..slow.asked_by(client) {
        let request = u32::try_from(request).unwrap_or(0).saturating_add(1);
        say_pending(rt, slow, said, ConnId { client, request });
    }
}

/// By client and request.
fn say_all_pending(rt: &impl Abort, slow: &SlowDesk, said: &mut String) {
    for client in CLIENTS {
        say_pending_of(rt, slow, said, client);
    }
}

fn say_events(rt: &impl Abort, slow: &SlowDesk, said: &mut String) {
    for client in CLIENTS {
        if let Some(event) = slow.next_event(client) {
            write_event(said, &event);
        }
        write!(said, ",").expect(rt, "memory");
    }
}

fn say_unfinished(rt: &impl Abort, slow: &SlowDesk, said: &mut String) {
    for Tx {
        number,
        is_finished,
        ..
    } in slow.txs.iter() {
        if !*is_finished {
            match slow.blocker(*number) {
                Some(blocker) => write!(said, "{number}<{blocker} ").expect(rt, "memory"),
                None => write!(said, "{number} ").expect(rt, "memory"),
            }
        }
    }
}

pub fn say_answers(rt: &impl Abort, slow: &SlowDesk, said: &mut String) {
    write!(said, "{} {:?} ", slow.next_number(), slow.least()).expect(rt, "memory");
    say_events(rt, slow, said)
}

pub fn say_state(rt: &impl Abort, slow: &SlowDesk, said: &mut String) {
    say_unfinished(rt, slow, said);
    say_all_pending(rt, slow, said)
}

pub fn say_txs(rt: &impl Abort, slow: &SlowDesk, said: &mut String) {
    for t in slow.txs.iter() {
        write!(
            said,
            "{}.{} {:?}",
            t.who.client, t.who.request, t.durability
        )
        .expect(rt, "memory");
        match t.kind {
            Kind::Plain => write!(said, " plain").expect(rt, "memory"),
            Kind::Upgrade(version) => write!(said, " to {version}").expect(rt, "memory"),
            Kind::Deletion => write!(said, " deletion").expect(rt, "memory"),
        }
        if t.is_finished {
            write!(said, " finished").expect(rt, "memory");
        } else if t.is_started {
            write!(said, " started").expect(rt, "memory");
        }
        write!(said, "; ").expect(rt, "memory");
    }
}

pub fn say_base(rt: &impl Abort, slow: &SlowDesk, said: &mut String, name: &str) {
    match slow.base(name) {
        Some(base) => write!(said, "{}:{} ", base.version, base.stores.len()).expect(rt, "memory"),
        None => write!(said, "- ").expect(rt, "memory"),
    }
}

pub fn say_conn(rt: &impl Abort, slow: &SlowDesk, said: &mut String, who: ConnId) {
    let create = Act::Create(0, who, "s", Mode::ReadOnly, Durability::Strict);
    let refusal = slow.refusal(create);
    write!(said, "{} {refusal:?} ", slow.can(Act::Close(who))).expect(rt, "memory");
    match slow.link(who) {
        Some(link) if slow.base(link.name).is_none() => write!(said, "0:0 ").expect(rt, "memory"),
        Some(link) => say_base(rt, slow, said, link.name),
        None => write!(said, "- ").expect(rt, "memory"),
    }
}
