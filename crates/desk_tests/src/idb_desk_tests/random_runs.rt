// Random runs of the desk beside those of the slow program, from fixed seeds. Both write what they answer into a text of their own.
use super::desk_answers::{write_answers, write_base, write_conn, write_state, write_txs};
use super::random_acts::{CLIENTS, Dice, Plan, some_act, step_of, token_of};
use super::seen_words::Seen;
use super::slow_answers::{say_act, say_answers, say_base, say_conn, say_state, say_txs};
use super::slow_desk::{Act, NAMES, SlowDesk};
use super::{make_step, text, write_token};
use idb_desk::Desk;
use idb_schema::Schemas;
use name_queues::ConnId;
use std::alloc::Global;
use std::fmt::Write;
use std::process::Abort;

/// The desk and the slow program, and what they said of one run.
#[derive(Drop)]
struct Pair {
    desk: Desk,
    slow: SlowDesk,
    by_desk: String,
    by_slow: String,
}

/// Both do an act, and say what came of it.
fn do_both(rt: &impl Abort, alloc: Global, pair: &mut Pair, act: Act) {
    make_step(
        rt,
        alloc,
        &mut pair.desk,
        &mut pair.by_desk,
        step_of(rt, alloc, act),
    );
    write_answers(rt, &pair.desk, &mut pair.by_desk);
    say_act(rt, &mut pair.slow, &mut pair.by_slow, act);
    say_answers(rt, &pair.slow, &mut pair.by_slow)
}

/// Both say which transactions may start, and which requests wait.
fn stand_both(rt: &impl Abort, pair: &mut Pair) {
    write_state(rt, &pair.desk, &mut pair.by_desk);
    say_state(rt, &pair.slow, &mut pair.by_slow)
}

/// The client takes all its events.
fn take_events(rt: &impl Abort, alloc: Global, pair: &mut Pair, client: u32) {
    for _ in 0..pair.slow.events.len() {
        if pair.slow.next_event(client).is_some() {
            do_both(rt, alloc, pair, Act::Take(client));
        }
    }
}

fn take_all(rt: &impl Abort, alloc: Global, pair: &mut Pair) {
    for client in CLIENTS {
        take_events(rt, alloc, pair, client);
    }
}

fn write_bases(rt: &impl Abort, alloc: Global, desk: &Desk, said: &mut String) {
    for name in NAMES {
        write_base(rt, desk, said, &text(rt, alloc, name));
    }
}

fn say_bases(rt: &impl Abort, slow: &SlowDesk, said: &mut String) {
    for name in NAMES {
        say_base(rt, slow, said, name);
    }
}

fn write_conns(rt: &impl Abort, alloc: Global, desk: &Desk, said: &mut String, asked: &[ConnId]) {
    for who in asked {
        write_conn(rt, alloc, desk, said, *who);
    }
}

fn say_conns(rt: &impl Abort, slow: &SlowDesk, said: &mut String) {
    for who in slow.asked.iter() {
        say_conn(rt, slow, said, *who);
    }
}

fn write_order(rt: &impl Abort, desk: &Desk, said: &mut String) {
    for token in desk.tokens().expect(rt, "memory").as_slice() {
        write_token(said, *token);
    }
    write!(said, " {}", desk.is_faulted()).expect(rt, "memory");
}

fn say_order(rt: &impl Abort, slow: &SlowDesk, said: &mut String) {
    for act in slow.made.iter() {
        write_token(said, token_of(*act));
    }
    write!(said, " {}", slow.is_faulted).expect(rt, "memory");
}

/// How a run ends: each transaction, database and connection, and the order of the steps.
fn end_both(rt: &impl Abort, alloc: Global, pair: &mut Pair) {
    write_txs(rt, &pair.desk, &mut pair.by_desk);
    say_txs(rt, &pair.slow, &mut pair.by_slow);
    write_bases(rt, alloc, &pair.desk, &mut pair.by_desk);
    say_bases(rt, &pair.slow, &mut pair.by_slow);
    let asked = pair.slow.asked.as_slice();
    write_conns(rt, alloc, &pair.desk, &mut pair.by_desk, asked);
    say_conns(rt, &pair.slow, &mut pair.by_slow);
    write_order(rt, &pair.desk, &mut pair.by_desk);
    say_order(rt, &pair.slow, &mut pair.by_slow)
}

fn run(rt: &impl Abort, alloc: Global, seed: u64, plan: Plan, seen: &mut Seen) -> Pair {
    let mut dice = Dice { seed };
    let mut pair = Pair {
        desk: Desk::new(alloc, Schemas::new(alloc)).expect(rt, "memory"),
        slow: SlowDesk::new(alloc),
        by_desk: String::new(alloc),
        by_slow: String::new(alloc),
    };
    for place in 0..plan.length {
        let act = some_act(&mut dice, &pair.slow, plan);
        seen.note(rt, &pair.slow, act);
        do_both(rt, alloc, &mut pair, act);
        if place % 8 == 7 {
            stand_both(rt, &mut pair);
        }
    }
    take_all(rt, alloc, &mut pair);
    end_both(rt, alloc, &mut pair);
    pair
}

fn plan_of(number: u64) -> Plan {
    let has_fault = number % 5 == 4;
    match number % 16 {
        15 => Plan {
            names: 18,
            length: 300,
            has_fault,
        },
        6 | 7 | 14 => Plan {
            names: 3,
            length: 100,
            has_fault,
        },
        2 | 3 | 10 | 11 => Plan {
            names: 2,
            length: 70,
            has_fault,
        },
        _ => Plan {
            names: 1,
            length: 70,
            has_fault,
        },
    }
}

/// Up to where the texts first differ, and a little more.
fn write_part(rt: &impl Abort, told: &mut String, said: &str, place: usize) {
    write!(told, "...").expect(rt, "memory");
    for letter in said.chars().skip(place.saturating_sub(200)).take(300) {
        told.push(letter).expect(rt, "memory");
    }
    write!(told, "\n").expect(rt, "memory");
}

/// The first difference of a run, where there is one.
fn compare(rt: &impl Abort, alloc: Global, number: u64, seen: &mut Seen, told: &mut String) {
    let pair = run(rt, alloc, number, plan_of(number), seen);
    if pair.by_desk.as_str() != pair.by_slow.as_str() && told.len() < 2000 {
        let (a, b) = (pair.by_desk.as_str(), pair.by_slow.as_str());
        let same = a.chars().zip(b.chars()).take_while(|p| p.0 == p.1).count();
        write!(told, "run {number}, letter {same}\n").expect(rt, "memory");
        write_part(rt, told, a, same);
        write_part(rt, told, b, same);
    }
}

#[test]
fn random_runs_answer_as_the_slow_desk_does(rt: HostRuntime) {
    let mut told = String::new(rt.alloc());
    let mut seen = Seen {
        counts: Vec::new(rt.alloc()),
    };
    for number in 0..208u64 {
        compare(&rt, rt.alloc(), number, &mut seen, &mut told);
    }
    seen.write_missing(&rt, &mut told);
    assert_eq!(rt; told.as_str(), "");
}
