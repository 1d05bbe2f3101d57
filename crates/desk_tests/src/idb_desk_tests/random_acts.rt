// Random acts, mostly such as may be done, and an act as a step of the desk.
use super::slow_desk::{Act, Kind, NAMES, SlowDesk, Tx};
use super::{aborted, schema_at, scope_of, text};
use idb_calls::{Outcome, Token};
use idb_desk::DeskStep;
use idb_keys::{Durability, Mode};
use name_queues::{ConnId, Wants};
use std::alloc::Global;
use std::process::Abort;

/// The clients that ask.
pub const CLIENTS: [u32; 3] = [1, 2, 3];

const SCOPES: [&str; 9] = ["s", "t", "u", "s", "t", "st", "tu", "ss", ""];

const STORES: [&str; 4] = ["stu", "st", "stu", "su"];

/// A linear congruential generator.
#[derive(Drop)]
pub struct Dice {
    pub seed: u64,
}

impl Dice {
    fn roll(&mut self, sides: u64) -> u64 {
        self.seed = self
            .seed
            .wrapping_mul(6364136223846793005)
            .wrapping_add(1442695040888963407);
        (self.seed >> 33).checked_rem(sides).unwrap_or(0)
    }

    fn is_one_of(&mut self, sides: u64) -> bool {
        self.roll(sides) == 0
    }

    fn pick<T: Copy>(&mut self, items: &[T], other: T) -> T {
        let place = self.roll(items.len() as u64) as usize;
        items.get(place).copied().unwrap_or(other)
    }
}

/// What kind of run it is.
#[derive(Clone, Copy)]
pub struct Plan {
    pub names: u64,
    pub length: u64,
    pub has_fault: bool,
}

fn any_client(dice: &mut Dice) -> u32 {
    dice.pick(&CLIENTS, 1)
}

fn any_conn(dice: &mut Dice) -> ConnId {
    ConnId {
        client: any_client(dice),
        request: u32::try_from(dice.roll(6)).unwrap_or(0),
    }
}

fn any_name(dice: &mut Dice, plan: Plan) -> &'static str {
    let place = dice.roll(plan.names) as usize;
    NAMES.get(place).copied().unwrap_or("a")
}

/// Mostly a connection that isn't closed.
fn some_conn(dice: &mut Dice, slow: &SlowDesk) -> ConnId {
    let any = any_conn(dice);
    let place = dice.roll(slow.links.len() as u64) as usize;
    match slow.links.get(place) {
        Some(link) if !dice.is_one_of(12) => link.who,
        _ => any,
    }
}

/// Mostly an unfinished transaction, and its client.
fn some_tx(dice: &mut Dice, slow: &SlowDesk) -> (u32, u64) {
    let first = slow.least().unwrap_or(0);
    let number = if dice.is_one_of(12) {
        dice.roll(20)
    } else {
        first.saturating_add(dice.roll(4))
    };
    match slow.tx(number) {
        Some(t) if !dice.is_one_of(16) => (t.who.client, number),
        _ => (any_client(dice), number),
    }
}

fn some_version(dice: &mut Dice, old: u64) -> Option<u64> {
    match dice.roll(12) {
        0 | 1 | 2 | 3 => None,
        4 | 5 | 6 | 7 => Some(old.saturating_add(1)),
        8 => Some(old),
        9 => Some(9007199254740992),
        _ => Some(dice.roll(4)),
    }
}

fn some_ask(dice: &mut Dice, slow: &SlowDesk, plan: Plan) -> Act {
    let client = any_client(dice);
    let skipped = if dice.is_one_of(20) {
        dice.roll(3) as usize
    } else {
        1
    };
    let request = u32::try_from(slow.asked_by(client).saturating_add(skipped)).unwrap_or(0);
    let name = any_name(dice, plan);
    let wants = if dice.is_one_of(6) {
        Wants::Delete
    } else {
        Wants::Open {
            version: some_version(dice, slow.version(name)),
        }
    };
    Act::Ask(ConnId { client, request }, name, wants)
}

/// Mostly a client that has an event.
fn some_take(dice: &mut Dice, slow: &SlowDesk) -> Act {
    let place = dice.roll(slow.events.len() as u64) as usize;
    match slow.events.get(place) {
        Some(event) if !dice.is_one_of(12) => Act::Take(event.conn().client),
        _ => Act::Take(any_client(dice)),
    }
}

fn some_create(dice: &mut Dice, slow: &SlowDesk) -> Act {
    let who = some_conn(dice, slow);
    let number = if dice.is_one_of(20) {
        dice.roll(9)
    } else {
        slow.next_number()
    };
    let mode = match dice.roll(12) {
        0 => Mode::VersionChange,
        1 | 2 | 3 | 4 | 5 => Mode::ReadOnly,
        _ => Mode::ReadWrite,
    };
    let durability = if dice.is_one_of(3) {
        Durability::Strict
    } else {
        Durability::Relaxed
    };
    Act::Create(number, who, dice.pick(&SCOPES, ""), mode, durability)
}

fn some_start(dice: &mut Dice, slow: &SlowDesk) -> Act {
    let (client, number) = some_tx(dice, slow);
    Act::Start(client, number)
}

fn some_leave(dice: &mut Dice, slow: &SlowDesk, plan: Plan) -> Act {
    let (client, number) = some_tx(dice, slow);
    let is_committed = !dice.is_one_of(4);
    match slow.tx(number) {
        Some(
            Tx {
                name,
                kind: Kind::Upgrade(version),
                ..
            },
        ) if is_committed => {
            let version = if dice.is_one_of(16) { 7 } else { version };
            let name = if dice.is_one_of(16) {
                any_name(dice, plan)
            } else {
                name
            };
            Act::Upgraded(client, number, name, version, dice.pick(&STORES, "st"))
        }
        Some(Tx { name, .. }) if dice.is_one_of(30) => Act::Upgraded(client, number, name, 1, "s"),
        _ => Act::Leave(client, number, is_committed),
    }
}

fn any_act(dice: &mut Dice, slow: &SlowDesk, plan: Plan) -> Act {
    match dice.roll(32) {
        0 | 1 => some_ask(dice, slow, plan),
        2 | 3 | 4 | 5 | 6 | 7 | 8 | 9 => some_take(dice, slow),
        10 | 11 | 12 => Act::Handle(any_client(dice)),
        13 => Act::Close(some_conn(dice, slow)),
        14 | 15 | 16 | 17 | 18 | 19 | 20 => some_create(dice, slow),
        21 | 22 | 23 | 24 | 25 => some_start(dice, slow),
        _ => some_leave(dice, slow, plan),
    }
}

/// Mostly an act that may be done.
pub fn some_act(dice: &mut Dice, slow: &SlowDesk, plan: Plan) -> Act {
    if plan.has_fault && dice.is_one_of(60) {
        return Act::Fault;
    }
    if plan.names > 4 && dice.is_one_of(4) {
        return some_ask(dice, slow, plan);
    }
    for _ in 0..dice.roll(6) {
        let act = any_act(dice, slow, plan);
        if slow.can(act) {
            return act;
        }
    }
    any_act(dice, slow, plan)
}

fn outcome_of(is_committed: bool) -> Outcome {
    if is_committed {
        Outcome::Committed
    } else {
        aborted()
    }
}

pub fn step_of(rt: &impl Abort, alloc: Global, act: Act) -> DeskStep {
    match act {
        Act::Ask(who, name, wants) => DeskStep::Asks {
            who,
            name: text(rt, alloc, name),
            wants,
        },
        Act::Take(client) => DeskStep::Takes { client },
        Act::Handle(client) => DeskStep::Handles { client },
        Act::Close(who) => DeskStep::Closes { who },
        Act::Create(number, who, scope, mode, durability) => DeskStep::Creates {
            number,
            who,
            scope: scope_of(rt, alloc, scope),
            mode,
            durability,
        },
        Act::Start(client, number) => DeskStep::Starts { client, number },
        Act::Leave(client, number, is_committed) => DeskStep::Leaves {
            client,
            number,
            outcome: outcome_of(is_committed),
            kept: None,
        },
        Act::Upgraded(client, number, name, version, stores) => DeskStep::Leaves {
            client,
            number,
            outcome: Outcome::Committed,
            kept: Some(schema_at(rt, alloc, name, version, stores)),
        },
        Act::Fault => DeskStep::Faults,
    }
}

pub fn token_of(act: Act) -> Token {
    match act {
        Act::Ask(who, _, _) => Token::Asked {
            client: who.client,
            request: who.request,
        },
        Act::Take(client) => Token::Took { client },
        Act::Handle(client) => Token::Handled { client },
        Act::Close(who) => Token::Closed {
            client: who.client,
            request: who.request,
        },
        Act::Create(number, who, _, _, _) => Token::Created {
            number,
            client: who.client,
        },
        Act::Start(_, number) => Token::Started { number },
        Act::Leave(_, number, _) | Act::Upgraded(_, number, _, _, _) => Token::Left { number },
        Act::Fault => Token::Faulted,
    }
}
