// The same machine as a plain slow program, from docs/RULES.md alone: lists, which are scanned.
use idb_keys::{Durability, ErrorName, Mode};
use name_queues::{ClientEvent, ConnId, Wants};
use std::alloc::Global;

/// Names of databases, in the order of their bytes.
pub const NAMES: [&str; 18] = [
    "a", "aa", "ab", "b", "c", "d", "e", "f", "g", "h", "i", "j", "k", "l", "m", "n", "o", "p",
];

/// What is done at a desk. A scope and the stores of a schema are a letter each.
#[derive(Clone, Copy)]
pub enum Act {
    Ask(ConnId, &'static str, Wants),
    Take(u32),
    Handle(u32),
    Close(ConnId),
    Create(u64, ConnId, &'static str, Mode, Durability),
    Start(u32, u64),
    Leave(u32, u64, bool),
    /// An upgrade commits, and leaves a database of this name, this version and these stores.
    Upgraded(u32, u64, &'static str, u64, &'static str),
    Fault,
}

/// How far a request is.
#[derive(Clone, Copy, PartialEq, Eq)]
pub enum Progress {
    Asked,
    /// The connections were sent their versionchange events.
    Told,
    /// It waits until all connections are closed.
    Waits,
    /// Its upgrade or its deletion runs.
    Runs,
}

/// An open or a delete that isn't answered.
#[derive(Clone, Copy)]
pub struct Request {
    pub who: ConnId,
    pub name: &'static str,
    pub wants: Wants,
    pub progress: Progress,
}

/// What became of a connection's versionchange event.
#[derive(Clone, Copy, PartialEq, Eq)]
pub enum News {
    None,
    Sent,
    Taken,
    Handled,
}

/// A connection that isn't closed.
#[derive(Clone, Copy)]
pub struct Link {
    pub who: ConnId,
    pub name: &'static str,
    /// Its client took its upgrade or its success.
    pub is_known: bool,
    pub has_close_pending: bool,
    /// Its client is told once it is closed.
    pub tells: bool,
    pub news: News,
    pub is_over: bool,
}

#[derive(Clone, Copy, PartialEq, Eq)]
pub enum Kind {
    Plain,
    Upgrade(u64),
    Deletion,
}

#[derive(Clone, Copy)]
pub struct Tx {
    pub number: u64,
    pub who: ConnId,
    pub name: &'static str,
    pub kind: Kind,
    pub scope: &'static str,
    pub mode: Mode,
    pub durability: Durability,
    pub is_started: bool,
    pub is_finished: bool,
}

#[derive(Clone, Copy)]
pub struct Base {
    pub name: &'static str,
    pub version: u64,
    pub stores: &'static str,
}

/// The slow program. Connections stand by client and request.
#[derive(Drop)]
pub struct SlowDesk {
    pub asked: Vec<ConnId>,
    pub requests: Vec<Request>,
    pub links: Vec<Link>,
    pub txs: Vec<Tx>,
    pub bases: Vec<Base>,
    pub events: Vec<ClientEvent>,
    /// The connections whose versionchange event was taken, in the order taken.
    pub taken: Vec<ConnId>,
    /// All that was done.
    pub made: Vec<Act>,
    pub is_faulted: bool,
}

/// Each letter is one of these.
fn has_all(letters: &str, stores: &str) -> bool {
    letters
        .chars()
        .all(|letter| stores.chars().any(|store| store == letter))
}

fn has_some_of(letters: &str, stores: &str) -> bool {
    letters
        .chars()
        .any(|letter| stores.chars().any(|store| store == letter))
}

fn reads(tx: &Tx) -> bool {
    tx.mode == Mode::ReadOnly
}

fn share(a: &Tx, b: &Tx) -> bool {
    a.name == b.name
        && (a.kind != Kind::Plain || b.kind != Kind::Plain || has_some_of(a.scope, b.scope))
}

fn conflict(a: &Tx, b: &Tx) -> bool {
    share(a, b) && !(reads(a) && reads(b))
}

/// An upgrade or a transaction of the connection isn't finished.
pub fn is_busy(requests: &[Request], txs: &[Tx], who: ConnId) -> bool {
    runs(requests, who) || txs.iter().any(|t| t.who == who && !t.is_finished)
}

pub fn runs(requests: &[Request], who: ConnId) -> bool {
    requests
        .iter()
        .any(|r| r.who == who && r.progress == Progress::Runs)
}

impl SlowDesk {
    pub fn new(alloc: Global) -> SlowDesk {
        SlowDesk {
            asked: Vec::new(alloc),
            requests: Vec::new(alloc),
            links: Vec::new(alloc),
            txs: Vec::new(alloc),
            bases: Vec::new(alloc),
            events: Vec::new(alloc),
            taken: Vec::new(alloc),
            made: Vec::new(alloc),
            is_faulted: false,
        }
    }

    pub fn base(&self, name: &str) -> Option<Base> {
        self.bases.iter().find(|b| b.name == name).copied()
    }

    /// 0 where there is no database.
    pub fn version(&self, name: &str) -> u64 {
        match self.base(name) {
            Some(base) => base.version,
            None => 0,
        }
    }

    pub fn link(&self, who: ConnId) -> Option<Link> {
        self.links.iter().find(|c| c.who == who).copied()
    }

    pub fn front(&self, name: &str) -> Option<Request> {
        self.requests.iter().find(|r| r.name == name).copied()
    }

    pub fn tx(&self, number: u64) -> Option<Tx> {
        self.txs.iter().find(|t| t.number == number).copied()
    }

    pub fn next_number(&self) -> u64 {
        (self.txs.len() as u64).saturating_add(1)
    }

    pub fn next_event(&self, client: u32) -> Option<ClientEvent> {
        self.events
            .iter()
            .find(|e| e.conn().client == client)
            .copied()
    }

    pub fn asked_by(&self, client: u32) -> usize {
        self.asked.iter().filter(|who| who.client == client).count()
    }

    pub fn least(&self) -> Option<u64> {
        Some(self.txs.iter().find(|t| !t.is_finished)?.number)
    }

    pub fn is_unfinished(&self, number: u64) -> bool {
        self.txs
            .iter()
            .any(|t| t.number == number && !t.is_finished)
    }

    /// The least earlier unfinished transaction that conflicts.
    pub fn blocker(&self, number: u64) -> Option<u64> {
        let mine = self.tx(number)?;
        let before = self.txs.iter().find(|t| t.number < number
            && !t.is_finished
            && conflict(t, &mine))?;
        Some(before.number)
    }

    /// The connection whose versionchange event the client handles next.
    pub fn to_handle(&self, client: u32) -> Option<ConnId> {
        self.taken
            .iter()
            .find(|who| {
                who.client == client
                    && self
                        .links
                        .iter()
                        .any(|c| c.who == **who && c.news == News::Taken)
            })
            .copied()
    }

    /// At most 16 names have a place.
    fn has_place(&self, name: &str) -> bool {
        self.bases.iter().any(|b| b.name == name)
            || self.requests.iter().any(|r| r.name == name)
            || self.links.iter().any(|c| c.name == name)
    }

    pub fn has_room(&self, name: &str) -> bool {
        self.has_place(name) || NAMES.iter().filter(|other| self.has_place(other)).count() < 16
    }

    fn may_close(&self, who: ConnId) -> bool {
        match self.link(who) {
            Some(link) => link.is_known && !link.has_close_pending,
            None => false,
        }
    }

    fn refusal_of_create(&self, who: ConnId, scope: &str, mode: Mode) -> Option<ErrorName> {
        let link = match self.link(who) {
            Some(link) if self.may_close(who) && !runs(self.requests.as_slice(), who) => link,
            _ => return Some(ErrorName::InvalidStateError),
        };
        let stores = match self.base(link.name) {
            Some(base) => base.stores,
            None => "",
        };
        if !has_all(scope, stores) {
            Some(ErrorName::NotFoundError)
        } else if scope == "" {
            Some(ErrorName::InvalidAccessError)
        } else if mode == Mode::VersionChange {
            Some(ErrorName::TypeError)
        } else {
            None
        }
    }

    /// The name by which a call is refused.
    pub fn refusal(&self, act: Act) -> Option<ErrorName> {
        match act {
            Act::Ask(_, _, Wants::Open { version: Some(0) }) => Some(ErrorName::TypeError),
            Act::Ask(
                _,
                _,
                Wants::Open {
                    version: Some(version),
                },
            ) if version > 9007199254740991 => { Some(ErrorName::TypeError) }
            Act::Create(_, who, scope, mode, _) => self.refusal_of_create(who, scope, mode),
            _ => None,
        }
    }

    fn may_start(&self, client: u32, number: u64) -> bool {
        match self.tx(number) {
            Some(t) => {
                !self.is_faulted
                    && t.who.client == client
                    && !t.is_started
                    && !t.is_finished
                    && self.blocker(number).is_none()
            }
            None => false,
        }
    }

    fn may_leave(&self, client: u32, number: u64, committed: bool) -> bool {
        match self.tx(number) {
            Some(t) => t.who.client == client && !t.is_finished && (t.is_started || !committed),
            None => false,
        }
    }

    fn is_upgrade_of(&self, number: u64, name: &str, version: u64) -> bool {
        match self.tx(number) {
            Some(t) => t.kind == Kind::Upgrade(version) && t.name == name,
            None => false,
        }
    }

    fn is_upgrade(&self, number: u64) -> bool {
        match self.tx(number) {
            Some(t) => matches!(t.kind, Kind::Upgrade(_)),
            None => false,
        }
    }

    pub fn can(&self, act: Act) -> bool {
        match act {
            Act::Ask(who, _, _) => {
                self.refusal(act).is_none()
                    && who.request as u64 == (self.asked_by(who.client) as u64).saturating_add(1)
            }
            Act::Take(client) => self.next_event(client).is_some(),
            Act::Handle(client) => self.to_handle(client).is_some(),
            Act::Close(who) => self.may_close(who),
            Act::Create(number, _, _, _, _) => {
                self.refusal(act).is_none() && number == self.next_number()
            }
            Act::Start(client, number) => self.may_start(client, number),
            Act::Leave(client, number, committed) => {
                self.may_leave(client, number, committed) && !(committed && self.is_upgrade(number))
            }
            Act::Upgraded(client, number, name, version, _) => {
                self.may_leave(client, number, true) && self.is_upgrade_of(number, name, version)
            }
            Act::Fault => !self.is_faulted,
        }
    }
}
