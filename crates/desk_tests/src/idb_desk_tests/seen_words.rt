// What the runs reach, in words.
use super::slow_desk::{Act, Kind, SlowDesk, Tx};
use idb_keys::{ErrorName, Mode};
use name_queues::ClientEvent;
use std::fmt::Write;
use std::process::Abort;

/// What the runs have to reach.
const WORDS: [&str; 31] = [
    "ask",
    "upgrade",
    "committed upgrade",
    "aborted upgrade",
    "success",
    "VersionError",
    "AbortError",
    "UnknownError",
    "QuotaExceededError",
    "versionchange",
    "versionchange to null",
    "handled",
    "blocked open",
    "blocked deletion",
    "deletion",
    "committed deletion",
    "aborted deletion",
    "close",
    "closed",
    "reader created",
    "writer created",
    "start",
    "waiting reader",
    "waiting writer",
    "committed",
    "aborted",
    "fault",
    "TypeError",
    "InvalidStateError",
    "NotFoundError",
    "InvalidAccessError",
];

/// How often something happened.
#[derive(Drop)]
pub struct Seen {
    pub counts: Vec<(&'static str, u64)>,
}

fn word_of_error(name: ErrorName) -> &'static str {
    match name {
        ErrorName::VersionError => "VersionError",
        ErrorName::AbortError => "AbortError",
        ErrorName::UnknownError => "UnknownError",
        ErrorName::QuotaExceededError => "QuotaExceededError",
        _ => "another error",
    }
}

fn word_of_event(event: ClientEvent) -> &'static str {
    match event {
        ClientEvent::Upgrade { .. } => "upgrade",
        ClientEvent::Blocked { new: Some(_), .. } => "blocked open",
        ClientEvent::Blocked { new: None, .. } => "blocked deletion",
        ClientEvent::Success { .. } => "success",
        ClientEvent::Error { name, .. } => word_of_error(name),
        ClientEvent::VersionChange { new: Some(_), .. } => "versionchange",
        ClientEvent::VersionChange { new: None, .. } => "versionchange to null",
        ClientEvent::Closed { .. } => "closed",
        ClientEvent::DeleteReady { .. } => "deletion",
    }
}

fn word_of_leave(kind: Kind, is_committed: bool) -> &'static str {
    match (kind, is_committed) {
        (Kind::Plain, true) => "committed",
        (Kind::Plain, false) => "aborted",
        (Kind::Upgrade(_), _) => "aborted upgrade",
        (Kind::Deletion, true) => "committed deletion",
        (Kind::Deletion, false) => "aborted deletion",
    }
}

/// What an act that may be done does.
fn word_of_act(slow: &SlowDesk, act: Act) -> &'static str {
    match act {
        Act::Ask(_, _, _) => "ask",
        Act::Take(client) => match slow.next_event(client) {
            Some(event) => word_of_event(event),
            None => "no event",
        },
        Act::Handle(_) => "handled",
        Act::Close(_) => "close",
        Act::Create(_, _, _, Mode::ReadOnly, _) => "reader created",
        Act::Create(_, _, _, _, _) => "writer created",
        Act::Start(_, _) => "start",
        Act::Leave(_, number, is_committed) => match slow.tx(number) {
            Some(t) => word_of_leave(t.kind, is_committed),
            None => "no transaction",
        },
        Act::Upgraded(_, _, _, _, _) => "committed upgrade",
        Act::Fault => "fault",
    }
}

fn word_of_refused(slow: &SlowDesk, act: Act) -> &'static str {
    match (act, slow.refusal(act)) {
        (_, Some(ErrorName::InvalidStateError)) => "InvalidStateError",
        (_, Some(ErrorName::NotFoundError)) => "NotFoundError",
        (_, Some(ErrorName::InvalidAccessError)) => "InvalidAccessError",
        (_, Some(ErrorName::TypeError)) => "TypeError",
        (Act::Start(_, number), _) if slow.blocker(number).is_some() => match slow.tx(number) {
            Some(
                Tx {
                    mode: Mode::ReadOnly,
                    ..
                },
            ) => "waiting reader",
            _ => "waiting writer",
        },
        _ => "no",
    }
}

impl Seen {
    fn count(&mut self, rt: &impl Abort, word: &'static str) {
        match self.counts.iter_mut().find(|c| c.0 == word) {
            Some(c) => c.1 = c.1.saturating_add(1),
            None => self.counts.push((word, 1)).expect(rt, "memory"),
        }
    }

    pub fn note(&mut self, rt: &impl Abort, slow: &SlowDesk, act: Act) {
        if slow.can(act) {
            self.count(rt, word_of_act(slow, act))
        } else {
            self.count(rt, word_of_refused(slow, act))
        }
    }

    fn has(&self, word: &'static str) -> bool {
        self.counts.iter().any(|c| c.0 == word)
    }

    fn write_if_missing(&self, rt: &impl Abort, told: &mut String, word: &'static str) {
        if !self.has(word) {
            write!(told, "never {word}, ").expect(rt, "memory");
        }
    }

    /// What never happened.
    pub fn write_missing(&self, rt: &impl Abort, told: &mut String) {
        for word in WORDS {
            self.write_if_missing(rt, told, word);
        }
    }
}
