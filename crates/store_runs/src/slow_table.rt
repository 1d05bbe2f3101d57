// A plain slow table: a sorted list that is searched from its begin.
use std::process::Abort;

#[derive(Clone, Copy)]
pub enum Verb {
    Put,
    PutTwo,
    Insert,
    Change,
    Take,
    TakeAt,
    Find,
    Nth,
    Reserve,
}

/// One call: a key and a value, two keys, or a place.
#[derive(Clone, Copy)]
pub struct Act {
    pub verb: Verb,
    pub key: i64,
    pub value: i64,
}

/// The answer where there is nothing.
pub const NONE: i64 = -1;

pub const NOTHING: (i64, i64) = (NONE, NONE);

/// A number that is none of the other type becomes 0.
pub fn place_of(n: i64) -> usize {
    usize::try_from(n).unwrap_or(0)
}

pub fn number_of(place: usize) -> i64 {
    i64::try_from(place).unwrap_or(0)
}

#[derive(Drop)]
pub struct SlowTable {
    pub entries: Vec<(i64, i64)>,
}

impl SlowTable {
    /// The place where the key stands or would stand, and whether it is there.
    fn seek(&self, key: i64) -> (usize, bool) {
        for place in 0..self.entries.len() {
            let there = self.entries[place].0;
            if there >= key {
                return (place, there == key);
            }
        }
        (self.entries.len(), false)
    }

    /// The place of a new entry.
    fn put(&mut self, rt: &impl Abort, key: i64, value: i64) -> i64 {
        match self.seek(key) {
            (_, true) => NONE,
            (place, false) => {
                self.entries.push((key, value)).expect(rt, "memory");
                self.entries.sort_unstable();
                number_of(place)
            }
        }
    }

    fn put_two(&mut self, rt: &impl Abort, first: i64, second: i64) -> (i64, i64) {
        let a = self.put(rt, first, second);
        let b = self.put(rt, second, first);
        (a, b)
    }

    fn take_at(&mut self, place: usize) -> (i64, i64) {
        if place < self.entries.len() {
            self.entries.remove(place)
        } else {
            NOTHING
        }
    }

    fn take(&mut self, key: i64) -> (i64, i64) {
        match self.seek(key) {
            (place, true) => self.take_at(place),
            _ => NOTHING,
        }
    }

    /// The entry that there was.
    fn change(&mut self, rt: &impl Abort, key: i64, value: i64) -> (i64, i64) {
        let entry = self.take(key);
        if entry.0 == key {
            let _ = self.put(rt, key, value);
        }
        entry
    }

    fn find(&self, key: i64) -> (i64, i64) {
        let (place, is_there) = self.seek(key);
        (number_of(place), if is_there { 1 } else { NONE })
    }

    fn nth(&self, place: usize) -> (i64, i64) {
        if place < self.entries.len() {
            self.entries[place]
        } else {
            NOTHING
        }
    }

    /// What a table answers.
    pub fn answer(&mut self, rt: &impl Abort, act: Act) -> (i64, i64) {
        match act.verb {
            Verb::Put | Verb::Insert => (self.put(rt, act.key, act.value), NONE),
            Verb::PutTwo => self.put_two(rt, act.key, act.value),
            Verb::Change => self.change(rt, act.key, act.value),
            Verb::Take => self.take(act.key),
            Verb::TakeAt => self.take_at(place_of(act.key)),
            Verb::Find => self.find(act.key),
            Verb::Nth => self.nth(place_of(act.key)),
            Verb::Reserve => NOTHING,
        }
    }
}
