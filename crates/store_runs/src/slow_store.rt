// A plain slow object store: a list of records, whose indexes are found by looking at each record.
use crate::random_acts::{Act, Kind, LAST, Shape, Verb};
use std::alloc::Global;
use std::process::Abort;

/// The answer where a rule refuses the call. No key is as low.
pub const REFUSED: i64 = -100;

/// The answer where there is no such range, record, index or mark, or an index of that name.
pub const NOTHING: i64 = -200;

#[derive(Clone, Copy)]
struct Record {
    key: i64,
    shape: Shape,
}

/// The records by rising keys, the indexes, and the generator's number.
#[derive(Drop)]
pub struct Content {
    records: Vec<Record>,
    pub kinds: Vec<Kind>,
    pub current: i64,
}

/// The keys that an index of this kind takes from a value; 0 stands for none.
fn keys_of(shape: &Shape, kind: Kind) -> [i64; 3] {
    if kind.is_of_tags {
        shape.tags
    } else {
        [shape.e, 0, 0]
    }
}

impl Content {
    fn new(alloc: Global) -> Content {
        Content {
            records: Vec::new(alloc),
            kinds: Vec::new(alloc),
            current: 1,
        }
    }

    fn copy(&self, rt: &impl Abort) -> Content {
        Content {
            records: self.records.clone().expect(rt, "memory"),
            kinds: self.kinds.clone().expect(rt, "memory"),
            current: self.current,
        }
    }

    /// The place where the key stands or would stand.
    fn place(&self, key: i64) -> usize {
        for place in 0..self.records.len() {
            if self.records[place].key >= key {
                return place;
            }
        }
        self.records.len()
    }

    /// The number in the record of this key.
    fn number_at(&self, key: i64) -> i64 {
        for record in self.records.iter() {
            if record.key == key {
                return record.shape.number;
            }
        }
        NOTHING
    }

    /// How many records went: one or none.
    fn take(&mut self, key: i64) -> i64 {
        let place = self.place(key);
        if place < self.records.len() && self.records[place].key == key {
            let _ = self.records.remove(place);
            1
        } else {
            0
        }
    }

    fn put(&mut self, rt: &impl Abort, key: i64, shape: Shape) {
        let _ = self.take(key);
        let place = self.place(key);
        assert!(rt; place <= self.records.len());
        self.records
            .insert(place, Record { key, shape })
            .expect(rt, "memory")
    }

    /// The keys and the numbers of the records.
    pub fn members(&self, rt: &impl Abort, alloc: Global) -> Vec<(i64, i64)> {
        let mut members = Vec::new(alloc);
        for record in self.records.iter() {
            members
                .push((record.key, record.shape.number))
                .expect(rt, "memory");
        }
        members
    }

    /// The rows of an index of this kind.
    pub fn rows(&self, rt: &impl Abort, alloc: Global, kind: Kind) -> Vec<(i64, i64)> {
        let mut rows = Vec::new(alloc);
        for record in self.records.iter() {
            for key in keys_of(&record.shape, kind) {
                if key != 0 {
                    rows.push((key, record.key)).expect(rt, "memory");
                }
            }
        }
        rows.sort_unstable();
        rows.dedup();
        rows
    }

    /// The least key of which a unique index of this kind would have two rows, or 0.
    fn doubled(&self, rt: &impl Abort, alloc: Global, kind: Kind) -> i64 {
        let mut last = 0;
        if kind.is_unique {
            for (key, _) in self.rows(rt, alloc, kind) {
                if key == last {
                    return key;
                }
                last = key;
            }
        }
        0
    }

    fn is_broken(&self, rt: &impl Abort, alloc: Global) -> bool {
        for kind in self.kinds.iter() {
            if self.doubled(rt, alloc, *kind) != 0 {
                return true;
            }
        }
        false
    }

    fn has_kind(&self, kind: Kind) -> bool {
        for other in self.kinds.iter() {
            if other.is_of_tags == kind.is_of_tags && other.is_unique == kind.is_unique {
                return true;
            }
        }
        false
    }

    /// The generator's number after a key that was given.
    fn noted(&self, key: i64) -> i64 {
        if key < self.current {
            self.current
        } else {
            key.min(LAST).saturating_add(1)
        }
    }
}

/// A store, and what it was at each mark and at the last settle.
#[derive(Drop)]
pub struct SlowStore {
    alloc: Global,
    pub now: Content,
    marked: Vec<Content>,
    settled: Content,
}

impl SlowStore {
    pub fn new(alloc: Global) -> SlowStore {
        SlowStore {
            alloc,
            now: Content::new(alloc),
            marked: Vec::new(alloc),
            settled: Content::new(alloc),
        }
    }

    /// Stores a record, and the number that comes with it, unless a rule refuses it.
    fn store(&mut self, rt: &impl Abort, key: i64, shape: Shape, current: i64) -> i64 {
        let mut content = self.now.copy(rt);
        content.put(rt, key, shape);
        content.current = current;
        if content.is_broken(rt, self.alloc) {
            return REFUSED;
        }
        self.now = content;
        key
    }

    fn put(&mut self, rt: &impl Abort, key: i64, shape: Shape) -> i64 {
        let current = self.now.noted(key);
        self.store(rt, key, shape, current)
    }

    fn add(&mut self, rt: &impl Abort, key: i64, shape: Shape) -> i64 {
        if self.now.number_at(key) != NOTHING {
            return REFUSED;
        }
        self.put(rt, key, shape)
    }

    fn put_next(&mut self, rt: &impl Abort, shape: Shape) -> i64 {
        let key = self.now.current;
        if key > LAST {
            return REFUSED;
        }
        self.store(rt, key, shape, key.saturating_add(1))
    }

    fn delete(&mut self, low: i64, high: i64, (is_above, is_below): (bool, bool)) -> i64 {
        if low > high || (low == high && (is_above || is_below)) {
            return NOTHING;
        }
        let mut gone = 0i64;
        for key in low..=high {
            if !(is_above && key == low) && !(is_below && key == high) {
                gone = gone.saturating_add(self.now.take(key));
            }
        }
        gone
    }

    fn add_index(&mut self, rt: &impl Abort, kind: Kind) -> i64 {
        if self.now.has_kind(kind) {
            return NOTHING;
        }
        let key = self.now.doubled(rt, self.alloc, kind);
        if key == 0 {
            self.now.kinds.push(kind).expect(rt, "memory");
        }
        key
    }

    fn drop_index(&mut self, place: i64) -> i64 {
        match usize::try_from(place) {
            Ok(place) if place < self.now.kinds.len() => {
                let _ = self.now.kinds.remove(place);
                0
            }
            _ => NOTHING,
        }
    }

    fn mark(&mut self, rt: &impl Abort) -> i64 {
        let content = self.now.copy(rt);
        self.marked.push(content).expect(rt, "memory");
        0
    }

    fn undo(&mut self, count: i64) -> i64 {
        let mut answer = NOTHING;
        for _ in 0..count {
            if let Some(content) = self.marked.pop() {
                self.now = content;
                answer = 0;
            }
        }
        answer
    }

    fn undo_all(&mut self, rt: &impl Abort) -> i64 {
        self.now = self.settled.copy(rt);
        self.marked.clear();
        0
    }

    fn settle(&mut self, rt: &impl Abort) -> i64 {
        self.settled = self.now.copy(rt);
        self.marked.clear();
        0
    }

    fn clear(&mut self) -> i64 {
        self.now.records.clear();
        0
    }

    fn set_current(&mut self, current: i64) -> i64 {
        self.now.current = current;
        0
    }

    /// What a store answers.
    pub fn answer(&mut self, rt: &impl Abort, act: &Act) -> i64 {
        match act.verb {
            Verb::Put => self.put(rt, act.key, act.shape),
            Verb::Add => self.add(rt, act.key, act.shape),
            Verb::PutNext => self.put_next(rt, act.shape),
            Verb::Delete => self.delete(act.key, act.high(), act.is_open),
            Verb::Value => self.now.number_at(act.key),
            Verb::Clear => self.clear(),
            Verb::AddIndex => self.add_index(rt, act.kind),
            Verb::DropIndex => self.drop_index(act.number),
            Verb::SetCurrent => self.set_current(act.current()),
            Verb::Mark => self.mark(rt),
            Verb::Undo => self.undo(act.number),
            Verb::UndoAll => self.undo_all(rt),
            Verb::Settle => self.settle(rt),
        }
    }
}
