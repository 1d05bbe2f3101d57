ghost use Rattle.std.specs.Prelude.{◌≡◌, ◌+◌, ◌<◌, ◌≤◌, length, None};
ghost use Rattle.std.specs.Ordering.{nat_cmp};
ghost use Rattle.std.specs.Cmp.{nat_cmp_total};
ghost use Rattle.std.specs.FinMap.{nat_cmp-IsAntisymmetric};

use super::*;
use idb_base::NoMemory;
use key_order::{Key, Keys, Text};
use std::alloc::Global;
use std::cmp::Ordering;
use std::marker::Brand;
use std::mem;
use std::process::Abort;
use std::sync::ledger::{Blank, Ledger};
use std::test::Fail;

/// Numbers by value.
impl Ordered for u64 {
    ghost order = { nat_cmp };

    ghost abbreviated = { λ n. None };

    fn order(&self, other: &u64) -> Ordering {
        self.cmp(other)
    }

    fn abbreviated(&self) -> Option<i64> {
        None
    }

    ghost total = { nat_cmp_total };

    ghost same = { nat_cmp-IsAntisymmetric };

    ghost tells = { λ a b told. cc };
}

/// Puts an entry in if its key has none; whether it did.
fn put_new<K: Ordered, V: Drop, T: OrderedTable<K, V>>(
    table: &mut T,
    key: K,
    value: V,
) -> Result<bool, NoMemory> {
    table_laws::<K, V>();
    match find_place(table, &key) {
        Ok(_) => Ok(false),
        Err(place) => {
            table.reserve(1)?;
            table.insert_at(place, key, value);
            Ok(true)
        }
    }
}

/// The same by `insert`, which looks for the place again.
fn insert_new<K: Ordered, V: Drop, T: OrderedTable<K, V>>(
    table: &mut T,
    key: K,
    value: V,
) -> Result<(), NoMemory> {
    table_laws::<K, V>();
    if let Err(_) = find_place(table, &key) {
        table.reserve(1)?;
        table.insert(key, value);
    }
    Ok(())
}

/// Puts another value into the entry of a key; the one that stood there.
fn change<K: Ordered, V: Drop, T: OrderedTable<K, V>>(
    table: &mut T,
    key: &K,
    value: V,
) -> Option<V> {
    table_laws::<K, V>();
    match find_place(table, key) {
        Ok(place) => Some(table.replace(place, value)),
        Err(_) => None,
    }
}

/// Takes the entry of a key out.
fn take<K: Ordered, V: Drop, T: OrderedTable<K, V>>(table: &mut T, key: &K) -> Option<V> {
    table_laws::<K, V>();
    match find_place(table, key) {
        Ok(place) => {
            let (_, value) = table.remove(place);
            Some(value)
        }
        Err(_) => None,
    }
}

/// Five numbers, put in out of order.
fn tens(alloc: Global) -> Result<FlatTable<u64, u64>, Fail> {
    let mut table = FlatTable::new(alloc);
    for key in [30, 10, 50, 20, 40, 30] {
        let _ = put_new(&mut table, key, key + 1)?;
    }
    Ok(table)
}

#[test]
fn numbers_have_their_places(rt: HostRuntime) -> Result<(), Fail> {
    let table = tens(rt.alloc())?;
    assert_eq!(rt; table.len(), 5);
    let rows: [(u64, Result<usize, usize>); 11] = [
        (0, Err(0)),
        (10, Ok(0)),
        (11, Err(1)),
        (20, Ok(1)),
        (29, Err(2)),
        (30, Ok(2)),
        (31, Err(3)),
        (40, Ok(3)),
        (50, Ok(4)),
        (51, Err(5)),
        (u64::MAX, Err(5)),
    ];
    for (key, place) in rows {
        assert_eq!(rt; find_place(&table, &key), place, "{key}");
    }
    Ok(())
}

#[test]
fn nth_shows_the_entries_in_order(rt: HostRuntime) -> Result<(), Fail> {
    let table = tens(rt.alloc())?;
    let mut shown = String::new(rt.alloc());
    for place in 0..7 {
        match table.nth(place) {
            Some((key, value)) => write!(shown, "{key}:{value} ")?,
            None => write!(shown, "- ")?,
        }
    }
    assert_eq!(rt; shown.as_str(), "10:11 20:21 30:31 40:41 50:51 - - ");
    Ok(())
}

#[test]
fn an_empty_table_has_one_gap(rt: HostRuntime) {
    let table: FlatTable<u64, u64> = FlatTable::new(rt.alloc());
    assert_eq!(rt; table.len(), 0);
    assert_eq!(rt; find_place(&table, &7), Err(0));
    assert!(rt; table.nth(0).is_none());
}

/// An insertion finds its place by itself, and a replacement changes one value.
#[test]
fn entries_are_inserted_and_replaced(rt: HostRuntime) -> Result<(), Fail> {
    let mut table: FlatTable<u64, u64> = FlatTable::new(rt.alloc());
    for key in [20, 30, 10] {
        insert_new(&mut table, key, 2 * key)?;
    }
    let before = change(&mut table, &20, 7);
    let nothing = change(&mut table, &21, 7);
    let mut shown = format!(in rt.alloc(); "{before:?} {nothing:?}")?;
    for place in 0..3 {
        if let Some((key, value)) = table.nth(place) {
            write!(shown, " {key}:{value}")?;
        }
    }
    assert_eq!(rt; shown.as_str(), "Some(40) None 10:20 20:7 30:60");
    Ok(())
}

/// Six keys that rise by the standard's words (Indexed Database API 3.0, "compare two keys").
fn rising_key(alloc: Global, place: usize) -> Result<Key, Fail> {
    Ok(match place {
        0 => Key::Number(-1),
        1 => Key::Number(1),
        2 => Key::Date(-5),
        3 => Key::Text(Text::copy_of(alloc, "a")?),
        4 => Key::Text(Text::copy_of(alloc, "ab")?),
        _ => Key::Array(Keys::new(alloc)),
    })
}

#[test]
fn keys_have_their_places(rt: HostRuntime) -> Result<(), Fail> {
    let mut table: FlatTable<Key, usize> = FlatTable::new(rt.alloc());
    for place in [4, 0, 5, 2] {
        assert_eq!(rt;
            put_new(&mut table, rising_key(rt.alloc(), place)?, place)?,
            true
        );
    }
    let places = [Ok(0), Err(1), Ok(1), Err(2), Ok(2), Ok(3)];
    for (place, expected) in places.iter().enumerate() {
        let key = rising_key(rt.alloc(), place)?;
        assert_eq!(rt; find_place(&table, &key), *expected, "{place}");
    }
    assert_eq!(rt; take(&mut table, &rising_key(rt.alloc(), 2)?), Some(2));
    assert_eq!(rt; find_place(&table, &rising_key(rt.alloc(), 5)?), Ok(2));
    Ok(())
}

/// The plain slow program: entries in the order in which they came.
#[derive(Drop)]
struct Heap {
    entries: Vec<(u64, u64)>,
}

impl Heap {
    fn place_of(&self, key: u64) -> Option<usize> {
        self.entries.iter().position(|entry| entry.0 == key)
    }

    /// How many keys are less.
    fn rank_of(&self, key: u64) -> usize {
        self.entries.iter().filter(|entry| entry.0 < key).count()
    }

    fn put(&mut self, key: u64, value: u64) -> Result<bool, Fail> {
        match self.place_of(key) {
            Some(_) => Ok(false),
            None => {
                self.entries.push((key, value))?;
                Ok(true)
            }
        }
    }

    fn change(&mut self, key: u64, value: u64) -> Option<u64> {
        let entry = self.entries.iter_mut().find(|entry| entry.0 == key)?;
        Some(mem::replace(&mut entry.1, value))
    }

    fn take(&mut self, key: u64) -> Option<u64> {
        match self.place_of(key) {
            Some(place) if place < self.entries.len() => Some(self.entries.swap_remove(place).1),
            _ => None,
        }
    }
}

/// Each entry of the slow program stands in the table at the place of its rank.
fn agree(rt: &impl Abort, table: &FlatTable<u64, u64>, heap: &Heap) {
    assert_eq!(rt; table.len(), heap.entries.len());
    for (key, value) in &heap.entries {
        let place = heap.rank_of(*key);
        assert_eq!(rt; find_place(table, key), Ok(place));
        match table.nth(place) {
            Some((k, v)) => assert!(rt; *k == *key && *v == *value),
            None => panic!(rt; "no entry at {place}"),
        }
    }
}

#[test]
fn table_does_what_a_slow_program_does(rt: HostRuntime) -> Result<(), Fail> {
    let mut table: FlatTable<u64, u64> = FlatTable::new(rt.alloc());
    let mut heap = Heap {
        entries: Vec::new(rt.alloc()),
    };
    let mut seed = 12345u64;
    for round in 0..600u64 {
        seed = seed
            .wrapping_mul(6364136223846793005)
            .wrapping_add(1442695040888963407);
        let key = (seed >> 33) % 97;
        match (seed >> 60) % 5 {
            0 | 1 => { assert_eq!(rt; put_new(&mut table, key, round)?, heap.put(key, round)?) }
            2 => assert_eq!(rt; change(&mut table, &key, round), heap.change(key, round)),
            _ => assert_eq!(rt; take(&mut table, &key), heap.take(key)),
        }
        let absent = (seed >> 20) % 97;
        if heap.place_of(absent).is_none() {
            assert_eq!(rt; find_place(&table, &absent), Err(heap.rank_of(absent)));
        }
        agree(&rt, &table, &heap);
    }
    Ok(())
}

#[test]
fn look_ups_among_many_are_fast(rt: HostRuntime) -> Result<(), Fail> {
    let mut table: FlatTable<u64, u64> = FlatTable::new(rt.alloc());
    for key in 0..100_000u64 {
        let _ = put_new(&mut table, 2 * key, key)?;
    }
    for key in 0..100_000u64 {
        let found = find_place(&table, &(2 * key)).is_ok();
        let absent = find_place(&table, &(2 * key + 1)).is_err();
        assert!(rt; found && absent, "{key}");
    }
    Ok(())
}

/// Eleven comparisons are enough among a thousand entries.
fn place_among_a_thousand<K: Ordered, V: Drop, T: OrderedTable<K, V>, L: Ledger>(
    table: &T,
    key: &K,
    steps: &mut Steps<L>,
) -> Result<usize, usize>
    requires { length (T.entries table.now) ≤ 1000 }
    ensures { steps.new ≤ steps.old + 11 }
{
    table.place_of(key, steps)
}

fn is_among_a_thousand<L: Ledger>(table: &FlatTable<u64, u64>, key: u64, blank: Blank) -> bool
    requires name { blank.name ≡ L.name }
    requires parts { blank.parts ≡ L.parts }
    requires some { 0 < blank.parts }
    requires thousand { length (⟦<FlatTable<u64, u64> as OrderedTable<u64, u64>>⟧.entries table.now) ≤ 1000 }
{
    let mut steps: Steps<L> = Steps::new(blank);
    place_among_a_thousand(table, &key, &mut steps).is_ok()
}

#[test]
fn a_thousand_entries_take_eleven_comparisons(rt: HostRuntime) -> Result<(), Fail> {
    let mut table: FlatTable<u64, u64> = FlatTable::new(rt.alloc());
    for key in 0..1000u64 {
        let _ = put_new(&mut table, 999 - key, key)?;
    }
    assert_eq!(rt; table.len(), 1000);
    for key in 0..1001u64 {
        let found = is_among_a_thousand::<Brand>(&table, key, Blank::new(1));
        assert_eq!(rt; found, key < 1000);
    }
    Ok(())
}
