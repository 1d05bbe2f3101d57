// One run of entries.
ghost use Rattle.std.specs.Prelude.{◌≡◌, ℕ, ◌+◌, ◌-◌, ◌*◌, ◌^◌, ◌<◌, ◌≤◌, [], List, Some, length, take, drop, slice_get, remove, option_map, OnOk, IfOk, IfErr, vec_len, vec_capacity};
ghost use Rattle.std.specs.FinMap.{put};
ghost use Rattle.sorted_table.specs.Tables.{pair_seen, IsSorted, HasKeyAt, BelongsAt, value_there, with_value};

use crate::cut::Cut;
use crate::halving::{first_in, place_in};
use crate::order::Ordered;
use crate::steps::Steps;
use crate::table::OrderedTable;
use idb_base::NoMemory;
use std::alloc::Global;
use std::mem;
use std::sync::ledger::Ledger;

/// A table that keeps its entries in one run. A look-up halves the run; an insertion or a removal moves the entries
/// behind its place.
#[derive(Drop)]
pub struct FlatTable<K: Ordered, V: Drop> {
    rows: Vec<(K, V)>,
    ghost sorted: { IsSorted K.order rows.items },
}

impl<K: Ordered, V: Drop> FlatTable<K, V> {
    /// No entry, and room for none; it takes no memory.
    pub fn new(alloc: Global) -> FlatTable<K, V>
        ensures empty { ⟦<FlatTable<K, V> as OrderedTable<K, V>>⟧.entries result ≡ [] }
        ensures spare { ⟦<FlatTable<K, V> as OrderedTable<K, V>>⟧.spare result ≡ 0 }
    {
        FlatTable {
            rows: Vec::new(alloc),
        }
    }
}

impl<K: Ordered, V: Drop> OrderedTable<K, V> for FlatTable<K, V> {
    ghost entries = { λ t. t.rows.items };

    ghost spare = { λ t. vec_capacity t.rows - vec_len t.rows };

    fn place_of<L: Ledger>(&self, key: &K, steps: &mut Steps<L>) -> Result<usize, usize> {
        place_in(self.rows.as_slice(), key, steps)
    }

    fn first_behind<C: Cut<K>, L: Ledger>(&self, cut: &C, steps: &mut Steps<L>) -> usize {
        first_in(self.rows.as_slice(), cut, steps)
    }

    fn nth(&self, place: usize) -> Option<(&K, &V)> {
        match self.rows.get(place) {
            Some((key, value)) => Some((key, value)),
            None => None,
        }
    }

    fn run(&self, place: usize) -> &[(K, V)] {
        run_from(self.rows.as_slice(), place)
    }

    fn len(&self) -> usize {
        self.rows.len()
    }

    fn reserve(&mut self, n: usize) -> Result<(), NoMemory> {
        self.rows.reserve(n)?;
        Ok(())
    }

    fn insert_at(&mut self, place: usize, key: K, value: V) {
        put_in(&mut self.rows, place, key, value);
    }

    fn replace(&mut self, place: usize, value: V) -> V {
        replace_in(&mut self.rows, place, value)
    }

    fn remove(&mut self, place: usize) -> (K, V) {
        self.rows.remove(place)
    }

    ghost rises = { λ t. t.sorted };
}

/// The entries from this place on.
fn run_from<K, V>(rows: &[(K, V)], place: usize) -> &[(K, V)]
    ensures entries { result.now ≡ take (length result.now) (drop place rows.now) }
    ensures some { place < length rows.now → 0 < length result.now }
{
    &rows[place.min(rows.len())..]
}

/// Puts an entry where its key belongs.
fn put_in<K: Ordered, V: Drop>(rows: &mut Vec<(K, V)>, place: usize, key: K, value: V)
    requires room { vec_len rows.old < vec_capacity rows.old }
    requires belongs { BelongsAt K.order rows.old.items place key }
    ensures items { rows.new.items ≡ put K.order key value rows.old.items }
    ensures len { vec_len rows.new ≡ vec_len rows.old + 1 }
    ensures capacity { vec_capacity rows.old ≤ vec_capacity rows.new }
{
    match rows.insert(place, (key, value)) {
        Ok(()) => {}
        Err(_) => unreachable!(),
    }
}

/// Puts another value into the entry at this place.
fn replace_in<K: Ordered, V: Drop>(rows: &mut Vec<(K, V)>, place: usize, value: V) -> V
    requires { place < length rows.old.items }
    ensures given { value_there rows.old.items place ≡ Some result }
    ensures items { rows.new.items ≡ with_value rows.old.items place value }
    ensures len { vec_len rows.new ≡ vec_len rows.old }
    ensures capacity { vec_capacity rows.new ≡ vec_capacity rows.old }
{
    mem::replace(&mut rows[place].1, value)
}
