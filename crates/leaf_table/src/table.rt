// Entries in leaves.
ghost use Rattle.std.specs.Prelude.{◌≡◌, ℕ, ◌+◌, ◌-◌, ◌*◌, ◌/◌, ◌^◌, ◌<◌, ◌≤◌, [], List, Some, length, take, drop, slice_get, insert, remove, option_map, OnOk, IfOk, IfErr};
ghost use Rattle.std.specs.FinMap.{put};
ghost use Rattle.sorted_table.specs.Halves.{IsSplitAt, StaysPassed};
ghost use Rattle.sorted_table.specs.Tables.{pair_seen, IsSorted, HasKeyAt, BelongsAt, value_there, with_value};
ghost use Rattle.leaf_blocks.specs.Leaves.{joined, spare_of, AreLeaves, are_leaves_is_prop};

use crate::editing::{put_in, replace_in, take_from};
use crate::near::{note_about, pair_at};
use crate::searching::{first_among, place_among, run_from};
use idb_base::NoMemory;
use leaf_blocks::HALF;
use leaf_piles::Pile;
use sorted_table::{Cut, Ordered, OrderedTable, Steps};
use std::alloc::Global;
use std::sync::ledger::Ledger;

/// A table that keeps its entries in leaves of at most 64, and these in blocks of at most 128. A look-up goes by the
/// abbreviations of the leaves' first keys and halves a leaf, or else the places between; an insertion or a removal moves the
/// entries of one leaf.
#[derive(Drop)]
pub struct LeafTable<K: Ordered, V: Drop> {
    pile: Pile<(K, V)>,
    ghost sorted: { IsSorted K.order (joined (joined pile.blocks)) },
    ghost filled: { AreLeaves (joined pile.blocks) } by { are_leaves_is_prop (joined pile.blocks) },
}

impl<K: Ordered, V: Drop> LeafTable<K, V> {
    /// No entry, and room for none; it takes no memory.
    pub fn new(alloc: Global) -> LeafTable<K, V>
        ensures empty { ⟦<LeafTable<K, V> as OrderedTable<K, V>>⟧.entries result ≡ [] }
        ensures spare { ⟦<LeafTable<K, V> as OrderedTable<K, V>>⟧.spare result ≡ 0 }
    {
        LeafTable {
            pile: Pile::new(alloc),
        }
    }

    /// How many leaves are in use.
    pub fn leaves(&self) -> usize
        ensures most { length (⟦<LeafTable<K, V> as OrderedTable<K, V>>⟧.entries self.now) ≤ 64 * result }
        ensures least { 33 * (result / 2)
            ≤ length (⟦<LeafTable<K, V> as OrderedTable<K, V>>⟧.entries self.now) }
    {
        self.pile.len()
    }

    /// How many more entries can be inserted without memory.
    pub fn spare(&self) -> usize
        ensures { result ≡ ⟦<LeafTable<K, V> as OrderedTable<K, V>>⟧.spare self.now }
    {
        let free = self.pile.free();
        if self.pile.len() > 0 {
            (HALF * free).saturating_sub(self.pile.excess())
        } else if free > 0 {
            HALF * (free - 1) + 1
        } else {
            0
        }
    }
}

impl<K: Ordered, V: Drop> OrderedTable<K, V> for LeafTable<K, V> {
    ghost entries = { λ t. joined (joined t.pile.blocks) };

    ghost spare = { λ t. spare_of (joined t.pile.blocks) t.pile.free };

    fn place_of<L: Ledger>(&self, key: &K, steps: &mut Steps<L>) -> Result<usize, usize> {
        place_among(&self.pile, key, steps)
    }

    fn first_behind<C: Cut<K>, L: Ledger>(&self, cut: &C, steps: &mut Steps<L>) -> usize {
        first_among(&self.pile, cut, steps)
    }

    fn nth(&self, place: usize) -> Option<(&K, &V)> {
        if place < self.pile.count() {
            let (key, value) = pair_at(&self.pile, place);
            Some((key, value))
        } else {
            None
        }
    }

    fn run(&self, place: usize) -> &[(K, V)] {
        run_from(&self.pile, place)
    }

    fn len(&self) -> usize {
        self.pile.count()
    }

    fn reserve(&mut self, n: usize) -> Result<(), NoMemory> {
        if n <= self.spare() {
            return Ok(());
        }
        let free = free_for(&self.pile, n)?;
        self.pile.reserve(free)
    }

    fn insert_at(&mut self, place: usize, key: K, value: V) {
        put_pair(&mut self.pile, place, (key, value));
    }

    fn replace(&mut self, place: usize, value: V) -> V {
        replace_in(&mut self.pile, place, value)
    }

    fn remove(&mut self, place: usize) -> (K, V) {
        take_pair(&mut self.pile, place)
    }

    ghost rises = { λ t. t.sorted };
}

/// How many free leaves this many insertions want.
fn free_for<T: Drop>(pile: &Pile<T>, n: usize) -> Result<usize, NoMemory>
    requires { 0 < n }
    ensures { IfOk result (λ free. (f : ℕ) → free ≤ f → n ≤ spare_of (joined pile.now.blocks) f) }
{
    if pile.len() == 0 {
        return Ok((n - 1).div_ceil(HALF) + 1);
    }
    match n.checked_add(pile.excess()) {
        Some(wanted) => Ok(wanted.div_ceil(HALF)),
        None => Err(NoMemory),
    }
}

/// Puts a pair before the one at this place, and keeps the abbreviations of the first keys.
fn put_pair<K: Ordered, V: Drop>(pile: &mut Pile<(K, V)>, place: usize, pair: (K, V))
    requires filled { AreLeaves (joined pile.old.blocks) }
    requires within { place ≤ length (joined (joined pile.old.blocks)) }
    requires room { 0 < spare_of (joined pile.old.blocks) pile.old.free }
    ensures items { joined (joined pile.new.blocks) ≡ insert (joined (joined pile.old.blocks)) place pair }
    ensures filled { AreLeaves (joined pile.new.blocks) }
    ensures spare { spare_of (joined pile.old.blocks) pile.old.free
        ≤ spare_of (joined pile.new.blocks) pile.new.free + 1 }
{
    if put_in(pile, place, pair) {
        note_about(pile, place);
    }
}

/// Takes the pair at this place out, and keeps the abbreviations of the first keys.
fn take_pair<K: Ordered, V: Drop>(pile: &mut Pile<(K, V)>, place: usize) -> (K, V)
    requires filled { AreLeaves (joined pile.old.blocks) }
    requires within { place < length (joined (joined pile.old.blocks)) }
    ensures taken { slice_get (joined (joined pile.old.blocks)) place ≡ Some result }
    ensures left { joined (joined pile.new.blocks) ≡ remove (joined (joined pile.old.blocks)) place }
    ensures filled { AreLeaves (joined pile.new.blocks) }
    ensures spare { spare_of (joined pile.old.blocks) pile.old.free
        ≤ spare_of (joined pile.new.blocks) pile.new.free }
{
    let (pair, is_other) = take_from(pile, place);
    if is_other {
        note_about(pile, place);
    }
    pair
}
