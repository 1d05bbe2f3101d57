// What every table promises.
ghost use Rattle.std.specs.Prelude.{◌≡◌, ℕ, ◌+◌, ◌-◌, ◌*◌, ◌^◌, ◌<◌, ◌≤◌, List, Some, length, take, drop, slice_get, remove, option_map, OnOk, IfOk, IfErr, IsOk};
ghost use Rattle.std.specs.FinMap.{put};
ghost use Rattle.sorted_table.specs.Halves.{IsSplitAt, StaysPassed};
ghost use Rattle.sorted_table.specs.Tables.{pair_seen, IsSorted, Lacks, HasKeyAt, BelongsAt, value_there, with_value};

use crate::cut::Cut;
use crate::order::Ordered;
use crate::steps::Steps;
use idb_base::NoMemory;
use std::marker::Brand;
use std::sync::ledger::{Blank, Ledger};

/// Entries whose keys rise strictly, and spare places. Contracts see the list of the entries and how many more can be
/// inserted without memory.
pub trait OrderedTable<K: Ordered, V: Drop>: Drop {
    ghost entries: { Self → List (K × V) };

    ghost spare: { Self → ℕ };

    /// The place of the key, counted from 0, or the place where it would stand. It takes no memory, and at most one
    /// comparison more than the number of entries has binary digits.
    fn place_of<L: Ledger>(&self, key: &K, steps: &mut Steps<L>) -> Result<usize, usize>
        ensures found { IfOk result (λ place. HasKeyAt K.order (entries self.now) place key.now) }
        ensures absent { IfErr result (λ place. BelongsAt K.order (entries self.now) place key.now) }
        ensures counted { steps.old ≤ steps.new }
        ensures cost { 2 ^ (steps.new - steps.old) ≤ 4 * length (entries self.now) + 2 };

    /// The place of the first entry whose key lies behind the cut; where none does, the number of entries. It takes no memory,
    /// and at most one question more than the number of entries has binary digits.
    fn first_behind<C: Cut<K>, L: Ledger>(&self, cut: &C, steps: &mut Steps<L>) -> usize
        requires { StaysPassed (λ e. C.passes cut.now e.0) (entries self.now) }
        ensures split { IsSplitAt (λ e. C.passes cut.now e.0) (entries self.now) result }
        ensures counted { steps.old ≤ steps.new }
        ensures cost { 2 ^ (steps.new - steps.old) ≤ 4 * length (entries self.now) + 2 };

    /// The entry at this place, counted from 0; `None` past the end.
    fn nth(&self, place: usize) -> Option<(&K, &V)>
        ensures { option_map pair_seen result ≡ slice_get (entries self.now) place };

    /// The entries from this place on, as far as they lie side by side; none past the end.
    fn run(&self, place: usize) -> &[(K, V)]
        ensures entries { result.now ≡ take (length result.now) (drop place (entries self.now)) }
        ensures some { place < length (entries self.now) → 0 < length result.now };

    /// How many entries there are.
    fn len(&self) -> usize
        ensures value { result ≡ length (entries self.now) };

    /// Makes room for at least this many insertions. `NoMemory` comes where that room was missing and memory ran out.
    fn reserve(&mut self, n: usize) -> Result<(), NoMemory>
        ensures entries { entries self.new ≡ entries self.old }
        ensures spare { spare self.old ≤ spare self.new }
        ensures room { OnOk result (n ≤ spare self.new) }
        ensures enough { n ≤ spare self.old → IsOk result };

    /// Puts an entry in its place. It takes no memory.
    final fn insert(&mut self, key: K, value: V)
        requires room { 0 < spare self.old }
        requires absent { Lacks K.order (entries self.old) key }
        ensures entries { entries self.new ≡ put K.order key value (entries self.old) }
        ensures spare { spare self.old ≤ spare self.new + 1 }
    {
        match find_place(self, &key) {
            Ok(_) => unreachable!(),
            Err(place) => self.insert_at(place, key, value),
        }
    }

    /// Puts an entry in at the place that `place_of` told for its key. It compares no keys and takes no memory.
    fn insert_at(&mut self, place: usize, key: K, value: V)
        requires room { 0 < spare self.old }
        requires belongs { BelongsAt K.order (entries self.old) place key }
        ensures entries { entries self.new ≡ put K.order key value (entries self.old) }
        ensures spare { spare self.old ≤ spare self.new + 1 };

    /// Puts another value into the entry at this place, and gives the one that stood there. It takes no memory.
    fn replace(&mut self, place: usize, value: V) -> V
        requires { place < length (entries self.old) }
        ensures given { value_there (entries self.old) place ≡ Some result }
        ensures entries { entries self.new ≡ with_value (entries self.old) place value }
        ensures spare { spare self.new ≡ spare self.old };

    /// Takes the entry at this place out. It takes no memory.
    fn remove(&mut self, place: usize) -> (K, V)
        requires { place < length (entries self.old) }
        ensures taken { slice_get (entries self.old) place ≡ Some result }
        ensures left { entries self.new ≡ remove (entries self.old) place }
        ensures spare { spare self.old ≤ spare self.new };

    ghost rises: { (t : Self) → IsSorted K.order (entries t) };
}

/// The place of the key as `place_of` finds it, for a caller that counts no comparisons.
pub fn find_place<K: Ordered, V: Drop, T: OrderedTable<K, V>>(
    table: &T,
    key: &K,
) -> Result<usize, usize>
    ensures found { IfOk result (λ place. HasKeyAt K.order (T.entries table.now) place key.now) }
    ensures absent { IfErr result (λ place. BelongsAt K.order (T.entries table.now) place key.now) }
{
    found_from::<K, V, T, Brand>(table, key, Blank::new(1))
}

fn found_from<K: Ordered, V: Drop, T: OrderedTable<K, V>, L: Ledger>(
    table: &T,
    key: &K,
    blank: Blank,
) -> Result<usize, usize>
    requires name { blank.name ≡ L.name }
    requires parts { blank.parts ≡ L.parts }
    requires some { 0 < blank.parts }
    ensures found { IfOk result (λ place. HasKeyAt K.order (T.entries table.now) place key.now) }
    ensures absent { IfErr result (λ place. BelongsAt K.order (T.entries table.now) place key.now) }
{
    let mut steps: Steps<L> = Steps::new(blank);
    table.place_of(key, &mut steps)
}
