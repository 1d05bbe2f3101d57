// Builds a Map.
ghost use Rattle.std.specs.Prelude.{◌≡◌, ◌<◌, true, [], map, length, slice_set, vec_len, IfOk, OnOk, OnErr};
ghost use Rattle.idb_base.specs.Lists.{IsWithinLimit, FitsOneMore};
ghost use Rattle.clone_values.specs.View.{tree_of, pair_of};
ghost use Rattle.clone_values.specs.Sameness.{put_pair};
ghost use Rattle.clone_values.specs.WellFormed.{are_once};
ghost use Rattle.value_members.specs.Shown.{IsIndex};

use crate::places::put_new;
use crate::primitives::{PrimitiveKey, key_of};
use clone_values::{Pair, Pairs, Value};
use idb_base::NoMemory;
use std::alloc::Global;
use std::collections::BTreeMap;
use std::marker::Model;

/// The entries of a Map that is being built; contracts see their list. Beside them it keeps a copy of each key that is a
/// text, and finds a primitive by halving.
#[derive(Drop)]
pub struct MapBuilder {
    alloc: Global,
    entries: Vec<Pair>,
    places: BTreeMap<PrimitiveKey, usize>,
}

impl Model for MapBuilder {
    ghost use Rattle.std.specs.Prelude.{List, map};
    ghost use Rattle.std.specs.Coded.{coded_list, coded×};
    ghost use Rattle.clone_values.specs.Tree.{Tree, tree_code};

    ghost Value = { List (Tree × Tree) };

    ghost coded = { coded_list (coded× tree_code tree_code) };

    ghost use Rattle.clone_values.specs.View.{pair_of};

    ghost view = { λ a. map pair_of a.entries.items };

    ghost use Rattle.idb_base.specs.Lists.{IsWithinLimit};
    ghost use Rattle.value_members.specs.Shown.{IsIndex};

    ghost invariant = { λ a. IsWithinLimit (map pair_of a.entries.items)
        × IsIndex a.places.entries (map (λ p. p.0) (map pair_of a.entries.items)) };
}

impl MapBuilder {
    /// No entry yet; it takes no memory.
    pub fn new(alloc: Global) -> MapBuilder
        ensures { result ≡ [] }
    {
        MapBuilder {
            alloc,
            entries: Vec::new(alloc),
            places: BTreeMap::new(alloc),
        }
    }

    /// How many entries there are so far.
    pub fn len(&self) -> usize
        ensures count { result ≡ length self.now }
        ensures short { IsWithinLimit self.now }
    {
        self.entries.len()
    }

    /// Puts an entry in, as `Pairs::put` does.
    pub fn put(&mut self, key: Value, value: Value) -> Result<(), NoMemory>
        requires { FitsOneMore self.old }
        ensures stored { OnOk result (self.new ≡ put_pair self.old (tree_of key) (tree_of value)) }
        ensures unchanged { OnErr result (self.new ≡ self.old) }
    {
        put_entry(
            self.alloc,
            &mut self.entries,
            &mut self.places,
            Pair { key, value },
        )
    }

    /// The entries, in the order in which their keys first came.
    pub fn finish(self) -> Result<Pairs, NoMemory>
        ensures value { IfOk result (λ pairs. pairs ≡ self) }
        ensures once { are_once (map (λ p. p.0) self) ≡ true }
    {
        Pairs::from_vec(self.alloc, self.entries)
    }
}

fn put_entry(
    alloc: Global,
    entries: &mut Vec<Pair>,
    places: &mut BTreeMap<PrimitiveKey, usize>,
    entry: Pair,
) -> Result<(), NoMemory>
    requires { IsIndex places.old.entries (map (λ p. p.0) (map pair_of entries.old.items)) }
    ensures index { IsIndex places.new.entries (map (λ p. p.0) (map pair_of entries.new.items)) }
    ensures stored { OnOk result (map pair_of entries.new.items
        ≡ put_pair (map pair_of entries.old.items) (pair_of entry).0 (pair_of entry).1) }
    ensures unchanged { OnErr result (map pair_of entries.new.items ≡ map pair_of entries.old.items) }
{
    match key_of(alloc, &entry.key)? {
        Some(key) => match places.get(&key) {
            Some(place) => {
                replace_entry(entries, *place, entry);
                Ok(())
            }
            None => {
                put_new(entries, places, key, entry)?;
                Ok(())
            }
        },
        None => {
            entries.push(entry)?;
            Ok(())
        }
    }
}

fn replace_entry(entries: &mut Vec<Pair>, place: usize, entry: Pair)
    requires { place < vec_len entries.old }
    ensures { map pair_of entries.new.items
        ≡ slice_set (map pair_of entries.old.items) place (pair_of entry) }
{
    entries[place] = entry;
}
