// Values and their lists. Contracts see an item as its plain tree, and a list as the list of these.
ghost use Rattle.std.specs.Prelude.{◌≡◌, ◌^◌, ◌<◌, ◌≤◌, List, [], ◌∷◌, ◌++◌, length, map, slice_get, option_map, IfOk, IfSome, IfNone, OnOk, OnErr};
ghost use Rattle.std.specs.Option.{option_copied};
ghost use Rattle.value_trees.specs.Lists.{IsWithinLimit, FitsOneMore, StandsAt};
ghost use Rattle.clone_values.specs.View.{tree_of, pair_of};

use crate::holding::{Held, hold, push, slice};
use crate::small_lists::{Bytes, Text};
use std::alloc::Global;
use std::marker::Model;
use value_trees::NoMemory;

/// A value that scripts store and clone (HTML, StructuredSerializeForStorage, cut to whole numbers and acyclic values).
#[cycle(value)]
#[derive(Drop)]
pub enum Value {
    Undefined,
    Null,
    Bool(bool),
    /// From -2^53 to 2^53.
    Int(i64),
    Text(Text),
    /// Milliseconds, from -8,640,000,000,000,000 to 8,640,000,000,000,000.
    Date(i64),
    Bytes(Bytes),
    Array(Items, Props),
    Object(Props),
    Map(Pairs),
    Set(Items),
    Function,
}

/// A named property.
#[cycle(value)]
#[derive(Drop)]
pub struct Prop {
    pub name: Text,
    pub value: Value,
}

/// An entry of a Map.
#[cycle(value)]
#[derive(Drop)]
pub struct Pair {
    pub key: Value,
    pub value: Value,
}

/// The items of an Array or a Set.
#[cycle(value)]
#[derive(Drop)]
pub struct Items {
    pub(crate) items: Held<Value>,
    pub(crate) alloc: Global,
}

impl Model for Items {
    ghost use Rattle.std.specs.Prelude.{List, map};
    ghost use Rattle.std.specs.Coded.{coded_list};
    ghost use Rattle.value_trees.specs.Tree.{Tree, tree_code, trees_size, trees_of};

    ghost Value = { List Tree };

    ghost coded = { coded_list tree_code };

    ghost use Rattle.clone_values.specs.View.{tree_of};
    ghost use Rattle.clone_values.specs.Held.{items_held};

    ghost view = { λ a. map tree_of (items_held a.items) };

    ghost use Rattle.value_trees.specs.Lists.{IsWithinLimit};

    ghost invariant = { λ a. IsWithinLimit (map tree_of (items_held a.items)) };

    ghost size = { λ ts. trees_size (trees_of ts) };

    ghost use Rattle.std.proofs.Common.{arith};
    ghost use Rattle.clone_values.specs.Falls.{held_items_fall};

    ghost size_decreases = { λ a h. omega (arith, held_items_fall a.items a.alloc) };
}

impl Items {
    /// The empty list; it takes no memory.
    pub fn new(alloc: Global) -> Self
        ensures { result ≡ [] }
    {
        Items {
            items: Held::Empty,
            alloc,
        }
    }

    /// The items of a vector, in order.
    pub fn from_vec(alloc: Global, items: Vec<Value>) -> Result<Items, NoMemory>
        requires { IsWithinLimit items.items }
        ensures { IfOk result (λ l. l ≡ map tree_of items.items) }
    {
        Ok(Items {
            items: hold(alloc, items)?,
            alloc,
        })
    }

    /// How many items there are.
    pub fn len(&self) -> usize
        ensures count { result ≡ length self.now }
        ensures small { result < 2 ^ 63 }
        ensures short { IsWithinLimit self.now }
    {
        slice(&self.items).len()
    }

    /// The item at this place, counted from 0; `None` past the end.
    pub fn at(&self, place: usize) -> Option<&Value>
        ensures item { option_map tree_of (option_copied result) ≡ slice_get self.now place }
        ensures stands { IfSome result (λ x. StandsAt self.now place (tree_of x.now)) }
        ensures past_end { IfNone result (length self.now ≤ place) }
    {
        slice(&self.items).get(place)
    }

    /// Puts an item at the end.
    pub fn push(&mut self, item: Value) -> Result<(), NoMemory>
        requires { FitsOneMore self.old }
        ensures stored { OnOk result (self.new ≡ self.old ++ tree_of item ∷ []) }
        ensures unchanged { OnErr result (self.new ≡ self.old) }
    {
        push(self.alloc, &mut self.items, item)
    }
}

/// The named properties of an Array or an Object, by rising names.
#[cycle(value)]
#[derive(Drop)]
pub struct Props {
    pub(crate) props: Held<Prop>,
    pub(crate) alloc: Global,
}

impl Model for Props {
    ghost use Rattle.std.specs.Prelude.{◌≡◌, ℕ, List, map, true};
    ghost use Rattle.std.specs.Coded.{coded_ℕ, coded_list, coded×};
    ghost use Rattle.value_trees.specs.Tree.{Tree, tree_code, members_size, members_of};

    ghost Value = { List (List ℕ × Tree) };

    ghost coded = { coded_list (coded× (coded_list coded_ℕ) tree_code) };

    ghost use Rattle.clone_values.specs.View.{prop_of};
    ghost use Rattle.clone_values.specs.Held.{items_held};

    ghost view = { λ a. map prop_of (items_held a.props) };

    ghost use Rattle.value_trees.specs.Lists.{IsWithinLimit};
    ghost use Rattle.value_trees.specs.Names.{is_rising, names_of};

    ghost invariant = { λ a. IsWithinLimit (map prop_of (items_held a.props))
        × (is_rising (names_of (map prop_of (items_held a.props))) ≡ true) };

    ghost size = { λ ms. members_size (members_of ms) };

    ghost use Rattle.std.proofs.Common.{arith};
    ghost use Rattle.clone_values.specs.Falls.{held_props_fall};

    ghost size_decreases = { λ a h. omega (arith, held_props_fall a.props a.alloc) };
}

/// The entries of a Map, each key once.
#[cycle(value)]
#[derive(Drop)]
pub struct Pairs {
    pub(crate) pairs: Held<Pair>,
    pub(crate) alloc: Global,
}

impl Model for Pairs {
    ghost use Rattle.std.specs.Prelude.{List, map};
    ghost use Rattle.std.specs.Coded.{coded_list, coded×};
    ghost use Rattle.value_trees.specs.Tree.{Tree, tree_code, pairs_size, pairs_of};

    ghost Value = { List (Tree × Tree) };

    ghost coded = { coded_list (coded× tree_code tree_code) };

    ghost use Rattle.clone_values.specs.View.{pair_of};
    ghost use Rattle.clone_values.specs.Held.{items_held};

    ghost view = { λ a. map pair_of (items_held a.pairs) };

    ghost use Rattle.value_trees.specs.Lists.{IsWithinLimit};

    ghost invariant = { λ a. IsWithinLimit (map pair_of (items_held a.pairs)) };

    ghost size = { λ ps. pairs_size (pairs_of ps) };

    ghost use Rattle.std.proofs.Common.{arith};
    ghost use Rattle.clone_values.specs.Falls.{held_pairs_fall};

    ghost size_decreases = { λ a h. omega (arith, held_pairs_fall a.pairs a.alloc) };
}

impl Pairs {
    /// The empty list; it takes no memory.
    pub fn new(alloc: Global) -> Self
        ensures { result ≡ [] }
    {
        Pairs {
            pairs: Held::Empty,
            alloc,
        }
    }

    /// The entries of a vector, in order.
    pub fn from_vec(alloc: Global, pairs: Vec<Pair>) -> Result<Pairs, NoMemory>
        requires { IsWithinLimit pairs.items }
        ensures { IfOk result (λ l. l ≡ map pair_of pairs.items) }
    {
        Ok(Pairs {
            pairs: hold(alloc, pairs)?,
            alloc,
        })
    }

    /// How many entries there are.
    pub fn len(&self) -> usize
        ensures count { result ≡ length self.now }
        ensures short { IsWithinLimit self.now }
    {
        slice(&self.pairs).len()
    }

    /// The entry at this place, counted from 0; `None` past the end.
    pub fn at(&self, place: usize) -> Option<&Pair>
        ensures item { option_map pair_of (option_copied result) ≡ slice_get self.now place }
        ensures stands { IfSome result (λ x. StandsAt self.now place (pair_of x.now)) }
        ensures past_end { IfNone result (length self.now ≤ place) }
    {
        slice(&self.pairs).get(place)
    }
}
