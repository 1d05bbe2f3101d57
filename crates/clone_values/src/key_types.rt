// Keys and their list. Contracts see a key as its plain key tree, and a list as the list of these.
ghost use Rattle.std.specs.Prelude.{◌≡◌, ℕ, ◌≤◌, List, [], ◌∷◌, ◌++◌, length, map, slice_get, option_map, IfOk, IfSome, IfNone, OnOk, OnErr};
ghost use Rattle.std.specs.Option.{option_copied};
ghost use Rattle.value_trees.specs.Lists.{IsWithinLimit, FitsOneMore, StandsAt};
ghost use Rattle.clone_values.specs.View.{key_tree_of};

use crate::holding::{Held, hold, push, share, slice};
use crate::small_lists::{Bytes, Text};
use std::alloc::{AllocError, Global};
use std::marker::Model;
use value_trees::NoMemory;

/// A key (Indexed Database API 3.0, "Keys").
#[cycle(key)]
#[derive(Drop)]
pub enum Key {
    Number(i64),
    Date(i64),
    Text(Text),
    Binary(Bytes),
    Array(Keys),
}

/// A list of keys.
#[cycle(key)]
#[derive(Drop)]
pub struct Keys {
    pub(crate) keys: Held<Key>,
    pub(crate) alloc: Global,
}

impl Model for Keys {
    ghost use Rattle.std.specs.Prelude.{List, map};
    ghost use Rattle.std.specs.Coded.{coded_list};
    ghost use Rattle.value_trees.specs.KeyTree.{KeyTree, key_code, keys_size, key_trees_of};

    ghost Value = { List KeyTree };

    ghost coded = { coded_list key_code };

    ghost use Rattle.clone_values.specs.View.{key_tree_of};
    ghost use Rattle.clone_values.specs.Held.{items_held};

    ghost view = { λ a. map key_tree_of (items_held a.keys) };

    ghost use Rattle.value_trees.specs.Lists.{IsWithinLimit};

    ghost invariant = { λ a. IsWithinLimit (map key_tree_of (items_held a.keys)) };

    ghost size = { λ ks. keys_size (key_trees_of ks) };

    ghost use Rattle.std.proofs.Common.{arith};
    ghost use Rattle.clone_values.specs.Falls.{held_keys_fall};

    ghost size_decreases = { λ a h. omega (arith, held_keys_fall a.keys a.alloc) };
}

impl Keys {
    /// The empty list; it takes no memory.
    pub fn new(alloc: Global) -> Self
        ensures { result ≡ [] }
    {
        Keys {
            keys: Held::Empty,
            alloc,
        }
    }

    /// The keys of a vector, in order.
    pub fn from_vec(alloc: Global, keys: Vec<Key>) -> Result<Keys, NoMemory>
        requires { IsWithinLimit keys.items }
        ensures { IfOk result (λ l. l ≡ map key_tree_of keys.items) }
    {
        Ok(Keys {
            keys: hold(alloc, keys)?,
            alloc,
        })
    }

    /// How many keys there are.
    pub fn len(&self) -> usize
        ensures count { result ≡ length self.now }
        ensures short { IsWithinLimit self.now }
    {
        slice(&self.keys).len()
    }

    /// The key at this place, counted from 0; `None` past the end.
    pub fn at(&self, place: usize) -> Option<&Key>
        ensures item { option_map key_tree_of (option_copied result) ≡ slice_get self.now place }
        ensures stands { IfSome result (λ x. StandsAt self.now place (key_tree_of x.now)) }
        ensures past_end { IfNone result (length self.now ≤ place) }
    {
        slice(&self.keys).get(place)
    }

    /// Puts a key at the end.
    pub fn push(&mut self, item: Key) -> Result<(), NoMemory>
        requires { FitsOneMore self.old }
        ensures stored { OnOk result (self.new ≡ self.old ++ key_tree_of item ∷ []) }
        ensures unchanged { OnErr result (self.new ≡ self.old) }
    {
        push(self.alloc, &mut self.keys, item)
    }
}

impl Key {
    /// An equal key; it shares what the key holds.
    pub fn copy(&self, _alloc: Global) -> Result<Key, NoMemory>
        ensures { IfOk result (λ r. r ≡ self.now) }
    {
        Ok(self.clone()?)
    }
}

impl Clone for Key {
    ghost is_clone = { λ x y. y ≡ x };

    fn clone(&self) -> Result<Key, AllocError> {
        match self {
            Key::Number(n) => Ok(Key::Number(*n)),
            Key::Date(d) => Ok(Key::Date(*d)),
            Key::Text(s) => Ok(Key::Text(s.clone()?)),
            Key::Binary(b) => Ok(Key::Binary(b.clone()?)),
            Key::Array(keys) => Ok(Key::Array(keys.clone()?)),
        }
    }
}

impl Clone for Keys {
    ghost is_clone = { λ x y. y ≡ x };

    fn clone(&self) -> Result<Keys, AllocError> {
        Ok(Keys {
            keys: share(&self.keys)?,
            alloc: self.alloc,
        })
    }
}
