// What a commit changes. Contracts see a change with trees for its key and value, and a list as the list of these.
ghost use Rattle.std.specs.Prelude.{◌≡◌, ◌≤◌, [], ◌∷◌, ◌++◌, length, map, slice_get, option_map, IfOk, IfSome, IfNone, OnOk, OnErr};
ghost use Rattle.std.specs.Option.{option_copied};
ghost use Rattle.idb_base.specs.Lists.{StandsAt};
ghost use Rattle.idb_calls.specs.View.{delta_of};

use clone_values::{Key, Text, Value};
use idb_base::NoMemory;
use path_grammar::KeyPath;
use std::alloc::{AllocError, Global};
use std::marker::Model;

/// One change that a transaction makes. It names a database, a store and an index by their names.
#[derive(Drop)]
pub enum Delta {
    /// The database has this version; where there was none, it is new.
    Version {
        db: Text,
        version: u64,
    },
    /// The database goes.
    DropDatabase {
        db: Text,
    },
    /// A new store, with this key path, and with a key generator where `auto` says so.
    CreateStore {
        db: Text,
        store: Text,
        path: Option<KeyPath>,
        auto: bool,
    },
    /// The store goes.
    DropStore {
        db: Text,
        store: Text,
    },
    /// A new index of the store.
    CreateIndex {
        db: Text,
        store: Text,
        index: Text,
        path: KeyPath,
        unique: bool,
        multi: bool,
    },
    /// The index goes.
    DropIndex {
        db: Text,
        store: Text,
        index: Text,
    },
    /// The record of this key has this value; the generator's number stays.
    Put {
        db: Text,
        store: Text,
        key: Key,
        value: Value,
    },
    /// The record of this key goes.
    Remove {
        db: Text,
        store: Text,
        key: Key,
    },
    /// All records of the store go.
    Clear {
        db: Text,
        store: Text,
    },
    /// The store's key generator has this current number.
    Current {
        db: Text,
        store: Text,
        current: u64,
    },
}

/// Changes, in the order in which they took effect.
#[derive(Drop)]
pub struct Deltas {
    items: Vec<Delta>,
}

impl Model for Deltas {
    ghost use Rattle.std.specs.Prelude.{List, map};
    ghost use Rattle.std.specs.Coded.{codes};
    ghost use Rattle.clone_values.specs.Tree.{tree_code};
    ghost use Rattle.clone_values.specs.KeyTree.{key_code};
    ghost use Rattle.idb_calls.specs.Deltas.{DeltaTree};

    ghost Value = { List DeltaTree };

    ghost coded = { Prim.hlevel (codes, key_code, tree_code) };

    ghost use Rattle.idb_calls.specs.View.{delta_of};

    ghost view = { λ a. map delta_of a.items.items };
}

impl Deltas {
    /// The empty list; it takes no memory.
    pub fn new(alloc: Global) -> Self
        ensures { result ≡ [] }
    {
        Deltas {
            items: Vec::new(alloc),
        }
    }

    /// The changes of a vector, in order. It takes no memory.
    pub fn from_vec(items: Vec<Delta>) -> Deltas
        ensures { result ≡ map delta_of items.items }
    {
        Deltas { items }
    }

    /// The changes as a vector, in order. It takes no memory.
    pub fn into_vec(self) -> Vec<Delta>
        ensures { map delta_of result.items ≡ self }
    {
        self.items
    }

    /// How many changes there are.
    pub fn len(&self) -> usize
        ensures { result ≡ length self.now }
    {
        self.items.len()
    }

    /// The change at this place, counted from 0; `None` past the end.
    pub fn at(&self, place: usize) -> Option<&Delta>
        ensures item { option_map delta_of (option_copied result) ≡ slice_get self.now place }
        ensures stands { IfSome result (λ x. StandsAt self.now place (delta_of x.now)) }
        ensures past_end { IfNone result (length self.now ≤ place) }
    {
        self.items.get(place)
    }

    /// Puts a change at the end.
    pub fn push(&mut self, item: Delta) -> Result<(), NoMemory>
        ensures stored { OnOk result (self.new ≡ self.old ++ delta_of item ∷ []) }
        ensures unchanged { OnErr result (self.new ≡ self.old) }
    {
        self.items.push(item)?;
        Ok(())
    }
}
