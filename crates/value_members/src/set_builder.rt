// Builds a Set.
ghost use Rattle.std.specs.Prelude.{◌≡◌, true, [], map, length, IfOk, OnOk, OnErr};
ghost use Rattle.idb_base.specs.Lists.{IsWithinLimit, FitsOneMore};
ghost use Rattle.clone_values.specs.View.{tree_of};
ghost use Rattle.clone_values.specs.Sameness.{put_once};
ghost use Rattle.clone_values.specs.WellFormed.{are_once};
ghost use Rattle.value_members.specs.Shown.{IsIndex};

use crate::places::put_new;
use crate::primitives::{PrimitiveKey, key_of};
use clone_values::{Items, Value};
use idb_base::NoMemory;
use std::alloc::Global;
use std::collections::BTreeMap;
use std::marker::Model;

/// The members of a Set that is being built; contracts see their list. Beside them it keeps a copy of each text, and
/// finds a primitive by halving.
#[derive(Drop)]
pub struct SetBuilder {
    alloc: Global,
    members: Vec<Value>,
    places: BTreeMap<PrimitiveKey, usize>,
}

impl Model for SetBuilder {
    ghost use Rattle.std.specs.Prelude.{List, map};
    ghost use Rattle.std.specs.Coded.{coded_list};
    ghost use Rattle.clone_values.specs.Tree.{Tree, tree_code};

    ghost Value = { List Tree };

    ghost coded = { coded_list tree_code };

    ghost use Rattle.clone_values.specs.View.{tree_of};

    ghost view = { λ a. map tree_of a.members.items };

    ghost use Rattle.idb_base.specs.Lists.{IsWithinLimit};
    ghost use Rattle.value_members.specs.Shown.{IsIndex};

    ghost invariant = { λ a. IsWithinLimit (map tree_of a.members.items)
        × IsIndex a.places.entries (map tree_of a.members.items) };
}

impl SetBuilder {
    /// No member yet; it takes no memory.
    pub fn new(alloc: Global) -> SetBuilder
        ensures { result ≡ [] }
    {
        SetBuilder {
            alloc,
            members: Vec::new(alloc),
            places: BTreeMap::new(alloc),
        }
    }

    /// How many members there are so far.
    pub fn len(&self) -> usize
        ensures count { result ≡ length self.now }
        ensures short { IsWithinLimit self.now }
    {
        self.members.len()
    }

    /// Puts a member in, as `Items::put_once` does.
    pub fn put(&mut self, value: Value) -> Result<(), NoMemory>
        requires { FitsOneMore self.old }
        ensures stored { OnOk result (self.new ≡ put_once self.old (tree_of value)) }
        ensures unchanged { OnErr result (self.new ≡ self.old) }
    {
        put_member(self.alloc, &mut self.members, &mut self.places, value)
    }

    /// The members, in the order in which they first came.
    pub fn finish(self) -> Result<Items, NoMemory>
        ensures value { IfOk result (λ items. items ≡ self) }
        ensures once { are_once self ≡ true }
    {
        Items::from_vec(self.alloc, self.members)
    }
}

fn put_member(
    alloc: Global,
    members: &mut Vec<Value>,
    places: &mut BTreeMap<PrimitiveKey, usize>,
    value: Value,
) -> Result<(), NoMemory>
    requires { IsIndex places.old.entries (map tree_of members.old.items) }
    ensures index { IsIndex places.new.entries (map tree_of members.new.items) }
    ensures stored { OnOk result (map tree_of members.new.items
        ≡ put_once (map tree_of members.old.items) (tree_of value)) }
    ensures unchanged { OnErr result (map tree_of members.new.items ≡ map tree_of members.old.items) }
{
    match key_of(alloc, &value)? {
        Some(key) => match places.get(&key) {
            Some(_) => Ok(()),
            None => {
                put_new(members, places, key, value)?;
                Ok(())
            }
        },
        None => {
            members.push(value)?;
            Ok(())
        }
    }
}
