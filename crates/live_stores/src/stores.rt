// Stores on their way into a transaction and out of it.
ghost use Rattle.std.specs.Prelude.{◌≡◌, option_map, IfErr, IfSome, OnOk, OnErr};
ghost use Rattle.std.specs.Option.{option_copied};
ghost use Rattle.std.specs.FinMap as finite;
ghost use Rattle.idb_databases.specs.Stores.{AreStores};
ghost use Rattle.live_stores.specs.Holding.{held_store, HasNoPast};
ghost use Rattle.live_stores.specs.Slots.{stores_now, AreGiven};

use crate::giving::{put_given, take_given};
use crate::held::Held;
use crate::slots::{Slot, given_here};
use clone_values::Text;
use idb_databases::find_in;
use index_tables::Tables;
use std::alloc::Global;
use std::marker::Model;

/// Stores in the order of their names' bytes, as a transaction is handed them and gives them back. Contracts see a finite map by
/// name; each is a store as the standard asks, stands under its own name, and none of its changes can be undone any more.
#[derive(Drop)]
pub struct Stores<T: Tables> {
    items: Vec<(Text, Slot<T>)>,
}

impl<T: Tables> Model for Stores<T> {
    ghost use Rattle.std.specs.Coded.{codes};
    ghost use Rattle.std.specs.FinMap as finite;
    ghost use Rattle.indexed_records.specs.Contents.{records_code};
    ghost use Rattle.idb_databases.specs.Named.{names_code};
    ghost use Rattle.idb_databases.specs.Stores as named_stores;

    ghost Value = { named_stores.Stores };

    ghost coded = { finite.code names_code (Prim.hlevel (codes, records_code)) };

    ghost use Rattle.live_stores.specs.Slots.{stores_now, AreGiven};

    ghost view = { λ a. stores_now a.items.items };

    ghost invariant = { λ a. AreGiven a.items.items };
}

impl<T: Tables> Stores<T> {
    /// No stores; it takes no memory.
    pub fn new(alloc: Global) -> Self
        ensures { result ≡ finite.empty }
    {
        Stores {
            items: Vec::new(alloc),
        }
    }

    /// How many stores there are. With it comes that each is as the standard asks.
    pub fn len(&self) -> usize
        ensures count { result ≡ finite.len self.now }
        ensures sound { AreStores self.now }
    {
        self.items.len()
    }

    /// The store of this name, found by halving; `None` where there is none.
    pub fn find(&self, name: &Text) -> Option<&Held<T>>
        ensures store { option_map held_store (option_copied result) ≡ finite.get self.now name.now }
        ensures settled { IfSome result (λ held. HasNoPast held.now) }
    {
        match find_in(&self.items, name) {
            Some(slot) => return given_here(slot),
            None => return None,
        }
    }

    /// Puts a store under its name, where it takes the place of another. Where memory is wanting it comes back.
    pub fn insert(&mut self, held: Held<T>) -> Result<(), Held<T>>
        ensures inserted { OnOk result (self.new
            ≡ finite.insert self.old (held_store held).info.name (held_store held)) }
        ensures back { IfErr result (λ back. back ≡ held) }
        ensures unchanged { OnErr result (self.new ≡ self.old) }
    {
        let name = match held.store().info().name.clone() {
            Ok(name) => name,
            Err(_) => return Err(held),
        };
        match self.items.reserve(1) {
            Ok(()) => {}
            Err(_) => return Err(held),
        }
        put_given(&mut self.items, name, held);
        Ok(())
    }

    /// Takes the store of this name out; `None` where there is none. It takes no memory.
    pub fn remove(&mut self, name: &Text) -> Option<Held<T>>
        ensures store { option_map held_store result ≡ finite.get self.old name.now }
        ensures settled { IfSome result (λ held. HasNoPast held) }
        ensures left { self.new ≡ finite.remove self.old name.now }
    {
        take_given(&mut self.items, name)
    }

    /// What stands under each name.
    pub(crate) fn into_slots(self) -> Vec<(Text, Slot<T>)>
        ensures given { AreGiven result.items }
        ensures stores { stores_now result.items ≡ self }
    {
        self.items
    }

    pub(crate) fn from_slots(items: Vec<(Text, Slot<T>)>) -> Stores<T>
        requires { AreGiven items.items }
        ensures { result ≡ stores_now items.items }
    {
        Stores { items }
    }
}
