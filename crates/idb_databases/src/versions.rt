// Object stores by name.
ghost use Rattle.std.specs.Prelude.{◌≡◌, slice_get, option_map, OnOk, OnErr};
ghost use Rattle.std.specs.Option.{option_copied};
ghost use Rattle.std.specs.FinMap as finite;
ghost use Rattle.idb_databases.specs.Named.{with_values};
ghost use Rattle.idb_databases.specs.Stores.{AreStores, store_alone, store_entry};

use crate::named::{find_in, nth_in, put_in, take_from};
use clone_values::Text;
use idb_base::NoMemory;
use index_tables::Tables;
use item_changes::StoreVersion;
use std::alloc::Global;
use std::marker::Model;

/// Object stores in the order of their names' bytes. Contracts see a finite map by name of the stores as they are, without
/// their past; each is a store as the standard asks, and stands under its own name.
#[derive(Drop)]
pub struct Versions<T: Tables> {
    items: Vec<(Text, StoreVersion<T>)>,
}

impl<T: Tables> Model for Versions<T> {
    ghost use Rattle.std.specs.Coded.{codes};
    ghost use Rattle.std.specs.FinMap as finite;
    ghost use Rattle.indexed_records.specs.Contents.{records_code};
    ghost use Rattle.idb_databases.specs.Named.{names_code};
    ghost use Rattle.idb_databases.specs.Stores.{Stores, stores_seen, AreVersions};

    ghost Value = { Stores };

    ghost coded = { finite.code names_code (Prim.hlevel (codes, records_code)) };

    ghost view = { λ a. stores_seen a.items.items };

    ghost invariant = { λ a. AreVersions a.items.items };
}

impl<T: Tables> Versions<T> {
    /// No stores; it takes no memory.
    pub fn new(alloc: Global) -> Self
        ensures { result ≡ finite.empty }
    {
        Versions {
            items: Vec::new(alloc),
        }
    }

    /// How many stores there are. With it comes that each is as the standard asks.
    pub fn len(&self) -> usize
        ensures count { result ≡ finite.len self.now }
        ensures sound { AreStores self.now }
    {
        self.items.len()
    }

    /// The store at this place by name, counted from 0; `None` past the end.
    pub fn at(&self, place: usize) -> Option<&StoreVersion<T>>
        ensures { option_map store_entry (option_copied result) ≡ slice_get (finite.entries self.now) place }
    {
        nth_in(&self.items, place)
    }

    /// The store of this name, found by halving; `None` where there is none.
    pub fn find(&self, name: &Text) -> Option<&StoreVersion<T>>
        ensures { option_map store_alone (option_copied result) ≡ finite.get self.now name.now }
    {
        find_in(&self.items, name)
    }

    /// Puts a store under its name, where it takes the place of another.
    pub fn insert(&mut self, store: StoreVersion<T>) -> Result<(), NoMemory>
        ensures inserted { OnOk result (self.new
            ≡ finite.insert self.old store.store.info.name store.store) }
        ensures unchanged { OnErr result (self.new ≡ self.old) }
    {
        let name = store.info().name.clone()?;
        put_in(&mut self.items, name, store)?;
        Ok(())
    }

    /// Takes the store of this name out; `None` where there is none. It takes no memory.
    pub fn remove(&mut self, name: &Text) -> Option<StoreVersion<T>>
        ensures taken { option_map store_alone result ≡ finite.get self.old name.now }
        ensures left { self.new ≡ finite.remove self.old name.now }
    {
        take_from(&mut self.items, name)
    }

    /// The stores with their names, in order. It takes no memory.
    pub fn into_vec(self) -> Vec<(Text, StoreVersion<T>)>
        ensures { with_values store_alone result.items ≡ finite.entries self }
    {
        self.items
    }
}
