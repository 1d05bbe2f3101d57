// Databases by name.
ghost use Rattle.std.specs.Prelude.{◌≡◌, slice_get, option_map, OnOk, OnErr};
ghost use Rattle.std.specs.Option.{option_copied};
ghost use Rattle.std.specs.FinMap as finite;
ghost use Rattle.std.specs.List.{list_all};
ghost use Rattle.idb_databases.specs.Items.{IsVersionNumber, AreItems, fits_stores, is_within_limits};
ghost use Rattle.idb_databases.specs.Named.{with_values};
ghost use Rattle.idb_databases.specs.Views.{database_alone, database_entry};

use crate::limits::{GREATEST_DATABASE_COUNT, GREATEST_STORE_COUNT};
use crate::named::{find_in, nth_in, put_in, take_from};
use crate::versions::Versions;
use clone_values::Text;
use idb_base::NoMemory;
use index_tables::Tables;
use std::alloc::Global;
use std::marker::Model;

/// A database (Indexed Database API 3.0, "database"): its name, its version and its stores.
#[derive(Drop)]
pub struct Database<T: Tables> {
    pub name: Text,
    pub version: u64,
    pub stores: Versions<T>,
}

/// Databases in the order of their names' bytes. Contracts see the items, a finite map by name; each has a version from 1 to
/// the greatest, and stores as the standard asks.
#[derive(Drop)]
pub struct Databases<T: Tables> {
    items: Vec<(Text, Database<T>)>,
}

impl<T: Tables> Model for Databases<T> {
    ghost use Rattle.std.specs.Coded.{codes};
    ghost use Rattle.std.specs.FinMap as finite;
    ghost use Rattle.indexed_records.specs.Contents.{records_code};
    ghost use Rattle.item_changes.specs.Items.{Items};
    ghost use Rattle.idb_databases.specs.Named.{names_code};
    ghost use Rattle.idb_databases.specs.Items.{database_code};

    ghost Value = { Items };

    ghost coded = { finite.code names_code (database_code (Prim.hlevel (codes, records_code))) };

    ghost use Rattle.idb_databases.specs.Views.{items_seen, AreDatabases};

    ghost view = { λ a. items_seen a.items.items };

    ghost invariant = { λ a. AreDatabases a.items.items };
}

impl<T: Tables> Databases<T> {
    /// No databases; it takes no memory.
    pub fn new(alloc: Global) -> Self
        ensures { result ≡ finite.empty }
    {
        Databases {
            items: Vec::new(alloc),
        }
    }

    /// How many databases there are. With it comes that each is as the standard asks.
    pub fn len(&self) -> usize
        ensures count { result ≡ finite.len self.now }
        ensures sound { AreItems self.now }
    {
        self.items.len()
    }

    /// The database at this place by name, counted from 0; `None` past the end.
    pub fn at(&self, place: usize) -> Option<&Database<T>>
        ensures { option_map database_entry (option_copied result)
            ≡ slice_get (finite.entries self.now) place }
    {
        nth_in(&self.items, place)
    }

    /// The database of this name, found by halving; `None` where there is none.
    pub fn find(&self, name: &Text) -> Option<&Database<T>>
        ensures { option_map database_alone (option_copied result) ≡ finite.get self.now name.now }
    {
        find_in(&self.items, name)
    }

    /// Puts a database under its name, where it takes the place of another.
    pub fn insert(&mut self, database: Database<T>) -> Result<(), NoMemory>
        requires { IsVersionNumber database.version }
        ensures inserted { OnOk result (self.new
            ≡ finite.insert self.old database.name (database_alone database)) }
        ensures unchanged { OnErr result (self.new ≡ self.old) }
    {
        let _stores = database.stores.len();
        let name = database.name.clone()?;
        put_in(&mut self.items, name, database)?;
        Ok(())
    }

    /// Takes the database of this name out; `None` where there is none. It takes no memory.
    pub fn remove(&mut self, name: &Text) -> Option<Database<T>>
        ensures taken { option_map database_alone result ≡ finite.get self.old name.now }
        ensures left { self.new ≡ finite.remove self.old name.now }
    {
        take_from(&mut self.items, name)
    }

    /// Whether there are at most 16 databases, and at most 63 stores in each. It takes no memory.
    pub fn are_within_limits(&self) -> bool
        ensures { result ≡ is_within_limits self.now }
    {
        self.items.len() <= GREATEST_DATABASE_COUNT && stores_fit(&self.items)
    }

    /// The databases with their names, in order. It takes no memory.
    pub fn into_vec(self) -> Vec<(Text, Database<T>)>
        ensures { with_values database_alone result.items ≡ finite.entries self }
    {
        self.items
    }
}

/// Whether each database has at most 63 stores.
fn stores_fit<T: Tables>(items: &[(Text, Database<T>)]) -> bool
    ensures { result ≡ list_all (λ e. fits_stores (database_alone e.1)) items.now }
{
    for entry in items {
        if entry.1.stores.len() > GREATEST_STORE_COUNT {
            return false;
        }
    }
    true
}
