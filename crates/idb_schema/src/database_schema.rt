// The schema of a database, and lists of schemas (Indexed Database API 3.0, "Database", "Object store" and "Index").
ghost use Rattle.std.specs.Prelude.{◌≡◌, ◌+◌, ◌<◌, ◌≤◌, [], ◌∷◌, ◌++◌, length, slice_get, None, Some, IfSome, IfNone, OnOk, OnErr, IfOk};
ghost use Rattle.std.specs.Option.{option_copied};
ghost use Rattle.idb_base.specs.Lists.{StandsAt};
ghost use Rattle.idb_schema.specs.Definitions.{store_named, index_named};
ghost use Rattle.idb_schema.specs.Schemas.{SchemaData, IsSchema, stores_of, indexes_at, NamesStore, NamesIndex, place_of, places_of, new_schema, with_store, without_store, with_index, without_index, with_version};

use crate::changes::{numbered, put_index, put_store, take_index, take_store};
use crate::definition_lists::{StoreInfos, index_place};
use crate::definitions::{IndexInfo, StoreInfo};
use crate::entries::StoreEntry;
use crate::identities::{IndexId, StoreId};
use crate::places::{index_id_in, place_in, place_in_store, place_of_number};
use clone_values::Text;
use idb_base::{Listed, NoMemory};
use std::alloc::Global;
use std::marker::Model;

/// The schema of one database.
#[derive(Debug, Drop)]
pub struct Schema {
    alloc: Global,
    name: Text,
    version: u64,
    entries: Vec<StoreEntry>,
    next_id: u64,
}

impl Model for Schema {
    ghost use Rattle.idb_schema.specs.Schemas.{SchemaData, AreEntries};

    ghost Value = { SchemaData };

    ghost view = { λ a. record {
      name = a.name;
      version = a.version;
      entries = a.entries.items;
      next_id = a.next_id;
    } };

    ghost invariant = { λ a. AreEntries a.entries.items a.next_id };
}

impl Schema {
    /// A schema of these stores; each store and each index gets an id.
    pub fn new(
        alloc: Global,
        name: Text,
        version: u64,
        stores: StoreInfos,
    ) -> Result<Schema, NoMemory>
        ensures { IfOk result (λ r. r ≡ new_schema name version stores) }
    {
        let entries = numbered(alloc, stores.into_vec())?;
        let next_id = entries.len() as u64;
        Ok(Schema {
            alloc,
            name,
            version,
            entries,
            next_id,
        })
    }

    /// The database's name.
    pub fn name(&self) -> &Text
        ensures { result.now ≡ self.now.name }
    {
        &self.name
    }

    /// The database's version.
    pub fn version(&self) -> u64
        ensures { result ≡ self.now.version }
    {
        self.version
    }

    /// Sets the version, as an upgrade does.
    pub fn set_version(&mut self, version: u64)
        ensures { self.new ≡ with_version self.old version }
    {
        self.version = version;
    }

    /// How many stores there are.
    pub fn len(&self) -> usize
        ensures count { result ≡ length (stores_of self.now) }
        ensures valid { IsSchema self.now }
    {
        self.entries.len()
    }

    /// The store at this place by name, counted from 0; `None` past the end.
    pub fn store(&self, place: usize) -> Option<&StoreInfo>
        ensures item { option_copied result ≡ slice_get (stores_of self.now) place }
        ensures stands { IfSome result (λ x. StandsAt (stores_of self.now) place x.now) }
        ensures past_end { IfNone result (length (stores_of self.now) ≤ place) }
    {
        match self.entries.get(place) {
            Some(entry) => Some(&entry.info),
            None => None,
        }
    }

    /// The place of the store of this name; `None` where there is none. It halves.
    pub fn store_place(&self, name: &Text) -> Option<usize>
        ensures value { result ≡ store_named (stores_of self.now) name.now }
        ensures in_range { IfSome result (λ place. place < length (stores_of self.now)) }
    {
        place_in(&self.entries, name.as_str()).ok()
    }

    /// The place of the index of this name among the indexes of the store at this place; `None` where there is none.
    pub fn index_place(&self, store: usize, name: &Text) -> Option<usize>
        ensures value { result ≡ index_named (indexes_at self.now store) name.now }
        ensures in_range { IfSome result (λ place. place < length (indexes_at self.now store)) }
    {
        match self.entries.get(store) {
            Some(entry) => index_place(&entry.info.indexes, name),
            None => None,
        }
    }

    /// What names the store at this place.
    pub fn store_id(&self, place: usize) -> StoreId
        requires { place < length (stores_of self.now) }
        ensures { NamesStore self.now result place }
    {
        StoreId {
            number: self.entries[place].id,
        }
    }

    /// What names the index at this place of the store at this place.
    pub fn index_id(&self, store: usize, place: usize) -> IndexId
        requires { place < length (indexes_at self.now store) }
        ensures { NamesIndex self.now result store place }
    {
        index_id_in(&self.entries, self.next_id, store, place)
    }

    /// The place of the store that the id names; `None` where that store is deleted.
    pub fn place_of(&self, id: StoreId) -> Option<usize>
        ensures value { result ≡ place_of self.now id }
        ensures in_range { IfSome result (λ place. place < length (stores_of self.now)) }
    {
        place_of_number(&self.entries, id.number)
    }

    /// The places of the store and of its index that the id names; `None` where one of them is deleted.
    pub fn places_of(&self, id: IndexId) -> Option<(usize, usize)>
        ensures value { result ≡ places_of self.now id }
        ensures in_range { IfSome result (λ places. places.1 < length (indexes_at self.now places.0)) }
        ensures store_in_range { IfSome result (λ places. places.0 < length (stores_of self.now)) }
    {
        match self.place_of(id.store) {
            Some(store) => match place_in_store(&self.entries, self.next_id, store, id.number) {
                Some(place) => Some((store, place)),
                None => None,
            },
            None => None,
        }
    }

    /// Adds a store, whose name is new, in its place by name. Every other id goes on naming what it named. A schema that has
    /// had 2^64 - 1 stores answers `NoMemory`.
    pub fn add_store(&mut self, info: StoreInfo) -> Result<(), NoMemory>
        requires { store_named (stores_of self.old) info.name ≡ None }
        ensures added { OnOk result (self.new ≡ with_store self.old info) }
        ensures unchanged { OnErr result (self.new ≡ self.old) }
    {
        put_store(self.alloc, &mut self.entries, &mut self.next_id, info)
    }

    /// Deletes the store at this place, with its indexes. It takes no memory.
    pub fn drop_store(&mut self, place: usize)
        requires { place < length (stores_of self.old) }
        ensures { self.new ≡ without_store self.old place }
    {
        take_store(&mut self.entries, self.next_id, place);
    }

    /// Adds an index, whose name is new in the store, at the end of the indexes of the store at this place. A store that has
    /// had 2^64 - 1 indexes answers `NoMemory`.
    pub fn add_index(&mut self, store: usize, info: IndexInfo) -> Result<(), NoMemory>
        requires in_range { store < length (stores_of self.old) }
        requires new_name { index_named (indexes_at self.old store) info.name ≡ None }
        ensures added { OnOk result (self.new ≡ with_index self.old store info) }
        ensures unchanged { OnErr result (self.new ≡ self.old) }
    {
        put_index(&mut self.entries, self.next_id, store, info)
    }

    /// Deletes the index at this place of the store at this place. It takes no memory.
    pub fn drop_index(&mut self, store: usize, place: usize)
        requires { place < length (indexes_at self.old store) }
        ensures { self.new ≡ without_index self.old store place }
    {
        take_index(&mut self.entries, self.next_id, store, place);
    }

    /// An equal schema, ids included.
    pub fn copy(&self, alloc: Global) -> Result<Schema, NoMemory>
        ensures { IfOk result (λ r. r ≡ self.now) }
    {
        let name = self.name.copy(alloc)?;
        let mut entries = Vec::new(alloc);
        for entry in &self.entries {
            entries.push(entry.copy(alloc)?)?;
        }
        Ok(Schema {
            alloc,
            name,
            version: self.version,
            entries,
            next_id: self.next_id,
        })
    }
}

/// Schemas, one for each database.
pub type Schemas = Listed<Schema>;
