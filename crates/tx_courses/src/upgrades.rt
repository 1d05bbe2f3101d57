// The stores of an upgrade, as they change. Each change is noted behind those before it.
ghost use Rattle.std.specs.Prelude.{◌≡◌, true, false, [], ◌∷◌, Some, option_map, OnOk, IfOk};
ghost use Rattle.idb_schema.specs.Definitions.{IsStoreInfo, IsIndexInfo};
ghost use Rattle.idb_schema.specs.Schemas.{store_of};
ghost use Rattle.idb_calls.specs.Deltas.{CreateStore, DropStore, CreateIndex, DropIndex};
ghost use Rattle.item_changes.specs.Effects.{new_store};
ghost use Rattle.path_grammar.specs.KeyPath.{is_key_path};
ghost use Rattle.version_upgrade.specs.Upgrades.{is_valid_path};
ghost use Rattle.request_lists.specs.Fronts.{is_store_deleted};
ghost use Rattle.list_machine.specs.Requests.{store_under};
ghost use Rattle.list_machine.specs.Entries.{is_broken_by};
ghost use Rattle.live_stores.specs.Live.{finds_in};
ghost use Rattle.tx_courses.specs.Courses.{restored, live_in};
ghost use Rattle.tx_courses.specs.Changes.{with_changes};

use crate::course::Course;
use clone_values::{PathSpec, Text};
use idb_base::NoMemory;
use idb_calls::Delta;
use idb_schema::{IndexInfo, StoreId};
use index_tables::Tables;
use object_stores::StoreError;
use path_grammar::KeyPath;
use std::alloc::Global;
use store_requests::StoreNames;

impl<T: Tables> Course<T> {
    /// `createObjectStore`: a store without records.
    pub(crate) fn create_store(
        &mut self,
        names: StoreNames,
        path: Option<KeyPath>,
        auto: bool,
    ) -> Result<(), NoMemory>
        requires free { finds_in
            (live_in self.old) (CreateStore names.database names.store path auto) ≡ true }
        requires sound { IsStoreInfo (new_store names.store path auto).info }
        ensures created { OnOk result (self.new
            ≡ with_changes self.old (CreateStore names.database names.store path auto ∷ [])) }
        ensures kept { restored self.new ≡ restored self.old }
    {
        let noted = copy_path(self.alloc, &path)?;
        self.stores.create_store(&names, path, auto)?;
        self.changes.push(Delta::CreateStore {
            db: names.database,
            store: names.store,
            path: noted,
            auto,
        })
    }

    /// `deleteObjectStore`: the store goes.
    pub(crate) fn drop_store(&mut self, names: StoreNames) -> Result<(), NoMemory>
        requires { finds_in (live_in self.old) (DropStore names.database names.store) ≡ true }
        ensures dropped { OnOk result (self.new
            ≡ with_changes self.old (DropStore names.database names.store ∷ [])) }
        ensures kept { restored self.new ≡ restored self.old }
    {
        self.stores.drop_store(&names);
        self.changes.push(Delta::DropStore {
            db: names.database,
            store: names.store,
        })
    }

    /// `createIndex`: the store has an index more; or the index is unique and two records would have one key in it, which is answered.
    pub(crate) fn create_index(
        &mut self,
        names: StoreNames,
        index: IndexInfo,
    ) -> Result<bool, NoMemory>
        requires free { finds_in (live_in self.old)
            (CreateIndex names.database names.store index.name index.path index.unique index.multi) ≡ true }
        requires sound { IsIndexInfo index }
        ensures broken { IfOk result (λ is_broken. is_broken
            ≡ is_broken_by index (store_under self.old.database names.store)) }
        ensures created { IfOk result (λ is_broken. is_broken ≡ false → self.new ≡ with_changes self.old
            (CreateIndex names.database names.store index.name index.path index.unique index.multi ∷ [])) }
        ensures kept { restored self.new ≡ restored self.old }
    {
        let noted = index.copy(self.alloc)?;
        match self.stores.create_index(&names, index) {
            Ok(()) => {}
            Err(StoreError::Constraint) => return Ok(true),
            Err(StoreError::NoMemory) => return Err(NoMemory),
        }
        self.changes.push(Delta::CreateIndex {
            db: names.database,
            store: names.store,
            index: noted.name,
            path: noted.path,
            unique: noted.unique,
            multi: noted.multi,
        })?;
        Ok(false)
    }

    /// `deleteIndex`: the index of this name goes.
    pub(crate) fn drop_index(&mut self, names: StoreNames, index: Text) -> Result<(), NoMemory>
        requires { finds_in (live_in self.old) (DropIndex names.database names.store index) ≡ true }
        ensures dropped { OnOk result (self.new
            ≡ with_changes self.old (DropIndex names.database names.store index ∷ [])) }
        ensures kept { restored self.new ≡ restored self.old }
    {
        self.stores.drop_index(&names, &index)?;
        self.changes.push(Delta::DropIndex {
            db: names.database,
            store: names.store,
            index,
        })
    }

    /// The names by which changes speak of the store of this name.
    pub(crate) fn names_of(&self, store: &Text) -> Result<StoreNames, NoMemory>
        ensures { IfOk result (λ r. r ≡ record { database = self.now.schema.name; store = store.now }) }
    {
        Ok(StoreNames {
            database: self.schema.name().copy(self.alloc)?,
            store: store.copy(self.alloc)?,
        })
    }

    /// The names by which changes speak of the store that the id names.
    #[tactic(auto, using(crate::proofs::Placed::store_at))]
    pub(crate) fn names_at(&self, id: StoreId) -> Result<StoreNames, NoMemory>
        requires { is_store_deleted self.now.schema id ≡ false }
        ensures database { IfOk result (λ r. r.database ≡ self.now.schema.name) }
        ensures store { IfOk result (λ r.
            option_map (λ info. info.name) (store_of self.now.schema id) ≡ Some r.store) }
    {
        let Some(place) = self.schema.place_of(id) else {
            unreachable!();
        };
        let Some(info) = self.schema.store(place) else {
            unreachable!();
        };
        Ok(StoreNames {
            database: self.schema.name().copy(self.alloc)?,
            store: info.name.copy(self.alloc)?,
        })
    }
}

/// The path that a specification reads as.
pub(crate) fn read(alloc: Global, spec: &PathSpec) -> Result<KeyPath, NoMemory>
    requires { is_key_path spec.now ≡ true }
    ensures { IfOk result (λ path. path ≡ spec.now) }
{
    match KeyPath::parse(spec.copy(alloc)?) {
        Ok(path) => Ok(path),
        Err(_) => unreachable!(),
    }
}

pub(crate) fn read_optional(
    alloc: Global,
    spec: &Option<PathSpec>,
) -> Result<Option<KeyPath>, NoMemory>
    requires { is_valid_path spec.now ≡ true }
    ensures { IfOk result (λ path. path ≡ spec.now) }
{
    match spec {
        Some(spec) => Ok(Some(read(alloc, spec)?)),
        None => Ok(None),
    }
}

/// An equal path, if there is one.
fn copy_path(alloc: Global, path: &Option<KeyPath>) -> Result<Option<KeyPath>, NoMemory>
    ensures { IfOk result (λ copy. copy ≡ path.now) }
{
    match path {
        Some(path) => Ok(Some(path.copy(alloc)?)),
        None => Ok(None),
    }
}
