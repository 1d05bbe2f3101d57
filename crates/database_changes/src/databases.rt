// One change of the databases.
ghost use Rattle.std.specs.Prelude.{◌≡◌, true, false, [], Some, None, IfSome, IfNone, OnOk, IsErrOf};
ghost use Rattle.std.specs.FinMap as finite;
ghost use Rattle.idb_calls.specs.View.{delta_of};
ghost use Rattle.idb_calls.specs.Deltas.{Version, DropDatabase, CreateStore, DropStore};
ghost use Rattle.idb_schema.specs.Definitions.{IsStoreInfo};
ghost use Rattle.idb_databases.specs.Items.{IsVersionNumber};
ghost use Rattle.item_changes.specs.Effects.{applied, applies, effect_of};
ghost use Rattle.store_changes.specs.Making.{CanMake, breaks};
ghost use Rattle.database_changes.specs.StoreChanges.{CanApply, is_on_content, IsOf, HasNames, stores_find, stores_made, store_made, database_with, BreaksOne};

use crate::names::{is_on_content, names_of};
use crate::stores::{change_store, drop_from, has_store, put_new};
use clone_values::Text;
use idb_base::NoMemory;
use idb_calls::Delta;
use idb_databases::{Database, Databases, Versions};
use idb_schema::{IndexInfos, StoreInfo};
use index_tables::Tables;
use std::alloc::Global;
use store_changes::ChangeError;

/// Takes the version and the stores of the database of this name out; `None` where there is none, and the databases are as they
/// were.
#[tactic(auto, using(crate::proofs::Back::was_absent))]
fn take_database<T: Tables>(items: &mut Databases<T>, db: &Text) -> Option<(u64, Versions<T>)>
    ensures there { IfSome result (λ d. finite.get items.old db.now ≡ Some (database_with d.0 d.1)) }
    ensures version { IfSome result (λ d. IsVersionNumber d.0) }
    ensures left { IfSome result (λ d. items.new ≡ finite.remove items.old db.now) }
    ensures absent { IfNone result (finite.get items.old db.now ≡ None) }
    ensures same { IfNone result (items.new ≡ items.old) }
{
    let _sound = items.len();
    match items.remove(db) {
        None => None,
        Some(database) => {
            let Database {
                name: _,
                version,
                stores,
            } = database;
            Some((version, stores))
        }
    }
}

/// Puts a database under its name.
fn put_database<T: Tables>(
    items: &mut Databases<T>,
    db: Text,
    version: u64,
    stores: Versions<T>,
) -> Result<(), NoMemory>
    requires { IsVersionNumber version }
    ensures { OnOk result (items.new ≡ finite.insert items.old db (database_with version stores)) }
{
    items.insert(Database {
        name: db,
        version,
        stores,
    })
}

/// Changes what is in a store. After want of memory the databases may lack some.
fn change_content<T: Tables>(
    alloc: Global,
    items: &mut Databases<T>,
    change: Delta,
) -> Result<(), ChangeError>
    requires can { CanApply (delta_of change) }
    requires content { is_on_content (delta_of change) ≡ true }
    ensures made { OnOk result (items.new ≡ applied items.old (delta_of change)) }
    ensures found { OnOk result (applies items.old (delta_of change) ≡ true) }
    ensures missing { IsErrOf result ChangeError.Missing → applies items.old (delta_of change) ≡ false }
    ensures broken { IsErrOf result ChangeError.Constraint → BreaksOne items.old (delta_of change) }
    ensures unmissed { IsErrOf result ChangeError.Missing → items.new ≡ items.old }
    ensures unbroken { IsErrOf result ChangeError.Constraint → items.new ≡ items.old }
{
    match names_of(&change) {
        Ok((db, store)) => change_at(alloc, items, db, &store, change),
        Err(NoMemory) => {
            drop(change);
            Err(ChangeError::NoMemory)
        }
    }
}

/// Changes what is in the store of this name in the database of this name.
fn change_at<T: Tables>(
    alloc: Global,
    items: &mut Databases<T>,
    db: Text,
    store: &Text,
    change: Delta,
) -> Result<(), ChangeError>
    requires can { CanMake (delta_of change) }
    requires names { HasNames db store.now (delta_of change) }
    ensures made { OnOk result (items.new ≡ applied items.old (delta_of change)) }
    ensures found { OnOk result (applies items.old (delta_of change) ≡ true) }
    ensures missing { IsErrOf result ChangeError.Missing → applies items.old (delta_of change) ≡ false }
    ensures broken { IsErrOf result ChangeError.Constraint → BreaksOne items.old (delta_of change) }
    ensures unmissed { IsErrOf result ChangeError.Missing → items.new ≡ items.old }
    ensures unbroken { IsErrOf result ChangeError.Constraint → items.new ≡ items.old }
{
    match take_database(items, &db) {
        None => {
            drop(change);
            drop(db);
            Err(ChangeError::Missing)
        }
        Some((version, stores)) => {
            change_taken(alloc, items, db, version, stores, store, change)
        }
    }
}

/// Changes what is in a store of a database that was taken out, and puts the database back.
fn change_taken<T: Tables>(
    alloc: Global,
    items: &mut Databases<T>,
    db: Text,
    version: u64,
    stores: Versions<T>,
    store: &Text,
    change: Delta,
) -> Result<(), ChangeError>
    requires can { CanMake (delta_of change) }
    requires name { IsOf store.now (effect_of (delta_of change)) }
    requires version { IsVersionNumber version }
    ensures made { OnOk result (items.new ≡ finite.insert items.old db
        (database_with version (stores_made (effect_of (delta_of change)) stores))) }
    ensures found { OnOk result (stores_find (effect_of (delta_of change)) stores ≡ true) }
    ensures missing { IsErrOf result ChangeError.Missing
        → stores_find (effect_of (delta_of change)) stores ≡ false }
    ensures broken { IsErrOf result ChangeError.Constraint
        → breaks (store_made (effect_of (delta_of change)) stores) ≡ true }
    ensures unmissed { IsErrOf result ChangeError.Missing
        → items.new ≡ finite.insert items.old db (database_with version stores) }
    ensures unbroken { IsErrOf result ChangeError.Constraint
        → items.new ≡ finite.insert items.old db (database_with version stores) }
{
    let mut stores = stores;
    let said = change_store(alloc, &mut stores, store, change);
    put_database(items, db, version, stores)?;
    said
}

/// The database has this version; where there was none, it is new. After want of memory the databases may lack some.
#[tactic(auto, using(crate::proofs::Back::put_back, crate::proofs::Made::version_set, crate::proofs::Made::version_new))]
fn set_version<T: Tables>(
    alloc: Global,
    items: &mut Databases<T>,
    db: Text,
    version: u64,
) -> Result<(), ChangeError>
    requires { IsVersionNumber version }
    ensures made { OnOk result (items.new ≡ applied items.old (Version db version)) }
    ensures found { OnOk result (applies items.old (Version db version) ≡ true) }
    ensures missing { IsErrOf result ChangeError.Missing → applies items.old (Version db version) ≡ false }
    ensures kept { IsErrOf result ChangeError.Constraint → ⊥ }
    ensures unmissed { IsErrOf result ChangeError.Missing → items.new ≡ items.old }
{
    match take_database(items, &db) {
        None => {
            put_database(items, db, version, Versions::new(alloc))?;
            Ok(())
        }
        Some((old, stores)) => {
            if old < version {
                put_database(items, db, version, stores)?;
                return Ok(());
            }
            put_database(items, db, old, stores)?;
            Err(ChangeError::Missing)
        }
    }
}

/// The database goes.
fn drop_database<T: Tables>(items: &mut Databases<T>, db: &Text) -> Result<(), ChangeError>
    ensures made { OnOk result (items.new ≡ applied items.old (DropDatabase db.now)) }
    ensures found { OnOk result (applies items.old (DropDatabase db.now) ≡ true) }
    ensures missing { IsErrOf result ChangeError.Missing → applies items.old (DropDatabase db.now) ≡ false }
    ensures kept { IsErrOf result ChangeError.Constraint → ⊥ }
    ensures unmissed { IsErrOf result ChangeError.Missing → items.new ≡ items.old }
{
    match take_database(items, db) {
        None => Err(ChangeError::Missing),
        Some(database) => {
            drop(database);
            Ok(())
        }
    }
}

/// A new store. After want of memory the databases may lack some.
fn create_store<T: Tables>(
    alloc: Global,
    items: &mut Databases<T>,
    db: Text,
    info: StoreInfo,
) -> Result<(), ChangeError>
    requires sound { IsStoreInfo info }
    requires without { info.indexes ≡ [] }
    ensures made { OnOk result (items.new
        ≡ applied items.old (CreateStore db info.name info.path info.auto)) }
    ensures found { OnOk result (applies items.old (CreateStore db info.name info.path info.auto) ≡ true) }
    ensures missing { IsErrOf result ChangeError.Missing
        → applies items.old (CreateStore db info.name info.path info.auto) ≡ false }
    ensures kept { IsErrOf result ChangeError.Constraint → ⊥ }
    ensures unmissed { IsErrOf result ChangeError.Missing → items.new ≡ items.old }
{
    match take_database(items, &db) {
        None => {
            drop(info);
            drop(db);
            Err(ChangeError::Missing)
        }
        Some((version, stores)) => {
            let mut stores = stores;
            if has_store(&stores, &info.name) {
                drop(info);
                put_database(items, db, version, stores)?;
                return Err(ChangeError::Missing);
            }
            put_new(alloc, &mut stores, info)?;
            put_database(items, db, version, stores)?;
            Ok(())
        }
    }
}

/// The store goes. After want of memory the databases may lack some.
fn drop_store<T: Tables>(
    items: &mut Databases<T>,
    db: Text,
    store: &Text,
) -> Result<(), ChangeError>
    ensures made { OnOk result (items.new ≡ applied items.old (DropStore db store.now)) }
    ensures found { OnOk result (applies items.old (DropStore db store.now) ≡ true) }
    ensures missing { IsErrOf result ChangeError.Missing
        → applies items.old (DropStore db store.now) ≡ false }
    ensures kept { IsErrOf result ChangeError.Constraint → ⊥ }
    ensures unmissed { IsErrOf result ChangeError.Missing → items.new ≡ items.old }
{
    match take_database(items, &db) {
        None => Err(ChangeError::Missing),
        Some((version, stores)) => {
            let mut stores = stores;
            let was_there = drop_from(&mut stores, store);
            put_database(items, db, version, stores)?;
            if was_there {
                return Ok(());
            }
            Err(ChangeError::Missing)
        }
    }
}

/// Makes a change of the databases. A change that lacks what it names, and one after which a unique index would have two rows of
/// one key, leave them as they were; after want of memory they may lack some.
pub fn change_databases<T: Tables>(
    alloc: Global,
    items: &mut Databases<T>,
    change: Delta,
) -> Result<(), ChangeError>
    requires { CanApply (delta_of change) }
    ensures made { OnOk result (items.new ≡ applied items.old (delta_of change)) }
    ensures found { OnOk result (applies items.old (delta_of change) ≡ true) }
    ensures missing { IsErrOf result ChangeError.Missing → applies items.old (delta_of change) ≡ false }
    ensures broken { IsErrOf result ChangeError.Constraint → BreaksOne items.old (delta_of change) }
    ensures unmissed { IsErrOf result ChangeError.Missing → items.new ≡ items.old }
    ensures unbroken { IsErrOf result ChangeError.Constraint → items.new ≡ items.old }
{
    if is_on_content(&change) {
        return change_content(alloc, items, change);
    }
    match change {
        Delta::Version { db, version } => set_version(alloc, items, db, version),
        Delta::DropDatabase { db } => drop_database(items, &db),
        Delta::CreateStore {
            db,
            store,
            path,
            auto,
        } => create_store(
            alloc,
            items,
            db,
            StoreInfo {
                name: store,
                path,
                auto,
                indexes: IndexInfos::new(alloc),
            },
        ),
        Delta::DropStore { db, store } => drop_store(items, db, &store),
        Delta::CreateIndex {
            db: _db,
            store: _store,
            index: _index,
            path: _path,
            unique: _,
            multi: _,
        } => unreachable!(),
        Delta::DropIndex {
            db: _db,
            store: _store,
            index: _index,
        } => unreachable!(),
        Delta::Put {
            db: _db,
            store: _store,
            key: _key,
            value: _value,
        } => unreachable!(),
        Delta::Remove {
            db: _db,
            store: _store,
            key: _key,
        } => unreachable!(),
        Delta::Clear {
            db: _db,
            store: _store,
        } => unreachable!(),
        Delta::Current {
            db: _db,
            store: _store,
            current: _,
        } => unreachable!(),
    }
}
