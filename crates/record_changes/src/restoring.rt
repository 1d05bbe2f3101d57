// Indexes that were kept aside come back.
ghost use Rattle.std.specs.Prelude.{◌≡◌, ℕ, ◌+◌, ◌<◌, true, false, Some, option_map, IfOk, OnOk, IsErrOf};
ghost use Rattle.std.specs.FinMap as finite;
ghost use Rattle.log_history.specs.Replayed.{are_unbroken};
ghost use Rattle.record_changes.specs.Loosened.{meant, aside_of, HasBrokenStore};

use crate::error::RecordError;
use crate::loosening::set_indexes_at;
use clone_values::Text;
use idb_base::NoMemory;
use idb_databases::{Database, Databases, Versions};
use index_tables::Tables;
use object_stores::StoreVersion;
use std::alloc::Global;

/// Takes the last store out.
fn take_last<T: Tables>(
    alloc: Global,
    stores: &mut Versions<T>,
) -> Result<StoreVersion<T>, NoMemory>
    requires { 0 < finite.len stores.old }
    ensures there { IfOk result (λ s. finite.get stores.old s.store.info.name ≡ Some s.store) }
    ensures left { IfOk result (λ s. stores.new ≡ finite.remove stores.old s.store.info.name) }
    ensures count { OnOk result (finite.len stores.new + 1 ≡ finite.len stores.old) }
{
    let last = stores.len() - 1;
    let name = match stores.at(last) {
        Some(store) => store.info().name.copy(alloc)?,
        None => unreachable!(),
    };
    match stores.remove(&name) {
        Some(store) => Ok(store),
        None => unreachable!(),
    }
}

/// Gives the last of the stores of this database of which indexes are kept aside these again. After an error the databases may lack some.
fn restore_one<T: Tables>(
    alloc: Global,
    items: &mut Databases<T>,
    db: &Text,
    aside: &mut Versions<T>,
) -> Result<(), RecordError>
    requires { 0 < finite.len aside.old }
    ensures made { OnOk result (meant items.new (aside_of db.now aside.new)
        ≡ meant items.old (aside_of db.now aside.old)) }
    ensures damaged { IsErrOf result RecordError.Damaged
        → HasBrokenStore db.now (meant items.old (aside_of db.now aside.old)) }
    ensures count { OnOk result (finite.len aside.new + 1 ≡ finite.len aside.old) }
{
    let kept = take_last(alloc, aside)?;
    let info = kept.info();
    match set_indexes_at(alloc, items, db, &info.name, &info.indexes) {
        Ok(()) => Ok(()),
        Err(e) => Err(e),
    }
}

/// Gives each store of this database of which indexes are kept aside these again.
fn restore_stores<T: Tables>(
    alloc: Global,
    items: &mut Databases<T>,
    db: &Text,
    aside: Versions<T>,
) -> Result<(), RecordError>
    ensures made { OnOk result (items.new ≡ meant items.old (aside_of db.now aside)) }
    ensures damaged { IsErrOf result RecordError.Damaged
        → HasBrokenStore db.now (meant items.old (aside_of db.now aside)) }
{
    let mut aside = aside;
    while aside.len() > 0 {
        match restore_one(alloc, items, db, &mut aside) {
            Ok(()) => {}
            Err(e) => return Err(e),
        }
    }
    Ok(())
}

/// Takes out the name of the last database, and what is kept aside of its stores.
fn take_last_database<T: Tables>(
    alloc: Global,
    aside: &mut Databases<T>,
) -> Result<(Text, Versions<T>), NoMemory>
    requires { 0 < finite.len aside.old }
    ensures there { IfOk result (λ last.
        option_map (λ d. d.stores) (finite.get aside.old last.0) ≡ Some last.1) }
    ensures left { IfOk result (λ last. aside.new ≡ finite.remove aside.old last.0) }
    ensures count { OnOk result (finite.len aside.new + 1 ≡ finite.len aside.old) }
{
    let last = aside.len() - 1;
    let name = match aside.at(last) {
        Some(database) => database.name.copy(alloc)?,
        None => unreachable!(),
    };
    match aside.remove(&name) {
        Some(database) => {
            let Database {
                name: _,
                version: _,
                stores,
            } = database;
            Ok((name, stores))
        }
        None => unreachable!(),
    }
}

/// Gives each store of the last database of which indexes are kept aside these again.
fn restore_last<T: Tables>(
    alloc: Global,
    items: &mut Databases<T>,
    aside: &mut Databases<T>,
) -> Result<(), RecordError>
    requires { 0 < finite.len aside.old }
    ensures made { OnOk result (meant items.new aside.new ≡ meant items.old aside.old) }
    ensures damaged { IsErrOf result RecordError.Damaged → are_unbroken (meant items.old aside.old) ≡ false }
    ensures count { OnOk result (finite.len aside.new + 1 ≡ finite.len aside.old) }
{
    let (db, stores) = take_last_database(alloc, aside)?;
    match restore_stores(alloc, items, &db, stores) {
        Ok(()) => Ok(()),
        Err(e) => Err(e),
    }
}

/// Gives each store of which indexes are kept aside these again. `Damaged` comes where a unique one would have two rows of one key. After
/// an error the databases may lack some.
pub(crate) fn restore<T: Tables>(
    alloc: Global,
    items: &mut Databases<T>,
    aside: Databases<T>,
) -> Result<(), RecordError>
    ensures made { OnOk result (items.new ≡ meant items.old aside) }
    ensures damaged { IsErrOf result RecordError.Damaged → are_unbroken (meant items.old aside) ≡ false }
{
    let mut aside = aside;
    while aside.len() > 0 {
        match restore_last(alloc, items, &mut aside) {
            Ok(()) => {}
            Err(e) => return Err(e),
        }
    }
    Ok(())
}
