// Which changes are on the content of a store, and of which.
ghost use Rattle.std.specs.Prelude.{◌≡◌, true, IfOk};
ghost use Rattle.idb_calls.specs.View.{delta_of};
ghost use Rattle.database_changes.specs.StoreChanges.{is_on_content, HasNames};

use clone_values::Text;
use idb_base::NoMemory;
use idb_calls::Delta;

/// Whether the change is on what is in a store that is there.
pub(crate) fn is_on_content(change: &Delta) -> bool
    ensures { result ≡ is_on_content (delta_of change.now) }
{
    match change {
        Delta::Version { db: _, version: _ } => false,
        Delta::DropDatabase { db: _ } => false,
        Delta::CreateStore {
            db: _,
            store: _,
            path: _,
            auto: _,
        } => false,
        Delta::DropStore { db: _, store: _ } => false,
        _ => true,
    }
}

/// The names of the database and of the store; they share what the change holds.
pub(crate) fn names_of(change: &Delta) -> Result<(Text, Text), NoMemory>
    requires { is_on_content (delta_of change.now) ≡ true }
    ensures { IfOk result (λ names. HasNames names.0 names.1 (delta_of change.now)) }
{
    match change {
        Delta::CreateIndex {
            db,
            store,
            index: _,
            path: _,
            unique: _,
            multi: _,
        } => Ok((db.clone()?, store.clone()?)),
        Delta::DropIndex {
            db,
            store,
            index: _,
        } => Ok((db.clone()?, store.clone()?)),
        Delta::Put {
            db,
            store,
            key: _,
            value: _,
        } => Ok((db.clone()?, store.clone()?)),
        Delta::Remove { db, store, key: _ } => Ok((db.clone()?, store.clone()?)),
        Delta::Clear { db, store } => Ok((db.clone()?, store.clone()?)),
        Delta::Current {
            db,
            store,
            current: _,
        } => Ok((db.clone()?, store.clone()?)),
        Delta::Version { db: _, version: _ } => unreachable!(),
        Delta::DropDatabase { db: _ } => unreachable!(),
        Delta::CreateStore {
            db: _,
            store: _,
            path: _,
            auto: _,
        } => unreachable!(),
        Delta::DropStore { db: _, store: _ } => unreachable!(),
    }
}
