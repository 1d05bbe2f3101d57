// A store that a transaction holds.
ghost use Rattle.std.specs.Prelude.{◌≡◌, IfOk, OnOk};
ghost use Rattle.live_stores.specs.Holding.{held_store, held_before, IsOwn, IsCopyOf, HasNoPast};

use idb_base::NoMemory;
use index_tables::Tables;
use object_stores::StoreVersion;
use std::mem::replace;
use std::sync::Arc;

/// A store that a transaction holds.
#[derive(Drop)]
pub enum Held<T: Tables> {
    /// Its own.
    Own(StoreVersion<T>),
    /// One that others read too. It is copied before it is changed.
    Shared(Arc<StoreVersion<T>>),
}

impl<T: Tables> Held<T> {
    /// The store as it is.
    pub fn store(&self) -> &StoreVersion<T>
        ensures { result.now.store ≡ held_store self.now }
    {
        match self {
            Held::Own(store) => store,
            Held::Shared(store) => store,
        }
    }
}

/// Copies a store that others read too.
pub(crate) fn make_own<T: Tables>(held: &mut Held<T>) -> Result<(), NoMemory>
    ensures own { OnOk result (IsOwn held.new) }
    ensures store { held_store held.new ≡ held_store held.old }
    ensures before { held_before held.new ≡ held_before held.old }
{
    match copy_shared(held)? {
        Some(copy) => drop(replace(held, Held::Own(copy))),
        None => {}
    }
    Ok(())
}

/// A copy, where others read the store too; `None` of a store of its own.
fn copy_shared<T: Tables>(held: &Held<T>) -> Result<Option<StoreVersion<T>>, NoMemory>
    ensures { IfOk result (IsCopyOf held.now) }
{
    match held {
        Held::Own(_) => Ok(None),
        Held::Shared(store) => Ok(Some(store.copy()?)),
    }
}

/// Gives the store back as it was when it was last settled. It takes no memory.
pub(crate) fn undo<T: Tables>(held: &mut Held<T>)
    ensures store { held_store held.new ≡ held_before held.old }
    ensures before { held_before held.new ≡ held_before held.old }
{
    match held {
        Held::Own(store) => store.undo_all(),
        Held::Shared(_) => {}
    }
}

/// Forgets what could be undone. It takes no memory.
pub(crate) fn settle<T: Tables>(held: &mut Held<T>)
    ensures store { held_store held.new ≡ held_store held.old }
    ensures settled { HasNoPast held.new }
{
    match held {
        Held::Own(store) => store.settle(),
        Held::Shared(_) => {}
    }
}
