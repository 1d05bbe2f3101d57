// Changes of the indexes of a store, where it may be loosened.
ghost use Rattle.std.specs.Prelude.{◌≡◌, true, false, is_some, IfOk, OnOk, IsErrOf};
ghost use Rattle.idb_calls.specs.View.{delta_of};
ghost use Rattle.idb_calls.specs.Deltas.{CreateIndex, DropIndex};
ghost use Rattle.item_changes.specs.Items.{store_at};
ghost use Rattle.item_changes.specs.Effects.{applied, applies};
ghost use Rattle.idb_schema.specs.Definitions.{IsIndexInfo};
ghost use Rattle.record_changes.specs.Loosened.{meant, HasNoRecords};

use crate::changes::{change_here, change_kept, change_or_loosen};
use crate::error::RecordError;
use crate::finding::has_store;
use clone_values::Text;
use idb_base::NoMemory;
use idb_calls::Delta;
use idb_databases::Databases;
use idb_schema::IndexInfo;
use index_tables::Tables;
use std::alloc::Global;

/// The change that makes this index of the store of this name.
fn creation(alloc: Global, db: &Text, store: &Text, index: IndexInfo) -> Result<Delta, NoMemory>
    ensures { IfOk result (λ change. delta_of change
        ≡ CreateIndex db.now store.now index.name index.path index.unique index.multi) }
{
    let IndexInfo {
        name,
        path,
        unique,
        multi,
    } = index;
    Ok(Delta::CreateIndex {
        db: db.copy(alloc)?,
        store: store.copy(alloc)?,
        index: name,
        path,
        unique,
        multi,
    })
}

/// The same, for an equal index.
fn copied_creation(
    alloc: Global,
    db: &Text,
    store: &Text,
    index: &IndexInfo,
) -> Result<Delta, NoMemory>
    ensures { IfOk result (λ change. delta_of change
        ≡ CreateIndex db.now store.now index.now.name index.now.path index.now.unique index.now.multi) }
{
    creation(alloc, db, store, index.copy(alloc)?)
}

/// Makes an index of a store of which nothing is kept aside. It may be refused: then it is the last of those that are kept.
fn make_alone<T: Tables>(
    alloc: Global,
    items: &mut Databases<T>,
    aside: &mut Databases<T>,
    db: &Text,
    store: &Text,
    index: IndexInfo,
) -> Result<(), RecordError>
    requires sound { IsIndexInfo index }
    requires alone { is_some (store_at aside.old db.now store.now) ≡ false }
    requires blank { HasNoRecords aside.old }
    ensures made { OnOk result (meant items.new aside.new ≡ applied (meant items.old aside.old)
        (CreateIndex db.now store.now index.name index.path index.unique index.multi)) }
    ensures found { OnOk result (applies (meant items.old aside.old)
        (CreateIndex db.now store.now index.name index.path index.unique index.multi) ≡ true) }
    ensures damaged { IsErrOf result RecordError.Damaged → applies (meant items.old aside.old)
        (CreateIndex db.now store.now index.name index.path index.unique index.multi) ≡ false }
    ensures blank { OnOk result (HasNoRecords aside.new) }
{
    match try_index(alloc, items, aside, db, store, &index) {
        Ok(made) => {
            if made {
                return Ok(());
            }
            make_kept(alloc, items, aside, db, store, index)
        }
        Err(e) => Err(e),
    }
}

/// Tries an equal index. Where it would have two rows of one key, the store is loosened instead, and the answer is false.
fn try_index<T: Tables>(
    alloc: Global,
    items: &mut Databases<T>,
    aside: &mut Databases<T>,
    db: &Text,
    store: &Text,
    index: &IndexInfo,
) -> Result<bool, RecordError>
    requires sound { IsIndexInfo index.now }
    requires alone { is_some (store_at aside.old db.now store.now) ≡ false }
    ensures made { IfOk result (λ made. made ≡ true
        → meant items.new aside.new ≡ applied (meant items.old aside.old)
        (CreateIndex db.now store.now index.now.name index.now.path index.now.unique index.now.multi)) }
    ensures found { IfOk result (λ made. made ≡ true → applies (meant items.old aside.old)
        (CreateIndex db.now store.now index.now.name index.now.path index.now.unique index.now.multi) ≡ true) }
    ensures damaged { IsErrOf result RecordError.Damaged → applies (meant items.old aside.old)
        (CreateIndex db.now store.now index.now.name index.now.path index.now.unique index.now.multi) ≡ false }

    // Where it is loosened.
    ensures unmade { IfOk result (λ made. made ≡ false
        → meant items.new aside.new ≡ meant items.old aside.old) }
    ensures kept { IfOk result (λ made. made ≡ false → is_some (store_at items.new db.now store.now) ≡ true
        → is_some (store_at aside.new db.now store.now) ≡ true) }

    ensures blank { OnOk result (HasNoRecords aside.old → HasNoRecords aside.new) }
{
    let tried = copied_creation(alloc, db, store, index)?;
    change_or_loosen(alloc, items, aside, db, store, tried)
}

/// Makes an index of a store that is loosened, if it is there: it is the last of those that are kept.
fn make_kept<T: Tables>(
    alloc: Global,
    items: &Databases<T>,
    aside: &mut Databases<T>,
    db: &Text,
    store: &Text,
    index: IndexInfo,
) -> Result<(), RecordError>
    requires sound { IsIndexInfo index }
    requires kept { is_some (store_at items.now db.now store.now) ≡ true
        → is_some (store_at aside.old db.now store.now) ≡ true }
    requires blank { HasNoRecords aside.old }
    ensures made { OnOk result (meant items.now aside.new ≡ applied (meant items.now aside.old)
        (CreateIndex db.now store.now index.name index.path index.unique index.multi)) }
    ensures found { OnOk result (applies (meant items.now aside.old)
        (CreateIndex db.now store.now index.name index.path index.unique index.multi) ≡ true) }
    ensures damaged { IsErrOf result RecordError.Damaged → applies (meant items.now aside.old)
        (CreateIndex db.now store.now index.name index.path index.unique index.multi) ≡ false }
    ensures blank { OnOk result (HasNoRecords aside.new) }
{
    let change = creation(alloc, db, store, index)?;
    change_kept(alloc, items, aside, db, store, change)
}

/// Makes an index.
pub(crate) fn make_index<T: Tables>(
    alloc: Global,
    items: &mut Databases<T>,
    aside: &mut Databases<T>,
    db: &Text,
    store: &Text,
    index: IndexInfo,
) -> Result<(), RecordError>
    requires sound { IsIndexInfo index }
    requires blank { HasNoRecords aside.old }
    ensures made { OnOk result (meant items.new aside.new ≡ applied (meant items.old aside.old)
        (CreateIndex db.now store.now index.name index.path index.unique index.multi)) }
    ensures found { OnOk result (applies (meant items.old aside.old)
        (CreateIndex db.now store.now index.name index.path index.unique index.multi) ≡ true) }
    ensures damaged { IsErrOf result RecordError.Damaged → applies (meant items.old aside.old)
        (CreateIndex db.now store.now index.name index.path index.unique index.multi) ≡ false }
    ensures blank { OnOk result (HasNoRecords aside.new) }
{
    if !has_store(aside, db, store) {
        return make_alone(alloc, items, aside, db, store, index);
    }
    make_kept(alloc, items, aside, db, store, index)
}

/// Drops an index.
pub(crate) fn drop_index<T: Tables>(
    alloc: Global,
    items: &mut Databases<T>,
    aside: &mut Databases<T>,
    db: &Text,
    store: &Text,
    index: Text,
) -> Result<(), RecordError>
    requires { HasNoRecords aside.old }
    ensures made { OnOk result (meant items.new aside.new
        ≡ applied (meant items.old aside.old) (DropIndex db.now store.now index)) }
    ensures found { OnOk result
        (applies (meant items.old aside.old) (DropIndex db.now store.now index) ≡ true) }
    ensures damaged { IsErrOf result RecordError.Damaged
        → applies (meant items.old aside.old) (DropIndex db.now store.now index) ≡ false }
    ensures blank { OnOk result (HasNoRecords aside.new) }
{
    let kept = has_store(aside, db, store);
    let change = dropping(alloc, db, store, index)?;
    if kept {
        change_kept(alloc, items, aside, db, store, change)
    } else {
        change_here(alloc, items, aside, change)
    }
}

/// The change that drops the index of this name of the store of this name.
fn dropping(alloc: Global, db: &Text, store: &Text, index: Text) -> Result<Delta, NoMemory>
    ensures { IfOk result (λ change. delta_of change ≡ DropIndex db.now store.now index) }
{
    Ok(Delta::DropIndex {
        db: db.copy(alloc)?,
        store: store.copy(alloc)?,
        index,
    })
}
