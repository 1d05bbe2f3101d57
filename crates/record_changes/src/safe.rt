// Changes that no unique index can stand against.
ghost use Rattle.std.specs.Prelude.{◌≡◌, true, false, IfOk};
ghost use Rattle.idb_calls.specs.View.{delta_of};
ghost use Rattle.item_changes.specs.Effects.{applied, applies};
ghost use Rattle.database_changes.specs.StoreChanges.{CanApply};
ghost use Rattle.record_changes.specs.Loosened.{CannotBreak};

use database_changes::change_databases;
use idb_base::NoMemory;
use idb_calls::Delta;
use idb_databases::Databases;
use index_tables::Tables;
use std::alloc::Global;
use store_changes::ChangeError;

/// Makes a change after which no unique index can have two rows of one key, and tells whether it found what it names; if not, the
/// databases are as they were. After want of memory they may lack some.
pub(crate) fn change_safely<T: Tables>(
    alloc: Global,
    items: &mut Databases<T>,
    change: Delta,
) -> Result<bool, NoMemory>
    requires can { CanApply (delta_of change) }
    requires safe { CannotBreak items.old (delta_of change) }
    ensures found { IfOk result (λ found. found ≡ applies items.old (delta_of change)) }
    ensures made { IfOk result (λ found. found ≡ true → items.new ≡ applied items.old (delta_of change)) }
    ensures same { IfOk result (λ found. found ≡ false → items.new ≡ items.old) }
{
    let _sound = items.len();
    match change_databases(alloc, items, change) {
        Ok(()) => Ok(true),
        Err(ChangeError::Missing) => Ok(false),
        Err(ChangeError::Constraint) => unreachable!(),
        Err(ChangeError::NoMemory) => Err(NoMemory),
    }
}
