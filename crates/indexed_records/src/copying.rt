// Copies of the tables.
ghost use Rattle.std.specs.Prelude.{◌≡◌, [], map, IfOk, OnOk};

use clone_values::{Key, Value, copy_value};
use idb_base::NoMemory;
use index_tables::{IndexTable, Tables};
use sorted_table::OrderedTable;
use std::alloc::Global;

/// A table of equal records.
pub(crate) fn copied_records<T: Tables>(
    alloc: Global,
    records: &T::Records,
) -> Result<T::Records, NoMemory>
    ensures { IfOk result (λ copies. T.Records.entries copies ≡ T.Records.entries records.now) }
{
    let mut copies = T::records(alloc);
    copy_all(alloc, records, &mut copies)?;
    Ok(copies)
}

/// Puts a copy of each record of the one table into the other, which has none.
fn copy_all<R: OrderedTable<Key, Value>>(
    alloc: Global,
    records: &R,
    copies: &mut R,
) -> Result<(), NoMemory>
    requires { R.entries copies.old ≡ [] }
    ensures { OnOk result (R.entries copies.new ≡ R.entries records.now) }
{
    copies.reserve(records.len())?;
    for place in 0..records.len() {
        if let Some((key, value)) = records.nth(place) {
            let key = key.copy(alloc)?;
            let value = copy_value(alloc, value)?;
            copies.insert(key, value);
        }
    }
    Ok(())
}

/// Tables of equal rows.
pub(crate) fn copied_tables<T: Tables>(
    alloc: Global,
    tables: &Vec<IndexTable<T>>,
) -> Result<Vec<IndexTable<T>>, NoMemory>
    ensures { IfOk result (λ copies. map (λ t. t.rows) copies.items
        ≡ map (λ t. t.rows) tables.now.items) }
{
    let mut copies = Vec::new(alloc);
    for table in tables {
        copies.push(table.copy(alloc)?)?;
    }
    Ok(copies)
}
