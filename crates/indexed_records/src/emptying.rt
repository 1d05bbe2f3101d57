// The records and rows of a store that were taken out, with their tables.
ghost use Rattle.std.specs.Prelude.{◌≡◌};

use index_tables::{IndexTable, Tables};
use std::marker::Model;

/// All records and rows of a store that were taken out, so that they can be put back without memory.
#[derive(Drop)]
pub struct Emptied<T: Tables> {
    pub(crate) records: Box<T::Records>,
    pub(crate) tables: Vec<IndexTable<T>>,
    pub(crate) row_spare: usize,
}

impl<T: Tables> Model for Emptied<T> {
    ghost use Rattle.std.specs.Prelude.{map, ◌≤◌};
    ghost use Rattle.std.specs.List.{AllByRecursion};
    ghost use Rattle.std.specs.Coded.{codes};
    ghost use Rattle.store_contents.specs.Taken.{TakenRecords, taken_code};
    ghost use Rattle.store_contents.specs.View.{records_of};

    ghost Value = { TakenRecords };

    ghost coded = { taken_code };

    ghost view = { λ a. record {
      records = records_of (T.Records.entries a.records.value);
      rows = map (λ t. t.rows) a.tables.items;
      record_spare = T.Records.spare a.records.value;
      row_spare = a.row_spare;
    } };

    ghost invariant = { λ a. AllByRecursion (λ t. a.row_spare ≤ t.spare) a.tables.items };
}

/// The box, with this in it in place of what it had.
pub(crate) fn boxed<A: Drop>(room: Box<A>, item: A) -> Box<A>
    ensures { result.value ≡ item }
{
    let mut kept = room;
    *kept = item;
    kept
}
