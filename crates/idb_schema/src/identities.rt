// What names a store or an index whatever happens to its name, and lists of such numbers.
ghost use Rattle.std.specs.Prelude.{◌≡◌, ◌==◌, position, IfOk};
ghost use Rattle.idb_schema.specs.Numbers.{numbers_below};

use idb_base::{Listed, NoMemory};
use std::alloc::Global;

/// One object store of a schema, for the life of a transaction.
#[derive(Clone, Copy, Debug, PartialEq, Eq)]
pub struct StoreId {
    pub(crate) number: u64,
}

/// One index of a schema, for the life of a transaction.
#[derive(Clone, Copy, Debug, PartialEq, Eq)]
pub struct IndexId {
    pub(crate) store: StoreId,
    pub(crate) number: u64,
}

/// The numbers of a store's indexes.
pub(crate) type Ids = Listed<u64>;

/// The numbers below this one, in order.
pub(crate) fn ids_below(alloc: Global, end: usize) -> Result<Ids, NoMemory>
    ensures { IfOk result (λ r. r ≡ numbers_below end) }
{
    let mut numbers = Vec::new(alloc);
    for number in 0..end {
        numbers.push(number as u64)?;
    }
    Ok(Ids::from_vec(numbers))
}

/// Where the number stands.
pub(crate) fn place_of_id(ids: &Ids, number: u64) -> Option<usize>
    ensures { result ≡ position (λ n. n == number) ids.now }
{
    ids.as_slice().iter().position(|n| *n == number)
}
