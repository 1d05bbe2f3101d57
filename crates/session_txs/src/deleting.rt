// A database is deleted.
ghost use Rattle.std.specs.Prelude.{◌≡◌, ◌∷◌, [], OnOk, IfOk};
ghost use Rattle.idb_calls.specs.Deltas.{DropDatabase};
ghost use Rattle.item_changes.specs.Effects.{applied_all};
ghost use Rattle.session_txs.specs.Running.{IsTraceOfDeletion, IsDeletionTrace, IsDroppedDeletion};

use clone_values::{Text, Texts};
use idb_base::NoMemory;
use idb_calls::{Delta, Deltas, Events, Outcome, TxTrace};
use idb_keys::{Durability, ErrorName, Mode};
use index_tables::Tables;
use session_databases::SessionDatabases;
use std::alloc::Global;

/// The database of this name goes, with its stores (Indexed Database API 3.0, "delete a database"); where there is none nothing is
/// done. After `NoMemory` nothing is said of the databases.
pub fn delete_database<T: Tables>(
    alloc: Global,
    databases: &mut SessionDatabases<T>,
    name: &Text,
) -> Result<(), NoMemory>
    ensures { OnOk result (databases.new ≡ applied_all databases.old (DropDatabase name.now ∷ [])) }
{
    let _part = databases.take(Mode::VersionChange, name, &Texts::new(alloc))?;
    Ok(())
}

/// What is told of a deletion that committed.
pub fn deletion_trace(alloc: Global, number: u64, name: Text) -> Result<TxTrace, NoMemory>
    ensures { IfOk result (λ trace. IsDeletionTrace number name trace) }
{
    let mut deltas = Deltas::new(alloc);
    deltas.push(Delta::DropDatabase { db: name })?;
    Ok(trace_of(alloc, number, deltas, Outcome::Committed))
}

/// What is told of a deletion that hasn't started and ends, since the host is faulted. It takes no memory.
pub fn dropped_deletion_trace(alloc: Global, number: u64) -> TxTrace
    ensures { IsDroppedDeletion number result }
{
    let outcome = Outcome::Aborted {
        error: Some(ErrorName::AbortError),
        doubt: false,
    };
    trace_of(alloc, number, Deltas::new(alloc), outcome)
}

/// What is told of a deletion.
fn trace_of(alloc: Global, number: u64, deltas: Deltas, outcome: Outcome) -> TxTrace
    ensures { IsTraceOfDeletion number deltas outcome result }
{
    TxTrace {
        number,
        mode: Mode::VersionChange,
        durability: Durability::Strict,
        deltas,
        lines: Events::new(alloc),
        outcome,
    }
}
