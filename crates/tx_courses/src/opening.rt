// The changes with which a transaction begins.
ghost use Rattle.std.specs.Prelude.{◌≡◌, IfOk};
ghost use Rattle.list_machine.specs.States.{opening_changes};

use idb_base::NoMemory;
use idb_calls::{Delta, Deltas};
use idb_keys::Mode;
use idb_schema::Schema;
use std::alloc::Global;

/// The changes with which a transaction of this mode begins: of an upgrade the version of its database, as the schema says; of others
/// none.
pub fn opening_changes(alloc: Global, mode: Mode, schema: &Schema) -> Result<Deltas, NoMemory>
    ensures { IfOk result (λ r. r ≡ opening_changes mode schema.now) }
{
    let mut changes = Deltas::new(alloc);
    match mode {
        Mode::ReadOnly => return Ok(changes),
        Mode::ReadWrite => return Ok(changes),
        Mode::VersionChange => {
            changes.push(Delta::Version {
                db: schema.name().copy(alloc)?,
                version: schema.version(),
            })?;
            return Ok(changes);
        }
    }
}
