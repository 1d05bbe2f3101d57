// The lines of a report's opening.
ghost use Rattle.std.specs.Prelude.{◌≡◌, map, IfOk};
ghost use Rattle.std.specs.FinMap as finite;
ghost use Rattle.idb_databases.specs.Views.{database_entry};
ghost use Rattle.legal_sessions.specs.Legal.{has_of};

use idb_base::NoMemory;
use idb_databases::{Database, Databases};
use index_tables::Tables;
use report_lines::{Has, Opening};
use std::alloc::Global;

/// The line of each database, in the order of the names.
pub(crate) fn lines_of<T: Tables>(
    alloc: Global,
    databases: &Databases<T>,
) -> Result<Opening, NoMemory>
    ensures { IfOk result (λ lines. lines ≡ map has_of (finite.entries databases.now)) }
{
    let mut lines = Opening::new(alloc);
    for place in 0..databases.len() {
        match databases.at(place) {
            Some(database) => lines.push(line_of(alloc, database)?)?,
            None => unreachable!(),
        }
    }
    Ok(lines)
}

fn line_of<T: Tables>(alloc: Global, database: &Database<T>) -> Result<Has, NoMemory>
    ensures { IfOk result (λ has. has ≡ has_of (database_entry database.now)) }
{
    Ok(Has {
        name: database.name.copy(alloc)?,
        version: database.version,
    })
}
