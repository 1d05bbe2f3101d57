// What a session begins on.
ghost use Rattle.std.specs.Prelude.{◌≡◌, true, map, IfOk};
ghost use Rattle.std.specs.FinMap as finite;
ghost use Rattle.idb_databases.specs.Items.{AreItems, is_within_limits};
ghost use Rattle.desk_facts.specs.Databases.{AreOpenable};
ghost use Rattle.legal_sessions.specs.Histories.{ShowsItems};
ghost use Rattle.legal_sessions.specs.Legal.{has_of};
ghost use Rattle.session_facts.specs.Fitting.{AreFew};

use crate::lines::lines_of;
use crate::schemas::schemas_of;
use idb_base::NoMemory;
use idb_databases::Databases;
use idb_schema::Schemas;
use index_tables::Tables;
use report_lines::Opening;
use session_databases::SessionDatabases;
use std::alloc::Global;

/// What a session begins on: its databases, their schemas as its desk is told them, and the lines of its report's opening, each in the
/// order of the bytes of their names.
#[derive(Drop)]
pub struct SessionOpening<T: Tables> {
    pub databases: SessionDatabases<T>,
    pub schemas: Schemas,
    pub lines: Opening,
}

/// The session begins on the databases that a log gave. Stores move, and none is copied.
pub fn open_databases<T: Tables>(
    alloc: Global,
    databases: Databases<T>,
) -> Result<SessionOpening<T>, NoMemory>
    requires within { is_within_limits databases ≡ true }
    ensures same { IfOk result (λ o. o.databases ≡ databases) }
    ensures shows { IfOk result (λ o. ShowsItems o.schemas databases) }
    ensures openable { IfOk result (λ o. AreOpenable o.schemas) }
    ensures few { IfOk result (λ o. AreFew o.schemas) }
    ensures lines { IfOk result (λ o. o.lines ≡ map has_of (finite.entries databases)) }
    ensures items { AreItems databases }
{
    let _count = databases.len();
    let schemas = schemas_of(alloc, &databases)?;
    let lines = lines_of(alloc, &databases)?;
    let databases = SessionDatabases::from_databases(alloc, databases)?;
    Ok(SessionOpening {
        databases,
        schemas,
        lines,
    })
}
