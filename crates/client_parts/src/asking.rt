// The opens and deletes that statements ask.
ghost use Rattle.std.specs.Prelude.{◌≡◌, IfOk};
ghost use Rattle.client_parts.specs.Asking.{asking_in};

use crate::kept_opens::KeptOpen;
use crate::wishes::version_wanted;
use idb_base::NoMemory;
use name_queues::Wants;
use script_runs::Env;
use script_statements::Stmt;
use std::alloc::Global;

/// An open or a delete, and what it wants.
#[derive(Drop)]
pub struct Asking {
    pub wants: Wants,
    pub kept: KeptOpen,
}

/// The open or the delete that a statement asks; `None` of the other statements.
pub fn asking_in(alloc: Global, env: &Env, statement: &Stmt) -> Result<Option<Asking>, NoMemory>
    ensures { IfOk result (λ asking. asking ≡ asking_in env.now statement.now) }
{
    match statement {
        Stmt::Open {
            db,
            version,
            upgrade,
            blocked,
            success,
            error,
            version_change,
            closed,
        } => {
            let wants = version_wanted(alloc, env, version)?;
            let name = db.copy(alloc)?;
            let env = env.copy()?;
            Ok(Some(Asking {
                wants,
                kept: KeptOpen {
                    name,
                    is_delete: false,
                    upgrade: *upgrade,
                    blocked: *blocked,
                    success: *success,
                    error: *error,
                    version_change: *version_change,
                    closed: *closed,
                    env,
                    is_given: false,
                },
            }))
        }
        Stmt::DeleteDatabase {
            db,
            blocked,
            success,
            error,
        } => {
            let name = db.copy(alloc)?;
            let env = env.copy()?;
            Ok(Some(Asking {
                wants: Wants::Delete,
                kept: KeptOpen {
                    name,
                    is_delete: true,
                    upgrade: None,
                    blocked: *blocked,
                    success: *success,
                    error: *error,
                    version_change: None,
                    closed: None,
                    env,
                    is_given: false,
                },
            }))
        }
        _ => Ok(None),
    }
}
