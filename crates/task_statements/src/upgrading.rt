// Upgrades begin.
ghost use Rattle.std.specs.Prelude.{◌≡◌, [], IfOk};
ghost use Rattle.std.specs.Arc.{arc_value};
ghost use Rattle.request_lists.specs.Fronts.{front_map};
ghost use Rattle.request_lists.specs.Placing.{Becomes};
ghost use Rattle.script_handlers.specs.Seeing.{script_seen};
ghost use Rattle.task_statements.specs.Upgrading.{UpgradeRunsInto, UpgradesInto};

use client_parts::{BegunBody, BegunParts, BegunTx, HeldTx, TxKindHeld, has_thrown};
use clone_values::Texts;
use idb_base::NoMemory;
use idb_keys::{Durability, Mode};
use idb_schema::Schema;
use request_lists::TxFront;
use script_handlers::{ScriptHandler, run_body};
use script_runs::{Env, Notes, RunEnd};
use script_statements::{BlockPlace, Client};
use std::alloc::Global;
use std::sync::Arc;

/// Runs the block of an upgrade on its new front. The schema has the new version.
pub fn begin_upgrade(
    alloc: Global,
    script: &Arc<Client, Global>,
    number: u64,
    schema: Schema,
    env: &Env,
    block: Option<BlockPlace>,
    notes: &mut Notes,
) -> Result<HeldTx, NoMemory>
    ensures { IfOk result (λ tx. UpgradesInto (arc_value script.now).blocks number schema env.now block
        notes.old tx notes.new) }
{
    let names = Texts::new(alloc);
    let mut front = TxFront::new(
        alloc,
        Mode::VersionChange,
        schema.copy(alloc)?,
        Texts::new(alloc),
    );
    let end = run_upgrade(alloc, script, number, block, env, &mut front, notes)?;
    let begun = BegunTx::new(BegunParts {
        mode: Mode::VersionChange,
        durability: Durability::Relaxed,
        schema,
        names,
        front,
        threw: has_thrown(end),
    });
    Ok(HeldTx::new(number, TxKindHeld::Upgrade, BegunBody::Scripted(begun)))
}

/// Runs the block, if there is one.
fn run_upgrade(
    alloc: Global,
    script: &Arc<Client, Global>,
    number: u64,
    block: Option<BlockPlace>,
    env: &Env,
    front: &mut TxFront<ScriptHandler>,
    notes: &mut Notes,
) -> Result<RunEnd, NoMemory>
    ensures runs { IfOk result (λ how. UpgradeRunsInto (arc_value script.now).blocks number env.now
        (front_map script_seen front.old) block notes.old (front_map script_seen front.new) how notes.new) }
    ensures becomes { Becomes front.old front.new }
{
    match block {
        Some(block) => run_body(alloc, script, number, block, env, front, notes),
        None => Ok(RunEnd::Went),
    }
}
