// Blocks that run at once as tasks.
ghost use Rattle.std.specs.Prelude.{◌≡◌, OnOk};
ghost use Rattle.client_tasks.specs.Between.{RunsNowInto};

use crate::offices::Office;
use client_parts::take_posts;
use idb_base::NoMemory;
use script_runs::{At, Env, Notes, enter};
use script_statements::BlockPlace;
use std::alloc::Global;

impl Office {
    /// Runs a block of the client at once as a task, where there is one; its posts come behind the tasks. Where memory runs out, the
    /// session has come to its end: the desk is still a run, and the client belongs to it.
    pub fn run_now(
        &mut self,
        alloc: Global,
        env: Env,
        block: Option<BlockPlace>,
        notes: &mut Notes,
    ) -> Result<(), NoMemory>
        ensures { OnOk result (RunsNowInto self.old env block notes.old self.new notes.new) }
    {
        let Some(block) = block else {
            return Ok(());
        };
        let from = notes.len();
        let script = self.script.clone()?;
        let mut at = At { env, count: 0 };
        enter(alloc, self, &script, 0, block, &mut at, notes)?;
        take_posts(&mut self.parts, notes, from)?;
        Ok(())
    }
}
