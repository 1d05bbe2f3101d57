// A client runs its oldest task.
ghost use Rattle.std.specs.Prelude.{◌≡◌, IfOk};
ghost use Rattle.idb_desk.specs.Refusals.{has_some};
ghost use Rattle.client_tasks.specs.Steps.{Whether, StaysAsIs, RunsTaskInto};

use crate::offices::Office;
use idb_base::NoMemory;
use script_runs::Notes;
use std::alloc::Global;

impl Office {
    /// Runs the client's oldest task; whether it had one.
    pub fn run_task(&mut self, alloc: Global, notes: &mut Notes) -> Result<bool, NoMemory>
        ensures one { IfOk result (λ ran. ran ≡ has_some self.old.client.tasks) }
        ensures ran { IfOk result (λ ran. Whether ran (RunsTaskInto self.old notes.old self.new notes.new)
            (StaysAsIs self.old notes.old self.new notes.new)) }
    {
        let Some(task) = self.parts.tasks.pop_front() else {
            return Ok(false);
        };
        self.run_now(alloc, task.env, Some(task.block), notes)?;
        Ok(true)
    }
}
