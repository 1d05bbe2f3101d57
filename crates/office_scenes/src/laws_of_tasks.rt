// The laws of what is left to do.
ghost use Rattle.std.specs.Prelude.{◌<◌, List, length};
ghost use Rattle.script_runs.specs.declared.notes.Note.{Note};
ghost use Rattle.client_tasks.specs.Offices.{OfficeState};
ghost use Rattle.client_tasks.specs.Steps.{RunsTaskInto, TakesEventInto};
ghost use Rattle.office_scenes.specs.Measures.{beyond_memory, left_to};

/// A task that a client runs leaves it less to do, and so does an event that it takes, as long as its notes fit in memory.
pub fn task_laws()
    ensures ran { (old new : OfficeState) (before after : List Note) → RunsTaskInto old before new after
        → left_to new.client after < left_to old.client before }
    ensures taken { (old new : OfficeState) (before after : List Note) → TakesEventInto old before new after
        → length after < beyond_memory → left_to new.client after < left_to old.client before }
{}
