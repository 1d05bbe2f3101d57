// A client runs its tasks, and takes its events.
ghost use Rattle.std.specs.Prelude.{◌≡◌, ◌<◌, ℕ, not, ◌&&◌, true, length, [], is_some, Option, IfOk, OnOk};
ghost use Rattle.idb_desk.specs.Steps.{IsDeskRun, desk_run, event_for};
ghost use Rattle.idb_desk.specs.Refusals.{has_some};
ghost use Rattle.session_states.specs.Telling.{RunningTx};
ghost use Rattle.office_scenes.specs.Steps.{Whether, StaysAsIs, RunsTaskInto, TakesEventInto};
ghost use Rattle.office_scenes.specs.Measures.{beyond_memory, left_to};
ghost use Rattle.office_moves.specs.Moving.{has_work};
ghost use Rattle.office_scenes.specs.Running.{HoldsTx};
ghost use Rattle.office_scenes.specs.Scenes.{KeepsOn, IsAtWork};
ghost use Rattle.office_moves.specs.Serving.{ServedInto};

use idb_base::NoMemory;
use idb_desk::{Desk, DeskStep};
use office_scenes::{Office, TakeError, fitting_laws, showing_laws, telling_laws};
use script_runs::Notes;
use session_states::step_laws;
use std::alloc::Global;

/// A desk is a run: each of its steps was allowed where it stands.
pub(crate) fn is_run(desk: &Desk)
    ensures { IsDeskRun desk.now }
{
    let _ = desk.can(&DeskStep::Faults);
}

/// The client runs its oldest task; whether it had one.
fn run_task(alloc: Global, office: &mut Office, notes: &mut Notes) -> Result<bool, NoMemory>
    ensures one { IfOk result (λ ran. ran ≡ has_some office.old.client.tasks) }
    ensures ran { IfOk result (λ ran. Whether ran
        (RunsTaskInto office.old notes.old office.new notes.new)
        (StaysAsIs office.old notes.old office.new notes.new)) }
    ensures keeps { OnOk result (KeepsOn office.old notes.old office.new notes.new) }
    ensures holds { (number : ℕ) → HoldsTx office.old number → OnOk result (HoldsTx office.new number) }
    ensures less { IfOk result (λ ran. ran ≡ true
        → left_to office.new.client notes.new < left_to office.old.client notes.old) }
{
    step_laws();
    fitting_laws();
    showing_laws();
    telling_laws();
    let ran = office.run_task(alloc, notes)?;
    is_run(office.desk());
    Ok(ran)
}

/// The client runs its tasks until it has none.
pub(crate) fn run_tasks(
    alloc: Global,
    office: &mut Office,
    notes: &mut Notes,
) -> Result<(), NoMemory>
    ensures keeps { OnOk result (KeepsOn office.old notes.old office.new notes.new) }
    ensures holds { (number : ℕ) → HoldsTx office.old number → OnOk result (HoldsTx office.new number) }
    ensures idle { OnOk result (office.new.client.tasks ≡ []) }
{
    'tasks: loop {
        let ran = run_task(alloc, office, notes)?;
        if !ran {
            return Ok(());
        }
    }
}

/// What stands in memory has a length that is a `usize`.
fn are_few(notes: &Notes)
    ensures { length notes.now < beyond_memory }
{
    let _ = notes.len();
}

/// The client takes its oldest event and meets it, where it has no task; whether it did.
fn take_event(alloc: Global, office: &mut Office, notes: &mut Notes) -> Result<bool, NoMemory>
    requires at { (running : Option RunningTx) × IsAtWork running office.old notes.old }
    ensures one { IfOk result (λ took. took ≡ (not (has_some office.old.client.tasks)
        && is_some (event_for (desk_run office.old.run) office.old.client.number))) }
    ensures took { IfOk result (λ took. Whether took
        (TakesEventInto office.old notes.old office.new notes.new)
        (StaysAsIs office.old notes.old office.new notes.new)) }
    ensures keeps { OnOk result (KeepsOn office.old notes.old office.new notes.new) }
    ensures less { IfOk result (λ took. took ≡ true
        → left_to office.new.client notes.new < left_to office.old.client notes.old) }
{
    step_laws();
    fitting_laws();
    showing_laws();
    telling_laws();
    match office.take_event(alloc, notes) {
        Ok(took) => {
            is_run(office.desk());
            are_few(notes);
            Ok(took)
        }
        Err(TakeError::Stray) => unreachable!(),
        Err(TakeError::NoMemory) => Err(NoMemory),
    }
}

/// The client runs its oldest task, or where it has none takes its oldest event and meets it.
pub(crate) fn serve(alloc: Global, office: &mut Office, notes: &mut Notes) -> Result<(), NoMemory>
    requires at { (running : Option RunningTx) × IsAtWork running office.old notes.old }
    ensures served { OnOk result (ServedInto office.old notes.old office.new notes.new) }
    ensures keeps { OnOk result (KeepsOn office.old notes.old office.new notes.new) }
    ensures less { OnOk result (has_work (desk_run office.old.run) office.old.client ≡ true
        → left_to office.new.client notes.new < left_to office.old.client notes.old) }
{
    if run_task(alloc, office, notes)? {
        return Ok(());
    }
    take_event(alloc, office, notes)?;
    Ok(())
}
