// Transactions finish.
ghost use Rattle.std.specs.Prelude.{◌≡◌, [], true, false, drop, ◌++◌, List, Option, Some, None, ⊤, IfOk, OnOk, IfSome, IfNone};
ghost use Rattle.idb_desk.specs.Refusals.{is_allowed};
ghost use Rattle.idb_desk.specs.Steps.{desk_run, with_step};
ghost use Rattle.desk_steps.specs.declared.steps.DeskStep.TheVariants as step;
ghost use Rattle.serial_order.specs.SerialRuns.{joined_lines};
ghost use Rattle.script_runs.specs.declared.notes.Note.{Note};
ghost use Rattle.client_machine.specs.ClientStates.{ClientState, ClientTx, tx_at, without_tx};
ghost use Rattle.client_machine.specs.ClientSteps.{end_line, end_block, end_env};
ghost use Rattle.client_parts.specs.Clients.{client_seen};
ghost use Rattle.client_parts.specs.Holding.{kind_seen};
ghost use Rattle.client_seats.specs.Seating.{IsSeated};
ghost use Rattle.client_tasks.specs.Steps.{Whether, StaysAsIs, EndsInto, FinishesInto, FinishesUnstartedInto, can_finish, can_drop};

use crate::offices::Office;
use client_parts::{
    HeldTx, TxKindHeld, end_block, end_env, end_line, is_started, take_out, take_posts, waits,
};
use clone_values::{Text, Value};
use idb_base::NoMemory;
use idb_calls::Outcome;
use idb_desk::{Desk, DeskStep};
use idb_schema::Schema;
use report_lines::Line;
use script_runs::{Env, Note, Notes};
use script_statements::BlockPlace;
use std::alloc::Global;

impl Office {
    /// The started transaction of this number came to this outcome: it finishes, where the client has no task and the desk takes that; its
    /// line, and then the block for it, which runs at once. A committed upgrade has the schema that it left.
    pub fn finish(
        &mut self,
        alloc: Global,
        number: u64,
        outcome: Outcome,
        kept: Option<Schema>,
        notes: &mut Notes,
    ) -> Result<bool, NoMemory>
        ensures one { IfOk result (λ done. done ≡ can_finish self.old number outcome kept) }
        ensures finished { IfOk result (λ done. Whether done
            (FinishesInto number outcome kept self.old notes.old self.new notes.new)
            (StaysAsIs self.old notes.old self.new notes.new)) }
    {
        if !self.parts.tasks.is_empty() || !is_started(&self.parts.txs, number) {
            return Ok(false);
        }
        let again = copy_kept(alloc, &kept)?;
        let step = DeskStep::Leaves {
            client: self.parts.number,
            number,
            outcome,
            kept,
        };
        if !self.desk.can(&step) {
            return Ok(false);
        }
        match self.desk.step(step, again) {
            Ok(_) => {}
            Err(_) => unreachable!(),
        }
        let Some(tx) = take_out(&mut self.parts.txs, number) else {
            unreachable!()
        };
        let (kind, _) = tx.into_parts();
        self.end_tx(alloc, kind, number, outcome, notes)?;
        Ok(true)
    }

    /// Takes a transaction out that hasn't started and will not, where the client has no task; `finish_unstarted` ends it.
    pub fn take_unstarted(&mut self, number: u64) -> Option<HeldTx>
        ensures found { IfSome result (λ tx. tx_at self.old.client number ≡ Some tx) }
        ensures waits { IfSome result (λ tx. tx.started ≡ false) }
        ensures idle { IfSome result (λ tx. self.old.client.tasks ≡ []) }
        ensures taken { IfSome result (λ tx. self.new
            ≡ record self.old { client = without_tx self.old.client number }) }
        ensures none { IfNone result (can_drop self.old number ≡ false) }
        ensures unchanged { IfNone result (self.new ≡ self.old) }
    {
        if !self.parts.tasks.is_empty() || !waits(&self.parts.txs, number) {
            return None;
        }
        take_out(&mut self.parts.txs, number)
    }

    /// A transaction that was taken out, of this kind, ends with this outcome, where the desk takes that. Its handlers were told, and wrote
    /// the notes from this place on.
    pub fn finish_unstarted(
        &mut self,
        alloc: Global,
        kind: TxKindHeld,
        number: u64,
        outcome: Outcome,
        notes: &mut Notes,
        from: usize,
    ) -> Result<bool, NoMemory>
        ensures one { IfOk result (λ done. done ≡ is_allowed (desk_run self.old.run)
            (step.Leaves self.old.client.number number outcome None)) }
        ensures finished { (c : ClientState) (tx : ClientTx) (turns : List (List Note)) (before : List Note)
            → c.tasks ≡ [] → tx_at c number ≡ Some tx → tx.started ≡ false → tx.kind ≡ kind_seen kind
            → self.old.client ≡ without_tx c number → joined_lines turns ≡ drop from notes.old
            → notes.old ≡ before ++ joined_lines turns → IfOk result (λ done. Whether done
            (FinishesUnstartedInto number turns outcome (record self.old { client = c }) before
            self.new notes.new)
            (StaysAsIs self.old notes.old self.new notes.new)) }
    {
        let step = DeskStep::Leaves {
            client: self.parts.number,
            number,
            outcome,
            kept: None,
        };
        if !self.desk.can(&step) {
            return Ok(false);
        }
        match self.desk.step(step, None) {
            Ok(_) => {}
            Err(_) => unreachable!(),
        }
        take_posts(&mut self.parts, notes, from)?;
        self.end_tx(alloc, kind, number, outcome, notes)?;
        Ok(true)
    }

    /// The host is faulted from now on, unless it was: nothing starts any more, and connections are told to close (the rules of
    /// this store on durability and faults). It takes no memory.
    pub fn fault(&mut self) -> bool
        ensures one { result ≡ is_allowed (desk_run self.old.run) step.Faults }
        ensures faulted { result ≡ true
            → self.new ≡ record self.old { run = with_step self.old.run step.Faults } }
        ensures unchanged { result ≡ false → self.new ≡ self.old }
    {
        if !self.desk.can(&DeskStep::Faults) {
            return false;
        }
        match self.desk.step(DeskStep::Faults, None) {
            Ok(_) => {}
            Err(_) => unreachable!(),
        }
        true
    }

    /// A transaction ends: its line, and then the block for it, which runs at once. A deletion tells that by the event of its request.
    fn end_tx(
        &mut self,
        alloc: Global,
        kind: TxKindHeld,
        number: u64,
        outcome: Outcome,
        notes: &mut Notes,
    ) -> Result<(), NoMemory>
        ensures { OnOk result (EndsInto number outcome (kind_seen kind) self.old notes.old
            self.new notes.new) }
    {
        match kind {
            TxKindHeld::Own {
                complete,
                abort,
                env,
            } => {
                let env = end_env(alloc, env, outcome)?;
                notes.push(Note::Line(end_line(number, outcome)))?;
                self.run_now(alloc, env, end_block(complete, abort, outcome), notes)?;
                Ok(())
            }
            TxKindHeld::Upgrade => {
                notes.push(Note::Line(end_line(number, outcome)))?;
                Ok(())
            }
            TxKindHeld::Deletion => Ok(()),
        }
    }
}

fn copy_kept(alloc: Global, kept: &Option<Schema>) -> Result<Option<Schema>, NoMemory>
    ensures { IfOk result (λ again. again ≡ kept.now) }
{
    match kept {
        Some(schema) => Ok(Some(schema.copy(alloc)?)),
        None => Ok(None),
    }
}
