// A transaction starts, and its turns.
ghost use Rattle.std.specs.Prelude.{◌≡◌, true, false, drop, IfOk, IfSome, IfNone};
ghost use Rattle.client_parts.specs.Holding.{body_seen};
ghost use Rattle.client_tasks.specs.Steps.{Whether, StaysAsIs, StartsInto, can_start, TurnInto, can_turn};

use crate::offices::Office;
use client_parts::{BegunBody, can_start, is_started, start, take_posts};
use idb_base::NoMemory;
use idb_desk::DeskStep;
use script_runs::Notes;

impl Office {
    /// Starts the transaction of this number and gives what it begins with, where the client has no task and the desk takes that. It takes
    /// no memory.
    pub fn start(&mut self, number: u64) -> Option<BegunBody>
        ensures started { IfSome result (λ body. StartsInto number self.old (body_seen body) self.new) }
        ensures refused { IfNone result (can_start self.old number ≡ false) }
        ensures unchanged { IfNone result (self.new ≡ self.old) }
    {
        let step = DeskStep::Starts {
            client: self.parts.number,
            number,
        };
        if !self.parts.tasks.is_empty()
            || !can_start(&self.parts.txs, number)
            || !self.desk.can(&step)
        {
            return None;
        }
        match self.desk.step(step, None) {
            Ok(_) => {}
            Err(_) => unreachable!(),
        }
        start(&mut self.parts.txs, number)
    }

    /// A turn of this started transaction was run, and its handlers wrote the notes from this place on: the posts among them stand behind
    /// the tasks. Whether the client had no task and has the transaction, which a turn wants.
    pub fn take_turn(&mut self, number: u64, notes: &Notes, from: usize) -> Result<bool, NoMemory>
        ensures one { IfOk result (λ ran. ran ≡ can_turn self.old number) }
        ensures ran { IfOk result (λ ran. Whether ran
            (TurnInto number self.old (drop from notes.now) self.new)
            (self.new ≡ self.old)) }
    {
        if !self.parts.tasks.is_empty() || !is_started(&self.parts.txs, number) {
            return Ok(false);
        }
        take_posts(&mut self.parts, notes, from)?;
        Ok(true)
    }
}
