// The handlers of requests that scripts place.
ghost use Rattle.std.specs.Prelude.{◌≡◌, ◌≢◌, ◌++◌, ◌∷◌, [], IfOk, OnOk};
ghost use Rattle.request_lists.specs.Fronts.{front_map};
ghost use Rattle.request_lists.specs.Placing.{Becomes};
ghost use Rattle.request_lists.specs.declared.handlers.HandlerEnd.TheVariants as end;
ghost use Rattle.script_runs.specs.declared.notes.Note.TheVariants as note;
ghost use Rattle.script_handlers.specs.Handling.{line_told, block_for, env_for};
ghost use Rattle.script_handlers.specs.Into.{HandledInto};
ghost use Rattle.script_handlers.specs.Seeing.{script_seen};

use crate::running::{end_of, run_on_front};
use clone_values::{Text, Value};
use idb_base::NoMemory;
use idb_calls::Event;
use report_lines::Line;
use request_lists::{Handler, HandlerEnd, TxFront};
use script_runs::{Env, Note, Notes};
use script_statements::{BlockPlace, Client};
use std::alloc::Global;
use std::sync::Arc;

/// The handler of a request: the blocks that its statement names, and the environment as it was when the statement ran. It writes
/// the line of each event, and then runs the block for it, if there is one.
#[derive(Drop)]
pub struct ScriptHandler {
    pub alloc: Global,
    /// The client whose script it is.
    pub client: Arc<Client, Global>,
    /// The number of its transaction.
    pub number: u64,
    pub success: Option<BlockPlace>,
    pub error: Option<BlockPlace>,
    /// Whether its request opens a cursor, which is then at hand where the request succeeds.
    pub opens: bool,
    pub env: Env,
}

impl ScriptHandler {
    // The line of the event.
    fn tell(&self, event: &Event, notes: &mut Notes) -> Result<(), NoMemory>
        ensures { OnOk result (notes.new
            ≡ notes.old ++ note.Line (line_told self.now.number event.now) ∷ []) }
    {
        let line = match event {
            Event::Success { request, result } => Line::RequestSuccess {
                number: self.number,
                request: *request,
                result: result.clone()?,
            },
            Event::Error { request, name } => Line::RequestError {
                number: self.number,
                request: *request,
                error: *name,
            },
        };
        notes.push(Note::Line(line))
    }

    // The block that the event runs.
    fn block_for(&self, event: &Event) -> Option<BlockPlace>
        ensures { result ≡ block_for (script_seen self.now) event.now }
    {
        match event {
            Event::Success { .. } => self.success,
            Event::Error { .. } => self.error,
        }
    }

    // The environment in which it runs.
    fn env_for(&self, event: &Event) -> Result<Env, NoMemory>
        ensures { IfOk result (λ env. env ≡ env_for (script_seen self.now) event.now) }
    {
        let mut env = self.env.copy()?;
        match event {
            Event::Success { request, result } => {
                env.set(Text::copy_of(self.alloc, "result")?, result.clone()?)?;
                if self.opens {
                    env.cursor = Some(*request);
                }
            }
            Event::Error { name, .. } => {
                let name = Text::copy_of(self.alloc, name.name())?;
                env.set(Text::copy_of(self.alloc, "error")?, Value::Text(name))?;
            }
        }
        Ok(env)
    }

    // Handles an event; where memory runs out the front is one that its calls can make.
    fn handle(
        &self,
        front: &mut TxFront<ScriptHandler>,
        event: &Event,
        notes: &mut Notes,
    ) -> Result<HandlerEnd, NoMemory>
        ensures handled { IfOk result (λ how. HandledInto (script_seen self.now)
            (front_map script_seen front.old) event.now notes.old (front_map script_seen front.new)
            how notes.new) }
        ensures becomes { Becomes front.old front.new }
        ensures whole { IfOk result (λ how. how ≢ end.NoMemory) }
    {
        self.tell(event, notes)?;
        let Some(block) = self.block_for(event) else {
            return Ok(HandlerEnd::Returned { prevented: false });
        };
        let env = self.env_for(event)?;
        let (end, prevented) = run_on_front(
            self.alloc,
            &self.client,
            self.number,
            block,
            env,
            front,
            notes,
        )?;
        Ok(end_of(end, event, prevented))
    }
}

impl Handler for ScriptHandler {
    type Notes = Notes;

    ghost use Rattle.script_handlers.specs.Codes.{script_code};
    ghost use Rattle.script_runs.specs.declared.notes.Note.{Note};
    ghost use Rattle.script_handlers.specs.Handling.{Script, ScriptReacts, ScriptWrites};
    ghost use Rattle.script_handlers.specs.Seeing.{script_seen};

    ghost Plain = { Script };

    ghost plain_code = { script_code };

    ghost plain = { script_seen };

    ghost reacts = { ScriptReacts };

    ghost Line = { Note };

    ghost lines = { λ notes. notes };

    ghost writes = { ScriptWrites };

    fn on_event(
        &mut self,
        front: &mut TxFront<ScriptHandler>,
        event: &Event,
        notes: &mut Notes,
    ) -> HandlerEnd {
        match self.handle(front, event, notes) {
            Ok(end) => end,
            Err(_) => HandlerEnd::NoMemory,
        }
    }
}
