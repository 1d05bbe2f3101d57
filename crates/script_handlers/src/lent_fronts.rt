// A front that is lent to a run.
ghost use Rattle.std.specs.Prelude.{◌≡◌, IfOk};
ghost use Rattle.request_lists.specs.Placing.{Becomes};
ghost use Rattle.request_lists.specs.declared.refusing.Refusal.TheVariants as why;
ghost use Rattle.script_handlers.specs.Asking.{IsAsk};
ghost use Rattle.script_handlers.specs.Handling.{did_of, handler_made};
ghost use Rattle.script_handlers.specs.Seeing.{script_seen, lent_seen};

use crate::asking::ask_of;
use crate::asks::Ask;
use crate::handlers::ScriptHandler;
use idb_base::NoMemory;
use idb_keys::ErrorName;
use request_lists::{Refusal, TxFront};
use script_runs::{Env, Note, Notes, World};
use script_statements::{BlockPlace, Client, Stmt};
use std::alloc::Global;
use std::sync::Arc;

/// The front, beside what its handlers are made of.
#[derive(Drop)]
pub struct LentFront {
    pub front: TxFront<ScriptHandler>,
    /// The client whose script it is.
    pub client: Arc<Client, Global>,
    /// The number of the transaction.
    pub number: u64,
    /// Whether the run prevented the default action of the event that it handles.
    pub prevented: bool,
}

impl LentFront {
    // The handler of a request that a statement of this environment places.
    fn handler(
        &self,
        alloc: Global,
        env: &Env,
        success: Option<BlockPlace>,
        error: Option<BlockPlace>,
        opens: bool,
    ) -> Result<ScriptHandler, NoMemory>
        ensures { IfOk result (λ h. script_seen h
            ≡ handler_made (lent_seen self.now) env.now success error opens) }
    {
        Ok(ScriptHandler {
            alloc,
            client: self.client.clone()?,
            number: self.number,
            success,
            error,
            opens,
            env: env.copy()?,
        })
    }

    // Does what was asked; the name where the front refuses it.
    fn fulfil(&mut self, alloc: Global, env: &Env, ask: Ask) -> Result<Option<ErrorName>, NoMemory>
        requires { IsAsk ask }
        ensures did { IfOk result (λ refusal. (lent_seen self.new, refusal)
            ≡ did_of (lent_seen self.old) env.now ask) }
        ensures moves { Becomes self.old.front self.new.front }
    {
        match ask {
            Ask::Places {
                call,
                success,
                error,
                opens,
            } => {
                let handler = self.handler(alloc, env, success, error, opens)?;
                match self.front.place(call, handler) {
                    Ok(_) => Ok(None),
                    Err(refused) => Ok(Some(name_of(refused.refusal)?)),
                }
            }
            Ask::Changes { call } => match self.front.schema(call) {
                Ok(()) => Ok(None),
                Err(refusal) => Ok(Some(name_of(refusal)?)),
            },
            Ask::Commits => match self.front.commit() {
                Ok(()) => Ok(None),
                Err(error) => Ok(Some(error)),
            },
            Ask::Aborts => match self.front.abort() {
                Ok(()) => Ok(None),
                Err(error) => Ok(Some(error)),
            },
            Ask::Prevents => {
                self.prevented = true;
                Ok(None)
            }
            Ask::Refused { error } => Ok(Some(error)),
        }
    }
}

// The name of a refusal that has one.
fn name_of(refusal: Refusal) -> Result<ErrorName, NoMemory>
    ensures { IfOk result (λ name. refusal ≡ why.Name name) }
{
    match refusal {
        Refusal::Name(name) => Ok(name),
        Refusal::NoMemory => Err(NoMemory),
    }
}

impl World for LentFront {
    ghost use Rattle.std.specs.Prelude.{refl};
    ghost use Rattle.request_lists.proofs.Laws.{becomes_again};
    ghost use Rattle.request_lists.specs.Placing.{Becomes, Stays};
    ghost use Rattle.script_runs.specs.declared.notes.Note.{Note};
    ghost use Rattle.script_handlers.specs.Handling.{Lent, FrontDoes, itself, alone};
    ghost use Rattle.script_handlers.specs.Seeing.{lent_seen};

    ghost Plain = { Lent };

    ghost plain = { lent_seen };

    ghost Out = { Note };

    ghost noted = { itself };

    ghost shown = { alone };

    ghost does = { FrontDoes };

    ghost moves = { λ v w. Becomes v.front w.front };

    ghost shows = { λ n. refl };

    ghost stays = { λ w. Stays };

    ghost onwards = { λ v w x a b. becomes_again v.front w.front x.front a b };

    fn act(
        &mut self,
        alloc: Global,
        client: &Client,
        env: &Env,
        statement: &Stmt,
        notes: &mut Notes,
    ) -> Result<Option<ErrorName>, NoMemory> {
        let ask = ask_of(alloc, &self.front, env, statement)?;
        self.fulfil(alloc, env, ask)
    }
}
