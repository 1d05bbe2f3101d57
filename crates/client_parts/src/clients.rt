// A client of a script.
ghost use Rattle.std.specs.Prelude.{◌≡◌, IfOk};
ghost use Rattle.client_seats.specs.ClientStates.{fresh_client};
ghost use Rattle.idb_desk.specs.Refusals.{has_some};
ghost use Rattle.client_parts.specs.Clients.{client_seen};

use crate::held_txs::HeldTx;
use crate::kept_opens::KeptOpen;
use idb_base::NoMemory;
use script_runs::{Env, Task};
use script_statements::BlockPlace;
use std::alloc::Global;
use std::collections::VecDeque;
use std::marker::Model;

/// What a client has. Its transactions stand by their numbers.
#[derive(Drop)]
pub struct ClientParts {
    pub number: u32,
    pub tasks: VecDeque<Task>,
    pub posts: u32,
    pub opens: Vec<KeptOpen>,
    pub txs: VecDeque<HeldTx>,
}

/// A client of a script: its tasks, how often it posted, its opens and deletes, and its transactions.
#[derive(Drop)]
pub struct ScriptClient {
    parts: ClientParts,
}

impl Model for ScriptClient {
    ghost use Rattle.client_seats.specs.ClientStates.{ClientState};
    ghost use Rattle.client_parts.specs.Codes.{client_code};

    ghost Value = { ClientState };

    ghost coded = { client_code };

    ghost use Rattle.client_parts.specs.Clients.{client_seen};

    ghost view = { λ a. client_seen a.parts };
}

impl ScriptClient {
    /// A client of this number; its first task is this block.
    pub fn new(alloc: Global, number: u32, main: BlockPlace) -> Result<ScriptClient, NoMemory>
        ensures { IfOk result (λ client. client ≡ fresh_client number main) }
    {
        let mut tasks = VecDeque::new(alloc);
        tasks.push_back(Task {
            block: main,
            env: Env::new(alloc),
        })?;
        Ok(ScriptClient {
            parts: ClientParts {
                number,
                tasks,
                posts: 0,
                opens: Vec::new(alloc),
                txs: VecDeque::new(alloc),
            },
        })
    }

    /// The client of these parts.
    pub fn of_parts(parts: ClientParts) -> ScriptClient
        ensures { result ≡ client_seen parts }
    {
        ScriptClient { parts }
    }

    /// Its parts, by move.
    pub fn into_parts(self) -> ClientParts
        ensures { client_seen result ≡ self }
    {
        self.parts
    }

    /// Its number.
    pub fn number(&self) -> u32
        ensures { result ≡ self.now.number }
    {
        self.parts.number
    }

    /// Whether it has a task.
    pub fn has_task(&self) -> bool
        ensures { result ≡ has_some self.now.tasks }
    {
        !self.parts.tasks.is_empty()
    }

    /// Whether it has a transaction.
    pub fn has_tx(&self) -> bool
        ensures { result ≡ has_some self.now.txs }
    {
        !self.parts.txs.is_empty()
    }
}
