// A desk with one of its clients.
ghost use Rattle.std.specs.Prelude.{◌≡◌};
ghost use Rattle.std.specs.Arc.{arc_value};
ghost use Rattle.client_seats.specs.Seating.{IsSeated};

use client_parts::{ClientParts, ScriptClient};
use idb_base::NoMemory;
use idb_desk::Desk;
use idb_keys::ErrorName;
use script_runs::{Env, Notes, World};
use script_statements::{Client, Stmt};
use std::alloc::Global;
use std::marker::Model;
use std::sync::Arc;
use task_statements::act;

/// The desk and a client of it, moved in, beside the script of the client.
#[derive(Drop)]
pub struct Office {
    pub(crate) desk: Desk,
    pub(crate) parts: ClientParts,
    pub(crate) script: Arc<Client, Global>,
}

impl Model for Office {
    ghost use Rattle.std.specs.Arc.{arc_value};
    ghost use Rattle.task_statements.specs.Offices.{OfficeState};
    ghost use Rattle.client_parts.specs.Clients.{client_seen};
    ghost use Rattle.client_seats.specs.Seating.{IsSeated};
    ghost use Rattle.client_tasks.specs.Codes.{office_code};

    ghost Value = { OfficeState };

    ghost coded = { office_code };

    ghost view = { λ a. record {
      blocks = (arc_value a.script).blocks;
      client = client_seen a.parts;
      run = a.desk;
    } };

    ghost invariant = { λ a. IsSeated (client_seen a.parts) a.desk };
}

impl Office {
    /// Moves the desk and a client of it in. It takes no memory.
    pub fn new(desk: Desk, client: ScriptClient, script: Arc<Client, Global>) -> Office
        requires { IsSeated client desk }
        ensures { result ≡ record { blocks = (arc_value script).blocks; client = client; run = desk } }
    {
        Office {
            desk,
            parts: client.into_parts(),
            script,
        }
    }

    /// Takes them apart. It takes no memory.
    pub fn into_parts(self) -> (Desk, ScriptClient)
        ensures desk { result.0 ≡ self.run }
        ensures client { result.1 ≡ self.client }
        ensures seated { IsSeated result.1 result.0 }
    {
        (self.desk, ScriptClient::of_parts(self.parts))
    }

    /// The desk.
    pub fn desk(&self) -> &Desk
        ensures { result.now ≡ self.now.run }
    {
        &self.desk
    }

    /// The number of the client.
    pub fn number(&self) -> u32
        ensures { result ≡ self.now.client.number }
    {
        self.parts.number
    }
}

impl World for Office {
    ghost use Rattle.std.specs.Prelude.{refl, ⊤};
    ghost use Rattle.client_machine.specs.Acts.{Act, Noted, notes_of_act};
    ghost use Rattle.task_statements.specs.Offices.{OfficeState};
    ghost use Rattle.task_statements.specs.Doing.{OfficeDoes};

    ghost Plain = { OfficeState };

    ghost plain = { λ w. w };

    ghost Out = { Act };

    ghost noted = { Noted };

    ghost shown = { notes_of_act };

    ghost does = { OfficeDoes };

    ghost moves = { λ v w. ⊤ };

    ghost shows = { λ n. refl };

    ghost stays = { λ w. tt };

    ghost onwards = { λ v w x a b. tt };

    fn act(
        &mut self,
        alloc: Global,
        _client: &Client,
        env: &Env,
        statement: &Stmt,
        notes: &mut Notes,
    ) -> Result<Option<ErrorName>, NoMemory> {
        act(
            alloc,
            &mut self.desk,
            &mut self.parts,
            &self.script,
            env,
            statement,
            notes,
        )
    }
}
