// What a transaction begins with.
ghost use Rattle.std.specs.Prelude.{◌≡◌};
ghost use Rattle.request_lists.specs.Fronts.{new_front};
ghost use Rattle.request_lists.specs.Placing.{Becomes};
ghost use Rattle.client_seats.specs.FinishEntries.{Scripted};
ghost use Rattle.client_seats.specs.ClientSteps.{may_begin};
ghost use Rattle.client_parts.specs.Holding.{parts_seen};

use clone_values::{Text, Texts};
use idb_keys::{Durability, Mode};
use idb_schema::Schema;
use request_lists::{Phase, TxFront};
use script_handlers::ScriptHandler;
use std::marker::Model;

/// A transaction whose body has run: the front as the body left it, and what it was made with.
#[derive(Drop)]
pub struct BegunTx {
    mode: Mode,
    durability: Durability,
    schema: Schema,
    names: Texts,
    front: TxFront<ScriptHandler>,
    threw: bool,
}

impl Model for BegunTx {
    ghost use Rattle.request_lists.specs.Fronts.{new_front};
    ghost use Rattle.request_lists.specs.Placing.{Becomes};
    ghost use Rattle.client_parts.specs.Codes.{begun_code};
    ghost use Rattle.client_parts.specs.Begun.{BegunState, scripted_body};

    ghost Value = { BegunState };

    ghost coded = { begun_code };

    ghost view = { λ a. record {
      durability = a.durability;
      body = scripted_body a.mode a.schema a.names a.front a.threw;
    } };

    ghost invariant = { λ a. Becomes (new_front a.mode a.schema a.names) a.front };
}

/// The parts of such a transaction.
#[derive(Drop)]
pub struct BegunParts {
    pub mode: Mode,
    pub durability: Durability,
    /// The schema with which the front was made; of an upgrade it has the new version.
    pub schema: Schema,
    /// The names of its scope, each once; none of an upgrade.
    pub names: Texts,
    /// The front as the body left it: what runs it lets it rest first, or throw where the body threw.
    pub front: TxFront<ScriptHandler>,
    pub threw: bool,
}

impl BegunTx {
    /// A transaction whose front became by calls what it is.
    pub fn new(parts: BegunParts) -> BegunTx
        requires { Becomes (new_front parts.mode parts.schema parts.names) parts.front }
        ensures { result ≡ parts_seen parts }
    {
        BegunTx {
            mode: parts.mode,
            durability: parts.durability,
            schema: parts.schema,
            names: parts.names,
            front: parts.front,
            threw: parts.threw,
        }
    }

    /// Whether it may begin: its body didn't abort it.
    pub fn may_begin(&self) -> bool
        ensures { result ≡ may_begin (Scripted self.now.body) }
    {
        let is_finished = matches!(self.front.phase(), Phase::Committed | Phase::Aborted { .. });
        let is_upgrade = matches!(self.front.mode(), Mode::VersionChange);
        !is_finished && !(self.threw && is_upgrade)
    }

    /// Its parts, by move.
    pub fn into_parts(self) -> BegunParts
        ensures parts { self ≡ parts_seen result }
        ensures became { Becomes (new_front result.mode result.schema result.names) result.front }
    {
        BegunParts {
            mode: self.mode,
            durability: self.durability,
            schema: self.schema,
            names: self.names,
            front: self.front,
            threw: self.threw,
        }
    }
}

/// What a transaction begins with: its front, or the name of the database that it deletes.
#[derive(Drop)]
pub enum BegunBody {
    Scripted(BegunTx),
    Deletion(Text),
}
