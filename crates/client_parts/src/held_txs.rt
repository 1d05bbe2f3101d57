// The transactions of a client.
ghost use Rattle.std.specs.Prelude.{◌≡◌, true, false, Option, Some, None, if◌then◌else◌};
ghost use Rattle.client_seats.specs.ClientStates.{ClientTx};
ghost use Rattle.client_parts.specs.Holding.{kind_seen, body_seen, begun_seen, started_tx};
ghost use Rattle.client_parts.specs.Standing.{may_start_of};

use crate::begun::{BegunBody, BegunTx};
use clone_values::Text;
use script_runs::Env;
use script_statements::BlockPlace;
use std::marker::Model;
use std::snapshot::Snapshot;

/// Whose a transaction is: one that a statement created has blocks for its own events.
#[derive(Drop)]
pub enum TxKindHeld {
    Own {
        complete: Option<BlockPlace>,
        abort: Option<BlockPlace>,
        env: Env,
    },
    Upgrade,
    Deletion,
}

/// A transaction that isn't finished. Until it starts it holds what it begins with; its model keeps that for good.
#[derive(Drop)]
pub struct HeldTx {
    number: u64,
    kind: TxKindHeld,
    body: Snapshot<BegunBody>,
    held: Option<BegunBody>,
    started: bool,
}

impl Model for HeldTx {
    ghost use Rattle.client_seats.specs.ClientStates.{ClientTx};
    ghost use Rattle.client_parts.specs.Codes.{tx_code};

    ghost Value = { ClientTx };

    ghost coded = { tx_code };

    ghost use Rattle.client_parts.specs.Holding.{kind_seen, body_seen, HoldsBody};

    ghost view = { λ a. record {
      number = a.number;
      kind = kind_seen a.kind;
      body = body_seen a.body.value;
      started = a.started;
    } };

    ghost invariant = { λ a. HoldsBody a.held a.body.value a.started };
}

impl HeldTx {
    /// A transaction that hasn't started. It takes no memory.
    pub fn new(number: u64, kind: TxKindHeld, body: BegunBody) -> HeldTx
        ensures { result ≡ record {
          number = number;
          kind = kind_seen kind;
          body = body_seen body;
          started = false;
        } }
    {
        HeldTx {
            number,
            kind,
            body: Snapshot::of(&body),
            held: Some(body),
            started: false,
        }
    }

    /// The number that it drew.
    pub fn number(&self) -> u64
        ensures { result ≡ self.now.number }
    {
        self.number
    }

    /// Whether it has started.
    pub fn is_started(&self) -> bool
        ensures { result ≡ self.now.started }
    {
        self.started
    }

    /// Whether it waits for its start and may begin: what its body aborted finishes without starting.
    pub fn can_start(&self) -> bool
        ensures { result ≡ may_start_of (Some self.now) }
    {
        match &self.held {
            Some(BegunBody::Scripted(begun)) => begun.may_begin(),
            Some(BegunBody::Deletion(_)) => true,
            None => false,
        }
    }

    /// What it begins with; it starts. `None` where it has started.
    pub fn start(&mut self) -> Option<BegunBody>
        ensures started { self.new ≡ started_tx self.old }
        ensures begun { begun_seen result ≡ (if self.old.started then None else Some self.old.body) }
    {
        self.started = true;
        self.held.take()
    }

    /// Whose it is, and what it begins with, unless it has started.
    pub fn into_parts(self) -> (TxKindHeld, Option<BegunBody>)
        ensures kind { kind_seen result.0 ≡ self.kind }
        ensures begun { begun_seen result.1 ≡ (if self.started then None else Some self.body) }
    {
        (self.kind, self.held)
    }
}
