// The steps of the desk, each with its arguments.
ghost use Rattle.std.specs.Prelude.{◌≡◌, IfOk};
ghost use Rattle.desk_steps.specs.Tokens.{client_of, token_of};

use clone_values::{Text, Texts};
use idb_calls::{Outcome, Token};
use idb_keys::{Durability, Mode};
use idb_schema::Schema;
use name_queues::{ConnId, Wants};

/// A step of the desk. An open or a delete is named by its client and its number there, a transaction by the number that it
/// drew.
#[derive(Drop)]
pub enum DeskStep {
    /// The client asks an open or a delete of this database.
    Asks {
        who: ConnId,
        name: Text,
        wants: Wants,
    },
    /// The client takes its oldest event; an upgrade or a deletion draws its number here.
    Takes {
        client: u32,
    },
    /// The client has handled a versionchange event, the oldest that it took and that isn't handled.
    Handles {
        client: u32,
    },
    /// The client closes the connection of this open.
    Closes {
        who: ConnId,
    },
    /// The client creates the transaction of this number on a connection, over these stores.
    Creates {
        number: u64,
        who: ConnId,
        scope: Texts,
        mode: Mode,
        durability: Durability,
    },
    /// The client starts its transaction of this number.
    Starts {
        client: u32,
        number: u64,
    },
    /// The client's transaction of this number is finished. A committed upgrade has the schema that it left.
    Leaves {
        client: u32,
        number: u64,
        outcome: Outcome,
        kept: Option<Schema>,
    },
    /// The host is faulted.
    Faults,
}

impl DeskStep {
    /// The client whose step it is; a fault is nobody's.
    pub fn client(&self) -> Option<u32>
        ensures { result ≡ client_of self.now }
    {
        match self {
            DeskStep::Asks { who, .. } | DeskStep::Closes { who } | DeskStep::Creates { who, .. } =>
                Some(who.client),
            DeskStep::Takes { client }
            | DeskStep::Handles { client }
            | DeskStep::Starts { client, .. }
            | DeskStep::Leaves { client, .. } => Some(*client),
            DeskStep::Faults => None,
        }
    }

    /// The step as a report lists it.
    pub fn token(&self) -> Token
        ensures { result ≡ token_of self.now }
    {
        match self {
            DeskStep::Asks { who, .. } => Token::Asked {
                client: who.client,
                request: who.request,
            },
            DeskStep::Takes { client } => Token::Took { client: *client },
            DeskStep::Handles { client } => Token::Handled { client: *client },
            DeskStep::Closes { who } => Token::Closed {
                client: who.client,
                request: who.request,
            },
            DeskStep::Creates { number, who, .. } => Token::Created {
                number: *number,
                client: who.client,
            },
            DeskStep::Starts { number, .. } => Token::Started { number: *number },
            DeskStep::Leaves { number, .. } => Token::Left { number: *number },
            DeskStep::Faults => Token::Faulted,
        }
    }
}
