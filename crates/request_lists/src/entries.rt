// What a front is made of: its phase, its cursors, and the entries of its list.
use idb_calls::{Call, Target};
use idb_cursors::Cursor;
use idb_keys::ErrorName;
use idb_schema::SchemaCall;

/// Where a transaction is in its life (Indexed Database API 3.0, "transaction lifetime", "state").
#[derive(Clone, Copy, Debug, PartialEq, Eq)]
pub enum Phase {
    /// Requests may be placed.
    Active,
    Inactive,
    /// `commit` was called: nothing more can be placed.
    Committing,
    Committed,
    /// The error is `None` where the script itself aborted.
    Aborted { error: Option<ErrorName> },
}

/// A cursor of a transaction, named by the number of the request that opened it.
#[derive(Drop)]
pub struct FrontCursor<H> {
    pub request: u32,
    /// What it goes over.
    pub target: Target,
    /// Its direction, its range and its place. Where an index stood is as it was when the cursor was opened; `target` names it.
    pub cursor: Cursor,
    /// A member was found and no continuation asked for since ("got value flag").
    pub got: bool,
    /// The handler of its request; `None` while that handler is called.
    pub handler: Option<H>,
}

/// What waits in the list of a transaction.
#[derive(Drop)]
pub enum ListEntry<H> {
    /// A request with its own handler.
    Request {
        request: u32,
        call: Call,
        handler: H,
    },
    /// The request of a cursor, which was opened or goes on; its handler stands with the cursor.
    Turn {
        cursor: u32,
        call: Call,
    },
    /// A call of an upgrade, which has no number and no event.
    Change {
        call: SchemaCall,
    },
}
