// The steps of the desk that an order lists, and the requests that still wait at the end of a session.
use idb_base::Listed;

/// A step of the desk, as an order lists it. An open or a delete is named by its client and its number there, a transaction by
/// the number that it drew.
#[derive(Clone, Copy, Debug, PartialEq, Eq)]
pub enum Token {
    /// The client asked this open or delete.
    Asked { client: u32, request: u32 },
    /// The client took its oldest event.
    Took { client: u32 },
    /// The client has handled a versionchange.
    Handled { client: u32 },
    /// The client closed the connection of this open, which had no close pending.
    Closed { client: u32, request: u32 },
    /// The client created this transaction.
    Created { number: u64, client: u32 },
    Started { number: u64 },
    Left { number: u64 },
    /// The host is faulted.
    Faulted,
}

/// The steps of an order.
pub type Tokens = Listed<Token>;

/// An open or a delete that was never answered.
#[derive(Clone, Copy, Debug, PartialEq, Eq)]
pub struct Pending {
    pub client: u32,
    pub request: u32,
    /// It waits for a connection that isn't closed, named by the open that made it; else it stands behind another request.
    pub waits: bool,
    /// The client and the number of the open or the request that it waits for.
    pub of_client: u32,
    pub of_request: u32,
}

/// Opens and deletes that were never answered.
pub type PendingLines = Listed<Pending>;
