// Opens and deletes that aren't answered (Indexed Database API 3.0, "connection queue").
use crate::ids::ConnId;

/// What is asked for.
#[derive(Clone, Copy, Drop)]
pub enum Wants {
    /// A connection; without a version, the current one or 1.
    Open { version: Option<u64> },
    /// The deletion of the database.
    Delete,
}

/// An open or a delete.
#[derive(Clone, Copy, Drop)]
pub struct Ask {
    pub who: ConnId,
    pub wants: Wants,
}

/// How far the request at the front of a queue is.
#[derive(Clone, Copy, Drop)]
pub enum Stage {
    /// Nothing was done for it.
    Fresh,
    /// The connections were told of the change that it asks for.
    Told,
    /// These events were handled: it waits until all connections are closed.
    Waits,
}
