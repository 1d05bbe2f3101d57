// What a client of a session reports.
use clone_values::{Text, Value};
use idb_base::Listed;
use idb_keys::{Durability, ErrorName, Mode};

/// A line of a client: an event that it took, a call that was refused, or what it said.
///
/// An open or a delete is named by its number in its client, a transaction by the number that it drew, and a request by its
/// number in its transaction, all from 1.
#[derive(Drop)]
pub enum Line {
    /// The call that this statement makes was refused.
    Refused {
        op: Text,
        error: ErrorName,
    },
    /// The script said this value.
    Say {
        value: Value,
    },
    /// A handler threw, or came to a limit.
    Throw,

    // The events of an open (Indexed Database API 3.0, "The IDBOpenDBRequest interface"):
    /// The upgrade transaction of the open has this number.
    OpenUpgrade {
        request: u32,
        old_version: u64,
        new_version: u64,
        number: u64,
    },
    /// The open waits for connections that stay open.
    OpenBlocked {
        request: u32,
        old_version: u64,
        new_version: u64,
    },
    /// The open gave a connection to the database, which has this version.
    OpenSuccess {
        request: u32,
        version: u64,
    },
    /// The open failed.
    OpenError {
        request: u32,
        error: ErrorName,
    },

    // The events of a deletion:
    /// The deletion waits for connections that stay open.
    DeleteBlocked {
        request: u32,
        old_version: u64,
    },
    /// The deletion is the transaction of this number.
    DeleteTransaction {
        request: u32,
        number: u64,
    },
    /// The database is gone; its version was this one, or 0 where there was none.
    DeleteSuccess {
        request: u32,
        old_version: u64,
    },
    /// The deletion failed, and the database stands.
    DeleteError {
        request: u32,
        error: ErrorName,
    },

    // The events of a connection, which the open names that made it ("The IDBDatabase interface"):
    /// Another asks for this version, or for the deletion of the database where there is none.
    VersionChange {
        request: u32,
        old_version: u64,
        new_version: Option<u64>,
    },
    /// The host closed the connection.
    Closed {
        request: u32,
    },

    // The events of a transaction and its requests ("The IDBTransaction interface" and "The IDBRequest interface"):
    /// The transaction was created.
    Created {
        number: u64,
        mode: Mode,
        durability: Durability,
    },
    /// The request succeeded with this result.
    RequestSuccess {
        number: u64,
        request: u32,
        result: Value,
    },
    /// The request failed.
    RequestError {
        number: u64,
        request: u32,
        error: ErrorName,
    },
    /// The transaction committed.
    Complete {
        number: u64,
    },
    /// The transaction aborted. The error is `None` where the script itself aborted; a commit that met a fault of the disk is in
    /// doubt.
    Abort {
        number: u64,
        error: Option<ErrorName>,
        doubt: bool,
    },
}

/// The lines of one client, in the order in which they were printed.
pub type Lines = Listed<Line>;

/// The lines of each client, from client 1 on.
pub type ClientLines = Listed<Lines>;
