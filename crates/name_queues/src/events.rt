// What a client is told of its opens, deletes and connections.
ghost use Rattle.std.specs.Prelude.{◌≡◌};
ghost use Rattle.name_queues.specs.Mails.{conn_of, is_change, is_change_of};

use crate::ids::ConnId;
use idb_keys::ErrorName;

/// An event of a client, by the open or delete that it belongs to.
#[derive(Clone, Copy, Debug, PartialEq, Eq, Drop)]
pub enum ClientEvent {
    /// The open made a connection, and its upgrade begins (Indexed Database API 3.0, "upgrade a database").
    Upgrade {
        conn: ConnId,
        old: u64,
        new: u64,
    },
    /// The open or delete waits for connections that aren't closed. The new version is `None` for a deletion.
    Blocked {
        conn: ConnId,
        old: u64,
        new: Option<u64>,
    },
    /// The open succeeded, with this version; or the delete, with the version that was there.
    Success {
        conn: ConnId,
        version: u64,
    },
    /// The open or delete failed.
    Error {
        conn: ConnId,
        name: ErrorName,
    },
    /// Another version, or a deletion (`None`), is asked for: the connection may close.
    VersionChange {
        conn: ConnId,
        old: u64,
        new: Option<u64>,
    },
    /// The connection was closed without being asked to.
    Closed {
        conn: ConnId,
    },
    /// All connections are closed: the deletion may run.
    DeleteReady {
        conn: ConnId,
        old: u64,
    },
}

impl ClientEvent {
    /// The open or delete that it belongs to; its client gets the event.
    pub fn conn(&self) -> ConnId
        ensures { result ≡ conn_of self.now }
    {
        match self {
            ClientEvent::Upgrade { conn, .. }
            | ClientEvent::Blocked { conn, .. }
            | ClientEvent::Success { conn, .. }
            | ClientEvent::Error { conn, .. }
            | ClientEvent::VersionChange { conn, .. }
            | ClientEvent::Closed { conn }
            | ClientEvent::DeleteReady { conn, .. } => *conn,
        }
    }

    /// It is a versionchange event.
    pub fn is_change(&self) -> bool
        ensures { result ≡ is_change self.now }
    {
        matches!(self, ClientEvent::VersionChange { .. })
    }

    /// It is the versionchange event of this connection.
    pub fn is_change_of(&self, who: ConnId) -> bool
        ensures { result ≡ is_change_of who self.now }
    {
        self.is_change() && self.conn() == who
    }
}
