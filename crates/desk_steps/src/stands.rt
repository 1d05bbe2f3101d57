// How a client's requests and transactions stand.
use clone_values::Text;
use name_queues::ConnId;

/// How an open or a delete stands with its client.
#[derive(Clone, Copy, Debug, PartialEq, Eq, Drop)]
pub enum Stand {
    /// It was asked; its client has no connection of it.
    Asked,
    /// Its upgrade drew a number and isn't finished; its client has the connection.
    Upgrading,
    /// Its client was given the connection that it made, and hasn't closed it; an upgrade that aborted or a fault may have.
    Given,
    /// Its client closed the connection.
    Shut,
}

/// An open or a delete that a client asked.
#[derive(Drop)]
pub struct DeskRequest {
    /// The database's name.
    pub name: Text,
    pub stand: Stand,
}

/// What a transaction that drew a number is.
#[derive(Clone, Copy, Debug, PartialEq, Eq, Drop)]
pub enum TxKind {
    /// A client created it on a connection.
    Plain,
    /// It upgrades its database to this version.
    Upgrade { version: u64 },
    /// It deletes its database.
    Deletion,
}

/// How far a transaction is.
#[derive(Clone, Copy, Debug, PartialEq, Eq, Drop)]
pub enum TxStage {
    Created,
    Started,
    Finished,
}

/// A transaction that drew a number.
#[derive(Clone, Copy, Debug, PartialEq, Eq, Drop)]
pub struct DrawnTx {
    /// The open whose connection it was created on, or whose upgrade it is; or the delete.
    pub who: ConnId,
    pub kind: TxKind,
    pub stage: TxStage,
}

/// The place of a database among those whose items have numbers.
#[derive(Drop)]
pub struct DeskPlace {
    pub name: Text,
    /// The database exists.
    pub exists: bool,
    /// How many of its transactions aren't finished.
    pub unfinished: u64,
}
