// What a request of a transaction asks.
use clone_values::Value;
use idb_keys::Direction;
use idb_schema::{IndexId, StoreId};

/// Which keys a call asks for, as a script gives them (Indexed Database API 3.0, "convert a value to a key range").
#[derive(Drop)]
pub enum Query {
    /// Nothing was given.
    Absent,
    /// One value: a key, or one that stands for nothing.
    One(Value),
    /// A range by its bounds; each may be left out, and is open where its own key is left out.
    Range {
        lower: Option<Value>,
        upper: Option<Value>,
        lower_open: bool,
        upper_open: bool,
    },
}

/// What is read: a store, or one of its indexes.
#[derive(Clone, Copy, Debug, PartialEq, Eq)]
pub struct Target {
    pub store: StoreId,
    /// The index that is read; `None` where the store itself is.
    pub index: Option<IndexId>,
}

/// A request (Indexed Database API 3.0, "The IDBObjectStore interface", "The IDBIndex interface" and "The IDBCursor
/// interface"). A cursor is named by the number of the request that opened it.
#[derive(Drop)]
pub enum Call {
    /// `add`: stores a new record; the key is given or not.
    Add {
        store: StoreId,
        value: Value,
        key: Option<Value>,
    },
    /// `put`: stores a record, in place of the one that has its key.
    Put {
        store: StoreId,
        value: Value,
        key: Option<Value>,
    },
    /// `get`: the value of the first record in range.
    Get {
        target: Target,
        query: Query,
    },
    /// `getKey`: its key.
    GetKey {
        target: Target,
        query: Query,
    },
    /// `count`: how many are in range.
    Count {
        target: Target,
        query: Query,
    },
    /// `getAll`: the values in range, the first `count` of them where it is given and not 0. A count that is no whole number is
    /// handed on as -1, which is outside every range.
    GetAll {
        target: Target,
        query: Query,
        count: Option<i64>,
    },
    /// `getAllKeys`: their primary keys.
    GetAllKeys {
        target: Target,
        query: Query,
        count: Option<i64>,
    },
    /// `delete`: the records in range go.
    Delete {
        store: StoreId,
        query: Query,
    },
    /// `clear`: all records go.
    Clear {
        store: StoreId,
    },
    /// `openCursor`.
    OpenCursor {
        target: Target,
        query: Query,
        direction: Direction,
    },
    /// `openKeyCursor`: a cursor that shows no value.
    OpenKeyCursor {
        target: Target,
        query: Query,
        direction: Direction,
    },
    /// `continue`: the next of the cursor, from a key on where one is given.
    Continue {
        cursor: u32,
        key: Option<Value>,
    },
    /// `continuePrimaryKey`.
    ContinuePrimaryKey {
        cursor: u32,
        key: Value,
        primary: Value,
    },
    /// `advance`: so many further. A count that is no whole number is handed on as -1.
    Advance {
        cursor: u32,
        count: i64,
    },
    /// `update`: stores the value at the cursor's record.
    Update {
        cursor: u32,
        value: Value,
    },
    /// `delete` of a cursor: its record goes.
    DeleteHere {
        cursor: u32,
    },
}
