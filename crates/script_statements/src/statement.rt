// Statements, as they are written. Contracts see all of it plain.
use clone_values::{PathSpec, Text, Texts};
use idb_base::Listed;
use idb_keys::{Direction, Durability, Mode};
use script_exprs::Expr;

/// A range by its bounds, of which it has one or both; an openness that isn't said is false.
#[derive(Drop)]
pub struct RangeExpr {
    pub lower: Option<Expr>,
    pub upper: Option<Expr>,
    pub lower_open: bool,
    pub upper_open: bool,
}

/// Where a block stands among the blocks of its client, counted from 0.
pub type BlockPlace = usize;

/// One statement. What may be left out is an `Option`.
#[derive(Drop)]
pub enum Stmt {
    /// Opens a database.
    Open {
        db: Text,
        version: Option<Expr>,
        upgrade: Option<BlockPlace>,
        blocked: Option<BlockPlace>,
        success: Option<BlockPlace>,
        error: Option<BlockPlace>,
        version_change: Option<BlockPlace>,
        closed: Option<BlockPlace>,
    },
    /// Deletes a database.
    DeleteDatabase {
        db: Text,
        blocked: Option<BlockPlace>,
        success: Option<BlockPlace>,
        error: Option<BlockPlace>,
    },
    /// Closes the connection at hand, or that of the open of this number.
    Close {
        conn: Option<u64>,
    },
    /// Creates a transaction over the connection at hand, or over that of the open of this number.
    Transaction {
        conn: Option<u64>,
        scope: Texts,
        mode: Mode,
        durability: Option<Durability>,
        body: BlockPlace,
        complete: Option<BlockPlace>,
        abort: Option<BlockPlace>,
    },
    /// Puts a block behind the client's tasks.
    Post {
        block: BlockPlace,
    },
    /// Runs a block so many times.
    Repeat {
        times: u64,
        block: BlockPlace,
    },
    /// Runs the one block where the test is true, else the other.
    If {
        test: Expr,
        then: Option<BlockPlace>,
        otherwise: Option<BlockPlace>,
    },
    /// Sets a variable.
    Let {
        name: Text,
        value: Expr,
    },
    /// Prints a value.
    Say {
        value: Expr,
    },
    /// Ends the run.
    Throw,
    /// Stores a new record.
    Add {
        store: Text,
        value: Expr,
        key: Option<Expr>,
        success: Option<BlockPlace>,
        error: Option<BlockPlace>,
    },
    /// Stores a record.
    Put {
        store: Text,
        value: Expr,
        key: Option<Expr>,
        success: Option<BlockPlace>,
        error: Option<BlockPlace>,
    },
    /// The value of the first record in range.
    Get {
        store: Text,
        index: Option<Text>,
        query: Option<Expr>,
        range: Option<RangeExpr>,
        success: Option<BlockPlace>,
        error: Option<BlockPlace>,
    },
    /// Its primary key.
    GetKey {
        store: Text,
        index: Option<Text>,
        query: Option<Expr>,
        range: Option<RangeExpr>,
        success: Option<BlockPlace>,
        error: Option<BlockPlace>,
    },
    /// How many are in range.
    Count {
        store: Text,
        index: Option<Text>,
        query: Option<Expr>,
        range: Option<RangeExpr>,
        success: Option<BlockPlace>,
        error: Option<BlockPlace>,
    },
    /// The values in range, or the first of them.
    GetAll {
        store: Text,
        index: Option<Text>,
        query: Option<Expr>,
        range: Option<RangeExpr>,
        count: Option<Expr>,
        success: Option<BlockPlace>,
        error: Option<BlockPlace>,
    },
    /// Their primary keys.
    GetAllKeys {
        store: Text,
        index: Option<Text>,
        query: Option<Expr>,
        range: Option<RangeExpr>,
        count: Option<Expr>,
        success: Option<BlockPlace>,
        error: Option<BlockPlace>,
    },
    /// The records in range go.
    Delete {
        store: Text,
        query: Option<Expr>,
        range: Option<RangeExpr>,
        success: Option<BlockPlace>,
        error: Option<BlockPlace>,
    },
    /// All records of a store go.
    Clear {
        store: Text,
        success: Option<BlockPlace>,
        error: Option<BlockPlace>,
    },
    /// Opens a cursor.
    OpenCursor {
        store: Text,
        index: Option<Text>,
        query: Option<Expr>,
        range: Option<RangeExpr>,
        direction: Option<Direction>,
        success: Option<BlockPlace>,
        error: Option<BlockPlace>,
    },
    /// Opens a cursor that shows no value.
    OpenKeyCursor {
        store: Text,
        index: Option<Text>,
        query: Option<Expr>,
        range: Option<RangeExpr>,
        direction: Option<Direction>,
        success: Option<BlockPlace>,
        error: Option<BlockPlace>,
    },
    /// The next of the cursor at hand, from a key on where one is given.
    Continue {
        key: Option<Expr>,
    },
    /// The next of the cursor at hand, from a pair of keys on.
    ContinuePrimaryKey {
        key: Expr,
        primary_key: Expr,
    },
    /// So many further.
    Advance {
        count: Expr,
    },
    /// Stores a value at the record of the cursor at hand.
    Update {
        value: Expr,
        success: Option<BlockPlace>,
        error: Option<BlockPlace>,
    },
    /// The record of the cursor at hand goes.
    DeleteHere {
        success: Option<BlockPlace>,
        error: Option<BlockPlace>,
    },
    /// Lets the transaction commit.
    Commit,
    /// Aborts the transaction.
    Abort,
    /// Keeps an error from aborting the transaction.
    Prevent,
    /// Makes an object store.
    CreateObjectStore {
        store: Text,
        key_path: Option<PathSpec>,
        auto_increment: Option<bool>,
    },
    /// An object store goes.
    DeleteObjectStore {
        store: Text,
    },
    /// Makes an index.
    CreateIndex {
        store: Text,
        index: Text,
        key_path: PathSpec,
        unique: Option<bool>,
        multi_entry: Option<bool>,
    },
    /// An index goes.
    DeleteIndex {
        store: Text,
        index: Text,
    },
}

/// Statements in order.
pub type Stmts = Listed<Stmt>;
