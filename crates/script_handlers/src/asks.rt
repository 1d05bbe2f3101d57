// What a statement asks of a front.
use idb_calls::Call;
use idb_keys::ErrorName;
use idb_schema::SchemaCall;
use script_statements::BlockPlace;

/// What a statement asks of a front, once its names and expressions are known.
#[derive(Drop)]
pub enum Ask {
    /// A request, the blocks for its events, and whether it opens a cursor.
    Places {
        call: Call,
        success: Option<BlockPlace>,
        error: Option<BlockPlace>,
        opens: bool,
    },
    /// A call of an upgrade.
    Changes {
        call: SchemaCall,
    },
    Commits,
    Aborts,
    Prevents,
    /// It was refused before it came to the front.
    Refused {
        error: ErrorName,
    },
}
