// Scripts: sessions of clients that run blocks. Contracts see all of it plain.
ghost use Rattle.std.specs.Prelude.{◌≡◌};
ghost use Rattle.script_statements.specs.Blocks.{block_body};

use crate::statement::{BlockPlace, Stmt, Stmts};
use clone_values::Text;
use idb_base::Listed;

/// A named list of statements.
#[derive(Drop)]
pub struct Block {
    pub name: Text,
    pub body: Stmts,
}

/// The blocks of a client, by the bytes of their names.
pub type Blocks = Listed<Block>;

/// A client: it begins with its block `main`, which stands at that place.
#[derive(Drop)]
pub struct Client {
    pub blocks: Blocks,
    pub main: BlockPlace,
}

impl Client {
    /// The statements of the block at this place; there are none where no block stands there.
    pub fn body_at(&self, place: BlockPlace) -> &[Stmt]
        ensures { result.now ≡ block_body self.now.blocks place }
    {
        match self.blocks.at(place) {
            Some(block) => block.body.as_slice(),
            None => &[],
        }
    }
}

/// Clients; the first has the number 1.
pub type Clients = Listed<Client>;

/// A session: its clients run together until none has anything left to do.
#[derive(Drop)]
pub struct ScriptSession {
    pub clients: Clients,
    /// Whether commits that wait are dropped at its end, and not flushed.
    pub drop_end: bool,
}

/// Sessions, one after another.
pub type ScriptSessions = Listed<ScriptSession>;

/// A script.
#[derive(Drop)]
pub struct Script {
    pub sessions: ScriptSessions,
}
