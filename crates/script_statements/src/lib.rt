// Scripts as they are written: sessions, clients, blocks and statements.
//
// The layers above read a script into these types and run it from them. A statement names a block by its place among the
// blocks of its client, so that what runs a block needs neither a search nor a copy of its name. Contracts see all plain.
#![tactic(auto)]

mod script;
mod statement;

pub use script::{Block, Blocks, Client, Clients, Script, ScriptSession, ScriptSessions};
pub use statement::{BlockPlace, RangeExpr, Stmt, Stmts};
