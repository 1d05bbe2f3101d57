// What the statements of a place act on.
ghost use Rattle.std.specs.Prelude.{◌≡◌, ◌∷◌, [], true, List, Option, IfOk};
ghost use Rattle.idb_keys.specs.declared.names.ErrorName.{ErrorName};
ghost use Rattle.script_statements.specs.declared.script.Block.{Block};
ghost use Rattle.script_statements.specs.declared.statement.Stmt.{Stmt};
ghost use Rattle.script_runs.specs.declared.environments.Env.{Env};
ghost use Rattle.script_runs.specs.declared.notes.Note.{Note};
ghost use Rattle.script_runs.specs.Words.{is_action};
ghost use Rattle.script_runs.specs.Going.{DoesInto};

use crate::environments::Env;
use crate::notes::{Note, Notes};
use idb_base::NoMemory;
use idb_keys::ErrorName;
use script_statements::{Client, Stmt};
use std::alloc::Global;

/// How a run ended.
#[derive(Clone, Copy, Debug, PartialEq, Eq)]
pub enum RunEnd {
    /// It came to its end.
    Went,
    /// A statement threw, or the run came to a limit.
    Threw,
}

/// What the statements of a place act on: a front, or a client with the desk.
pub trait World: Drop {
    ghost Plain: { Type 0 };

    ghost plain: { Self → Plain };

    ghost Out: { Type 0 };

    ghost noted: { Note → Out };

    ghost shown: { Out → List Note };

    ghost does: { List Block → Plain → Env → Stmt → List Out → Plain → Option ErrorName → Type 0 };

    ghost moves: { Self → Self → Type 0 };

    /// Does what the statement says; the name where it is refused.
    fn act(
        &mut self,
        alloc: Global,
        client: &Client,
        env: &Env,
        statement: &Stmt,
        notes: &mut Notes,
    ) -> Result<Option<ErrorName>, NoMemory>
        requires { is_action statement.now ≡ true }
        ensures did { IfOk result (λ refusal. DoesInto shown (does client.now.blocks) (plain self.old)
            env.now statement.now notes.old (plain self.new) refusal notes.new) }

        // also where memory ran out
        ensures moves { moves self.old self.new };

    ghost shows: { (n : Note) → shown (noted n) ≡ n ∷ [] };

    ghost stays: { (w : Self) → moves w w };

    ghost onwards: { (v w x : Self) → moves v w → moves w x → moves v x };
}
