// Statements that act on the run alone.
ghost use Rattle.std.specs.Prelude.{◌≡◌, ◌∷◌, ◌++◌, [], pos, codes, IfOk, OnOk};
ghost use Rattle.idb_base.specs.Lists.{IsWithinLimit};
ghost use Rattle.clone_values.specs.Tree.{int};
ghost use Rattle.clone_values.specs.View.{tree_of};
ghost use Rattle.script_values.specs.Evaluating.{value_in};
ghost use Rattle.script_runs.specs.Words.{with_variable, with_turn_set, turn_in, said, threw, post_noted, branch_of, op_of, is_true, refusal_noted, is_action};

use crate::environments::Env;
use crate::notes::{Note, Notes, Task};
use clone_values::{Text, Value};
use idb_base::NoMemory;
use idb_keys::ErrorName;
use report_lines::Line;
use script_exprs::Expr;
use script_statements::{BlockPlace, Stmt};
use script_values::value_of_expr;
use std::alloc::Global;

/// Writes that the run threw.
pub(crate) fn throw(notes: &mut Notes) -> Result<(), NoMemory>
    ensures { OnOk result (notes.new ≡ notes.old ++ threw ∷ []) }
{
    notes.push(Note::Line(Line::Throw))
}

/// Writes a value.
pub(crate) fn say(alloc: Global, env: &Env, value: &Expr, notes: &mut Notes) -> Result<(), NoMemory>
    ensures { OnOk result (notes.new ≡ notes.old ++ said env.now value.now ∷ []) }
{
    let value = value_of_expr(alloc, &env.variables, value)?;
    notes.push(Note::Line(Line::Say { value }))
}

/// Writes that a statement was refused.
pub(crate) fn refuse(
    alloc: Global,
    statement: &Stmt,
    error: ErrorName,
    notes: &mut Notes,
) -> Result<(), NoMemory>
    ensures { OnOk result (notes.new ≡ notes.old ++ refusal_noted statement.now error ∷ []) }
{
    let op = Text::copy_of(alloc, op_name(statement))?;
    notes.push(Note::Line(Line::Refused { op, error }))
}

/// Posts a block with the environment.
pub(crate) fn post(env: &Env, block: BlockPlace, notes: &mut Notes) -> Result<(), NoMemory>
    ensures { OnOk result (notes.new ≡ notes.old ++ post_noted block env.now ∷ []) }
{
    let env = env.copy()?;
    notes.push(Note::Posted(Task { block, env }))
}

/// Sets a variable to what an expression gives.
pub(crate) fn set_variable(
    alloc: Global,
    env: &mut Env,
    name: &Text,
    value: &Expr,
) -> Result<(), NoMemory>
    ensures { OnOk result (env.new ≡ with_variable env.old name.now (value_in env.old.variables value.now)) }
{
    let value = value_of_expr(alloc, &env.variables, value)?;
    env.set(name.clone()?, value)
}

/// The name of the variable that counts rounds.
fn turn_name(alloc: Global) -> Result<Text, NoMemory>
    ensures { IfOk result (λ t. t ≡ codes "turn") }
{
    Text::copy_of(alloc, "turn")
}

/// What `turn` holds.
pub(crate) fn turn_of(alloc: Global, env: &Env) -> Result<Value, NoMemory>
    ensures { IfOk result (λ v. tree_of v ≡ turn_in env.now) }
{
    env.variable(&turn_name(alloc)?)
}

/// Sets `turn` to a value.
pub(crate) fn set_turn(alloc: Global, env: &mut Env, value: Value) -> Result<(), NoMemory>
    ensures { OnOk result (env.new ≡ with_turn_set env.old (tree_of value)) }
{
    env.set(turn_name(alloc)?, value)
}

/// Sets `turn` to the number of a round.
pub(crate) fn begin_round(alloc: Global, env: &mut Env, turn: u64) -> Result<(), NoMemory>
    ensures { OnOk result (env.new ≡ with_turn_set env.old (int (pos turn))) }
{
    let Ok(turn) = i64::try_from(turn) else {
        return Err(NoMemory);
    };
    set_turn(alloc, env, Value::Int(turn))
}

/// The block that `if` takes, if one.
pub(crate) fn branch(
    alloc: Global,
    env: &Env,
    test: &Expr,
    if_so: Option<BlockPlace>,
    if_not: Option<BlockPlace>,
) -> Result<Option<BlockPlace>, NoMemory>
    ensures { IfOk result (λ b. b ≡ branch_of env.now test.now if_so if_not) }
{
    let value = value_of_expr(alloc, &env.variables, test)?;
    if is_true(&value) {
        Ok(if_so)
    } else {
        Ok(if_not)
    }
}

fn is_true(value: &Value) -> bool
    ensures { result ≡ is_true (tree_of value.now) }
{
    match value {
        Value::Bool(b) => *b,
        _ => false,
    }
}

/// The name of a statement.
fn op_name(statement: &Stmt) -> &'static str
    ensures name { result.now ≡ op_of statement.now }
    ensures short { IsWithinLimit result.now }
{
    match statement {
        Stmt::Open { .. } => "open",
        Stmt::DeleteDatabase { .. } => "deleteDatabase",
        Stmt::Close { .. } => "close",
        Stmt::Transaction { .. } => "transaction",
        Stmt::Post { .. } => "post",
        Stmt::Repeat { .. } => "repeat",
        Stmt::If { .. } => "if",
        Stmt::Let { .. } => "let",
        Stmt::Say { .. } => "say",
        Stmt::Throw => "throw",
        Stmt::Add { .. } => "add",
        Stmt::Put { .. } => "put",
        Stmt::Get { .. } => "get",
        Stmt::GetKey { .. } => "getKey",
        Stmt::Count { .. } => "count",
        Stmt::GetAll { .. } => "getAll",
        Stmt::GetAllKeys { .. } => "getAllKeys",
        Stmt::Delete { .. } => "delete",
        Stmt::Clear { .. } => "clear",
        Stmt::OpenCursor { .. } => "openCursor",
        Stmt::OpenKeyCursor { .. } => "openKeyCursor",
        Stmt::Continue { .. } => "continue",
        Stmt::ContinuePrimaryKey { .. } => "continuePrimaryKey",
        Stmt::Advance { .. } => "advance",
        Stmt::Update { .. } => "update",
        Stmt::DeleteHere { .. } => "deleteHere",
        Stmt::Commit => "commit",
        Stmt::Abort => "abort",
        Stmt::Prevent => "prevent",
        Stmt::CreateObjectStore { .. } => "createObjectStore",
        Stmt::DeleteObjectStore { .. } => "deleteObjectStore",
        Stmt::CreateIndex { .. } => "createIndex",
        Stmt::DeleteIndex { .. } => "deleteIndex",
    }
}

/// Whether a statement acts on the world of the run.
pub(crate) fn is_action(statement: &Stmt) -> bool
    ensures { result ≡ is_action statement.now }
{
    !matches!(
        statement,
        Stmt::Post { .. }
            | Stmt::Repeat { .. }
            | Stmt::If { .. }
            | Stmt::Let { .. }
            | Stmt::Say { .. }
            | Stmt::Throw
    )
}
