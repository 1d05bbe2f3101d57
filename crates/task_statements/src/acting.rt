// What the statements of tasks do.
ghost use Rattle.std.specs.Prelude.{◌≡◌, ◌≤◌, true, List, length, is_some, IfOk};
ghost use Rattle.std.specs.Arc.{arc_value};
ghost use Rattle.std.specs.Option.{option_copied};
ghost use Rattle.client_machine.specs.ClientStates.{open_at};
ghost use Rattle.client_parts.specs.Clients.{client_seen};
ghost use Rattle.script_statements.specs.declared.script.Block.{Block};
ghost use Rattle.script_statements.specs.declared.statement.Stmt.TheVariants.{Close};
ghost use Rattle.script_runs.specs.declared.notes.Note.{Note};
ghost use Rattle.client_seats.specs.Seating.{IsSeated};
ghost use Rattle.client_parts.specs.Asking.{asking_in};
ghost use Rattle.task_statements.specs.Doing.{DidInto, own_conn};

use crate::asking::{ask, close};
use crate::creating::{TxAsked, create};
use client_parts::{ClientParts, KeptOpen, asking_in, conn_named};
use idb_base::NoMemory;
use idb_desk::Desk;
use idb_keys::{Durability, ErrorName};
use name_queues::ConnId;
use script_runs::{Env, Notes};
use script_statements::{Client, Stmt};
use std::alloc::Global;
use std::sync::Arc;

/// The open or delete of this number.
pub fn open_at(parts: &ClientParts, request: u64) -> Option<&KeptOpen>
    ensures { option_copied result ≡ open_at (client_seen parts.now) request }
{
    if request == 0 {
        return None;
    }
    parts.opens.get((request - 1) as usize)
}

/// The connection that is named, where it is one of the client's.
fn own_conn(parts: &ClientParts, named: Option<u64>) -> Option<ConnId>
    requires { length parts.now.opens.items ≤ 10000 }
    ensures { result ≡ own_conn (client_seen parts.now) named }
{
    let Some(request) = named else {
        return None;
    };
    match open_at(parts, request) {
        Some(open) => {
            if open.is_given() {
                Some(ConnId {
                    client: parts.number,
                    request: request as u32,
                })
            } else {
                None
            }
        }
        None => None,
    }
}

/// Does what a statement of a task says; the name where it is refused.
pub fn act(
    alloc: Global,
    desk: &mut Desk,
    parts: &mut ClientParts,
    script: &Arc<Client, Global>,
    env: &Env,
    statement: &Stmt,
    notes: &mut Notes,
) -> Result<Option<ErrorName>, NoMemory>
    requires { IsSeated (client_seen parts.old) desk.old }
    ensures did { IfOk result (λ refusal. DidInto (arc_value script.now).blocks
        (client_seen parts.old) desk.old env.now statement.now notes.old (client_seen parts.new)
        desk.new refusal notes.new) }
    ensures seated { IsSeated (client_seen parts.new) desk.new }
{
    match statement {
        Stmt::Open { .. } | Stmt::DeleteDatabase { .. } => {
            act_ask(alloc, desk, parts, env, statement)
        }
        Stmt::Close { conn } => act_close(desk, parts, env, *conn),
        Stmt::Transaction { .. } => act_transaction(
            alloc, desk, parts, script, env, statement, notes,
        ),
        _ => Ok(Some(ErrorName::InvalidStateError)),
    }
}

/// Asks an open or a delete.
fn act_ask(
    alloc: Global,
    desk: &mut Desk,
    parts: &mut ClientParts,
    env: &Env,
    statement: &Stmt,
) -> Result<Option<ErrorName>, NoMemory>
    requires seated { IsSeated (client_seen parts.old) desk.old }
    requires asks { is_some (asking_in env.now statement.now) ≡ true }
    ensures did { (blocks : List Block) (notes : List Note) → IfOk result (λ refusal. DidInto blocks
        (client_seen parts.old) desk.old env.now statement.now notes (client_seen parts.new)
        desk.new refusal notes) }
    ensures seated { IsSeated (client_seen parts.new) desk.new }
{
    match asking_in(alloc, env, statement)? {
        Some(asking) => ask(desk, parts, asking.wants, asking.kept),
        None => unreachable!(),
    }
}

/// Closes the connection that is named, or else the one at hand.
fn act_close(
    desk: &mut Desk,
    parts: &ClientParts,
    env: &Env,
    conn: Option<u64>,
) -> Result<Option<ErrorName>, NoMemory>
    requires { IsSeated (client_seen parts.now) desk.old }
    ensures did { (blocks : List Block) (notes : List Note) → IfOk result (λ refusal. DidInto blocks
        (client_seen parts.now) desk.old env.now (Close conn) notes (client_seen parts.now)
        desk.new refusal notes) }
    ensures seated { IsSeated (client_seen parts.now) desk.new }
{
    let Some(who) = own_conn(parts, conn_named(env, conn)) else {
        return Ok(Some(ErrorName::InvalidStateError));
    };
    close(desk, parts, who)?;
    Ok(None)
}

/// Creates a transaction.
fn act_transaction(
    alloc: Global,
    desk: &mut Desk,
    parts: &mut ClientParts,
    script: &Arc<Client, Global>,
    env: &Env,
    statement: &Stmt,
    notes: &mut Notes,
) -> Result<Option<ErrorName>, NoMemory>
    requires { IsSeated (client_seen parts.old) desk.old }
    ensures did { IfOk result (λ refusal. DidInto (arc_value script.now).blocks
        (client_seen parts.old) desk.old env.now statement.now notes.old (client_seen parts.new)
        desk.new refusal notes.new) }
    ensures seated { IsSeated (client_seen parts.new) desk.new }
{
    let Stmt::Transaction {
        conn,
        scope,
        mode,
        durability,
        body,
        complete,
        abort,
    } = statement
    else {
        return Err(NoMemory);
    };
    let Some(who) = own_conn(parts, conn_named(env, *conn)) else {
        return Ok(Some(ErrorName::InvalidStateError));
    };
    let asked = TxAsked {
        who,
        scope: scope.copy(alloc)?,
        mode: *mode,
        durability: durability.unwrap_or(Durability::Relaxed),
        body: *body,
        complete: *complete,
        abort: *abort,
    };
    create(alloc, desk, parts, script, env, asked, notes)
}
