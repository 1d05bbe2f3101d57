// Transactions that tasks create.
ghost use Rattle.std.specs.Prelude.{◌≡◌, ◌<◌, [], ◌∷◌, ◌++◌, true, Some, is_some, IfOk, OnOk};
ghost use Rattle.std.specs.Arc.{arc_value};
ghost use Rattle.std.specs.VecDeque.{deque_len, deque_capacity};
ghost use Rattle.client_parts.specs.Clients.{client_seen};
ghost use Rattle.client_seats.specs.Seating.{IsSeated};
ghost use Rattle.connection_queues.specs.Machine.{schema_of};
ghost use Rattle.idb_desk.specs.Refusals.{refusal_of_step};
ghost use Rattle.idb_desk.specs.Steps.{desk_run};
ghost use Rattle.task_statements.specs.Doing.{BeginsInto, CreatesInto, create_step, scope_asked};

use client_parts::{
    BegunBody, BegunParts, BegunTx, ClientParts, HeldTx, TxKindHeld, has_thrown, names_once,
};
use clone_values::Texts;
use idb_base::NoMemory;
use idb_desk::{Desk, DeskStep};
use idb_keys::{Durability, ErrorName, Mode};
use idb_schema::Schema;
use name_queues::ConnId;
use report_lines::Line;
use request_lists::TxFront;
use script_handlers::run_body;
use script_runs::{Env, Note, Notes};
use script_statements::{BlockPlace, Client};
use std::alloc::Global;
use std::collections::VecDeque;
use std::sync::Arc;

/// A transaction that a statement asks for.
#[derive(Drop)]
pub struct TxAsked {
    pub who: ConnId,
    /// The names of its scope, as the statement lists them.
    pub scope: Texts,
    pub mode: Mode,
    pub durability: Durability,
    pub body: BlockPlace,
    pub complete: Option<BlockPlace>,
    pub abort: Option<BlockPlace>,
}

/// Creates a transaction, whose body runs; the name where the desk refuses it, and then nothing is changed.
pub fn create(
    alloc: Global,
    desk: &mut Desk,
    parts: &mut ClientParts,
    script: &Arc<Client, Global>,
    env: &Env,
    asked: TxAsked,
    notes: &mut Notes,
) -> Result<Option<ErrorName>, NoMemory>
    requires { IsSeated (client_seen parts.old) desk.old }
    ensures created { IfOk result (λ refusal. CreatesInto (arc_value script.now).blocks
        (client_seen parts.old) desk.old env.now asked notes.old (client_seen parts.new) desk.new
        refusal notes.new) }
    ensures seated { IsSeated (client_seen parts.new) desk.new }
{
    let number = desk.next_number();
    if let Some(error) = refused(alloc, desk, number, &asked)? {
        return Ok(Some(error));
    }
    let names = names_once(alloc, &asked.scope)?;
    let schema = schema_of(alloc, desk, asked.who)?;
    let step = DeskStep::Creates {
        number,
        who: asked.who,
        scope: names.copy(alloc)?,
        mode: asked.mode,
        durability: asked.durability,
    };
    make_room(parts)?;
    let tx = begin(alloc, script, number, schema, env, asked, names, notes)?;
    desk.step(step, None)?;
    put_tx(&mut parts.txs, tx);
    Ok(None)
}

/// The name by which the desk refuses the transaction. It looks at the scope as the statement lists it: of a name that stands twice
/// the desk says the same, and once it knows all names, there are few that differ.
fn refused(
    alloc: Global,
    desk: &Desk,
    number: u64,
    asked: &TxAsked,
) -> Result<Option<ErrorName>, NoMemory>
    ensures { IfOk result (λ refusal. refusal
        ≡ refusal_of_step (desk_run desk.now) (create_step desk.now asked.now)) }
{
    let step = DeskStep::Creates {
        number,
        who: asked.who,
        scope: asked.scope.copy(alloc)?,
        mode: asked.mode,
        durability: asked.durability,
    };
    Ok(desk.refusal(&step))
}

/// The schema of a connection that the desk knows.
fn schema_of(alloc: Global, desk: &Desk, who: ConnId) -> Result<Schema, NoMemory>
    requires { is_some (schema_of (desk_run desk.now).queues who) ≡ true }
    ensures { IfOk result (λ schema. schema_of (desk_run desk.now).queues who ≡ Some schema) }
{
    match desk.schema(who) {
        Some(schema) => schema.copy(alloc),
        None => unreachable!(),
    }
}

/// Puts a transaction behind the others, for which there is room.
pub fn put_tx(txs: &mut VecDeque<HeldTx>, tx: HeldTx)
    requires { deque_len txs.old < deque_capacity txs.old }
    ensures { txs.new.items ≡ txs.old.items ++ tx ∷ [] }
{
    match txs.push_back(tx) {
        Ok(()) => {}
        Err(_) => unreachable!(),
    }
}

/// Writes the line of a transaction that is created, and runs its body on a new front.
fn begin(
    alloc: Global,
    script: &Arc<Client, Global>,
    number: u64,
    schema: Schema,
    env: &Env,
    asked: TxAsked,
    names: Texts,
    notes: &mut Notes,
) -> Result<HeldTx, NoMemory>
    requires { names ≡ scope_asked asked }
    ensures { IfOk result (λ tx. BeginsInto (arc_value script.now).blocks number schema env.now asked
        notes.old tx notes.new) }
{
    notes.push(Note::Line(Line::Created {
        number,
        mode: asked.mode,
        durability: asked.durability,
    }))?;
    let mut front = TxFront::new(alloc, asked.mode, schema.copy(alloc)?, names.copy(alloc)?);
    let end = run_body(alloc, script, number, asked.body, env, &mut front, notes)?;
    let begun = BegunTx::new(BegunParts {
        mode: asked.mode,
        durability: asked.durability,
        schema,
        names,
        front,
        threw: has_thrown(end),
    });
    let kind = TxKindHeld::Own {
        complete: asked.complete,
        abort: asked.abort,
        env: env.copy()?,
    };
    Ok(HeldTx::new(number, kind, BegunBody::Scripted(begun)))
}

/// Room for one transaction more.
pub fn make_room(parts: &mut ClientParts) -> Result<(), NoMemory>
    ensures same { client_seen parts.new ≡ client_seen parts.old }
    ensures room { OnOk result (deque_len parts.new.txs < deque_capacity parts.new.txs) }
{
    parts.txs.reserve(1)?;
    Ok(())
}
