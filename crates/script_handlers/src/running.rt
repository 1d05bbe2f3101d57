// Blocks that run on a front.
ghost use Rattle.std.specs.Prelude.{◌≡◌, IfOk};
ghost use Rattle.std.specs.Arc.{arc_value};
ghost use Rattle.request_lists.specs.Fronts.{front_map};
ghost use Rattle.request_lists.specs.Placing.{Becomes};
ghost use Rattle.script_handlers.specs.Handling.{end_of};
ghost use Rattle.script_handlers.specs.Into.{RunsInto, BodyRunsInto};
ghost use Rattle.script_handlers.specs.Seeing.{script_seen};

use crate::handlers::ScriptHandler;
use crate::lent_fronts::LentFront;
use clone_values::{Text, Texts};
use idb_base::NoMemory;
use idb_calls::Event;
use idb_keys::Mode;
use idb_schema::{Schema, StoreInfos};
use request_lists::{HandlerEnd, TxFront};
use script_runs::{At, Env, Notes, RunEnd, enter};
use script_statements::{BlockPlace, Client};
use std::alloc::Global;
use std::mem::replace;
use std::sync::Arc;

/// Runs the body of a transaction on its new front; no cursor is at hand in it. Where memory runs out the front is one that its
/// calls can make.
pub fn run_body(
    alloc: Global,
    client: &Arc<Client, Global>,
    number: u64,
    body: BlockPlace,
    env: &Env,
    front: &mut TxFront<ScriptHandler>,
    notes: &mut Notes,
) -> Result<RunEnd, NoMemory>
    ensures runs { IfOk result (λ how. BodyRunsInto (arc_value client.now).blocks number body env.now
        (front_map script_seen front.old) notes.old (front_map script_seen front.new) how notes.new) }
    ensures becomes { Becomes front.old front.new }
{
    let mut env = env.copy()?;
    env.cursor = None;
    let (end, _) = run_on_front(alloc, client, number, body, env, front, notes)?;
    Ok(end)
}

/// Runs a block on a front from its beginning; how it ended, and whether it prevented a default action.
pub(crate) fn run_on_front(
    alloc: Global,
    client: &Arc<Client, Global>,
    number: u64,
    block: BlockPlace,
    env: Env,
    front: &mut TxFront<ScriptHandler>,
    notes: &mut Notes,
) -> Result<(RunEnd, bool), NoMemory>
    ensures runs { IfOk result (λ r. RunsInto (arc_value client.now).blocks number block env
        (front_map script_seen front.old) notes.old (front_map script_seen front.new) r.1 r.0 notes.new) }
    ensures becomes { Becomes front.old front.new }
{
    let shared = client.clone()?;
    let nothing = Schema::new(alloc, Text::copy_of(alloc, "")?, 0, StoreInfos::new(alloc))?;
    let aside = TxFront::new(alloc, Mode::ReadOnly, nothing, Texts::new(alloc));
    let mut at = At { env, count: 0 };
    let mut lent = LentFront {
        front: replace(front, aside),
        client: shared,
        number,
        prevented: false,
    };
    let end = enter(alloc, &mut lent, client, 0, block, &mut at, notes);
    *front = lent.front;
    match end {
        Ok(end) => Ok((end, lent.prevented)),
        Err(_) => Err(NoMemory),
    }
}

/// How a handler ended, by how its run did.
pub(crate) fn end_of(end: RunEnd, event: &Event, prevented: bool) -> HandlerEnd
    ensures { result ≡ end_of end event.now prevented }
{
    match end {
        RunEnd::Threw => HandlerEnd::Threw,
        RunEnd::Went => match event {
            Event::Success { .. } => HandlerEnd::Returned { prevented: false },
            Event::Error { .. } => HandlerEnd::Returned { prevented },
        },
    }
}
