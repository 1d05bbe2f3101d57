// An upgrade whose body places requests with planned handlers, and which is run to its end.
ghost use Rattle.std.specs.Prelude.{◌≡◌, IfOk, OnOk};
ghost use Rattle.request_lists.specs.Placing.{Becomes};
ghost use Rattle.live_client.specs.Plans.{asked_all, same_plan};
ghost use Rattle.live_client.specs.Bodies.{as_left};
ghost use Rattle.live_client.specs.Upgrades.{begun_upgrade, started_upgrade, IsRunOf};

use crate::bodies::Body;
use crate::calls::Calls;
use crate::plans::{Planned, place};
use idb_base::NoMemory;
use idb_calls::Events;
use idb_keys::{Durability, Mode};
use index_tables::Tables;
use list_machine::Step;
use live_stores::{LiveStores, Stores};
use live_tx::{LiveTx, live_laws};
use request_lists::TxFront;
use std::alloc::Global;
use tx_courses::{Course, opening_changes};

/// Places the requests, in order; one that is refused changes nothing.
fn place_all(front: &mut TxFront<Planned>, requests: Calls<Planned>) -> Result<(), NoMemory>
    ensures placed { OnOk result (front.new ≡ asked_all same_plan requests front.old) }
    ensures becomes { Becomes front.old front.new }
{
    let mut left = requests;
    while let Some(request) = left.take() {
        let (call, handler) = request;
        match place(front, call, handler) {
            Ok(()) => {}
            Err(NoMemory) => return Err(NoMemory),
        }
    }
    Ok(())
}

/// The script of the body has returned, or thrown.
fn leave(front: &mut TxFront<Planned>, throws: bool)
    ensures { front.new ≡ as_left throws front.old }
{
    if throws {
        front.threw();
    } else {
        front.rest();
    }
}

/// An upgrade of a database in version 1 without stores, whose body places these requests at its end, and returns or throws.
pub(crate) fn start<T: Tables>(
    alloc: Global,
    body: Body,
    requests: Calls<Planned>,
    throws: bool,
) -> Result<LiveTx<T, Planned>, NoMemory>
    ensures { IfOk result (λ live. live ≡ started_upgrade (begun_upgrade body requests throws)) }
{
    live_laws::<Planned>();
    let (schema, front) = body.into_parts();
    let mut front = front;
    let mode = Mode::VersionChange;
    let changes = opening_changes(alloc, mode, &schema)?;
    place_all(&mut front, requests)?;
    leave(&mut front, throws);
    let stores: Stores<T> = Stores::new(alloc);
    let stores = LiveStores::new(alloc, Some(1), stores);
    let course = Course::new(alloc, mode, schema, stores, changes);
    let live = LiveTx::new(alloc, 1, Durability::Relaxed, front, course);
    Ok(live)
}

/// Runs it until no entry is left or it has aborted; `Did` only where 2^64 - 1 turns were not enough.
pub(crate) fn run_to_end<T: Tables>(
    live: &mut LiveTx<T, Planned>,
    notes: &mut Events,
) -> Result<Step, NoMemory>
    ensures { IfOk result (λ step. IsRunOf live.old.state step live.new.state notes.old notes.new) }
{
    for turn in 0..u64::MAX {
        match live.step(notes) {
            Step::Did => {}
            Step::Idle => return Ok(Step::Idle),
            Step::Aborted { error } => return Ok(Step::Aborted { error }),
            Step::NoMemory => return Err(NoMemory),
        }
    }
    Ok(Step::Did)
}

/// The small client: such an upgrade, run until it ends, or for 2^64 - 1 turns. What it answers is a run of the list
/// machine for these handlers from the state that the body left: its last step, the state behind it, and what the handlers wrote.
pub(crate) fn run_upgrade<T: Tables>(
    alloc: Global,
    body: Body,
    requests: Calls<Planned>,
    throws: bool,
    notes: &mut Events,
) -> Result<(Step, LiveTx<T, Planned>), NoMemory>
    ensures { IfOk result (λ ended. IsRunOf (begun_upgrade body requests throws)
        ended.0 ended.1.state notes.old notes.new) }
{
    let mut live = start(alloc, body, requests, throws)?;
    let step = run_to_end(&mut live, notes)?;
    Ok((step, live))
}
