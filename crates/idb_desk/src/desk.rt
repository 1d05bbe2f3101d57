// The desk, seen as the databases that it began with and the list of its steps.
ghost use Rattle.std.specs.Prelude.{◌≡◌, ◌<◌, ◌≤◌, ◌+◌, ◌^◌, ◌-◌, ℕ, Bool, true, false, [], ◌∷◌, ◌++◌, map, Some, None, slice_get, option_map, OnOk, OnErr, IfOk, IfSome};
ghost use Rattle.std.specs.Option.{option_copied};
ghost use Rattle.std.specs.Vec.{vec_len, vec_capacity};
ghost use Rattle.desk_steps.specs.DeskRoom.{wants_memory, owed_steps};
ghost use Rattle.desk_steps.specs.Handing.{kept_of};
ghost use Rattle.idb_desk.specs.Parts.{board_of, desk_state_of};
ghost use Rattle.desk_steps.specs.Refusals.{is_allowed, refusal_of_step, has_some};
ghost use Rattle.desk_steps.specs.Steps.{after, answer_of, new_desk, DeskRun, desk_run, with_step, IsDeskRun, event_for};

use crate::allowing::{is_allowed, refusal_of_step};
use crate::board::{Board, Parts};
use crate::durabilities::{note_relaxed, settle};
use crate::making::make;
use crate::places::places_of_schemas;
use connection_queues::Queues;
use desk_steps::DeskStep;
use idb_base::NoMemory;
use idb_keys::ErrorName;
use idb_schema::{Schema, Schemas};
use name_queues::ClientEvent;
use scope_desk::ScopeDesk;
use std::alloc::Global;
use std::collections::BTreeSet;
use std::marker::Model;
use std::snapshot::Snapshot;

/// The desk of a session. It keeps its steps, with room for those that what stands can still make and that take no memory.
#[derive(Drop)]
pub struct Desk {
    pub(crate) opening: Snapshot<Schemas>,
    pub(crate) order: Vec<DeskStep>,
    pub(crate) owed: usize,
    pub(crate) relaxed: BTreeSet<u64>,
    pub(crate) parts: Parts,
}

impl Model for Desk {
    ghost use Rattle.std.specs.Prelude.{◌≡◌, ◌≤◌, ◌+◌};
    ghost use Rattle.std.specs.Vec.{vec_len, vec_capacity};
    ghost use Rattle.desk_steps.specs.DeskRoom.{owed_steps};
    ghost use Rattle.desk_steps.specs.Durabilities.{AreRelaxed};
    ghost use Rattle.idb_desk.specs.Parts.{desk_state_of};
    ghost use Rattle.desk_steps.specs.Steps.{DeskRun, desk_run, IsDeskRun};

    ghost Value = { DeskRun };

    ghost view = { λ a. record { opening = a.opening.value; order = a.order.items } };

    ghost invariant = { λ a.
        (desk_state_of a.parts ≡ desk_run (record { opening = a.opening.value; order = a.order.items }))
        × IsDeskRun (record { opening = a.opening.value; order = a.order.items })
        × (owed_steps (desk_state_of a.parts) ≤ a.owed)
        × (vec_len a.order + a.owed ≤ vec_capacity a.order)
        × AreRelaxed a.relaxed a.order.items };
}

impl Desk {
    /// The desk over these databases, with no step.
    pub fn new(alloc: Global, schemas: Schemas) -> Result<Desk, NoMemory>
        ensures { IfOk result (λ desk. desk ≡ record { opening = schemas; order = [] }) }
    {
        let opening = Snapshot::of(&schemas);
        let places = places_of_schemas(alloc, &schemas)?;
        let queues = Queues::new(alloc, schemas)?;
        let mut order = Vec::new(alloc);
        order.reserve(1)?;
        Ok(Desk {
            opening,
            order,
            owed: 1,
            relaxed: BTreeSet::new(alloc),
            parts: Parts {
                queues,
                board: Board {
                    alloc,
                    scopes: ScopeDesk::new(alloc),
                    places,
                    drawn: Vec::new(alloc),
                    clients: Vec::new(alloc),
                    is_faulted: false,
                },
            },
        })
    }

    /// Whether a step may be made.
    pub fn can(&self, step: &DeskStep) -> bool
        ensures allowed { result ≡ is_allowed (desk_run self.now) step.now }
        ensures run { IsDeskRun self.now }
    {
        is_allowed(&self.parts, step)
    }

    /// The name by which the call of a step is refused.
    pub fn refusal(&self, step: &DeskStep) -> Option<ErrorName>
        ensures { result ≡ refusal_of_step (desk_run self.now) step.now }
    {
        refusal_of_step(&self.parts, step)
    }

    /// Makes an allowed step; the event that it takes. A committed upgrade's schema is handed in twice, once with the step and
    /// once as `kept`: the list of steps keeps one, and the database gets the other. Only asks, takes and creates can want
    /// memory.
    pub fn step(
        &mut self,
        step: DeskStep,
        kept: Option<Schema>,
    ) -> Result<Option<ClientEvent>, NoMemory>
        requires allowed { is_allowed (desk_run self.old) step ≡ true }
        requires kept { kept ≡ kept_of step }
        ensures made { OnOk result (self.new ≡ with_step self.old step) }
        ensures event { IfOk result (λ e. e ≡ (answer_of (desk_run self.old) step).event) }
        ensures run { IsDeskRun self.new }
        ensures after { OnOk result (desk_run self.new ≡ after (desk_run self.old) step) }
        ensures unchanged { OnErr result (self.new ≡ self.old) }
        ensures no_memory { OnErr result (wants_memory step ≡ true) }
    {
        let added = note_relaxed(&mut self.relaxed, &step)?;
        let event = advance(&mut self.order, &mut self.owed, &mut self.parts, step, kept);
        settle(&mut self.relaxed, added, event.is_ok());
        event
    }
}

/// The step may want memory.
fn wants_memory(step: &DeskStep) -> bool
    ensures { result ≡ wants_memory step.now }
{
    match step {
        DeskStep::Asks { .. } | DeskStep::Takes { .. } | DeskStep::Creates { .. } => true,
        DeskStep::Handles { .. }
        | DeskStep::Closes { .. }
        | DeskStep::Starts { .. }
        | DeskStep::Leaves { .. }
        | DeskStep::Faults => false,
    }
}

/// Room for a step, and for three more than what was owed.
fn widen(order: &mut Vec<DeskStep>, owed: usize) -> Result<(), NoMemory>
    ensures same { order.new.items ≡ order.old.items }
    ensures length { vec_len order.new ≡ vec_len order.old }
    ensures room { OnOk result (vec_len order.new + owed + 4 ≤ vec_capacity order.new) }
    ensures capacity { vec_capacity order.old ≤ vec_capacity order.new }
{
    match owed.checked_add(4) {
        Some(more) => {
            order.reserve(more)?;
            Ok(())
        }
        None => Err(NoMemory),
    }
}

/// Puts a step behind the others, for which there is room.
fn put(order: &mut Vec<DeskStep>, step: DeskStep)
    requires { vec_len order.old < vec_capacity order.old }
    ensures items { order.new.items ≡ order.old.items ++ step ∷ [] }
    ensures length { vec_len order.new ≡ vec_len order.old + 1 }
    ensures capacity { vec_capacity order.old ≤ vec_capacity order.new }
{
    match order.push(step) {
        Ok(()) => {}
        Err(_) => unreachable!(),
    }
}

/// Makes a step that may want memory.
fn advance_wide(
    order: &mut Vec<DeskStep>,
    owed: &mut usize,
    parts: &mut Parts,
    step: DeskStep,
    kept: Option<Schema>,
) -> Result<Option<ClientEvent>, NoMemory>
    requires kept { kept ≡ kept_of step }
    requires room { vec_len order.old + owed.old ≤ vec_capacity order.old }
    ensures order { OnOk result (order.new.items ≡ order.old.items ++ step ∷ []) }
    ensures same { OnErr result (order.new.items ≡ order.old.items) }
    ensures made { OnOk result (desk_state_of parts.new ≡ after (desk_state_of parts.old) step) }
    ensures unchanged { OnErr result (desk_state_of parts.new ≡ desk_state_of parts.old) }
    ensures event { IfOk result (λ e. e ≡ (answer_of (desk_state_of parts.old) step).event) }
    ensures owed { OnOk result (owed.new ≡ owed.old + 3) }
    ensures owed_same { OnErr result (owed.new ≡ owed.old) }
    ensures room { vec_len order.new + owed.new ≤ vec_capacity order.new }
{
    widen(order, *owed)?;
    let event = make(parts, &step, kept)?;
    put(order, step);
    *owed += 3;
    Ok(event)
}

/// Makes a step that takes no memory.
fn advance_within(
    order: &mut Vec<DeskStep>,
    owed: &mut usize,
    parts: &mut Parts,
    step: DeskStep,
    kept: Option<Schema>,
) -> Option<ClientEvent>
    requires kept { kept ≡ kept_of step }
    requires small { wants_memory step ≡ false }
    requires owes { 1 ≤ owed.old }
    requires room { vec_len order.old + owed.old ≤ vec_capacity order.old }
    ensures order { order.new.items ≡ order.old.items ++ step ∷ [] }
    ensures made { desk_state_of parts.new ≡ after (desk_state_of parts.old) step }
    ensures event { result ≡ (answer_of (desk_state_of parts.old) step).event }
    ensures owed { owed.new + 1 ≡ owed.old }
    ensures room { vec_len order.new + owed.new ≤ vec_capacity order.new }
{
    let event = match make(parts, &step, kept) {
        Ok(event) => event,
        Err(_) => unreachable!(),
    };
    put(order, step);
    *owed -= 1;
    event
}

/// Makes an allowed step.
fn advance(
    order: &mut Vec<DeskStep>,
    owed: &mut usize,
    parts: &mut Parts,
    step: DeskStep,
    kept: Option<Schema>,
) -> Result<Option<ClientEvent>, NoMemory>
    requires allowed { is_allowed (desk_state_of parts.old) step ≡ true }
    requires kept { kept ≡ kept_of step }
    requires owed { owed_steps (desk_state_of parts.old) ≤ owed.old }
    requires room { vec_len order.old + owed.old ≤ vec_capacity order.old }
    ensures order { OnOk result (order.new.items ≡ order.old.items ++ step ∷ []) }
    ensures same { OnErr result (order.new.items ≡ order.old.items) }
    ensures made { OnOk result (desk_state_of parts.new ≡ after (desk_state_of parts.old) step) }
    ensures unchanged { OnErr result (desk_state_of parts.new ≡ desk_state_of parts.old) }
    ensures event { IfOk result (λ e. e ≡ (answer_of (desk_state_of parts.old) step).event) }
    ensures no_memory { OnErr result (wants_memory step ≡ true) }
    ensures owed { owed_steps (desk_state_of parts.new) ≤ owed.new }
    ensures room { vec_len order.new + owed.new ≤ vec_capacity order.new }
{
    if wants_memory(&step) {
        advance_wide(order, owed, parts, step, kept)
    } else {
        Ok(advance_within(order, owed, parts, step, kept))
    }
}
