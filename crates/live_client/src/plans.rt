// A handler that places calls by a plan.
ghost use Rattle.std.specs.Prelude.{◌≡◌, ◌∷◌, ◌++◌, [], drop, slice_get, IfOk, OnOk};
ghost use Rattle.request_lists.specs.Placing.{IsCall, Becomes};
ghost use Rattle.live_client.specs.Plans.{leaf, asked_one, asked_all, asked_turn};

use crate::calls::Calls;
use idb_base::NoMemory;
use idb_calls::{Call, Event, Events};
use request_lists::{Handler, HandlerEnd, Refusal, TxFront};
use std::alloc::Global;
use std::collections::VecDeque;
use std::marker::Model;

/// What a handler places at one event; beside each call stands how its own handler ends, which places nothing.
pub(crate) type Turn = Calls<HandlerEnd>;

/// At each event it writes the event, places its next turn, and ends as the plan says.
#[derive(Drop)]
pub(crate) struct Planned {
    alloc: Global,
    turns: VecDeque<Turn>,
    ends: HandlerEnd,
}

impl Model for Planned {
    ghost use Rattle.live_client.specs.Plans.{Plan, plan_code};

    ghost Value = { Plan };

    ghost coded = { plan_code };

    ghost view = { λ a. record { turns = a.turns.items; ends = a.ends } };
}

impl Planned {
    /// It places nothing yet; it takes no memory.
    pub(crate) fn new(alloc: Global, ends: HandlerEnd) -> Planned
        ensures { result ≡ leaf ends }
    {
        Planned {
            alloc,
            turns: VecDeque::new(alloc),
            ends,
        }
    }

    /// One turn more, the last.
    pub(crate) fn push(&mut self, turn: Turn) -> Result<(), NoMemory>
        ensures { OnOk result (self.new ≡ record self.old { turns = self.old.turns ++ turn ∷ [] }) }
    {
        self.turns.push_back(turn)?;
        Ok(())
    }

    /// Takes its next turn, if one is left.
    fn next_turn(&mut self) -> Option<Turn>
        ensures first { result ≡ slice_get self.old.turns 0 }
        ensures left { self.new ≡ record self.old { turns = drop 1 self.old.turns } }
    {
        self.turns.pop_front()
    }

    /// Places its next turn, and says how it ends.
    fn react(&mut self, front: &mut TxFront<Planned>) -> Result<HandlerEnd, NoMemory>
        ensures ends { IfOk result (λ how. how ≡ self.old.ends) }
        ensures left { self.new ≡ record self.old { turns = drop 1 self.old.turns } }
        ensures placed { OnOk result
            (front.new ≡ asked_turn (slice_get self.old.turns 0) front.old) }
        ensures becomes { Becomes front.old front.new }
    {
        let ends = self.ends;
        match self.next_turn() {
            Some(turn) => match place_turn(self.alloc, front, turn) {
                Ok(()) => return Ok(ends),
                Err(NoMemory) => return Err(NoMemory),
            },
            None => return Ok(ends),
        }
    }
}

/// Places a request; one that is refused changes nothing.
pub(crate) fn place(
    front: &mut TxFront<Planned>,
    call: Call,
    handler: Planned,
) -> Result<(), NoMemory>
    requires { IsCall call }
    ensures placed { OnOk result (front.new ≡ asked_one front.old call handler) }
    ensures becomes { Becomes front.old front.new }
{
    match front.place(call, handler) {
        Ok(_) => Ok(()),
        Err(refused) => match refused.refusal {
            Refusal::Name(_) => Ok(()),
            Refusal::NoMemory => Err(NoMemory),
        },
    }
}

/// Places the calls of a turn.
fn place_turn(alloc: Global, front: &mut TxFront<Planned>, turn: Turn) -> Result<(), NoMemory>
    ensures placed { OnOk result (front.new ≡ asked_all leaf turn front.old) }
    ensures becomes { Becomes front.old front.new }
{
    let mut left = turn;
    while let Some(request) = left.take() {
        let (call, ends) = request;
        match place(front, call, Planned::new(alloc, ends)) {
            Ok(()) => {}
            Err(NoMemory) => return Err(NoMemory),
        }
    }
    Ok(())
}

/// Writes a copy of the event.
fn write_event(event: &Event, notes: &mut Events) -> Result<(), NoMemory>
    ensures { OnOk result (notes.new ≡ notes.old ++ event.now ∷ []) }
{
    match event.clone() {
        Ok(copy) => notes.push(copy),
        Err(_) => Err(NoMemory),
    }
}

impl Handler for Planned {
    type Notes = Events;

    ghost use Rattle.idb_calls.specs.declared.events.Event.{Event};
    ghost use Rattle.live_client.specs.Plans.{Plan, plan_code, same_plan, PlanReacts, PlanWrites};

    ghost Plain = { Plan };

    ghost plain_code = { plan_code };

    ghost plain = { same_plan };

    ghost reacts = { PlanReacts };

    ghost Line = { Event };

    ghost lines = { λ notes. notes };

    ghost writes = { PlanWrites };

    fn on_event(
        &mut self,
        front: &mut TxFront<Planned>,
        event: &Event,
        notes: &mut Events,
    ) -> HandlerEnd {
        let Ok(()) = write_event(event, notes) else {
            return HandlerEnd::NoMemory;
        };
        match self.react(front) {
            Ok(how) => return how,
            Err(_) => return HandlerEnd::NoMemory,
        }
    }
}
