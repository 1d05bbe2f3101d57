// The steps as a report lists them, and the opens and deletes that aren't answered.
ghost use Rattle.std.specs.Prelude.{◌≡◌, ◌<◌, ◌≤◌, ℕ, Bool, true, false, [], ◌∷◌, ◌++◌, map, drop, length, OnOk, OnErr, IfOk, Some, None};
ghost use Rattle.std.specs.List.{flat_map};
ghost use Rattle.desk_steps.specs.Tokens.{token_of};
ghost use Rattle.desk_steps.specs.Waiting.{pending_on, front_waits, queue_pending, pending_of_name, sorted_pending};

use desk_steps::DeskStep;
use idb_base::NoMemory;
use idb_calls::{Pending, PendingLines, Tokens};
use name_queues::{Ask, ConnId, Named, Traffic};
use std::alloc::Global;
use std::collections::VecDeque;

/// The steps as an order lists them.
pub(crate) fn tokens_of(alloc: Global, steps: &[DeskStep]) -> Result<Tokens, NoMemory>
    ensures { IfOk result (λ tokens. tokens ≡ map token_of steps.now) }
{
    let mut tokens = Vec::new(alloc);
    for step in steps {
        tokens.push(step.token())?;
    }
    Ok(Tokens::from_vec(tokens))
}

fn pending_on(waits: bool, who: ConnId, ask: Ask) -> Pending
    ensures { result ≡ pending_on waits who ask }
{
    Pending {
        client: ask.who.client,
        request: ask.who.request,
        waits,
        of_client: who.client,
        of_request: who.request,
    }
}

/// These requests, from a place on, stand behind another.
fn push_behind(
    lines: &mut Vec<Pending>,
    who: ConnId,
    asks: &VecDeque<Ask>,
    from: usize,
) -> Result<(), NoMemory>
    requires { from ≤ length asks.now.items }
    ensures { OnOk result (lines.new.items
        ≡ lines.old.items ++ map (pending_on false who) (drop from asks.now.items)) }
{
    for place in from..asks.len() {
        lines.push(pending_on(false, who, asks[place]))?;
    }
    Ok(())
}

/// The request at the front waits for the least connection that isn't closed.
fn push_front(lines: &mut Vec<Pending>, front: Ask, traffic: &Traffic) -> Result<(), NoMemory>
    ensures { OnOk result (lines.new.items
        ≡ lines.old.items ++ front_waits front traffic.now.conns) }
{
    if let Some(who) = traffic.least() {
        lines.push(pending_on(true, who, front))?;
    }
    Ok(())
}

fn push_queue(lines: &mut Vec<Pending>, traffic: &Traffic) -> Result<(), NoMemory>
    ensures { OnOk result (lines.new.items
        ≡ lines.old.items ++ queue_pending traffic.now.conns traffic.now.queue) }
{
    if let Some(front) = traffic.front() {
        push_front(lines, front, traffic)?;
        push_behind(lines, front.who, traffic.asks(), 1)?;
    }
    Ok(())
}

fn push_name(lines: &mut Vec<Pending>, n: &Named) -> Result<(), NoMemory>
    ensures { OnOk result (lines.new.items ≡ lines.old.items ++ pending_of_name n.now) }
{
    match &n.running {
        Some(ask) => push_behind(lines, ask.who, n.traffic.asks(), 0),
        None => push_queue(lines, &n.traffic),
    }
}

fn push_names(lines: &mut Vec<Pending>, names: &[Named]) -> Result<(), NoMemory>
    ensures { OnOk result (lines.new.items ≡ lines.old.items ++ flat_map pending_of_name names.now) }
{
    for n in names {
        push_name(lines, n)?;
    }
    Ok(())
}

/// By client and request.
fn sorted_pending(lines: Vec<Pending>) -> Result<Vec<Pending>, NoMemory>
    ensures { IfOk result (λ sorted. sorted.items ≡ sorted_pending lines.items) }
{
    let mut sorted = lines;
    sorted.sort_by_key(|p| (p.client, p.request))?;
    Ok(sorted)
}

/// The requests of these names that aren't answered, by client and request.
pub(crate) fn pending_of(alloc: Global, names: &[Named]) -> Result<PendingLines, NoMemory>
    ensures { IfOk result (λ lines. lines ≡ sorted_pending (flat_map pending_of_name names.now)) }
{
    let mut lines = Vec::new(alloc);
    push_names(&mut lines, names)?;
    Ok(PendingLines::from_vec(sorted_pending(lines)?))
}
