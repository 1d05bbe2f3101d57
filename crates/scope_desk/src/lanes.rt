// The numbers of the unfinished transactions that have an item in their scope, one list for each item.
ghost use Rattle.std.specs.Prelude.{◌≡◌, ◌<◌, ◌++◌, ◌∷◌, [], ℕ, length, slice_get, drop, Bool, true, if◌then◌else◌, ◌==◌, OnOk, OnErr, ◌⊎◌};
ghost use Rattle.scope_desk.specs.Rising.{without_number, AreAllBelow};
ghost use Rattle.scope_desk.specs.Starts.{has_item};
ghost use Rattle.scope_desk.specs.Lanes.{lane_at, entered, left, least_ahead, IsEnteredOrNot};

use idb_base::NoMemory;
use std::alloc::Global;
use std::collections::VecDeque;
use std::marker::Model;

/// Numbers that rise.
#[derive(Drop)]
pub(crate) struct Lane {
    numbers: VecDeque<u64>,
}

impl Model for Lane {
    ghost use Rattle.std.specs.Prelude.{ℕ, List};
    ghost use Rattle.scope_desk.specs.Rising.{IsRising};

    ghost Value = { List ℕ };

    ghost view = { λ a. a.numbers.items };

    ghost invariant = { λ a. IsRising a.numbers.items };
}

impl Lane {
    /// The empty lane; it takes no memory.
    pub fn new(alloc: Global) -> Lane
        ensures { result ≡ [] }
    {
        Lane {
            numbers: VecDeque::new(alloc),
        }
    }

    /// The least number.
    pub fn first(&self) -> Option<u64>
        ensures { result ≡ slice_get self.now 0 }
    {
        self.numbers.front().copied()
    }

    /// Puts a number behind these, which are smaller.
    pub fn enter(&mut self, number: u64) -> Result<(), NoMemory>
        requires { AreAllBelow number self.old }
        ensures entered { OnOk result (self.new ≡ self.old ++ number ∷ []) }
        ensures unchanged { OnErr result (self.new ≡ self.old) }
    {
        self.numbers.push_back(number)?;
        Ok(())
    }

    /// Takes the number out, where it is here. It halves; the numbers of the shorter side move.
    pub fn leave(&mut self, number: u64)
        ensures { self.new ≡ without_number number self.old }
    {
        if let Ok(place) = self.numbers.binary_search(&number) {
            self.numbers.remove(place);
        }
    }
}

/// Makes lanes up to the one of this item.
fn widen(alloc: Global, lanes: &mut Vec<Lane>, item: usize) -> Result<(), NoMemory>
    requires { item < 65536 }
    ensures there { OnOk result (item < length lanes.new.items) }
    ensures same { (k : ℕ) → lane_at lanes.new.items k ≡ lane_at lanes.old.items k }
{
    for _ in lanes.len()..item + 1 {
        lanes.push(Lane::new(alloc))?;
    }
    Ok(())
}

/// Puts a number behind those of this item.
fn enter_one(alloc: Global, lanes: &mut Vec<Lane>, item: usize, number: u64) -> Result<(), NoMemory>
    requires item { item < 65536 }
    requires greater { AreAllBelow number (lane_at lanes.old.items item) }
    ensures entered { OnOk result ((k : ℕ) → lane_at lanes.new.items k ≡ (if item == k
        then lane_at lanes.old.items k ++ number ∷ [] else lane_at lanes.old.items k)) }
    ensures unchanged { OnErr result ((k : ℕ) → lane_at lanes.new.items k ≡ lane_at lanes.old.items k) }
{
    widen(alloc, lanes, item)?;
    let lane = &mut lanes[item];
    lane.enter(number)
}

/// Puts a number behind those of each item of the scope.
fn enter_all(
    alloc: Global,
    lanes: &mut Vec<Lane>,
    scope: &[u16],
    number: u64,
) -> Result<(), NoMemory>
    requires { (k : ℕ) → AreAllBelow number (lane_at lanes.old.items k) }
    ensures entered { OnOk result ((k : ℕ) → lane_at lanes.new.items k
        ≡ entered number (has_item k scope.now) (lane_at lanes.old.items k)) }
    ensures some { OnErr result ((k : ℕ) → IsEnteredOrNot number
        (has_item k scope.now) (lane_at lanes.old.items k) (lane_at lanes.new.items k)) }
{
    for (i, item) in scope.iter().enumerate() {
        if !scope[..i].contains(item) {
            enter_one(alloc, lanes, usize::from(*item), number)?;
        }
    }
    Ok(())
}

/// Takes the number out of this item's lane, where it is there.
fn leave_one(lanes: &mut Vec<Lane>, item: usize, number: u64)
    ensures { (k : ℕ) → lane_at lanes.new.items k ≡ (if item == k
        then without_number number (lane_at lanes.old.items k) else lane_at lanes.old.items k) }
{
    if item < lanes.len() {
        let lane = &mut lanes[item];
        lane.leave(number);
    }
}

/// Takes the number out of the lane of each item of the scope.
pub(crate) fn leave_all(lanes: &mut Vec<Lane>, scope: &[u16], number: u64)
    ensures { (k : ℕ) → lane_at lanes.new.items k ≡ left number
        (has_item k scope.now) (lane_at lanes.old.items k) }
{
    for item in scope {
        leave_one(lanes, usize::from(*item), number);
    }
}

/// Puts a number behind those of each item of the scope; after a refusal the lanes are as before.
pub(crate) fn enter_or_leave(
    alloc: Global,
    lanes: &mut Vec<Lane>,
    scope: &[u16],
    number: u64,
) -> Result<(), NoMemory>
    requires { (k : ℕ) → AreAllBelow number (lane_at lanes.old.items k) }
    ensures entered { OnOk result ((k : ℕ) → lane_at lanes.new.items k
        ≡ entered number (has_item k scope.now) (lane_at lanes.old.items k)) }
    ensures unchanged { OnErr result ((k : ℕ) → lane_at lanes.new.items k ≡ lane_at lanes.old.items k) }
{
    match enter_all(alloc, lanes, scope, number) {
        Ok(()) => Ok(()),
        Err(e) => {
            leave_all(lanes, scope, number);
            Err(e)
        }
    }
}

fn lesser(first: Option<u64>, least: u64) -> u64
    ensures { result ≡ Rattle.scope_desk.specs.Lanes.lesser first least }
{
    match first {
        Some(number) if number < least => number,
        _ => least,
    }
}

fn first_at(lanes: &[Lane], item: usize) -> Option<u64>
    ensures { result ≡ slice_get (lane_at lanes.now item) 0 }
{
    match lanes.get(item) {
        Some(lane) => lane.first(),
        None => None,
    }
}

/// The least number at these items, or `most` where none is below it.
pub(crate) fn least_ahead(lanes: &[Lane], scope: &[u16], most: u64) -> u64
    ensures { result ≡ least_ahead lanes.now scope.now most }
{
    let mut least = most;
    for item in scope {
        least = lesser(first_at(lanes, usize::from(*item)), least);
    }
    least
}
