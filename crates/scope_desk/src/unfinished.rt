// The unfinished transactions (Indexed Database API 3.0, "Transactions" and "transaction lifetime").
ghost use Rattle.std.specs.Prelude.{◌≡◌, ◌<◌, ◌+◌, ◌-◌, ◌^◌, ℕ, ◌&&◌, not, filter, if◌then◌else◌, [], ◌∷◌, ◌++◌, slice_get, option_map, OnOk, OnErr, IfOk, IfSome};
ghost use Rattle.std.specs.List.{list_any};
ghost use Rattle.scope_desk.specs.declared.unfinished.MayStart.TheVariants.{Go};
ghost use Rattle.scope_desk.specs.Starts.{Scopes, created, finished, may_start, start_of, IsUnfinished, AreByNumber, blocker_below, blocker_of, is_numbered, has_item, writes};
ghost use Rattle.scope_desk.specs.Rising.{AreAllBelow};
ghost use Rattle.scope_desk.specs.Lanes.{AreKept, lane_at, entered, least_ahead};

use crate::lanes::{Lane, enter_or_leave, least_ahead, leave_all};
use crate::tickets::{Ticket, take_out, ticket_of, writes};
use idb_base::{Listed, NoMemory};
use idb_keys::Mode;
use std::alloc::Global;
use std::collections::VecDeque;
use std::marker::Model;

/// Whether a transaction may start.
#[derive(Clone, Copy, Debug, PartialEq, Eq)]
pub enum MayStart {
    Go,
    /// The least earlier unfinished transaction that conflicts with it.
    NotYet { blocker: u64 },
}

/// The unfinished transactions and the next number.
#[derive(Drop)]
pub struct ScopeDesk {
    alloc: Global,
    tickets: VecDeque<Ticket>,
    next: u64,
    all: Vec<Lane>,
    writers: Vec<Lane>,
}

impl Model for ScopeDesk {
    ghost use Rattle.scope_desk.specs.Starts.{Scopes};
    ghost use Rattle.scope_desk.specs.Rising.{AreAllBelow};
    ghost use Rattle.scope_desk.specs.Lanes.{AreKept};

    ghost Value = { Scopes };

    ghost view = { λ a. record { unfinished = a.tickets.items; next = a.next } };

    ghost invariant = { λ a. AreKept a.tickets.items a.next a.all.items a.writers.items };
}

fn start_unless(least: u64, number: u64) -> MayStart
    ensures { result ≡ start_of (blocker_below least number) }
{
    if least < number {
        MayStart::NotYet { blocker: least }
    } else {
        MayStart::Go
    }
}

impl ScopeDesk {
    /// No transaction, and 1 as the next number. It takes no memory.
    pub fn new(alloc: Global) -> ScopeDesk
        ensures { result ≡ record { unfinished = []; next = 1 } }
    {
        ScopeDesk {
            alloc,
            tickets: VecDeque::new(alloc),
            next: 1,
            all: Vec::new(alloc),
            writers: Vec::new(alloc),
        }
    }

    /// The number that is drawn next.
    pub fn next(&self) -> u64
        ensures number { result ≡ self.now.next }
        ensures by_number { AreByNumber self.now }
    {
        self.next
    }

    /// The least unfinished transaction. It looks at no other.
    pub fn least(&self) -> Option<u64>
        ensures first { result ≡ option_map (λ t. t.number) (slice_get self.now.unfinished 0) }
        ensures may_start { IfSome result (λ number. may_start self.now number ≡ Go) }
    {
        first_number(&self.tickets)
    }

    /// Whether the number is that of an unfinished transaction.
    pub fn has(&self, number: u64) -> bool
        ensures { result ≡ list_any (is_numbered number) self.now.unfinished }
    {
        match ticket_of(&self.tickets, number) {
            Some(_) => true,
            None => false,
        }
    }

    /// A transaction with these items draws the next number. Where an item stands more than once, it counts once.
    pub fn create(&mut self, scope: &[u16], mode: Mode) -> Result<u64, NoMemory>
        requires { self.old.next < 2 ^ 64 - 1 }
        ensures drawn { IfOk result (λ number. number ≡ self.old.next) }
        ensures created { OnOk result (self.new ≡ created self.old scope.now mode) }
        ensures unchanged { OnErr result (self.new ≡ self.old) }
    {
        let number = self.next;
        put_in(
            self.alloc,
            &mut self.tickets,
            &mut self.all,
            &mut self.writers,
            number,
            scope,
            mode,
        )?;
        self.next += 1;
        Ok(number)
    }

    /// Whether the transaction of this number may start. It looks at the first of each of its own items.
    pub fn may_start(&self, number: u64) -> MayStart
        requires { IsUnfinished self.now number }
        ensures { result ≡ may_start self.now number }
    {
        match ticket_of(&self.tickets, number) {
            Some(ticket) => start_of_ticket(
                &self.tickets,
                &self.all,
                &self.writers,
                self.next,
                ticket,
            ),
            None => MayStart::Go,
        }
    }

    /// The transaction of this number is finished. It takes no memory.
    pub fn finish(&mut self, number: u64)
        requires { IsUnfinished self.old number }
        ensures { self.new ≡ finished self.old number }
    {
        leave(
            &mut self.tickets,
            &mut self.all,
            &mut self.writers,
            self.next,
            number,
        );
    }
}

/// Whether one of these transactions may start.
fn start_of_ticket(
    tickets: &VecDeque<Ticket>,
    all: &Vec<Lane>,
    writers: &Vec<Lane>,
    next: u64,
    ticket: &Ticket,
) -> MayStart
    requires { AreKept tickets.now.items next all.now.items writers.now.items }
    ensures { result ≡ start_of (blocker_of tickets.now.items ticket.now) }
{
    start_unless(least_for(all, writers, ticket), ticket.number)
}

/// The least number ahead of a transaction at its items; a reader looks at writers alone.
fn least_for(all: &Vec<Lane>, writers: &Vec<Lane>, ticket: &Ticket) -> u64
    ensures { result ≡ (if writes ticket.now.mode
        then least_ahead all.now.items ticket.now.scope ticket.now.number
        else least_ahead writers.now.items ticket.now.scope ticket.now.number) }
{
    let scope = ticket.scope.as_slice();
    if writes(ticket.mode) {
        least_ahead(all.as_slice(), scope, ticket.number)
    } else {
        least_ahead(writers.as_slice(), scope, ticket.number)
    }
}

fn first_number(tickets: &VecDeque<Ticket>) -> Option<u64>
    ensures { result ≡ option_map (λ t. t.number) (slice_get tickets.now.items 0) }
{
    match tickets.front() {
        Some(ticket) => Some(ticket.number),
        None => None,
    }
}

/// Takes the transaction of this number out of all that is kept.
fn leave(
    tickets: &mut VecDeque<Ticket>,
    all: &mut Vec<Lane>,
    writers: &mut Vec<Lane>,
    next: u64,
    number: u64,
)
    requires { AreKept tickets.old.items next all.old.items writers.old.items }
    ensures left { tickets.new.items ≡ filter (λ t. not (is_numbered number t)) tickets.old.items }
    ensures kept { AreKept tickets.new.items next all.new.items writers.new.items }
{
    if let Some(ticket) = take_out(tickets, number) {
        let scope = ticket.scope.as_slice();
        leave_all(all, scope, number);
        leave_all(writers, scope, number);
    }
}

/// Puts a transaction behind these, which drew smaller numbers.
fn put_in(
    alloc: Global,
    tickets: &mut VecDeque<Ticket>,
    all: &mut Vec<Lane>,
    writers: &mut Vec<Lane>,
    number: u64,
    scope: &[u16],
    mode: Mode,
) -> Result<(), NoMemory>
    requires { AreKept tickets.old.items number all.old.items writers.old.items }
    ensures stored { OnOk result (tickets.new.items
        ≡ tickets.old.items ++ record { number = number; mode = mode; scope = scope.now } ∷ []) }
    ensures kept { OnOk result (AreKept tickets.new.items (number + 1) all.new.items writers.new.items) }
    ensures unchanged { OnErr result (tickets.new.items ≡ tickets.old.items) }
    ensures kept_else { OnErr result (AreKept tickets.new.items number all.new.items writers.new.items) }
{
    let copied = Vec::from_slice(alloc, scope)?;
    tickets.reserve(1)?;
    enter_both(alloc, all, writers, number, scope, mode)?;
    let ticket = Ticket {
        number,
        mode,
        scope: Listed::from_vec(copied),
    };
    match tickets.push_back(ticket) {
        Ok(()) => Ok(()),
        Err(_) => unreachable!(),
    }
}

/// Puts a number into the lanes of its items; after a refusal they are as before.
fn enter_both(
    alloc: Global,
    all: &mut Vec<Lane>,
    writers: &mut Vec<Lane>,
    number: u64,
    scope: &[u16],
    mode: Mode,
) -> Result<(), NoMemory>
    requires all { (k : ℕ) → AreAllBelow number (lane_at all.old.items k) }
    requires writers { (k : ℕ) → AreAllBelow number (lane_at writers.old.items k) }
    ensures all { OnOk result ((k : ℕ) → lane_at all.new.items k
        ≡ entered number (has_item k scope.now) (lane_at all.old.items k)) }
    ensures writers { OnOk result ((k : ℕ) → lane_at writers.new.items k
        ≡ entered number (has_item k scope.now && writes mode) (lane_at writers.old.items k)) }
    ensures all_else { OnErr result ((k : ℕ) → lane_at all.new.items k ≡ lane_at all.old.items k) }
    ensures writers_else { OnErr result ((k : ℕ) → lane_at writers.new.items k
        ≡ lane_at writers.old.items k) }
{
    enter_or_leave(alloc, all, scope, number)?;
    match enter_if(alloc, writers, scope, number, writes(mode)) {
        Ok(()) => Ok(()),
        Err(e) => {
            leave_all(all, scope, number);
            Err(e)
        }
    }
}

/// The same where it is asked.
fn enter_if(
    alloc: Global,
    lanes: &mut Vec<Lane>,
    scope: &[u16],
    number: u64,
    enters: bool,
) -> Result<(), NoMemory>
    requires { (k : ℕ) → AreAllBelow number (lane_at lanes.old.items k) }
    ensures entered { OnOk result ((k : ℕ) → lane_at lanes.new.items k
        ≡ entered number (has_item k scope.now && enters) (lane_at lanes.old.items k)) }
    ensures unchanged { OnErr result ((k : ℕ) → lane_at lanes.new.items k ≡ lane_at lanes.old.items k) }
{
    if enters {
        enter_or_leave(alloc, lanes, scope, number)
    } else {
        Ok(())
    }
}
