// A transaction that isn't finished, and where it stands among the others.
ghost use Rattle.std.specs.Prelude.{◌≡◌, ◌==◌, not, map, filter, position, Some, None};
ghost use Rattle.std.specs.Option.{option_copied};
ghost use Rattle.std.specs.List.{find};
ghost use Rattle.scope_desk.specs.Rising.{IsRisingFrom};
ghost use Rattle.scope_desk.specs.Starts.{writes, is_numbered};

use idb_base::Listed;
use idb_keys::Mode;
use std::collections::VecDeque;

/// A transaction that drew a number and isn't finished (Indexed Database API 3.0, "Transactions").
#[derive(Debug, Drop)]
pub struct Ticket {
    /// The number that it drew.
    pub number: u64,
    pub mode: Mode,
    /// The items of its scope, by their numbers.
    pub scope: Listed<u16>,
}

/// A transaction of this mode changes its items.
pub(crate) fn writes(mode: Mode) -> bool
    ensures { result ≡ writes mode }
{
    !matches!(mode, Mode::ReadOnly)
}

/// Where the transaction of this number stands among these, which stand by number. It halves.
pub(crate) fn place_of(tickets: &VecDeque<Ticket>, number: u64) -> Option<usize>
    requires { IsRisingFrom 1 (map (λ t. t.number) tickets.now.items) }
    ensures { result ≡ position (is_numbered number) tickets.now.items }
{
    let mut low = 0;
    let mut high = tickets.len();
    while low < high {
        let middle = low + (high - low) / 2;
        let here = tickets[middle].number;
        if here == number {
            return Some(middle);
        }
        if here < number {
            low = middle + 1;
        } else {
            high = middle;
        }
    }
    None
}

/// The transaction of this number.
pub(crate) fn ticket_of(tickets: &VecDeque<Ticket>, number: u64) -> Option<&Ticket>
    requires { IsRisingFrom 1 (map (λ t. t.number) tickets.now.items) }
    ensures { option_copied result ≡ find (is_numbered number) tickets.now.items }
{
    match place_of(tickets, number) {
        Some(place) => tickets.get(place),
        None => None,
    }
}

/// Takes the transaction of this number out. The shorter side moves.
pub(crate) fn take_out(tickets: &mut VecDeque<Ticket>, number: u64) -> Option<Ticket>
    requires { IsRisingFrom 1 (map (λ t. t.number) tickets.old.items) }
    ensures given { result ≡ find (is_numbered number) tickets.old.items }
    ensures left { tickets.new.items ≡ filter (λ t. not (is_numbered number t)) tickets.old.items }
{
    match place_of(tickets, number) {
        Some(place) => tickets.remove(place),
        None => None,
    }
}
