// Whose turn it is.
ghost use Rattle.std.specs.Prelude.{◌≡◌, ℕ, position};
ghost use Rattle.scope_desk.specs.Starts.{may_start};
ghost use Rattle.scope_desk.specs.declared.unfinished.MayStart.TheVariants.{Go};
ghost use Rattle.idb_desk.specs.Steps.{desk_run};
ghost use Rattle.session_driver.specs.declared.choosing.NextMove.TheVariants as move;
ghost use Rattle.session_driver.specs.Choosing.{is_ready, next_move};

use crate::seats::Seat;
use idb_desk::Desk;

/// What is to be done next.
#[derive(Clone, Copy, Debug, PartialEq, Eq)]
pub(crate) enum NextMove {
    /// The client of this place, counted from 0, runs a task or takes an event.
    Client(usize),
    /// The transaction of this number is run whole.
    Transaction(u64),
    /// Nothing is left.
    Nothing,
}

fn is_ready(desk: &Desk, seat: &Seat) -> bool
    ensures { result ≡ is_ready (desk_run desk.now) seat.now }
{
    seat.client.has_task() || desk.has_event(seat.client.number())
}

/// The place of the least client that is ready.
fn ready_place(desk: &Desk, seats: &[Seat]) -> Option<usize>
    ensures { result ≡ position (is_ready (desk_run desk.now)) seats.now }
{
    seats.iter().position(|seat| is_ready(desk, seat))
}

/// The least client that is ready; else the least transaction that isn't finished.
pub(crate) fn next_move(desk: &Desk, seats: &[Seat]) -> NextMove
    ensures next { result ≡ next_move (desk_run desk.now) seats.now }
    ensures may_start { (number : ℕ) → result ≡ move.Transaction number
        → may_start (desk_run desk.now).board.scopes number ≡ Go }
{
    if let Some(place) = ready_place(desk, seats) {
        return NextMove::Client(place);
    }
    match desk.least() {
        Some(number) => NextMove::Transaction(number),
        None => NextMove::Nothing,
    }
}
