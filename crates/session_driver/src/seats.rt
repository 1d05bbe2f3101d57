// The clients of a session in their seats.
ghost use Rattle.std.specs.Prelude.{◌≡◌, ◌≤◌, ◌+◌, [], map, insert, IfOk, OnOk};
ghost use Rattle.std.specs.Arc.{arc_value};
ghost use Rattle.std.specs.Vec.{vec_len};
ghost use Rattle.client_machine.specs.ClientStates.{fresh_client};
ghost use Rattle.session_states.specs.Sessions.{fresh_seats};
ghost use Rattle.session_driver.specs.Seats.{seat_seen, script_of_seat};

use client_parts::ScriptClient;
use idb_base::NoMemory;
use script_runs::Notes;
use script_statements::{Client, Clients};
use std::alloc::Global;
use std::sync::Arc;

/// A client in its seat, with its script and what it noted.
#[derive(Drop)]
pub(crate) struct Seat {
    pub(crate) script: Arc<Client, Global>,
    pub(crate) client: ScriptClient,
    pub(crate) notes: Notes,
}

fn seat_of(alloc: Global, number: u32, script: Client) -> Result<Seat, NoMemory>
    ensures seat { IfOk result (λ s. seat_seen s
        ≡ record { client = fresh_client number script.main; notes = [] }) }
    ensures script { IfOk result (λ s. script_of_seat s ≡ script) }
{
    let client = ScriptClient::new(alloc, number, script.main)?;
    Ok(Seat {
        script: Arc::new(alloc, script)?,
        client,
        notes: Notes::new(alloc),
    })
}

/// The clients in their seats, numbered from 1 on.
pub(crate) fn seats_of(alloc: Global, clients: Clients) -> Result<Vec<Seat>, NoMemory>
    ensures seats { IfOk result (λ seats. map seat_seen seats.items ≡ fresh_seats 1 clients) }
    ensures scripts { IfOk result (λ seats. map script_of_seat seats.items ≡ clients) }
{
    let mut seats = Vec::new(alloc);
    let mut number: u32 = 0;
    for script in clients.into_vec() {
        number = next_number(number)?;
        seats.push(seat_of(alloc, number, script)?)?;
    }
    Ok(seats)
}

fn next_number(number: u32) -> Result<u32, NoMemory>
    ensures { IfOk result (λ next. next ≡ number + 1) }
{
    match number.checked_add(1) {
        Some(next) => Ok(next),
        None => Err(NoMemory),
    }
}

/// Puts a seat back in its place.
pub(crate) fn put_back(seats: &mut Vec<Seat>, place: usize, seat: Seat) -> Result<(), NoMemory>
    requires { place ≤ vec_len seats.old }
    ensures { OnOk result (seats.new.items ≡ insert seats.old.items place seat) }
{
    seats.insert(place, seat)?;
    Ok(())
}

/// Another of the shared scripts.
pub(crate) fn shared(script: &Arc<Client, Global>) -> Result<Arc<Client, Global>, NoMemory>
    ensures { IfOk result (λ again. arc_value again ≡ arc_value script.now) }
{
    Ok(script.clone()?)
}
