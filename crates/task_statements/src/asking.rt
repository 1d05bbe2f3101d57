// Opens, deletes and closes that tasks ask.
ghost use Rattle.std.specs.Prelude.{◌≡◌, ◌<◌, [], ◌∷◌, ◌++◌, IfOk, OnOk};
ghost use Rattle.std.specs.Vec.{vec_len, vec_capacity};
ghost use Rattle.client_parts.specs.Clients.{client_seen};
ghost use Rattle.client_seats.specs.Seating.{IsSeated};
ghost use Rattle.task_statements.specs.Doing.{AsksInto, ClosesInto};

use client_parts::{ClientParts, KeptOpen};
use idb_base::NoMemory;
use idb_desk::{Desk, DeskStep};
use idb_keys::ErrorName;
use name_queues::{ConnId, Wants};

/// Asks an open or a delete; the name where the desk refuses it, and then nothing is changed.
pub fn ask(
    desk: &mut Desk,
    parts: &mut ClientParts,
    wants: Wants,
    kept: KeptOpen,
) -> Result<Option<ErrorName>, NoMemory>
    requires { IsSeated (client_seen parts.old) desk.old }
    ensures asked { IfOk result (λ refusal. AsksInto (client_seen parts.old) desk.old wants kept
        (client_seen parts.new) desk.new refusal) }
    ensures seated { IsSeated (client_seen parts.new) desk.new }
{
    parts.opens.reserve(1)?;
    let step = DeskStep::Asks {
        who: ConnId {
            client: parts.number,
            request: parts.opens.len() as u32 + 1,
        },
        name: kept.name().clone()?,
        wants,
    };
    match desk.refusal(&step) {
        Some(error) => Ok(Some(error)),
        None => {
            desk.step(step, None)?;
            put_open(&mut parts.opens, kept);
            Ok(None)
        }
    }
}

/// Puts an open behind the others, for which there is room.
fn put_open(opens: &mut Vec<KeptOpen>, kept: KeptOpen)
    requires { vec_len opens.old < vec_capacity opens.old }
    ensures { opens.new.items ≡ opens.old.items ++ kept ∷ [] }
{
    match opens.push(kept) {
        Ok(()) => {}
        Err(_) => unreachable!(),
    }
}

/// Closes a connection, where the desk takes that; else nothing is changed.
pub fn close(desk: &mut Desk, parts: &ClientParts, who: ConnId) -> Result<(), NoMemory>
    requires { IsSeated (client_seen parts.now) desk.old }
    ensures closed { OnOk result (ClosesInto desk.old who desk.new) }
    ensures seated { IsSeated (client_seen parts.now) desk.new }
{
    let _ = parts;
    let step = DeskStep::Closes { who };
    if desk.can(&step) {
        desk.step(step, None)?;
    }
    Ok(())
}
