// Posts become tasks.
ghost use Rattle.std.specs.Prelude.{◌≡◌, ◌≤◌, drop, length, OnOk, OnErr};
ghost use Rattle.client_seats.specs.ClientStates.{with_task, with_notes};
ghost use Rattle.client_seats.specs.Seating.{SitsAlike};
ghost use Rattle.client_parts.specs.Posting.{with_note};
ghost use Rattle.client_parts.specs.Clients.{client_seen};

use crate::clients::ClientParts;
use client_seats::GREATEST_POST_COUNT;
use idb_base::NoMemory;
use script_runs::{Note, Notes, Task};

/// The posts among the notes from this place on stand behind the tasks, as far as the limit lets them.
pub fn take_posts(parts: &mut ClientParts, notes: &Notes, from: usize) -> Result<(), NoMemory>
    ensures posted { OnOk result (client_seen parts.new
        ≡ with_notes (client_seen parts.old) (drop from notes.now)) }
    ensures alike { SitsAlike (client_seen parts.old) (client_seen parts.new) }
{
    for place in from..notes.len() {
        if let Some(note) = notes.at(place) {
            take_note(parts, note)?;
        }
    }
    Ok(())
}

fn take_note(parts: &mut ClientParts, note: &Note) -> Result<(), NoMemory>
    ensures posted { OnOk result (client_seen parts.new
        ≡ with_note (client_seen parts.old) note.now) }
    ensures unchanged { OnErr result (client_seen parts.new ≡ client_seen parts.old) }
{
    match note {
        Note::Line(_) => Ok(()),
        Note::Posted(task) => post(parts, task),
    }
}

fn post(parts: &mut ClientParts, task: &Task) -> Result<(), NoMemory>
    ensures posted { OnOk result (client_seen parts.new ≡ with_task (client_seen parts.old) task.now) }
    ensures unchanged { OnErr result (client_seen parts.new ≡ client_seen parts.old) }
{
    if parts.posts < GREATEST_POST_COUNT {
        let env = task.env.copy()?;
        parts.tasks.push_back(Task {
            block: task.block,
            env,
        })?;
        parts.posts += 1;
    }
    Ok(())
}
