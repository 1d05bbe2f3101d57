// The turns of a transaction.
ghost use Rattle.std.specs.Prelude.{◌≡◌, ◌∷◌, [], ◌++◌, drop, length, OnOk};
ghost use Rattle.session_txs.specs.Keeping.{turns_seen};

use idb_base::NoMemory;
use script_runs::Notes;
use std::snapshot::Snapshot;

/// The notes before a turn and after it, for contracts alone: it has no bytes.
#[derive(Drop)]
pub(crate) struct TurnNotes {
    pub(crate) before: Snapshot<Notes>,
    pub(crate) after: Snapshot<Notes>,
}

/// Notes a turn that was made since these notes.
pub(crate) fn note_turn(
    turns: &mut Vec<TurnNotes>,
    before: Snapshot<Notes>,
    notes: &Notes,
) -> Result<(), NoMemory>
    ensures { OnOk result (turns_seen turns.new.items
        ≡ turns_seen turns.old.items ++ drop (length before.value) notes.now ∷ []) }
{
    turns.push(TurnNotes {
        before,
        after: Snapshot::of(notes),
    })?;
    Ok(())
}
