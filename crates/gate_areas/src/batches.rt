// The batches of a log, as they are handed out.
ghost use Rattle.std.specs.Prelude.{◌≡◌, ◌≤◌, [], ◌∷◌, ◌++◌, length, Some, OnOk, OnErr, MatchOption, slice_get};

use idb_base::{Listed, NoMemory};
use std::alloc::Global;
use std::marker::Model;

/// The bytes of a batch. Callers see it as the list of them.
pub type Payload = Listed<u8>;

/// A batch: the place of its gate, and its payload.
#[derive(Drop)]
pub struct Batch {
    /// The place of its gate in its area.
    pub place: u64,
    /// Its payload.
    pub payload: Payload,
}

/// Batches in their order. Callers see it as the list of pairs of a place and a payload.
#[derive(Drop)]
pub struct Batches {
    items: Vec<Batch>,
}

impl Model for Batches {
    ghost use Rattle.std.specs.Prelude.{List, ℕ, map};
    ghost use Rattle.std.specs.Coded.{coded_ℕ, coded_list, coded×};

    ghost Value = { List (ℕ × List ℕ) };

    ghost coded = { coded_list (coded× coded_ℕ (coded_list coded_ℕ)) };

    ghost view = { λ b. map (λ batch. (batch.place, batch.payload)) b.items.items };
}

impl Batches {
    /// No batches.
    pub fn new(alloc: Global) -> Self
        ensures { result ≡ [] }
    {
        Batches {
            items: Vec::new(alloc),
        }
    }

    /// How many there are.
    pub fn len(&self) -> usize
        ensures { result ≡ length self.now }
    {
        self.items.len()
    }

    /// The batch at a place of the list; `None` past the end.
    pub fn at(&self, place: usize) -> Option<&Batch>
        ensures { MatchOption result (length self.now ≤ place)
            (λ batch. slice_get self.now place ≡ Some (batch.now.place, batch.now.payload)) }
    {
        self.items.get(place)
    }

    /// Adds a batch at the end. After an `Err` it is as before.
    pub fn push(&mut self, item: Batch) -> Result<(), NoMemory>
        ensures pushed { OnOk result (self.new ≡ self.old ++ (item.place, item.payload) ∷ []) }
        ensures unchanged { OnErr result (self.new ≡ self.old) }
    {
        Ok(self.items.push(item)?)
    }
}
