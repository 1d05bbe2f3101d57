// What a call that a front did not take answers.
ghost use Rattle.std.specs.Prelude.{◌≡◌};

use idb_base::NoMemory;
use idb_keys::ErrorName;

/// Why a call was not taken.
#[derive(Clone, Copy, Debug, PartialEq, Eq)]
pub enum Refusal {
    /// The first cause in the order of the standard's checks.
    Name(ErrorName),
    /// Memory ran out.
    NoMemory,
}

impl From<NoMemory> for Refusal {
    ghost use Rattle.request_lists.specs.declared.refusing.Refusal.TheVariants as refusal;

    ghost from_gives = { λ _ r. r ≡ refusal.NoMemory };

    fn from(_e: NoMemory) -> Refusal {
        Refusal::NoMemory
    }
}

/// A request that was not taken, with the handler that was handed in.
#[derive(Drop)]
pub struct Refused<H> {
    pub refusal: Refusal,
    pub handler: H,
}
