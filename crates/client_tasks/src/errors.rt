// Why an event isn't taken.
use idb_base::NoMemory;

/// Why an event wasn't taken.
#[derive(Clone, Copy, Debug, PartialEq, Eq)]
pub enum TakeError {
    /// It belongs to no open or delete of the client, or begins a transaction that drew no number or has no schema.
    Stray,
    /// Memory ran out.
    NoMemory,
}

impl From<NoMemory> for TakeError {
    ghost use Rattle.std.specs.Prelude.{◌≡◌};
    ghost use Rattle.client_tasks.specs.declared.errors.TakeError.TheVariants as why;

    ghost from_gives = { λ _ e. e ≡ why.NoMemory };

    fn from(_e: NoMemory) -> TakeError {
        TakeError::NoMemory
    }
}
