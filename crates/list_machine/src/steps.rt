// What a step of a transaction answers.
use idb_keys::ErrorName;

/// What one turn came to (Indexed Database API 3.0, "transaction lifetime").
#[derive(Clone, Copy, Debug, PartialEq, Eq)]
pub enum Step {
    /// The first entry was run and its event handled.
    Did,
    /// No entry is left: the transaction can commit.
    Idle,
    /// The transaction aborted; the error is `None` where the script itself aborted.
    Aborted { error: Option<ErrorName> },
    /// Memory ran out.
    NoMemory,
}
