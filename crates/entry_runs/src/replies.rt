// What a request came to.
use clone_values::Value;

/// What running a request came to.
#[derive(Drop)]
pub enum Reply {
    /// It would have passed a limit of the transaction, which aborts with QuotaExceededError.
    PastLimit,
    /// Its result.
    Answered(Value),
    /// It failed with ConstraintError.
    Failed,
}
