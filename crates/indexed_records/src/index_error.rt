// Why an index can't be made.
use clone_values::Key;

/// Why an index was not made.
#[derive(Drop)]
pub enum IndexError {
    /// The index is unique, and two records have this key, which is the least such one.
    Constraint { key: Key },
    /// Memory ran out.
    NoMemory,
}
