// The words that requests, transactions and cursors are spoken of in.
ghost use Rattle.std.specs.Prelude.{◌≡◌, Some};
ghost use Rattle.idb_keys.specs.Names.{error_name};

use std::fmt;

/// The name of an error that a request, a transaction or a call can end with.
#[derive(Clone, Copy, Debug, PartialEq, Eq)]
pub enum ErrorName {
    AbortError,
    ConstraintError,
    DataCloneError,
    DataError,
    InvalidAccessError,
    InvalidStateError,
    NotFoundError,
    QuotaExceededError,
    ReadOnlyError,
    SyntaxError,
    TransactionInactiveError,
    TypeError,
    UnknownError,
    VersionError,
}

impl ErrorName {
    /// The name as the standard writes it.
    pub fn name(&self) -> &'static str
        ensures { result.now ≡ error_name self.now }
    {
        match self {
            ErrorName::AbortError => "AbortError",
            ErrorName::ConstraintError => "ConstraintError",
            ErrorName::DataCloneError => "DataCloneError",
            ErrorName::DataError => "DataError",
            ErrorName::InvalidAccessError => "InvalidAccessError",
            ErrorName::InvalidStateError => "InvalidStateError",
            ErrorName::NotFoundError => "NotFoundError",
            ErrorName::QuotaExceededError => "QuotaExceededError",
            ErrorName::ReadOnlyError => "ReadOnlyError",
            ErrorName::SyntaxError => "SyntaxError",
            ErrorName::TransactionInactiveError => "TransactionInactiveError",
            ErrorName::TypeError => "TypeError",
            ErrorName::UnknownError => "UnknownError",
            ErrorName::VersionError => "VersionError",
        }
    }
}

impl fmt::Display for ErrorName {
    ghost output = { λ x. Some (error_name x) };

    fn fmt<W: fmt::Write>(&self, f: &mut fmt::Formatter<W>) -> fmt::Result {
        let name = self.name();
        write!(f, "{name}")
    }
}

/// What a transaction may do (Indexed Database API 3.0, "mode").
#[derive(Clone, Copy, Debug, PartialEq, Eq)]
pub enum Mode {
    ReadOnly,
    ReadWrite,
    VersionChange,
}

/// What a commit waits for (Indexed Database API 3.0, "durability hint").
#[derive(Clone, Copy, Debug, PartialEq, Eq)]
pub enum Durability {
    Strict,
    Relaxed,
}

/// Which way a cursor moves (Indexed Database API 3.0, "direction"); the unique ones give one row a key.
#[derive(Clone, Copy, Debug, PartialEq, Eq)]
pub enum Direction {
    Next,
    NextUnique,
    Prev,
    PrevUnique,
}

/// What is read: the records of a store, or the index at this place of the store's indexes, counted from 0.
#[derive(Clone, Copy, Debug, PartialEq, Eq)]
pub enum Over {
    Store,
    Index(usize),
}
