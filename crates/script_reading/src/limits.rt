// The limits of scripts. Specifications cite them by these names.

/// The greatest number of sessions of a script.
pub const MOST_SESSIONS: usize = 16;

/// The greatest number of clients of a session.
pub const MOST_CLIENTS: usize = 64;

/// The greatest number of times that a block is repeated.
pub const MOST_TIMES: u64 = 100_000;
