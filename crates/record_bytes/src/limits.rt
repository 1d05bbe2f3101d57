// The limits of what a log holds.
use idb_base::GREATEST_INT;

/// The greatest version of a database in a log, 2^53 - 1.
pub const GREATEST_LOGGED_VERSION: u64 = GREATEST_INT as u64 - 1;
