// The limits on databases.

/// The greatest version of a database.
pub const GREATEST_VERSION: u64 = 9_007_199_254_740_991;

/// The greatest number of databases.
pub const GREATEST_DATABASE_COUNT: usize = 16;

/// The greatest number of stores of one database.
pub const GREATEST_STORE_COUNT: usize = 63;
