// Limits of one transaction and of one database; what changes it may make is limited by `GREATEST_DELTA_COUNT` of `idb_calls`.

/// The greatest number of requests that one transaction runs, each continuation of a cursor counting.
pub const GREATEST_REQUEST_COUNT: u32 = 100_000;

/// The greatest number of bytes of values, as they are spelled, that one transaction stores.
pub const GREATEST_VALUE_BYTES: u64 = 67_108_864;

/// The greatest number of stores of one database.
pub const GREATEST_STORE_COUNT: usize = 63;
