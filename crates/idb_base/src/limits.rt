// The limits of the product. Specifications cite them by these names.

/// The greatest number of bytes of a text or a byte string, and of members of a list.
pub const GREATEST_LENGTH: usize = 4_294_967_295;

/// The greatest whole number of a value, 2^53; the greatest key that a generator gives.
pub const GREATEST_INT: i64 = 9_007_199_254_740_992;

/// The least whole number of a value, -2^53.
pub const LEAST_INT: i64 = -9_007_199_254_740_992;

/// The latest date, in milliseconds since 1970 began (ECMAScript, "Time Values and Time Range").
pub const GREATEST_DATE: i64 = 8_640_000_000_000_000;

/// The earliest date, in milliseconds since 1970 began.
pub const LEAST_DATE: i64 = -8_640_000_000_000_000;

/// The greatest depth of a value that is cloned, and of a key. A value without members has depth 1.
pub const GREATEST_DEPTH: usize = 100;
