// Limits of one client.

/// How many tasks one client may post in a session; a post past it is refused with QuotaExceededError.
pub const GREATEST_POST_COUNT: u32 = 100_000;
