// The limits of one run of a task or a handler. Specifications cite them by these names.

/// How many statements run; the next one ends the run.
pub const MOST_STATEMENTS: u32 = 100_000;

/// How deep blocks may stand in one another; a deeper one ends the run.
pub const DEEPEST_BLOCK: u32 = 64;
