// The limits of batches.

/// The greatest number of commits of one batch.
pub const GREATEST_BATCH_COUNT: usize = 64;

/// A batch whose payload has this many bytes, or more, has ended.
pub const FULL_BATCH_BYTES: usize = 262_144;
