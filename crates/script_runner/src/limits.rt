// The limit of a script. Specifications cite it by its name.

/// The greatest number of bytes of a script.
pub const MOST_SCRIPT_BYTES: usize = 16_777_216;
