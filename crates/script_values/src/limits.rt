// The limits of what an expression gives. Specifications cite them by these names.

/// The greatest depth of an expression's value.
pub const GREATEST_EXPR_DEPTH: u32 = 120;

/// The greatest number of bytes that the spelling of an expression's value has.
pub const GREATEST_EXPR_SIZE: u64 = 1_048_576;
