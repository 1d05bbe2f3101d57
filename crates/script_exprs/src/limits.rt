// The limit of expressions. Specifications cite it by this name.

/// How many levels the document of an expression may have: as many as there are in any document that is read, whose
/// lists and objects nest at most 127 deep.
pub const MOST_LEVELS: u32 = 128;
