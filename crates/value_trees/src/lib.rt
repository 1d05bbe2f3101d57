// Trees: what values and keys are, however they are stored.
//
// Definitions and their laws alone: the kinds of values, which of them are well formed, the same, or can be cloned, and
// the keys. `clone_values` has the types that are seen as these trees.
#![tactic(auto)]

mod laws_of_trees;

pub use idb_base::{
    GREATEST_DATE, GREATEST_DEPTH, GREATEST_INT, GREATEST_LENGTH, LEAST_DATE, LEAST_INT, Listed,
    NoMemory,
};
pub use laws_of_trees::tree_laws;
