// Values, keys and key paths: the lowest layer of the database.
//
// Contracts see a value as a plain tree, a key as a plain key tree and each list as a list, with no capacity or pointer
// in them; every layer above speaks of `tree_of v.now` and `key_tree_of k.now`. Values share their lists: a copy costs the
// same at every size, and a change copies one level where the list is shared.
#![tactic(auto)]

mod checking;
mod cloning;
mod copies;
mod holding;
mod key_types;
mod path_types;
mod properties;
mod putting;
mod sameness;
mod small_lists;
mod value_laws;
mod value_types;

pub use checking::{is_array_name, is_date, is_int, well_formed};
pub use cloning::{CloneError, clone_value, depth, is_cloneable};
pub use copies::copy_value;
pub use key_types::{Key, Keys};
pub use path_types::PathSpec;
pub use sameness::same_value;
pub use small_lists::{Bytes, Numbers, Text, Texts};
pub use value_laws::building_laws;
pub use value_types::{Items, Pair, Pairs, Prop, Props, Value};
