// The members of Sets and the keys of Maps, where a primitive stands once: told and built in the time of a sort.
//
// Layers above that read many members cite `are_once` and `keys_are_once`, or build by `SetBuilder` and `MapBuilder`,
// whose calls do what those of the plain lists do.
#![tactic(auto)]

mod map_builder;
mod once;
mod places;
mod primitives;
mod set_builder;

pub use map_builder::MapBuilder;
pub use once::{are_once, keys_are_once};
pub use set_builder::SetBuilder;
