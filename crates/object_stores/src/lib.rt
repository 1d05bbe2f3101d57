// Object stores: records with their indexes and key generator, and every change of them undone without memory.
//
// Layers above hold a `StoreVersion`, which contracts see as plain data: the store, its content before each change, and what it
// was at the last settle. It is a store as the standard asks at each moment.
#![tactic(auto)]

mod changes;
mod changing;
mod choosing;
mod deleting;
mod error;
mod indexing;
mod meanings;
mod putting;
mod store;
mod undoing;
mod whole;

pub use error::StoreError;
pub use meanings::mark_laws;
pub use range_reads::IndexError;
pub use store::{Mark, StoreVersion};
pub use store_contents::store_laws;
