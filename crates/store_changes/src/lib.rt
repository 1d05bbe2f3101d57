// The changes of a transaction made of a store, one by one, as recovery makes them.
//
// A layer above makes a change of the items by taking its store, making the change here, and putting the store back: what the
// store is then, and whether the change applies, is as the changes of items are defined.
#![tactic(auto)]

mod error;
mod indexes;
mod making;
mod records;

pub use error::ChangeError;
pub use making::make_change;
