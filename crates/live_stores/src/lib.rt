// The stores that a running transaction holds: read, changed in place, and given back as they were without memory.
//
// Layers above hold a `LiveStores`, which contracts see as two databases: the one before the transaction and the one now. Each
// call says what it makes of the one now; `restore` makes it the one before.
#![tactic(auto)]

mod changing;
mod giving;
mod held;
mod live;
mod slots;
mod standing;
mod stores;

pub use held::Held;
pub use live::LiveStores;
pub use stores::Stores;
