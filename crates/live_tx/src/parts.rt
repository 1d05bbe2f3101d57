// What is left of a live transaction.
use crate::standing::Standing;
use idb_calls::{Deltas, Events};
use idb_keys::{Durability, Mode};
use idb_schema::Schema;
use index_tables::Tables;
use live_stores::LiveStores;

/// What is left of a live transaction, and what its trace says.
#[derive(Drop)]
pub struct LiveParts<T: Tables> {
    pub number: u64,
    pub mode: Mode,
    pub durability: Durability,
    /// The schema as the entries that have run left it.
    pub schema: Schema,
    /// The stores, by which it can still be undone.
    pub stores: LiveStores<T>,
    /// Its changes, in the order in which they took effect.
    pub deltas: Deltas,
    /// What its requests were told, in order.
    pub told: Events,
    pub standing: Standing,
}
