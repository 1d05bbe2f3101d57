// What is left of a transaction.
use idb_calls::Deltas;
use idb_schema::Schema;
use index_tables::Tables;
use live_stores::LiveStores;

/// What is left of a transaction: its schema, its stores, by which it can still be undone, and its changes in the order in which they took
/// effect.
#[derive(Drop)]
pub struct CourseParts<T: Tables> {
    pub schema: Schema,
    pub stores: LiveStores<T>,
    pub changes: Deltas,
}
