// What object stores hold: definitions and their laws.
//
// Records with the rows of their indexes, what a store shows of them, and what each operation makes of a store.
// `indexed_records` keeps the records and the rows, `object_stores` the stores.
#![tactic(auto)]

mod laws_of_stores;

pub use laws_of_stores::store_laws;
