// What queries ask for: no key, these keys, or nothing that can be asked (Indexed Database API 3.0, "convert a value to a key range").
//
// Layers above call `read_query`, which answers `wanted` of the query, and `is_query_refused` where they only check a call.
#![tactic(auto)]

mod queries;

pub use queries::{QueryKeys, is_query_refused, range_of_query, read_query};
