// Sorted tables: entries whose keys rise strictly, with spare places that make an insertion certain.
//
// Layers above hold an `OrderedTable`, which contracts see as the list of its entries and a number of spare places;
// `FlatTable` is one, and `table_laws` says what the words of its contract mean.
#![tactic(auto)]

mod cut;
mod flat;
mod halving;
mod meanings;
mod order;
mod steps;
mod table;

pub use cut::Cut;
pub use flat::FlatTable;
pub use halving::{first_in, place_in};
pub use meanings::table_laws;
pub use order::Ordered;
pub use steps::Steps;
pub use table::{OrderedTable, find_place};

#[cfg(test)]
mod tests;
