// What requests that read answer, and turns of cursors, over the store for which they ask. Each answer is a well formed value.
//
// Layers above find the store and the place of the index, and call `read_store` and `turn_over`.
#![tactic(auto)]

mod laws_of_answers;
mod reads;
mod turns;

pub use laws_of_answers::answer_laws;
pub use reads::read_store;
pub use turns::turn_over;
