// What every crate stands on: want of memory, the limits of the product, what a result gives, and lists.
//
// A layer above uses `NoMemory` as the one answer for want of memory, `Listed` as the list that contracts see plain, and
// the limits as constants that its specifications cite.
#![tactic(auto)]

mod limits;
mod listed;
mod memory;

pub use limits::{
    GREATEST_DATE, GREATEST_DEPTH, GREATEST_INT, GREATEST_LENGTH, LEAST_DATE, LEAST_INT,
};
pub use listed::Listed;
pub use memory::NoMemory;
