// Transactions that run one by one in the order of their numbers, and what follows when they finished in another.
//
// There is no code here but definitions and laws: what a transaction was made with and what became of it, the run of one on the
// items that those before it left, and the order by numbers. The law is that transactions which finished in any order, in
// which those that conflict rise, have each the same run by their numbers, and leave the same items.
#![tactic(auto)]

mod laws_of_order;

pub use laws_of_order::{applying_laws, serial_laws};
