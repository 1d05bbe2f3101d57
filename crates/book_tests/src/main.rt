//! Tests of `tx_book` over a disk that stops or fails at any of its calls. They call what is public, and stand in a crate of
//! their own so that no change of a test proves that crate anew.
#![tactic(auto)]

#[cfg(test)]
mod tx_book_tests;

fn main() {}
