// Key generators: the numbers that an object store gives to records without a key.
//
// Contracts see a generator as its current number, which is from 1 to 2^53 + 1. The layers above read `generate`, and
// `after_key`, the current number after a record with an explicit key was stored.
#![tactic(auto)]

mod generators;

pub use generators::{Exhausted, Generator, LAST_NUMBER, generator_laws};
