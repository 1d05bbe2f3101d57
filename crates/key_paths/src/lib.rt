// Keys and key paths on values: conversion, evaluation, extraction and injection (Indexed Database API 3.0,
// "Algorithms").
//
// Layers above store a value under what `extract` gives, which is `extracted` of its tree; `inject` puts a generated key
// in, and evaluating the path then gives that key.
#![tactic(auto)]

mod comparing;
mod conversion;
mod evaluation;
mod extraction;
mod injection;
mod multi_entry;

pub use comparing::{compare_key, compare_values, gives_key};
pub use conversion::{conversion_laws, is_key, to_key, to_value};
pub use evaluation::evaluate;
pub use extraction::{Extracted, Extraction, extract, extraction_laws, would_extract};
pub use injection::{could_inject, has_room, inject, injection_laws};
