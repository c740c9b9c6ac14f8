// What all code shares.
//
// ids     node numbers and doc ids, as two types
// slices  a word read, an element written, where there may be none; a slice copied
#![tactic(auto)]

pub mod ids;
pub mod slices;
