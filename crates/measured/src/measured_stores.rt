// The check of a store, `new` and add behind C, for bench/ alone. Proved safe; the crates that they call
// say what they compute.
//
// kept: numbers of refusals, and slices beside each other, since they cross to C.

use params::PipnnParams;
use words::ids::DocId;

// The checks with which every call but `new` begins.
pub fn measured_opening(words: &[u32], floats: &[f32]) -> u32 {
    error::number_or_zero(store::check_opening(words, floats, None))
}

// `new` with the Rust's default parameters.
pub fn measured_new(words: &mut [u32], floats: &mut [f32], dimension: u32, capacity: u32) -> u32 {
    let p = PipnnParams {
        max_leaf_size: 2048,
        min_leaf_size: 64,
        leader_fraction: 0.02,
        max_degree: 32,
        num_hash_bits: 12,
        final_prune: true,
        alpha: 1.2,
        ef_search: 100,
    };
    error::number_or_zero(pipnn::new(words, floats, dimension, p, capacity))
}

pub fn measured_add(words: &mut [u32], floats: &mut [f32], doc: u32, vector: &[f32]) -> u32 {
    error::number_or_zero(pipnn::add_slice(words, floats, DocId(doc), vector))
}
