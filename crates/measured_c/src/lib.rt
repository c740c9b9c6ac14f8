// The static library for bench/: what `measured` has, each under its C name. `bindings/archive measured` writes the archive.
//
// kept: slices and numbers, since they cross to C.
#![tactic(auto)]

use measured::measured_stores;

#[unsafe(no_mangle)]
pub extern "C" fn measured_one(q: &[f32], rows: &[f32], out: &mut [f32]) -> usize {
    measured::measured_one(q, rows, out)
}

#[unsafe(no_mangle)]
pub extern "C" fn measured_eight(q: &[f32], rows: &[f32], out: &mut [f32]) -> usize {
    measured::measured_eight(q, rows, out)
}

#[unsafe(no_mangle)]
pub extern "C" fn measured_block(q: &[f32], blocks: &[f32], out: &mut [f32]) -> usize {
    measured::measured_block(q, blocks, out)
}

#[unsafe(no_mangle)]
pub extern "C" fn measured_roots(xs: &[f32], out: &mut [f32]) {
    measured::measured_roots(xs, out);
}

#[unsafe(no_mangle)]
pub extern "C" fn measured_opening(words: &[u32], floats: &[f32]) -> u32 {
    measured_stores::measured_opening(words, floats)
}

#[unsafe(no_mangle)]
pub extern "C" fn measured_new(
    words: &mut [u32],
    floats: &mut [f32],
    dimension: u32,
    capacity: u32,
) -> u32 {
    measured_stores::measured_new(words, floats, dimension, capacity)
}

#[unsafe(no_mangle)]
pub extern "C" fn measured_add(
    words: &mut [u32],
    floats: &mut [f32],
    doc: u32,
    vector: &[f32],
) -> u32 {
    measured_stores::measured_add(words, floats, doc, vector)
}
