// The distance of two vectors (scope, part 1), as `cosine_distance_normalized` of the Rust's distance.rs.
//
// 1 − dot, and infinity where the lengths differ: equal to `distance_of` of specs/Distance for slices
// of any length and floats of any kind. `cosine_distance_normalized8` takes eight rows at once and
// `cosine_distance_normalized_block` the eight rows of a block, with the bits of eight single distances.
#![tactic(auto)]

pub mod order;
pub mod vectors;

ghost use Rattle.std.specs.Prelude.{◌≡◌};
ghost use Rattle.std.specs.Float.{binary32};
ghost use Rattle.distance.specs.Distance.{distance_of, distances_of, block_distances_of};

pub fn cosine_distance_normalized(a: &[f32], b: &[f32]) -> f32
    ensures { result ≡ distance_of binary32 a.now b.now }
{
    if a.len() == b.len() {
        return 1.0 - simd::dot(a, b);
    }
    f32::INFINITY
}

// The distances of one query to eight rows.
pub fn cosine_distance_normalized8(q: &[f32], rows: [&[f32]; 8]) -> [f32; 8]
    ensures { result ≡ distances_of q.now rows.entry }
{
    if rows.iter().all(|row| q.len() == row.len()) {
        return simd::dot8(q, rows).map(|dot| 1.0 - dot);
    }
    rows.map(|row| cosine_distance_normalized(q, row))
}

// The distances of one query to the eight rows of a block (`simd::dot_block`).
pub fn cosine_distance_normalized_block(q: &[f32], block: &[f32]) -> [f32; 8]
    ensures { result ≡ block_distances_of q.now block.now }
{
    if q.len() == block.len() / 8 {
        return simd::dot_block(q, block).map(|dot| 1.0 - dot);
    }
    [f32::INFINITY; 8]
}
