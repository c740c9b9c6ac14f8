// Distances and roots for bench/ alone, which links them by `measured_c`: a loop over rows inside the library, so that a call from
// outside is paid for once for many rows. Proved safe; the crates that they call say what they compute.
//
// kept: a function for each way that is measured, with slices and numbers, since they cross to C.
#![tactic(auto)]

pub mod measured_stores;

ghost use Rattle.std.specs.Prelude.{◌≡◌, ◌*◌, ◌/◌, length};

use norm::root;

// Each row's distance to the query, one at a time. Answers how many rows there were. An empty query has as many
// rows, all empty, as there is room for.
pub fn measured_one(q: &[f32], rows: &[f32], out: &mut [f32]) -> usize
    ensures { length q.now ≡ 0 → result ≡ length out.old }
{
    if q.is_empty() {
        return empty_rows(q, out);
    }
    let size = q.len();
    let count = out.len().min(rows.len() / size);
    for (far, row) in out.iter_mut().zip(rows.chunks_exact(size)) {
        *far = distance::cosine_distance_normalized(q, row);
    }
    count
}

// The same, eight rows at a time; rows beyond the last eight are left.
pub fn measured_eight(q: &[f32], rows: &[f32], out: &mut [f32]) -> usize
    ensures { length q.now ≡ 0 → result ≡ 8 * (length out.old / 8) }
{
    if q.is_empty() {
        return empty_eights(q, out);
    }
    let size = q.len();
    let count = (out.len() / 8).min(rows.len() / 8 / size);
    for (far, some) in out.chunks_exact_mut(8).zip(rows.chunks_exact(8 * size)) {
        let mut eight = [&some[..0]; 8];
        for (row, one) in eight.iter_mut().zip(some.chunks_exact(size)) {
            *row = one;
        }
        far.copy_from_slice(&distance::cosine_distance_normalized8(q, eight));
    }
    8 * count
}

// The same over blocks of eight rows, in which a component's eight numbers stand together.
pub fn measured_block(q: &[f32], blocks: &[f32], out: &mut [f32]) -> usize
    ensures { length q.now ≡ 0 → result ≡ 8 * (length out.old / 8) }
{
    if q.is_empty() {
        return empty_eights(q, out);
    }
    let size = q.len();
    let count = (out.len() / 8).min(blocks.len() / 8 / size);
    for (far, block) in out.chunks_exact_mut(8).zip(blocks.chunks_exact(8 * size)) {
        far.copy_from_slice(&distance::cosine_distance_normalized_block(q, block));
    }
    8 * count
}

// The distances of an empty query to empty rows. Answers how many they are.
fn empty_rows(q: &[f32], out: &mut [f32]) -> usize
    ensures { result ≡ length out.old }
{
    out.fill(distance::cosine_distance_normalized(q, &[]));
    out.len()
}

// The same, eight at a time.
fn empty_eights(q: &[f32], out: &mut [f32]) -> usize
    ensures { result ≡ 8 * (length out.old / 8) }
{
    let count = 8 * (out.len() / 8);
    empty_rows(q, &mut out[..count])
}

// The root of each number.
pub fn measured_roots(xs: &[f32], out: &mut [f32]) {
    for (root, x) in out.iter_mut().zip(xs) {
        *root = root::sqrt(*x);
    }
}
