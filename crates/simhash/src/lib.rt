// The hash of a residual (scope, part 5), which the Rust's `simhash_residual` computes bit by bit.
//
// A bit is the side of its hyperplane that the residual c − p lies on, and each bit's sum waits for each
// of its additions. So the residual is computed once, and eight planes' sums run side by side over a block,
// in which each component's eight numbers are adjacent: the bits are those of eight single sums. The sums
// are the hash's own, and not those of distances: the order of either may change alone. Every function is
// total and equal to its definition for slices of any length and floats of any kind.
#![tactic(auto)]

ghost use Rattle.std.specs.Prelude.{◌≡◌, ◌%◌, ◌^◌, min, length, map};
ghost use Rattle.std.specs.List.{range_with_len};
ghost use Rattle.std.specs.Float.{binary32};
ghost use Rattle.def_graph.specs.Simhash.{residual};
ghost use Rattle.simhash.specs.Inside.Blocks.{put_front, sum_in, block_hash, blocks_hash, block_number, plane_blocks};

// The residual c − p at the front of `out`, as far as there is room.
pub fn residual_into(c: &[f32], p: &[f32], out: &mut [f32])
    ensures { out.new ≡ put_front (residual binary32 c.now p.now) out.old }
{
    let n = out.len().min(c.len()).min(p.len());
    for (i, x) in out[..n].iter_mut().enumerate() {
        *x = c[i] - p[i];
    }
}

// The sums of a block's planes: component i of plane j stands at 8 · i + j.
// kept (2): the loop of `simd::dot_block`, since the sums of distances may change alone (docs/DECISIONS.md, 14).
fn block_sums(r: &[f32], block: &[f32]) -> [f32; 8]
    ensures { result ≡ map (sum_in r.now block.now) (range_with_len 0 8) }
{
    let mut sums = [0.0f32; 8];
    for (x, column) in r.iter().zip(block.as_chunks::<8>().0) {
        simd::add_column(&mut sums, *x, column);
    }
    sums
}

// The bits of a block's planes, by their sums: 0 and −0 set a bit, a NaN does not.
fn hash_block(r: &[f32], block: &[f32]) -> u32
    ensures { result ≡ block_hash r.now block.now }
{
    let sums = block_sums(r, block);
    let mut hash = 0;
    for (j, sum) in sums.iter().enumerate() {
        if 0.0 <= *sum {
            hash += 1u32 << j;
        }
    }
    hash
}

// The hash of a residual, of 16 bits at most, by one or two blocks of planes as long as the residual.
// This is `simhash_residual`, whose planes stand one after the other.
pub fn simhash_residual(r: &[f32], blocks: &[f32], bits: u32) -> u32
    ensures { result ≡ blocks_hash r.now blocks.now (min bits 16) }
{
    let low = hash_block(r, blocks);
    if bits <= 8 {
        return low_bits(low, bits);
    }
    let from = (8 * r.len()).min(blocks.len());
    low_bits(low + 256 * hash_block(r, &blocks[from..]), bits)
}

fn low_bits(hash: u32, bits: u32) -> u32
    ensures { result ≡ hash % 2 ^ min bits 16 }
{
    hash % (1u32 << bits.min(16))
}

// Planes that stand one after the other, in blocks of eight. Past the last plane `out` is filled up with
// zeros. Done once a build.
pub fn plane_blocks_into(planes: &[f32], dimension: u32, bits: u32, out: &mut [f32])
    ensures { out.new ≡ plane_blocks planes.now dimension bits (length out.old) }
{
    for (k, x) in out.iter_mut().enumerate() {
        *x = block_number(planes, dimension, bits, k);
    }
}

// The number at place k of the blocks.
fn block_number(planes: &[f32], dimension: u32, bits: u32, k: usize) -> f32
    ensures { result ≡ block_number planes.now dimension bits k }
{
    if dimension == 0 {
        return 0.0;
    }
    let d = dimension as usize;
    let plane = 8 * (k / 8 / d) + k % 8;
    if plane >= bits as usize {
        return 0.0;
    }
    let at = plane * d + k / 8 % d;
    planes.get(at).copied().unwrap_or(0.0)
}
