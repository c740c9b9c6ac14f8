// The distances within a leaf (scope, part 5), of which the Rust's `build_leaf` makes a whole table.
//
// Here they are computed for eight positions of the leaf at a time: the eight vectors are transposed into a
// block, in which each component's eight numbers are adjacent, and one pass over the leaf computes each
// position's distances to all eight. The bits are those of single distances, which are the same both ways,
// at a quarter of their cost; and only eight rows of the table have to be kept. The distance of position j
// to number g of the eight is at 8 · j + g, so the eight are written side by side.
//
// specs/Inside/Lanes  what is put where
// proofs/Laws         lanes of a block: one written, the others kept
//
// kept (6): a buffer of the largest size, cut at a length that is known before; no count grows.
ghost use Rattle.std.specs.Prelude.{◌*◌, ◌≤◌, ◌<◌, length};
ghost use Rattle.build_leaf.specs.Inside.Lanes.{LanePut, BlockTurned, LanesFilled, Distances};

use distance::vectors::Vectors;
use words::ids::Node;

// A leaf: its nodes, and the vectors of the index.
#[derive(Clone, Copy)]
pub struct Leaf<'a> {
    pub vectors: Vectors<'a>,
    pub nodes: &'a [u32],
}

impl<'a> Leaf<'a> {
    // The distances of the eight places from `first` on to every place of the leaf. A place past the last
    // counts as the last one. They are promised for at most 64 features, a `first` within the leaf and eight
    // floats for each place.
    pub fn distances_into(self, first: usize, floats: &mut [f32])
        ensures { Distances self.entry first (length floats.old) floats.new }
    {
        if 64 < self.vectors.dimension {
            return;
        }
        if self.nodes.len() <= first {
            return;
        }
        if floats.len() / 8 < self.nodes.len() {
            return;
        }
        let mut block = [0.0f32; 512];
        let width = 8 * self.vectors.dimension as usize;
        self.turn_block(first, &mut block[..width]);
        self.distance_rows(&block[..width], floats);
    }

    // The vectors of the eight places as a block.
    fn turn_block(self, first: usize, block: &mut [f32])
        requires { (first < length self.nodes.now) × (8 * self.vectors.dimension ≤ length block.old) }
        ensures { BlockTurned self.entry first 8 block.new }
    {
        let last = self.nodes.len() - 1;
        for g in 0..8usize {
            let place = (first + g).min(last);
            put_lane(block, g, self.vectors.get(Node(self.nodes[place])));
        }
    }

    // The distances of every place of the leaf to the rows of the block.
    fn distance_rows(self, block: &[f32], floats: &mut [f32])
        requires { 8 * length self.nodes.now ≤ length floats.old }
        ensures { LanesFilled self.entry block.now (length self.entry.nodes.now) floats.new }
    {
        for (j, node) in self.nodes.iter().enumerate() {
            let v = self.vectors.get(Node(*node));
            let distances = distance::cosine_distance_normalized_block(v, block);
            floats[8 * j..8 * j + 8].copy_from_slice(&distances);
        }
    }
}

// One vector as a lane of the block.
fn put_lane(block: &mut [f32], lane: usize, v: &[f32])
    requires { (lane < 8) × (8 * length v.now ≤ length block.old) }
    ensures { LanePut lane v.now block.old block.new }
{
    for (c, x) in v.iter().enumerate() {
        block[8 * c + lane] = *x;
    }
}
