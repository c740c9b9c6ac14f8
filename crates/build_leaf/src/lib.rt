// Leaf lists (scope, part 5), as the Rust's `build_leaf` writes them into the rows of a build: leaf after
// leaf, each position of a leaf offers its node the nearest of the other positions.
//
// Eight positions are taken at a time: their distances to the whole leaf are computed together
// (leaf_distances), then for each position its candidates are found (leaf_candidates) and go to the row of
// its node (hashprune). The hyperplanes are made once for each call. Every function is total; what is in
// the rows afterwards is said of rows as a build makes them, where the sizes fit.
//
// specs/Inside/Built  what the functions leave of the rows
// proofs/Rows         one row, one position, eight positions, a leaf
// proofs/Leaves       leaf after leaf
#![tactic(auto)]

pub mod leaf_candidates;
pub mod leaf_distances;

ghost use Rattle.std.specs.Prelude.{◌+◌, ◌≤◌, ◌<◌, min, length, map};
ghost use Rattle.hashprune.specs.Inside.Hashprune.{node_of, far_of};
ghost use Rattle.build_leaf.specs.Inside.Built.{RowPut, PlacePut, PlacesPut, LeafBuilt, LeavesBuilt, PlanesMade, Built};

use distance::vectors::Vectors;
use hashprune::{Candidate, Offer, Point};
use leaf_candidates::Place;
use leaf_distances::Leaf;
use random::hyperplanes;
use words::ids::Node;

// What leaf lists take from the parameters of an index.
#[derive(Clone, Copy)]
pub struct LeafParams {
    pub degree: u16,
    pub bits: u32,
}

// What leaves are built with: the vectors of the index, what is taken from its parameters, and the hyperplanes
// in blocks of eight.
#[derive(Clone, Copy)]
struct Builder<'a> {
    vectors: Vectors<'a>,
    params: LeafParams,
    planes: &'a [f32],
}

// All leaves: `nodes` are their nodes, leaf after leaf, `sizes` how many each has, `rows` the rows of
// all nodes, `floats` scratch.
// kept (5): rows and floats side by side, here and in `build_each` and `build_leaf`: a struct of two `&mut` slices is
// no plainer: each contract then also has to say that each field still holds the same reference.
pub fn build_leaves(
    vectors: Vectors,
    p: LeafParams,
    nodes: &[u32],
    sizes: &[u32],
    rows: &mut [u32],
    floats: &mut [f32],
)
    ensures { Built p vectors.entry nodes.now sizes.now (length floats.old)
        rows.old rows.new }
{
    let mut planes = [0.0f32; 1024];
    planes_into(vectors.dimension, p.bits, &mut planes[..]);
    let builder = Builder {
        vectors,
        params: p,
        planes: &planes[..],
    };
    builder.build_each(nodes, sizes, rows, floats);
}

// The hyperplanes, in blocks of eight.
fn planes_into(dimension: u32, bits: u32, out: &mut [f32])
    ensures { PlanesMade dimension bits (length out.old) out.new }
{
    let mut numbers = [0.0f32; 1024];
    hyperplanes::planes_into(&mut numbers[..]);
    simhash::plane_blocks_into(&numbers[..], dimension, bits, out);
}

impl<'a> Builder<'a> {
    // Leaf after leaf. A size that runs past the nodes ends it.
    fn build_each(self, nodes: &[u32], sizes: &[u32], rows: &mut [u32], floats: &mut [f32])
        ensures { LeavesBuilt self.entry nodes.now sizes.now (length floats.old)
            rows.old rows.new }
    {
        let mut rest = nodes;
        for size in sizes {
            let Some((leaf, after)) = rest.split_at_checked(*size as usize) else {
                return;
            };
            self.build_leaf(leaf, rows, floats);
            rest = after;
        }
    }

    // One leaf, eight places at a time. A leaf of one node or none changes nothing.
    fn build_leaf(self, nodes: &[u32], rows: &mut [u32], floats: &mut [f32])
        ensures { LeafBuilt self.entry nodes.now (length floats.old)
            rows.old rows.new }
    {
        if nodes.len() <= 1 {
            return;
        }
        let leaf = Leaf {
            vectors: self.vectors,
            nodes,
        };
        for k in 0..nodes.len().div_ceil(8) {
            leaf.distances_into(8 * k, floats);
            self.each_place(nodes, 8 * k, floats, rows);
        }
    }

    // The eight places from `first` on, or as many as there are, whose distances stand in the lanes of the
    // floats.
    fn each_place(self, nodes: &[u32], first: usize, floats: &[f32], rows: &mut [u32])
        requires { first ≤ length nodes.now }
        ensures { PlacesPut self.entry nodes.now first (min (first + 8) (length nodes.now)) floats.now
            rows.old rows.new }
    {
        let end = (first + 8).min(nodes.len());
        for i in first..end {
            let place = Place {
                nodes,
                i,
                floats,
                lane: i - first,
            };
            self.one_place(place, rows);
        }
    }

    // One place: its candidates go to the row of its node.
    fn one_place(self, place: Place, rows: &mut [u32])
        requires { place.i < length place.nodes.now }
        ensures { PlacePut self.entry place.entry
            rows.old rows.new }
    {
        let candidates = place.candidates_at(self.params.degree);
        self.put_row(Node(place.nodes[place.i]), candidates.as_slice(), rows);
    }

    // The candidates of a node go to its row, if that is there.
    fn put_row(self, node: Node, candidates: &[Candidate], rows: &mut [u32])
        ensures { RowPut self.entry node.0 (map node_of candidates.now) (map far_of candidates.now)
            rows.old rows.new }
    {
        let size = 1 + self.params.degree as usize;
        let at = node.0 as usize * size;
        let end = at + size;
        if rows.len() < end {
            return;
        }
        let offer = Offer {
            vectors: self.vectors,
            point: Point {
                node,
                bits: self.params.bits,
            },
            planes: self.planes,
            candidates,
        };
        hashprune::hashprune_insert(offer, &mut rows[at..end]);
    }
}
