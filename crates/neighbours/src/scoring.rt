// The distances of a query to several nodes, each written at the node's index in a slice of floats (scope,
// part 8: a live node is scored when its distance to the query is computed). Eight nodes at a time, with the
// bits of eight single distances, and of the rest up to four one by one.
ghost use Rattle.std.specs.Prelude.{◌≡◌, ℕ, ◌<◌, ◌≤◌, length, get_or, set};
ghost use Rattle.simd.specs.Inside.Eight.{none};
ghost use Rattle.distance.specs.Vectors.{vectors_of, vector_of};
ghost use Rattle.neighbours.specs.Inside.Scoring.{far_by, scored_at};

use distance::vectors::Vectors;
use words::ids::Node;
use words::slices;

// What distances are computed of: a scaled query, and the nodes' vectors.
#[derive(Clone, Copy)]
pub struct Scorer<'a> {
    pub query: &'a [f32],
    pub vectors: Vectors<'a>,
}

// A distance goes to its node's place, where there is one.
fn place(floats: &mut [f32], node: Node, distance: f32)
    ensures { floats.new ≡ set floats.old node.0 distance }
{
    slices::put(floats, node.0 as usize, distance);
}

// The vectors of up to eight nodes; where there are fewer, the last one's stands for those that are missing.
fn rows_of<'a>(vectors: Vectors<'a>, nodes: &[u32]) -> [&'a [f32]; 8]
    requires { (0 < length nodes.now) × (length nodes.now ≤ 8) }
    ensures { (k : ℕ) → k < length nodes.now → (get_or result k none).now ≡ vector_of (vectors_of vectors.entry) (get_or nodes.now k 0) }
{
    let last = nodes.len() - 1;
    let mut rows = [vectors.get(Node(nodes[last])); 8];
    for (k, node) in nodes.iter().enumerate() {
        rows[k] = vectors.get(Node(*node));
    }
    rows
}

// Up to this many nodes are scored one by one: their sums do not wait for each other either, and eight at a time would
// compute sums that no one needs.
const FEW: usize = 4;

impl<'a> Scorer<'a> {
    // Works out the distances of all these nodes.
    pub fn score(self, floats: &mut [f32], nodes: &[u32])
        ensures { floats.new ≡ scored_at (far_by self.entry) nodes.now floats.old }
    {
        for some in nodes.chunks(8) {
            if some.len() > FEW {
                self.score_eight(floats, some);
            } else {
                self.score_each(floats, some);
            }
        }
    }

    // Up to eight nodes at once.
    fn score_eight(self, floats: &mut [f32], nodes: &[u32])
        requires { (0 < length nodes.now) × (length nodes.now ≤ 8) }
        ensures { floats.new ≡ scored_at (far_by self.entry) nodes.now floats.old }
    {
        let rows = rows_of(self.vectors, nodes);
        let distances = distance::cosine_distance_normalized8(self.query, rows);
        for (k, node) in nodes.iter().enumerate() {
            place(floats, Node(*node), distances[k]);
        }
    }

    // A few nodes, one by one.
    fn score_each(self, floats: &mut [f32], nodes: &[u32])
        ensures { floats.new ≡ scored_at (far_by self.entry) nodes.now floats.old }
    {
        for node in nodes {
            let node = Node(*node);
            place(floats, node, self.vectors.distance_from(self.query, node));
        }
    }
}
