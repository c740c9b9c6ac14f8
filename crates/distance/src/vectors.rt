// The vectors of an index, node by node, and the distance of two nodes. Carving, leaf lists, pruning and
// repair all use it; they sort by it, in the order of part 1. The entry node and the start of a bridge are the
// nearest of some nodes (`Nearest`), by the comparison of numbers.
//
// specs/Vectors   the vectors, the distance of two nodes, the number that orders nodes by it
// proofs/Laws     a distance is the same both ways
ghost use Rattle.std.specs.Prelude.{◌≡◌};
ghost use Rattle.std.specs.Float.{binary32};
ghost use Rattle.std.specs.Float.Ieee.{lt};
ghost use Rattle.basics.specs.Choice.{pick};
ghost use Rattle.distance.specs.Distance.{distance_of};
ghost use Rattle.distance.specs.Vectors.{vectors_of, vector_of, between};

use words::ids::Node;

// Vectors that stand one after the other, and how many components each has.
#[derive(Clone, Copy)]
pub struct Vectors<'a> {
    pub components: &'a [f32],
    pub dimension: u32,
}

impl<'a> Vectors<'a> {
    // The vector of a node. A node that is not there has a vector without components, which is infinitely
    // far from any other.
    pub fn get(self, node: Node) -> &'a [f32]
        ensures { result.now ≡ vector_of (vectors_of self.entry) node.0 }
    {
        let d = self.dimension as usize;
        let at = node.0 as usize * d;
        self.components.get(at..at + d).unwrap_or(&[])
    }

    // How far a node is from a query.
    pub fn distance_from(self, query: &[f32], node: Node) -> f32
        ensures { result ≡ distance_of binary32 query.now
            (vector_of (vectors_of self.entry) node.0) }
    {
        crate::cosine_distance_normalized(query, self.get(node))
    }

    // How far two nodes are apart.
    #[tactic(auto, unfolding(crate::specs::Vectors::between))]
    pub fn between(self, a: Node, b: Node) -> f32
        ensures { result ≡ between (vectors_of self.entry) a.0 b.0 }
    {
        self.distance_from(self.get(a), b)
    }
}

// A node, and how far it is: the nearest so far, or one that may be nearer.
#[derive(Clone, Copy)]
pub struct Nearest {
    pub node: Node,
    pub distance: f32,
}

impl Nearest {
    // The nearer of two: the other where its distance is below this one's, as numbers.
    pub fn nearer(self, other: Nearest) -> Nearest
        ensures { result ≡ pick (lt other.distance self.distance) other self }
    {
        if other.distance < self.distance {
            return other;
        }
        self
    }
}
