// Where a bridge starts (scope, part 7), as the middle of `ensure_connectivity` of src/graph_utils.rs: of
// the nodes on the lists of a node's neighbours, and of the entry's neighbours with their lists, the
// nearest that is reached, or the entry. A node's list is its row, then its bridges' other ends (`chains`). A node that
// is not reached is not scored.
//
// specs/Inside/Candidates  candidates on words, with the distance kept
// proofs/Refining          it is `nearest_reached` of the definition
ghost use Rattle.std.specs.Prelude.{◌≡◌, ◌∷◌};
ghost use Rattle.lists.specs.Inside.Lists.{list_in};
ghost use Rattle.distance.specs.Vectors.{vectors_of};
ghost use Rattle.graph_utils.specs.Inside.Candidates.{seeking, considered, considered_all, start_of};

use distance::vectors::{Nearest, Vectors};
use lists::chains::Lists;
use words::ids::Node;

// What candidates for a bridge to a node are found and compared by: the nodes' lists, their marks, their vectors, and
// the node's own vector, the query.
#[derive(Clone, Copy)]
struct Seeker<'a> {
    lists: Lists<'a>,
    marks: &'a [u32],
    vectors: Vectors<'a>,
    query: &'a [f32],
}

// The node that a bridge to node i starts from. The first words of `state` are marks.
pub fn bridge_start(lists: Lists, state: &[u32], vectors: Vectors, entry: Node, i: Node) -> Node
    ensures { result.0 ≡ start_of state.now lists.entry.shape.n (vectors_of vectors.entry) (list_in lists.entry) entry.0 i.0 }
{
    let query = vectors.get(i);
    let seeker = Seeker {
        lists,
        marks: state,
        vectors,
        query,
    };
    let first = Nearest {
        node: entry,
        distance: vectors.distance_from(query, entry),
    };
    let own = lists
        .of(i)
        .fold(first, |best, u| seeker.consider_list(best, u));
    let last = lists
        .of(entry)
        .fold(own, |best, u| seeker.consider_with_list(best, u));
    last.node
}

impl<'a> Seeker<'a> {
    // A node, then the nodes of its list.
    fn consider_with_list(self, best: Nearest, u: Node) -> Nearest
        ensures { result ≡ considered_all (seeking self.entry) (u.0 ∷ list_in self.entry.lists u.0) best }
    {
        self.consider_list(self.consider(best, u), u)
    }

    // The nodes of a node's list.
    fn consider_list(self, best: Nearest, u: Node) -> Nearest
        ensures { result ≡ considered_all (seeking self.entry) (list_in self.entry.lists u.0) best }
    {
        self.lists
            .of(u)
            .fold(best, |near, c| self.consider(near, c))
    }

    // A candidate that is reached is the nearest where it is nearer than the nearest so far.
    fn consider(self, best: Nearest, c: Node) -> Nearest
        ensures { result ≡ considered (seeking self.entry) c.0 best }
    {
        let mark = store::word_at(self.marks, c.0 as usize);
        if (self.lists.shape.n <= c.0 as usize) | (mark == 0) {
            return best;
        }
        best.nearer(Nearest {
            node: c,
            distance: self.vectors.distance_from(self.query, c),
        })
    }
}
