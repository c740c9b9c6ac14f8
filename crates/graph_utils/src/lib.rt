// Repair (scope, part 7), as `ensure_connectivity` of src/graph_utils.rs: every node that is not reached
// from the entry along out-edges gets a bridge from a reached one. The Rust's lists grow; here rows stay,
// and bridges are words of their own, linked by chains. Marks and the stack of marking are a local array,
// since a call needs them beside the links: 1,024 nodes, 8 KB.
//
// `ensure_connectivity` is total. On at most 1,024 nodes with entries among them it is the definition's
// `ensure_connectivity`, whatever the scratch held.
//
// specs/Inside/Connectivity  what it leaves behind
// specs/Inside/Turns         the turns on words
// proofs/Refining            they are the definition's turns
#![tactic(auto)]

pub mod candidates;
pub mod marking;

ghost use Rattle.std.specs.Prelude.{◌≡◌, ◌≤◌, ◌<◌};
ghost use Rattle.lists.specs.Inside.Words.{row_lists};
ghost use Rattle.distance.specs.Vectors.{vectors_of};
ghost use Rattle.graph_utils.specs.Inside.Connectivity.{Repairs};
ghost use Rattle.graph_utils.specs.Inside.Turns.{work, put_bridge, turned_in, repaired_in};

use distance::vectors::Vectors;
use lists::chains::Lists;
use lists::{Shape, chains};
use words::ids::Node;
use words::slices;

// Builds the bridges that make every node reachable from the entry, and returns how many there are. `words`
// is scratch for four words a node.
// kept (1): a count of 0, not an Option: a caller has checked the sizes, and has no refusal for the other case.
pub fn ensure_connectivity(
    rows: &[u32],
    degree: u16,
    vectors: Vectors,
    entry: Node,
    bridges: &mut [u32],
    words: &mut [u32],
) -> u32
    ensures { Repairs (row_lists degree rows.now) entry.0 (vectors_of vectors.entry)
        bridges.old words.old result bridges.new }
{
    let n = rows.len() / (1 + degree as usize);
    if n > 1024 {
        return 0;
    }
    let shape = Shape { n, degree };
    let mut state = [0u32; 2048];
    let index = Index {
        shape,
        rows,
        vectors,
        entry,
    };
    index.repair(bridges, words, &mut state)
}

// What repair reads of an index.
#[derive(Clone, Copy)]
struct Index<'a> {
    shape: Shape,
    rows: &'a [u32],
    vectors: Vectors<'a>,
    entry: Node,
}

impl<'a> Index<'a> {
    // The bridges, with links and marks passed in.
    // kept (6): links and marks are words of the caller's scratch and of a local array, as `lists::chains` and `marking` take them; a struct of three `&mut` is no plainer: each contract then also has to say that each field still holds the same reference.
    fn repair(self, bridges: &mut [u32], links: &mut [u32], state: &mut [u32]) -> u32
        requires { self.shape.n ≤ 1024 }
        ensures { work result bridges.new links.new state.new ≡ repaired_in self.entry bridges.old links.old state.old }
    {
        chains::clear_links(links, self.shape.n);
        let lists = Lists {
            shape: self.shape,
            rows: self.rows,
            bridges,
            links,
        };
        marking::mark_reachable(lists, state, self.entry);
        let mut count: u32 = 0;
        for i in 0..self.shape.n as u32 {
            count = self.turn(bridges, links, state, count, i);
        }
        count
    }

    // The turn of node i: nothing if it is reached, else a bridge and what that makes reachable.
    // kept (6): as `repair`, and the bridges so far are the first of the caller's words.
    fn turn(
        self,
        bridges: &mut [u32],
        links: &mut [u32],
        state: &mut [u32],
        count: u32,
        i: u32,
    ) -> u32
        requires { count < 1024 }
        ensures { work result bridges.new links.new state.new
            ≡ turned_in self.entry i (work count bridges.old links.old state.old) }
    {
        let mark = store::word_at(state, i as usize);
        if 0 < mark {
            return count;
        }
        let node = Node(i);
        let before = Lists {
            shape: self.shape,
            rows: self.rows,
            bridges,
            links,
        };
        let near = candidates::bridge_start(before, state, self.vectors, self.entry, node);
        put_bridge(bridges, count, near, node);
        chains::chain_bridge(links, self.shape.n, count, near, node);
        let after = Lists {
            shape: self.shape,
            rows: self.rows,
            bridges,
            links,
        };
        marking::mark_reachable(after, state, node);
        count + 1
    }
}

fn put_bridge(bridges: &mut [u32], count: u32, near: Node, far: Node)
    ensures { bridges.new ≡ put_bridge count near.0 far.0 bridges.old }
{
    slices::put(bridges, 2 * count as usize, near.0);
    slices::put(bridges, 2 * count as usize + 1, far.0);
}
