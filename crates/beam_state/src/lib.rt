// What a search's walk keeps between its steps (scope, part 8), and nodes pushed into it: into the frontier, and
// the live ones among the held and into the answer. The body of the inner loop of `beam_search` in
// src/pipnn/mod.rs.
//
// One slice of words holds it. For n nodes its parts are, one behind the other:
//
//   from          words  part
//   0             n      a mark for each node (`gathering`)
//   n             n      the fresh nodes of a list (`gathering`)
//   FRONTIER * n  4·n    the frontier, a tournament over the nodes (`queues`)
//   HELD * n      4·n    the held, a tournament over the walk's places; min(places, n) of its slots are used
//   WORDS * n            the end
//
// specs/Inside/State  has the same names: `frontier_at`, `held_at`, `words_for`. The answer stands in a slice of its own, nearest
// first, each node with its key: `keep_first` keeps the first of what it is offered, as many as that slice has room for, so that
// nothing is sorted at the end. Counts and the cutoff are a struct by value.
//
// kept (5): a struct of two `&mut`, words and answer, is no plainer: each contract then also has to say that each field still holds the same reference.
// kept (6): words and floats are the caller's scratch, since there is no heap, and a count says how many of a part hold.
#![tactic(auto)]

pub mod queues;
pub mod tournament;

ghost use Rattle.std.specs.Prelude.{◌≡◌, ◌≤◌, length, take};
ghost use Rattle.beam_state.specs.Inside.State.{frontier_at, words_for, live_by, Pushing, PushingAll};

use distance::order;
use sorting::Keyed;
use words::ids::Node;
use words::slices;

// Where the parts of the words begin, in words for each node, and how many words there are.
pub const FRONTIER: usize = 2;

pub const HELD: usize = 6;

pub const WORDS: usize = 10;

// How many nodes are scored (those seen that are live), how many are held for the cutoff, the cutoff, and how many
// are in the answer.
// kept (5): no plainer with a `Closest` in it: two fields, which each clause on a walk would name through a third.
#[derive(Clone, Copy)]
pub struct Walk {
    pub scored: u32,
    pub held: u32,
    pub cutoff: f32,
    pub kept: usize,
}

// Whether a node is live: `withdrawn` has a word for each node, 0 where it is live. A node past its end is live, so
// an empty slice says that all are.
fn is_live(withdrawn: &[u32], node: Node) -> bool
    ensures { result ≡ live_by withdrawn.now node.0 }
{
    slices::word_at(withdrawn, node.0 as usize) == 0
}

// What nodes are pushed by: the distance of each, a word for each, 0 where it is live, none where all are, how many nodes
// there are, and how many places a walk has.
#[derive(Clone, Copy)]
pub struct Beam<'a> {
    pub floats: &'a [f32],
    pub withdrawn: &'a [u32],
    pub size: usize,
    pub places: u32,
}

impl<'a> Beam<'a> {
    // A node that has its distance goes into the frontier. A live one is offered to the held and to the answer.
    fn push(self, words: &mut [u32], answer: &mut [Keyed], walk: Walk, node: Node) -> Walk
        requires { words_for self.size ≤ length words.old }
        ensures marks { take (frontier_at self.entry.size) words.new ≡ take (frontier_at self.entry.size) words.old }
        ensures pushed { Pushing self.entry.size self.entry.places node.0 self.entry.withdrawn.now
            (record { words = words.old; floats = self.entry.floats.now; answer = answer.old; walk = walk })
            (record { words = words.new; floats = self.entry.floats.now; answer = answer.new; walk = result }) }
    {
        let size = self.size;
        let distance = queues::distance_of(self.floats, node);
        let key = order::key(distance);
        let frontier = FRONTIER * size;
        let held = HELD * size;
        queues::enter(&mut words[frontier..held], key, node);
        if !is_live(self.withdrawn, node) {
            return walk;
        }
        let held_end = held + 4 * (self.places as usize).min(size);
        let closest = queues::keep_closest(
            &mut words[held..held_end],
            walk.held,
            self.places,
            distance,
            key,
        );
        let kept = sorting::keep_first(answer, walk.kept, Keyed { key, id: node.0 });
        Walk {
            scored: walk.scored.saturating_add(1),
            held: closest.held,
            cutoff: closest.cutoff,
            kept,
        }
    }

    // The fresh nodes, in their order.
    pub fn push_all(self, words: &mut [u32], answer: &mut [Keyed], walk: Walk, count: usize) -> Walk
        ensures marks { take (frontier_at self.entry.size) words.new ≡ take (frontier_at self.entry.size) words.old }
        ensures pushed { PushingAll self.entry.size self.entry.places count self.entry.withdrawn.now
            (record { words = words.old; floats = self.entry.floats.now; answer = answer.old; walk = walk })
            (record { words = words.new; floats = self.entry.floats.now; answer = answer.new; walk = result }) }
    {
        let size = self.size;
        if words.len() / WORDS < size {
            return walk;
        }
        let many = count.min(size);
        let mut now = walk;
        for i in 0..many {
            let node = Node(words[size + i]);
            now = self.push(words, answer, now, node);
        }
        now
    }
}
