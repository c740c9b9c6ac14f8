// The walk of a search (scope, part 8): `beam_search` of src/pipnn/mod.rs, with its answer.
//
// The walk starts at the entry node and goes on from the nearest node whose list it has not looked at. The fresh
// nodes of a list are marked and gathered; their distances are computed, eight at a time; then they are pushed in
// order: into the frontier, and the live ones among the held and into the answer. It ends when everything left is well
// beyond the cutoff, when many nodes are scored, or when the frontier is empty; and when all nodes are scored,
// since what is left of the definition's walk then finds nothing. The answer is kept in order from the first
// node on, so that nothing is sorted at the end.
//
// It computes the walk and the answer that `def_walk` defines; specs/Inside/Search says of which graph: the entries
// of the lists that are below the number of nodes. Scratch is 14 words and a float for each node: of n nodes the first
// 10·n words are the walk's (`beam_state` has their layout), and the 4·n behind them hold links. Where the sizes fit
// (`SearchFits`), what it held before has no effect. Before the walk goes on from the entry node, bridges, where there are
// any, are linked there (`lists::chains`), so that an expansion looks at its node's own bridges alone.
//
// kept (5): a struct of three `&mut` is no plainer: each contract then also has to say that each field still holds the same
// reference, and one that keeps `HasWords` has to show it again after each write.
// kept (6): words and floats are the caller's scratch, since there is no heap, and a count says how many of a part hold.
#![tactic(auto)]

ghost use Rattle.std.specs.Prelude.{◌≡◌, ◌&&◌, ◌||◌, ◌*◌, ◌/◌, ◌≤◌, leb, ltb, length, take};
ghost use Rattle.std.specs.Float.{binary32};
ghost use Rattle.std.specs.Float.Ieee.{mul, lt};
ghost use Rattle.beam_state.specs.Inside.State.{frontier_at};
ghost use Rattle.beam_search.specs.Inside.Steps.{HasWords, Linking, TakingIn, Stepping, Walking, WalkingLinked, Prepared, Starting, PutDistances, walk_of, is_done};
ghost use Rattle.beam_search.specs.Inside.Search.{far_of, live_of, Searching};

use beam_state::queues::Popped;
use beam_state::{Beam, Walk, queues, tournament};
use def_walk::Stops;
use lists::chains::Lists;
use lists::{Shape, chains};
use neighbours::gathering;
use neighbours::scoring::Scorer;
use sorting::Keyed;
use std::ops::ControlFlow;
use words::ids::Node;
use words::slices;

// How many words the links have, for each node: its head, its tail, and the next links of the two words of a bridge. There
// are no more bridges than nodes.
const LINKS: usize = 4;

// The numbers of a walk: how many nodes there are and how many entries a row can have, where the walk starts, how many
// nodes it keeps, and when it stops.
#[derive(Clone, Copy)]
pub struct Sizes {
    pub shape: Shape,
    pub entry: Node,
    pub places: u32,
    pub stops: Stops,
}

// What a walk reads: a scaled query and the nodes' vectors, their rows as words hold them, the bridges, two words each,
// a word for each node, 0 where it is live, none where all are, and the numbers.
#[derive(Clone, Copy)]
pub struct Reads<'a> {
    pub scorer: Scorer<'a>,
    pub rows: &'a [u32],
    pub bridges: &'a [u32],
    pub withdrawn: &'a [u32],
    pub sizes: Sizes,
}

// The same, with the chains that link the ends of the bridges.
#[derive(Clone, Copy)]
struct Walker<'a> {
    reads: Reads<'a>,
    links: &'a [u32],
}

// How many nodes the answer has, and how many were scored.
#[derive(Clone, Copy, Default)]
pub struct Walked {
    pub count: u32,
    pub scored: u32,
}

// Links the ends of bridges, where all heads and tails are zero.
fn link_bridges(links: &mut [u32], n: usize, bridges: &[u32])
    requires { (n ≤ 1024) × (length bridges.now / 2 ≤ n) }
    ensures { Linking n bridges.now links.old links.new }
{
    for (j, ends) in bridges.chunks_exact(2).enumerate() {
        chains::chain_bridge(links, n, j as u32, Node(ends[0]), Node(ends[1]));
    }
}

impl Sizes {
    // No node is marked, in the frontier or held.
    fn prepare(self, words: &mut [u32])
        requires { HasWords self words.old }
        ensures { Prepared self.shape.n self.places words.new }
    {
        let n = self.shape.n;
        let frontier = beam_state::FRONTIER * n;
        let held = beam_state::HELD * n;
        let held_end = held + 4 * (self.places as usize).min(n);
        words[..n].fill(0);
        tournament::clear(&mut words[frontier..held]);
        tournament::clear(&mut words[held..held_end]);
    }

    // Before a node is expanded: all places are taken, and it lies farther than the cutoff times the factor.
    fn too_far(self, walk: Walk, distance: f32) -> bool
        ensures { result ≡ (leb self.places walk.held && lt (mul binary32 walk.cutoff self.stops.factor) distance) }
    {
        (self.places <= walk.held) & (walk.cutoff * self.stops.factor < distance)
    }

    // After a node is expanded: many nodes are scored, or all of them, so that nothing is left to be found.
    fn ends_after(self, walk: Walk) -> bool
        ensures { result ≡ (ltb (self.stops.multiplier * self.places) walk.scored || leb self.shape.n walk.scored) }
    {
        ((self.stops.multiplier as u64) * (self.places as u64) < (walk.scored as u64))
            | (self.shape.n <= walk.scored as usize)
    }
}

impl<'a> Reads<'a> {
    // The entry node is the first that the walk sees.
    fn start(&self, words: &mut [u32], floats: &mut [f32], answer: &mut [Keyed]) -> Walk
        requires { HasWords self.now.sizes words.old }
        ensures { Starting self.now.sizes (far_of self.now) (live_of self.now)
            floats.old answer.old
            (record { words = words.new; floats = floats.new; answer = answer.new; walk = result }) }
    {
        let sizes = self.sizes;
        sizes.prepare(words);
        let none = Walk {
            scored: 0,
            held: 0,
            cutoff: f32::INFINITY,
            kept: 0,
        };
        let count = gathering::begin(words, sizes.shape.n, sizes.entry);
        self.take_in(words, floats, answer, none, count)
    }

    // Scores the fresh nodes, and pushes them.
    fn take_in(
        &self,
        words: &mut [u32],
        floats: &mut [f32],
        answer: &mut [Keyed],
        walk: Walk,
        count: usize,
    ) -> Walk
        requires { HasWords self.now.sizes words.old }
        ensures marks { take (frontier_at self.now.sizes.shape.n) words.new ≡ take (frontier_at self.now.sizes.shape.n) words.old }
        ensures pushed { TakingIn self.now.sizes (far_of self.now) (live_of self.now) count
            (record { words = words.old; floats = floats.old; answer = answer.old; walk = walk })
            (record { words = words.new; floats = floats.new; answer = answer.new; walk = result }) }
    {
        let n = self.sizes.shape.n;
        let many = count.min(n);
        let end = n + many;
        self.scorer.score(floats, &words[n..end]);
        let beam = Beam {
            floats,
            withdrawn: self.withdrawn,
            size: n,
            places: self.sizes.places,
        };
        beam.push_all(words, answer, walk, many)
    }

    // The walk from where it stands, over rows and bridges, which are linked first, in the words behind the walk's: heads
    // and tails are cleared there. Where there are no bridges there is nothing to link, and no links are cleared.
    fn walk_linked(
        &self,
        words: &mut [u32],
        links: &mut [u32],
        floats: &mut [f32],
        answer: &mut [Keyed],
        walk: Walk,
    ) -> Walk
        requires n_in_bounds { HasWords self.now.sizes words.old }
        requires n_bound { (self.now.sizes.shape.n ≤ 1024) × (length self.now.bridges.now / 2 ≤ self.now.sizes.shape.n) }
        requires links_room { 4 * self.now.sizes.shape.n ≤ length links.old }
        ensures { WalkingLinked self.now
            (record { words = words.old; floats = floats.old; answer = answer.old; walk = walk })
            (record { words = words.new; floats = floats.new; answer = answer.new; walk = result }) }
    {
        if self.bridges.len() < 2 {
            let walker = Walker {
                reads: *self,
                links: &[],
            };
            return walker.walk_on(words, floats, answer, walk);
        }
        let n = self.sizes.shape.n;
        chains::clear_links(links, n);
        link_bridges(links, n, self.bridges);
        let walker = Walker {
            reads: *self,
            links,
        };
        walker.walk_on(words, floats, answer, walk)
    }
}

impl<'a> Walker<'a> {
    // The walk from where it stands, by n steps at most.
    fn walk_on(
        &self,
        words: &mut [u32],
        floats: &mut [f32],
        answer: &mut [Keyed],
        walk: Walk,
    ) -> Walk
        requires { HasWords self.now.reads.sizes words.old }
        ensures { Walking self.now.reads self.now.links.now
            (record { words = words.old; floats = floats.old; answer = answer.old; walk = walk })
            (record { words = words.new; floats = floats.new; answer = answer.new; walk = result }) }
    {
        let mut now = walk;
        'steps: for _ in 0..self.reads.sizes.shape.n {
            match self.step(words, floats, answer, now) {
                ControlFlow::Break(last) => return last,
                ControlFlow::Continue(next) => now = next,
            }
        }
        now
    }

    // Takes the nearest node from the frontier and expands it, which is to look at its list, unless the walk ends
    // before. Returns the walk as it stands then: to continue with, or to break off with where it ends.
    fn step(
        &self,
        words: &mut [u32],
        floats: &mut [f32],
        answer: &mut [Keyed],
        walk: Walk,
    ) -> ControlFlow<Walk, Walk>
        requires { HasWords self.now.reads.sizes words.old }
        ensures { Stepping self.now.reads self.now.links.now
            (record { words = words.old; floats = floats.old; answer = answer.old; walk = walk })
            (record { words = words.new; floats = floats.new; answer = answer.new; walk = walk_of result })
            (is_done result) }
    {
        let reads = &self.reads;
        let n = reads.sizes.shape.n;
        let frontier = beam_state::FRONTIER * n;
        let held = beam_state::HELD * n;
        let Popped::At(distance, node) = queues::pop(&mut words[frontier..held], floats) else {
            return ControlFlow::Break(walk);
        };
        if reads.sizes.too_far(walk, distance) {
            return ControlFlow::Break(walk);
        }
        let lists = Lists {
            shape: reads.sizes.shape,
            rows: reads.rows,
            bridges: reads.bridges,
            links: self.links,
        };
        let count = gathering::gather(words, lists, node);
        let next = reads.take_in(words, floats, answer, walk, count);
        if reads.sizes.ends_after(next) {
            return ControlFlow::Break(next);
        }
        ControlFlow::Continue(next)
    }
}

// The distances of the answer's nodes go to the output.
// kept (2): one function for this and `finding::put_docs` would be public and take a closure, which needs a `requires`; a public
// function has none.
fn put_distances(distances: &mut [f32], answer: &[Keyed], floats: &[f32], count: usize)
    ensures { PutDistances count answer.now floats.now distances.old distances.new }
{
    let many = count.min(answer.len());
    for (i, found) in answer[..many].iter().enumerate() {
        slices::put(distances, i, queues::distance_of(floats, Node(found.id)));
    }
}

// The nearest nodes to a scaled query among those that a walk from the entry node scores, nearest first, each with its
// key, and their distances, as many as `answer` has room for. Returns how many there are, and how many nodes were
// scored. `words` and `floats` are scratch, 64 and 16 for each node: of n nodes the first 10·n words are the walk's, the next
// 4·n hold links, and the others are not used. The contract holds for scratch that is long enough, at most 1,024 nodes and
// no more bridges than nodes.
// kept (1): counts of 0, not an Option: a caller has checked the sizes, and has no refusal for the other case.
pub fn beam_search(
    reads: Reads,
    answer: &mut [Keyed],
    distances: &mut [f32],
    words: &mut [u32],
    floats: &mut [f32],
) -> Walked
    ensures { Searching reads.entry
        answer.old answer.new distances.old distances.new
        (length words.old) (length floats.old) result }
{
    let n = reads.sizes.shape.n;
    if (words.len() / (beam_state::WORDS + LINKS) < n)
        | (n > 1024)
        | (reads.bridges.len() / 2 > n)
    {
        return Walked::default();
    }
    let (words, links) = words.split_at_mut(beam_state::WORDS * n);
    let first = reads.start(words, floats, answer);
    let last = reads.walk_linked(words, links, floats, answer, first);
    put_distances(distances, answer, floats, last.kept);
    Walked {
        count: last.kept.min(u32::MAX as usize) as u32,
        scored: last.scored,
    }
}
