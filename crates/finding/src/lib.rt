// A walk over a store that its caller has checked (scope, part 8): the nearest nodes to a query, or their doc
// ids, with their distances. A call that walks several times checks its store once and walks here.
//
// `find_nodes` scales the query, passes the parts of the stores to the walk, and leaves the nodes themselves;
// its caller says how many places the walk has. `find` is that with the places of a search, max(ef, k), and
// leaves doc ids.
//
// Each promises one equation for everything that a walk leaves, where the caller has checked store, query and
// outputs (`Checked` of specs/Inside/Finding), whatever scratch held before: `nodes_found`, and `reply_of` of `def_calls`.
// Otherwise both end and stay within their slices. Where the parts do not lie in the stores, or an answer not in
// `nodes` and `distances`, they return counts 0 and write nothing; `find` writes only as many doc ids as `docs` has
// room for. The stores stay as they are.
//
// It uses `store` for the layout, `norm` for scaling, and `beam_search` for the walk, which it calls in one place.
//
// kept (5): a struct of four `&mut`, outputs and scratch, is no plainer: each contract then also has to say that each field still
// holds the same reference.
// kept (6): doc ids and distances go to two outputs of a C caller, and what a walk returns says how many of the nodes hold; the
// scaled query is a buffer of the largest size, cut at a length that is known before, and no count grows.
#![tactic(auto)]

ghost use Rattle.std.specs.Prelude.{◌≡◌, true, map, ◌++◌, ℕ, ◌≤◌, min, max, length, take, drop};
ghost use Rattle.std.specs.Float.{binary32};
ghost use Rattle.norm.specs.Norm.{scaled_of};
ghost use Rattle.params.specs.Limits.{most_degree};
ghost use Rattle.store.specs.Layout.{word, nodes_at, degree_at};
ghost use Rattle.store.specs.View.{view};
ghost use Rattle.def_calls.specs.Search.{reply_of};
ghost use Rattle.def_walk.specs.Beam.{far_from};
ghost use Rattle.finding.specs.Inside.Docs.{doc_of};
ghost use Rattle.finding.specs.Inside.Finding.{Checked, PartsIn, lies_in, nodes_by, nodes_found, nodes_with, docs_with};

use beam_search::{Reads, Sizes, Walked};
use def_walk::Stops;
use distance::vectors::Vectors;
use lists::Shape;
use neighbours::scoring::Scorer;
use sorting::Keyed;
use store::Layout;
use words::ids::Node;
use words::slices;

// What is asked for: of the stores of an index, the nearest k nodes to a query, and when a walk stops.
#[derive(Clone, Copy)]
pub struct Request<'a> {
    pub words: &'a [u32],
    pub floats: &'a [f32],
    pub query: &'a [f32],
    pub k: u32,
    pub stops: Stops,
}

// What stands at a place of an array of nodes before a walk.
const NO_NODE: Keyed = Keyed { key: 0, id: 0 };

// Up to this many nodes stand in an array of their own, which takes less time to clear.
const FEW: usize = 64;

// Where the parts of a built store stand that a walk reads, how many nodes an answer can have, and the numbers of
// the store's header that a walk needs.
#[derive(Clone, Copy)]
struct Parts {
    rows_from: usize,
    rows_to: usize,
    bridges_from: usize,
    bridges_to: usize,
    vectors_end: usize,
    answer: usize,
    shape: Shape,
    dimension: u32,
    entry: Node,
}

// How many nodes an answer can have.
pub fn wanted(words: &[u32], k: u32) -> usize
    ensures { result ≡ min k (word words.now nodes_at) }
{
    k.min(store::word_at(words, store::NODES)) as usize
}

// The query scaled, in a slice as long as it is.
fn scale_into(out: &mut [f32], query: &[f32])
    requires { length out.old ≡ length query.now }
    ensures { out.new ≡ scaled_of binary32 query.now }
{
    slices::copy(out, query);
    norm::normalize(out);
}

// The doc ids of the first `count` nodes go to the front of `docs`, as far as there are nodes and places.
fn put_docs(words: &[u32], nodes: &[Keyed], docs: &mut [u32], count: usize)
    ensures { count ≤ length nodes.now → count ≤ length docs.old
        → docs.new ≡ map (doc_of words.now) (take count nodes.now) ++ drop count docs.old }
{
    let many = count.min(nodes.len());
    for (i, found) in nodes[..many].iter().enumerate() {
        slices::put(docs, i, store::doc_of(words, Node(found.id)).0);
    }
}

// A checked store has a degree of 32 at most, which fits a u16.
fn parts_of(words: &[u32], k: u32) -> Parts
    ensures { word words.now degree_at ≤ most_degree → PartsIn words.now k result }
{
    let n = store::word_at(words, store::NODES);
    let degree = store::word_at(words, store::DEGREE).min(params::MOST_DEGREE) as u16;
    let dimension = store::word_at(words, store::DIMENSION);
    let layout = Layout {
        capacity: store::word_at(words, store::CAPACITY),
        degree,
    };
    Parts {
        rows_from: store::rows_at(layout.capacity),
        rows_to: layout.row_at(Node(n)),
        bridges_from: layout.bridges_at(),
        bridges_to: layout.bridge_at(store::word_at(words, store::BRIDGE_COUNT)),
        vectors_end: store::floats_size(n, dimension),
        answer: wanted(words, k),
        shape: Shape {
            n: n as usize,
            degree,
        },
        dimension,
        entry: Node(store::word_at(words, store::ENTRY)),
    }
}

// Whether the parts lie in stores of these lengths, and an answer in outputs of these.
fn lies_in(parts: Parts, words: usize, floats: usize, nodes: usize, distances: usize) -> bool
    ensures { result ≡ lies_in parts words floats nodes distances }
{
    (parts.rows_from <= parts.rows_to)
        & (parts.rows_to <= words)
        & (parts.bridges_from <= parts.bridges_to)
        & (parts.bridges_to <= words)
        & (parts.vectors_end <= floats)
        & (parts.answer <= nodes)
        & (parts.answer <= distances)
}

impl<'a> Request<'a> {
    // The walk of a scaled query over parts that lie in the stores. All nodes are live, so no words are needed to
    // say which are not.
    fn walk(
        self,
        parts: Parts,
        places: u32,
        answer: &mut [Keyed],
        distances: &mut [f32],
        scratch_words: &mut [u32],
        scratch_floats: &mut [f32],
    ) -> Walked
        requires { lies_in parts (length self.words.now) (length self.floats.now) (length answer.old) (length distances.old) ≡ true }
        ensures { (k : ℕ) → PartsIn self.entry.words.now k parts
            → Checked (length scratch_words.old) (length scratch_floats.old)
            self.entry.words.now self.entry.floats.now self.entry.query.now k (length answer.old) (length distances.old)
            → nodes_with result answer.new distances.new
            ≡ nodes_by self.entry.stops (far_from self.entry.query.now (view self.entry.words.now self.entry.floats.now).vectors)
            (view self.entry.words.now self.entry.floats.now) k places answer.old distances.old }
    {
        let scorer = Scorer {
            query: self.query,
            vectors: Vectors {
                components: &self.floats[..parts.vectors_end],
                dimension: parts.dimension,
            },
        };
        let sizes = Sizes {
            shape: parts.shape,
            entry: parts.entry,
            places,
            stops: self.stops,
        };
        let reads = Reads {
            scorer,
            rows: &self.words[parts.rows_from..parts.rows_to],
            bridges: &self.words[parts.bridges_from..parts.bridges_to],
            withdrawn: &[],
            sizes,
        };
        let room = parts.answer;
        beam_search::beam_search(
            reads,
            &mut answer[..room],
            &mut distances[..room],
            scratch_words,
            scratch_floats,
        )
    }

    // The nearest k of the nodes that a walk with `places` places scores, all if fewer. They, each with its key, and
    // their distances go to the front of the two outputs, nearest first; what lies past them stays. A checked query
    // has at most 64 components.
    // kept (1): counts of 0, not an Option: a caller has checked the store, and has no refusal for the other case.
    pub fn find_nodes(
        self,
        places: u32,
        answer: &mut [Keyed],
        distances: &mut [f32],
        scratch_words: &mut [u32],
        scratch_floats: &mut [f32],
    ) -> Walked
        ensures { Checked (length scratch_words.old) (length scratch_floats.old)
            self.entry.words.now self.entry.floats.now self.entry.query.now self.entry.k (length answer.old) (length distances.old)
            → nodes_with result answer.new distances.new
            ≡ nodes_found self.entry.stops (view self.entry.words.now self.entry.floats.now) self.entry.query.now self.entry.k places answer.old distances.old }
    {
        let components = self.query.len();
        if components > params::MOST_DIMENSION as usize {
            return Walked::default();
        }
        let parts = parts_of(self.words, self.k);
        let lies = lies_in(
            parts,
            self.words.len(),
            self.floats.len(),
            answer.len(),
            distances.len(),
        );
        if !lies {
            return Walked::default();
        }
        let mut room = [0.0f32; 64];
        scale_into(&mut room[..components], self.query);
        let scaled = Request {
            query: &room[..components],
            ..self
        };
        scaled.walk(
            parts,
            places,
            answer,
            distances,
            scratch_words,
            scratch_floats,
        )
    }

    // The same with max(ef, k) places, and with the doc ids of the nodes, where `nodes` has room for them. The output never
    // holds a node.
    fn find_in(
        self,
        nodes: &mut [Keyed],
        ef: u32,
        docs: &mut [u32],
        distances: &mut [f32],
        scratch_words: &mut [u32],
        scratch_floats: &mut [f32],
    ) -> Walked
        ensures { min self.entry.k (word self.entry.words.now nodes_at) ≤ length nodes.old
            → Checked (length scratch_words.old) (length scratch_floats.old)
            self.entry.words.now self.entry.floats.now self.entry.query.now self.entry.k (length docs.old) (length distances.old)
            → docs_with result docs.new distances.new
            ≡ reply_of self.entry.stops (view self.entry.words.now self.entry.floats.now) self.entry.query.now self.entry.k ef docs.old distances.old }
    {
        let places = ef.max(self.k);
        let walked = self.find_nodes(
            places,
            &mut nodes[..],
            distances,
            scratch_words,
            scratch_floats,
        );
        put_docs(self.words, &nodes[..], docs, walked.count as usize);
        walked
    }

    // The same, with a local array for the nodes, of 8 KB, or of half a KB where few are wanted.
    pub fn find(
        self,
        ef: u32,
        docs: &mut [u32],
        distances: &mut [f32],
        scratch_words: &mut [u32],
        scratch_floats: &mut [f32],
    ) -> Walked
        ensures { Checked (length scratch_words.old) (length scratch_floats.old)
            self.entry.words.now self.entry.floats.now self.entry.query.now self.entry.k (length docs.old) (length distances.old)
            → docs_with result docs.new distances.new
            ≡ reply_of self.entry.stops (view self.entry.words.now self.entry.floats.now) self.entry.query.now self.entry.k ef docs.old distances.old }
    {
        if wanted(self.words, self.k) <= FEW {
            let mut nodes = [NO_NODE; FEW];
            return self.find_in(
                &mut nodes,
                ef,
                docs,
                distances,
                scratch_words,
                scratch_floats,
            );
        }
        let mut nodes = [NO_NODE; 1024];
        self.find_in(
            &mut nodes,
            ef,
            docs,
            distances,
            scratch_words,
            scratch_floats,
        )
    }
}
