// Carving (scope, part 4): the leaves of an index, as `partition` of src/pipnn/mod.rs makes them.
//
// `partition` leaves, in the words that are passed in, the nodes of all leaves that hold a node, leaf after
// leaf, and behind them the leaves' sizes: they are equal to `leaves_of` of def_graph (specs/Partition).
// Segments are permuted in place. A slice of marks beside the nodes says where buckets begin, so that no
// list of pending buckets is kept: `carve_segment` deals a segment that is not a leaf to its leaders (crate
// dealing), in place, and `carve_buckets` goes through its buckets, the last first, and carves each, one
// level down. So calls are nested once for each level, 21 times at most. The arrays that dealing works in
// are made once, above all levels, and passed down (`Scratch`): a level's own frame is small (bindings/stack
// adds them up). It uses `dealing` for one level and `leaders` for the first segment.
#![tactic(auto)]

ghost use Rattle.std.specs.Prelude.{◌≡◌, ◌*◌, ◌<◌, ◌≤◌, length, take};
ghost use Rattle.distance.specs.Vectors.{vectors_of};
ghost use Rattle.dealing.specs.Inside.Deal.{Holding};
ghost use Rattle.carving.specs.Inside.Carving.{Partitioned};
ghost use Rattle.carving.specs.Inside.Steps.{below, dealt_in, segment_size};
ghost use Rattle.carving.specs.Inside.Steps.{Carvable, Dealing, CarvesSegment, CarvesBuckets, Carved, MarkedSizes};

use dealing::{DealParams, Segment};
use distance::vectors::Vectors;
use random::leaders;
use words::slices;

// The words of a partition, for n nodes: from 0 on the nodes of all leaves, leaf after leaf, and from
// SIZES_AT · n on the leaves' sizes; WORDS · n in all.
pub const SIZES_AT: usize = 2;

pub const WORDS: usize = 4;

// What carving takes from an index's parameters.
#[derive(Clone, Copy)]
pub struct CarveParams {
    pub max_leaf: u32,
    pub dealing: DealParams,
}

// What a segment is carved by: the vectors of the index, what carving takes from its parameters, and the
// level.
#[derive(Clone, Copy)]
struct Carve<'a> {
    vectors: Vectors<'a>,
    p: CarveParams,
    level: u32,
}

impl<'a> Carve<'a> {
    // One level down.
    fn below(self) -> Carve<'a>
        requires { self.level < 21 }
        ensures { result ≡ below self.entry }
    {
        Carve {
            level: self.level + 1,
            ..self
        }
    }
}

// Where dealing works, on any level: the copy of a segment, what gathers, and a card for each node.
#[derive(Drop)]
struct Scratch {
    ids: [u32; 2048],
    room: [u32; 2048],
    cards: [u32; 2048],
}

// The leaves of an index of n nodes. Returns how many leaves hold a node. From word 0 on stand their nodes,
// n or 2·n, leaf after leaf; from word 2·n on their sizes. More than 1,024 nodes, leaves of no node and
// fewer than 4·n words are refused: 0 is returned, and no word changes.
// kept (1): a count of 0, not an Option: a caller has checked the sizes, and has no refusal for the other case.
// kept (5): a struct of vectors, parameters and n is no plainer: it would be for this call and `carve_all` alone, since the steps below have a level and no n.
// kept (6): a buffer of the largest size, cut at a length that is known before; no count grows.
pub fn partition(vectors: Vectors, p: CarveParams, n: u32, words: &mut [u32]) -> u32
    ensures { Partitioned p.max_leaf p.dealing.min_leaf p.dealing.leader_fraction (vectors_of vectors.entry) n
        words.old words.new result }
{
    let size = n as usize;
    if n > 1024 {
        return 0;
    }
    if p.max_leaf == 0 {
        return 0;
    }
    if words.len() < WORDS * size {
        return 0;
    }
    let room = SIZES_AT * size;
    let (nodes, sizes) = words.split_at_mut(room);
    let mut marks = [0u32; 2048];
    let total = carve_all(vectors, p, n, nodes, &mut marks[..room]);
    sizes_of(&marks[..total], sizes) as u32
}

// The first segment is a leaf, or is dealt to its leaders, each node to two, and its buckets are carved.
// Returns how many nodes the leaves have.
fn carve_all(
    vectors: Vectors,
    p: CarveParams,
    n: u32,
    nodes: &mut [u32],
    marks: &mut [u32],
) -> usize
    requires { (n ≤ 1024) × (1 ≤ p.max_leaf) × (length nodes.old ≡ 2 * n) × (length marks.old ≡ 2 * n) }
    ensures { Carved vectors.entry p n result nodes.new marks.new }
{
    let size = n as usize;
    leaders::all_positions(n, nodes);
    if n <= p.max_leaf {
        dealing::mark(&mut marks[..size], 1);
        return size;
    }
    let mut scratch = Scratch {
        ids: [0; 2048],
        room: [0; 2048],
        cards: [0; 2048],
    };
    let top = Carve {
        vectors,
        p,
        level: 0,
    };
    deal_over(top, nodes, marks, &mut scratch);
    carve_buckets(top.below(), nodes, marks, &mut scratch);
    nodes.len()
}

// Carves a segment over its own place. A leaf stays, with its one mark.
// kept (5): a struct of three `&mut` is no plainer, here and in `carve_buckets` and `deal_over`: each contract then also has to say that each field still holds the same reference.
#[cycle(carve_buckets_carve_segment)]
fn carve_segment(carve: Carve, nodes: &mut [u32], marks: &mut [u32], scratch: &mut Scratch)
    requires { Carvable carve nodes.old marks.old }
    ensures { CarvesSegment carve.entry nodes.old marks.old nodes.new marks.new }
{
    if dealing::fan_of(carve.level) == 0 {
        return;
    }
    if nodes.len() <= carve.p.max_leaf as usize {
        return;
    }
    deal_over(carve, nodes, marks, scratch);
    carve_buckets(carve.below(), nodes, marks, scratch);
}

// Carves buckets one after the other, the last first: each stands between its mark and the bucket carved
// before it, and the marks in front of it are still those of buckets.
#[cycle(carve_buckets_carve_segment)]
fn carve_buckets(carve: Carve, nodes: &mut [u32], marks: &mut [u32], scratch: &mut Scratch)
    requires { Carvable carve nodes.old marks.old }
    ensures { CarvesBuckets carve.entry nodes.old marks.old nodes.new marks.new }
{
    let mut end = nodes.len();
    for at in (0..nodes.len()).rev() {
        if marks[at] != 0 {
            carve_segment(carve, &mut nodes[at..end], &mut marks[at..end], scratch);
            end = at;
        }
    }
}

// Deals the segment at the front of a slice over the whole slice, from a copy. The slice has room for the
// segment's buckets: at level 0 it is twice as long as the segment, below that as long.
fn deal_over(carve: Carve, nodes: &mut [u32], marks: &mut [u32], scratch: &mut Scratch)
    requires { Dealing carve nodes.old marks.old }
    ensures { Holding (dealt_in carve.entry (take (segment_size carve.entry nodes.old) nodes.old)) nodes.new marks.new }
{
    let size = nodes.len() / dealing::fan_of(carve.level) as usize;
    let ids = &mut scratch.ids[..];
    let cards = &mut scratch.cards[..];
    slices::copy(&mut ids[..size], &nodes[..size]);
    let segment = Segment {
        vectors: carve.vectors,
        p: carve.p.dealing,
        level: carve.level,
        ids: &ids[..size],
    };
    dealing::deal(
        segment,
        nodes,
        marks,
        &mut scratch.room[..],
        &mut cards[..size],
    );
}

// Lists how many nodes each marked bucket has; says how many buckets there are.
// kept (3): no plainer with `enumerate`: the count is returned, and each turn would set it to its number plus 1.
fn sizes_of(marks: &[u32], sizes: &mut [u32]) -> usize
    requires { (length marks.now ≤ 2048) × (length marks.now ≤ length sizes.old) }
    ensures marked_sizes { MarkedSizes marks.now sizes.new result }
    ensures upper_bound { result ≤ 2048 }
{
    let mut count = 0;
    for bucket in marks.chunk_by(|_, next| *next == 0) {
        sizes[count] = bucket.len() as u32;
        count += 1;
    }
    count
}
