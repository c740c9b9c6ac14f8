// Dealing a segment to its leaders (scope, part 4): the part of the Rust's `partition` between drawing
// leaders and going one level down.
//
// `deal` draws leaders from a segment, finds for each node the nearest of them (at level 0 the two
// nearest), and writes the buckets one after the other over `nodes`, where small ones have gathered, with
// a mark at the first node of each. They are equal to `buckets_of` of def_graph (specs/Partition);
// specs/Inside/Marks says how buckets stand in the two slices. It works in two slices of scratch that the
// caller passes, so that no large array stands in its frame. It uses `leaders` for the draws, `Vectors` and
// `order` for how near a leader is, `sorting` for the nearest.
//
// kept (5): a struct of the `&mut` slices of `gather_one`, `gather_all` and `gather` is no plainer: each contract then also has to say that each field still holds the same reference.
#![tactic(auto)]

ghost use Rattle.std.specs.Prelude.{◌≡◌, ℕ, ◌≤◌, length, get_or, drop};
ghost use mathlib.Core.List.{map, ◌++◌};
ghost use Rattle.distance.specs.Vectors.{vectors_of, rank};
ghost use Rattle.random.specs.Leaders.{drawn, draw_start, up_to};
ghost use Rattle.sorting.specs.Inside.Pairs.{id_in};
ghost use Rattle.def_graph.specs.Partition.{fanout, gathered, gather_all};
ghost use Rattle.dealing.specs.Inside.Marks.{run};
ghost use Rattle.dealing.specs.Inside.Cards.{card_of, names, bucket_in, buckets_in};
ghost use Rattle.dealing.specs.Inside.Deal.{Fitting, Holding, Deals, buckets_for};
ghost use Rattle.dealing.specs.Inside.Steps.{Holds, Gathers, Roomy, Dealt, none_yet};

use distance::order;
use distance::vectors::Vectors;
use random::leaders;
use sorting::Keyed;
use words::ids::Node;
use words::slices;

// To how many of its nearest leaders a node goes; 0: a segment of any size is a leaf.
#[tactic(auto, unfolding(def_graph::specs::Partition::fanout, basics::specs::Choice::pick))]
pub fn fan_of(level: u32) -> u32
    ensures { result ≡ fanout level }
{
    match level {
        0 => 2,
        1..=20 => 1,
        _ => 0,
    }
}

// What dealing takes from an index's parameters.
#[derive(Clone, Copy)]
pub struct DealParams {
    pub min_leaf: u32,
    pub leader_fraction: f64,
}

// A segment: the vectors of its index, what dealing takes from the index's parameters, the level that the
// segment is on, and its nodes.
#[derive(Clone, Copy)]
pub struct Segment<'a> {
    pub vectors: Vectors<'a>,
    pub p: DealParams,
    pub level: u32,
    pub ids: &'a [u32],
}

// Deals a segment to its leaders and leaves its buckets in `nodes`, one after the other, with a mark at
// the first node of each in `marks`. `room` is scratch of at least as many words as `nodes`, `cards` of as
// many as the segment. A level that deals nothing, fewer than two nodes, more than 2,048 of them and slices
// of other lengths are refused: `nodes` and `marks` stay as they are.
pub fn deal(
    segment: Segment,
    nodes: &mut [u32],
    marks: &mut [u32],
    room: &mut [u32],
    cards: &mut [u32],
)
    ensures { Deals segment.entry nodes.old marks.old (length room.old) (length cards.old)
        nodes.new marks.new }
{
    let fan = fan_of(segment.level) as usize;
    let size = segment.ids.len();
    if fan == 0 {
        return;
    }
    if size < 2 {
        return;
    }
    if size > 2048 {
        return;
    }
    if nodes.len() != fan * size {
        return;
    }
    if marks.len() != nodes.len() {
        return;
    }
    if nodes.len() > 2048 {
        return;
    }
    if room.len() < nodes.len() {
        return;
    }
    if cards.len() != size {
        return;
    }
    deal_all(segment, nodes, marks, room, cards);
}

// The same of slices that fit. The leaders stand in `room` until each node has its card; then small buckets
// gather there.
fn deal_all(
    segment: Segment,
    nodes: &mut [u32],
    marks: &mut [u32],
    room: &mut [u32],
    cards: &mut [u32],
)
    requires { Fitting segment nodes.old marks.old (length room.old) (length cards.old) }
    ensures { Holding (buckets_for segment.entry) nodes.new marks.new }
{
    let Segment {
        vectors,
        p,
        level,
        ids,
    } = segment;
    let count = leaders::leader_count(ids.len() as u32, p.leader_fraction);
    let k = count as usize;
    draw(level, ids, nodes, &mut room[..k]);
    let leaders = Leaders {
        vectors,
        nodes: &room[..k],
        fan: fan_of(level) as usize,
    };
    leaders.assign(ids, cards);
    let carded = Carded {
        ids,
        cards,
        leaders: count,
        min_leaf: p.min_leaf as usize,
    };
    carded.gather(room, nodes, marks);
}

// ---- which leaders

// Each position becomes the node that stands there.
fn nodes_at(ids: &[u32], positions: &mut [u32])
    ensures { positions.new ≡ map (λ (p : ℕ). get_or ids.now p 0) positions.old }
{
    for position in positions.iter_mut() {
        *position = slices::word_at(ids, *position as usize);
    }
}

// As many leaders as the last slice holds, in the order in which they were drawn. `left` is room for the
// draws.
fn draw(level: u32, ids: &[u32], left: &mut [u32], leaders: &mut [u32])
    requires { (length ids.now ≤ 2048) × (length ids.now ≤ length left.old) × (length leaders.old ≤ length ids.now) }
    ensures { leaders.new
        ≡ map (λ (p : ℕ). get_or ids.now p 0) (drawn (length leaders.old) (draw_start level) (up_to (length ids.now))) }
{
    let n = ids.len() as u32;
    leaders::draw_leaders(level, n, left, leaders);
    nodes_at(ids, leaders);
}

// ---- which of them are nearest

#[tactic(auto, unfolding(distance::specs::Vectors::rank))]
fn rank_of(vectors: Vectors, a: u32, b: u32) -> u32
    ensures { result ≡ rank (vectors_of vectors.entry) a b }
{
    order::key(vectors.between(Node(a), Node(b)))
}

// The leaders of a segment, and to how many of them each of its nodes goes.
#[derive(Clone, Copy)]
struct Leaders<'a> {
    vectors: Vectors<'a>,
    nodes: &'a [u32],
    fan: usize,
    ghost enough: { (length nodes.now ≤ 2048) × (1 ≤ fan) × (fan ≤ 2) × (fan ≤ length nodes.now) },
}

impl Leaders<'_> {
    ghost use Rattle.dealing.specs.Inside.Leading.{nearest_to};

    // The numbers of the leaders nearest to a node, with their ranks.
    fn nearest(self, id: u32, found: &mut [Keyed])
        requires { length found.old ≡ self.fan }
        ensures { map id_in found.new ≡ nearest_to self.entry id }
    {
        let mut held = 0;
        for (l, leader) in self.nodes.iter().enumerate() {
            let key = rank_of(self.vectors, id, *leader);
            held = sorting::keep_first(found, held, Keyed { key, id: l as u32 });
        }
    }

    // The card of a node: it names its nearest leader, and at fan 2 the second nearest too.
    fn card_of(self, id: u32) -> u32
        ensures { result ≡ card_of (nearest_to self.entry id) }
    {
        let mut found = [Keyed { key: 0, id: 0 }; 2];
        self.nearest(id, &mut found[..self.fan]);
        found[0].id + 65536 * found[self.fan - 1].id
    }

    // A card for each node. Nodes are read by index, since a proof knows no element of `cards` after a loop
    // over `iter_mut` under `zip`.
    // kept (6): nodes are the caller's slice of plain numbers, so that their cards stand in a slice beside it.
    fn assign(self, ids: &[u32], cards: &mut [u32])
        requires { length cards.old ≡ length ids.now }
        ensures { cards.new ≡ map (λ (id : ℕ). card_of (nearest_to self.entry id)) ids.now }
    {
        for (i, card) in cards.iter_mut().enumerate() {
            *card = self.card_of(ids[i]);
        }
    }
}

// ---- a bucket for each leader

// Whether a card names leader l.
fn is_named(l: u32, card: u32) -> bool
    ensures { result ≡ names l card }
{
    (l == card % 65536) | (l == card / 65536)
}

// Marks all of a slice as one bucket, or as the rest of one.
pub fn mark(marks: &mut [u32], first: u32)
    ensures { marks.new ≡ run first (length marks.old) }
{
    marks.fill(0);
    if let Some(mark) = marks.first_mut() {
        *mark = first;
    }
}

// Puts a bucket, or the rest of one, at the front of both slices.
fn place(bucket: &[u32], first: u32, nodes: &mut [u32], marks: &mut [u32])
    requires { (length bucket.now ≤ length nodes.old) × (length marks.old ≡ length nodes.old) }
    ensures { (nodes.new ≡ bucket.now ++ drop (length bucket.now) nodes.old)
        × (marks.new ≡ run first (length bucket.now) ++ drop (length bucket.now) marks.old) }
{
    let size = bucket.len();
    slices::copy(&mut nodes[..size], bucket);
    mark(&mut marks[..size], first);
}

// How many nodes are placed, and how many have gathered.
#[derive(Clone, Copy)]
struct Held {
    at: usize,
    held: usize,
}

// The nodes of a segment, the card of each, how many leaders there are, and of how many nodes a bucket is
// placed.
#[derive(Clone, Copy)]
struct Carded<'a> {
    ids: &'a [u32],
    cards: &'a [u32],
    leaders: u32,
    min_leaf: usize,
}

impl Carded<'_> {
    // Puts the nodes that go to leader l at the front of a slice. Returns how many there are.
    // kept (3): only what passes the test takes a place, so `enumerate` does not give it.
    fn bucket_of(self, l: u32, to: &mut [u32]) -> usize
        requires { (length self.cards.now ≡ length self.ids.now) × (length (bucket_in l self) ≤ length to.old) }
        ensures { (result ≡ length (bucket_in l self.entry))
            × (to.new ≡ bucket_in l self.entry ++ drop result to.old) }
    {
        let mut count = 0;
        for (id, card) in self.ids.iter().zip(self.cards) {
            if is_named(l, *card) {
                to[count] = *id;
                count += 1;
            }
        }
        count
    }

    // The bucket of leader l is placed, or gathers with those before it, which are placed once they are
    // enough.
    fn gather_one(
        self,
        l: u32,
        small: &mut [u32],
        nodes: &mut [u32],
        marks: &mut [u32],
        g: Held,
    ) -> Held
        requires { Roomy (bucket_in l self) g self small.old nodes.old marks.old }
        ensures { Gathers self.entry.min_leaf (bucket_in l self.entry) g small.old nodes.old marks.old
            result small.new nodes.new marks.new }
    {
        let Held { at, held } = g;
        let size = self.bucket_of(l, &mut small[held..]);
        let end = held + size;
        if size >= self.min_leaf {
            place(&small[held..end], 1, &mut nodes[at..], &mut marks[at..]);
            return Held {
                at: at + size,
                held,
            };
        }
        if end >= self.min_leaf {
            place(&small[..end], 1, &mut nodes[at..], &mut marks[at..]);
            return Held {
                at: at + end,
                held: 0,
            };
        }
        Held { at, held: end }
    }

    // Each leader's bucket, placed or gathered.
    fn gather_all(self, small: &mut [u32], nodes: &mut [u32], marks: &mut [u32]) -> Held
        requires dealt { Dealt self nodes.old marks.old }
        requires nodes_in_bounds { length nodes.old ≤ length small.old }
        ensures { Holds (gather_all self.entry.min_leaf none_yet (buckets_in self.entry)) result
            small.new nodes.new marks.new }
    {
        let mut g = Held { at: 0, held: 0 };
        for l in 0..self.leaders {
            g = self.gather_one(l, small, nodes, marks, g);
        }
        g
    }

    // All buckets of a segment, with the small ones gathered in `small`. What has gathered at the end goes
    // onto the last bucket, or is the only one.
    fn gather(self, small: &mut [u32], nodes: &mut [u32], marks: &mut [u32])
        requires dealt { Dealt self nodes.old marks.old }
        requires nodes_in_bounds { length nodes.old ≤ length small.old }
        ensures { Holding (gathered self.entry.min_leaf (buckets_in self.entry)) nodes.new marks.new }
    {
        let Held { at, held } = self.gather_all(small, nodes, marks);
        let first = u32::from(at == 0);
        place(&small[..held], first, &mut nodes[at..], &mut marks[at..]);
    }
}
