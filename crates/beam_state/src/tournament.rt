// A tournament: slots 0 up (`place` in code), each empty or with a pair of a key and an id, and the first of
// all the pairs at hand at any time. The Rust's `BinaryHeap` of src/pipnn/mod.rs and src/graph_utils.rs;
// here a slot's number can be a node's, so that a pair is put, replaced and removed by its slot.
//
// A slice of u32 holds it, four words for each slot: with `size` slots, pair p is at words 2p and 2p + 1, its
// id and then its key, and the pair of slot i is pair size + i. Every pair p from 1 to size - 1 is the lesser
// of pairs 2p and 2p + 1, by key and then id, so that pair 1 is the first of all. An empty slot has all ones,
// which no pair comes after. A put goes up from its slot to pair 1, a step for each halving of the size, and
// takes the lesser of two in each step without a branch: id and key are one number of 64 bits, its rank.
//
// Every function is total. What a tree stands for is `Tournament` of specs/Inside/Tournament; proofs/Laws says that
// its first pair is that of a slot and that no slot's comes before it. A pair is a `Keyed` of `sorting`.
//
// kept (6): a tree is words of the caller's scratch, since there is no heap.
ghost use Rattle.std.specs.Prelude.{◌≡◌, ◌*◌, ◌+◌, ◌-◌, ◌/◌, ◌%◌, ◌<◌, length, replicate};
ghost use Rattle.beam_state.specs.Inside.Tournament.{rank_of, rank_at, with_pair, empty_rank, Tournament, first_of, First, Putting, Climbing};

use sorting::Keyed;

// What stands in an empty slot.
// kept (1): the slots are words of the caller's scratch.
const NOTHING: u32 = 0xffff_ffff;

const EMPTY: Keyed = Keyed {
    key: NOTHING,
    id: NOTHING,
};

// A pair as one number: pairs stand in the order of these numbers.
// kept (4): tried, in Rust, with a derived order of pairs: `min` then takes a branch, and a put takes about twice the time.
fn rank(pair: Keyed) -> u64
    ensures { result ≡ rank_of pair.key pair.id }
{
    (pair.key as u64) * 4294967296 + (pair.id as u64)
}

// Leaves every place empty.
pub fn clear(tree: &mut [u32])
    ensures { Tournament (replicate (length tree.old / 4) empty_rank) tree.new }
{
    tree.fill(NOTHING);
}

// The rank of pair p.
fn rank_at(tree: &[u32], p: usize) -> u64
    requires { 2 * p + 1 < length tree.now }
    ensures { result ≡ rank_at tree.now p }
{
    rank(Keyed {
        key: tree[2 * p + 1],
        id: tree[2 * p],
    })
}

// The rank of pair p becomes this one.
fn lay(tree: &mut [u32], p: usize, rank: u64)
    requires { 2 * p + 1 < length tree.old }
    ensures { tree.new ≡ with_pair tree.old p rank }
{
    tree[2 * p] = (rank % 4294967296) as u32;
    tree[2 * p + 1] = (rank / 4294967296) as u32;
}

// Settles the pairs above pair `from`, which alone was changed and has this rank, from below.
// kept (3): tried with `iter::successors`, which std counts as endless, so that a `for` over it is not proved to end.
fn climb(tree: &mut [u32], from: usize, rank: u64)
    requires { (from < 2 * (length tree.old / 4)) × (rank_at tree.old from ≡ rank) }
    ensures { Climbing from tree.old tree.new }
{
    let mut p = from;
    let mut least = rank;
    while p > 1 {
        let beside = p + 1 - 2 * (p % 2);
        least = least.min(rank_at(tree, beside));
        p = p / 2;
        lay(tree, p, least);
    }
}

// Puts a pair at one of the tree's places.
pub fn put(tree: &mut [u32], place: u32, pair: Keyed)
    ensures { Putting place (rank_of pair.key pair.id) tree.old tree.new }
{
    let size = tree.len() / 4;
    let at = place as usize;
    if at >= size {
        return;
    }
    let p = size + at;
    let new = rank(pair);
    lay(tree, p, new);
    climb(tree, p, new);
}

// Leaves one of the tree's places empty.
pub fn remove(tree: &mut [u32], place: u32)
    ensures { Putting place empty_rank tree.old tree.new }
{
    put(tree, place, EMPTY);
}

// The first pair of all, `EMPTY` where all slots are empty or there is none.
pub fn first(tree: &[u32]) -> Keyed
    ensures { result ≡ first_of tree.now }
{
    if tree.len() < 4 {
        return EMPTY;
    }
    Keyed {
        key: tree[3],
        id: tree[2],
    }
}

// The same, or none where its id is that of an empty slot.
// kept (1): an empty slot has all ones, as the words of the caller's scratch have no other mark.
pub fn first_if_any(tree: &[u32]) -> Option<Keyed>
    ensures { First tree.now result }
{
    let top = first(tree);
    if top.id == NOTHING {
        return None;
    }
    Some(top)
}
