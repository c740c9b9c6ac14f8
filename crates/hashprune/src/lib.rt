// One node's turn in a leaf (scope, part 5), as the Rust's `hashprune_insert`: its candidates go into hash
// cells, and the nearest of those that hold cells are merged with what its row has from earlier leaves.
//
// The Rust keeps a cell for each of 2^bits hashes. Here the cells that are taken are in rising order of
// hash, which is the order in which the Rust reads its cells back; there are no more of them than
// candidates. A cell holds the index of its candidate, by which its node and its distance are found.
// Nothing is allocated: a row has at most 32 entries and a turn at most 64 candidates, so arrays of this
// size are enough, and a call with more changes nothing.
//
// `hashprune_insert` is total. That its row is `merged .. (selected ..)` of `def_graph` holds where the
// caller prepared what `Turn` of specs/Inside/Hashprune says, planes among it. specs/Inside/Steps has what the steps say of
// each other.
#![tactic(auto)]

ghost use Rattle.std.specs.Prelude.{◌≡◌, map, ◌+◌, ◌-◌, ◌≤◌, ◌<◌, leb, [], ◌∷◌, ◌++◌, length, get_or, set, insert, take, drop};
ghost use Rattle.std.specs.List.{position};
ghost use Rattle.basics.specs.Sum.{+zero};
ghost use Rattle.distance.specs.Vectors.{vectors_of, vector_of};
ghost use Rattle.sorting.specs.Inside.Pairs.{id_in, put_front};
ghost use Rattle.def_graph.specs.Leaf.{put_cell, dedup, starts_with};
ghost use Rattle.store.specs.View.{row_block};
ghost use Rattle.arrayvec.specs.ArrayVec.{array_vec_len};
ghost use Rattle.hashprune.specs.Inside.Steps.{no_cell, place_in, cell_in, cells_in, far_at, winner, ContestRoom, hash_by, cells_of};
ghost use Rattle.hashprune.specs.Inside.Steps.{PlaceRoom, RowRoom, SelectRoom, Selected, MergeRoom, TurnRoom, row_after};
ghost use Rattle.hashprune.specs.Inside.Steps.{ranked_place, selected_pairs, old_pairs, merged_pairs};
ghost use Rattle.hashprune.specs.Inside.Hashprune.{Inserted};

use arrayvec::ArrayVec;
use distance::order;
use distance::vectors::Vectors;
use sorting::Keyed;
use std::mem;
use words::ids::Node;

// The node whose turn it is, and how many hash bits its index has.
#[derive(Clone, Copy)]
pub struct Point {
    pub node: Node,
    pub bits: u32,
}

// A node of the leaf that may come into the row, and how far it is from the node whose turn it is.
#[derive(Clone, Copy)]
pub struct Candidate {
    pub node: Node,
    pub far: f32,
}

// What fills a place of an array that no candidate has.
impl Default for Candidate {
    fn default() -> Self
        ensures { result ≡ record { node = record { 0 = 0 }; far = +zero } }
    {
        Candidate {
            node: Node(0),
            far: 0.0,
        }
    }
}

// What comes to a node's row in its turn: the candidates, at most 64 nodes in their order; the vectors of the index and the
// blocks of hyperplanes, by which they are hashed.
#[derive(Clone, Copy)]
pub struct Offer<'a> {
    pub vectors: Vectors<'a>,
    pub point: Point,
    pub planes: &'a [f32],
    pub candidates: &'a [Candidate],
}

// A hash, and the place of the candidate that holds its cell.
#[derive(Clone, Copy, Default)]
struct Cell {
    hash: u32,
    place: u32,
}

// The hash of a candidate's residual, seen from p.
// kept (6): a buffer of the largest size, cut at a length that is known before; no count grows.
fn hash_of(p: &[f32], c: &[f32], planes: &[f32], bits: u32) -> u32
    ensures { result ≡ hash_by planes.now bits p.now c.now }
{
    let mut room = [0.0f32; 64];
    let n = p.len().min(c.len()).min(64);
    simhash::residual_into(c, p, &mut room[..n]);
    simhash::simhash_residual(&room[..n], planes, bits)
}

// Where a hash belongs: at the first that is not below it, or behind all.
fn place_of(cells: &[Cell], hash: u32) -> Option<usize>
    ensures { result ≡ position (λ cell. leb hash cell.hash) cells.now }
{
    cells.iter().position(|cell| cell.hash >= hash)
}

// The candidate at a place comes to a cell that is taken, and wins it only by a strictly smaller
// distance.
fn contest(cells: &mut [Cell], at: usize, place: u32, candidates: &[Candidate])
    requires { (at < length cells.old) × (place < length candidates.now) × (place_in (get_or cells.old at no_cell) < length candidates.now) }
    ensures { cells.new ≡ set cells.old at (winner candidates.now place (get_or cells.old at no_cell)) }
{
    let holder = cells[at].place;
    if candidates[place as usize].far < candidates[holder as usize].far {
        cells[at].place = place;
    }
}

// A cell comes to the front, and each goes one place further. Returns the last, which has no place any more.
fn carry(cells: &mut [Cell], new: Cell) -> Cell
    ensures { cells.new ++ result ∷ [] ≡ new ∷ cells.old }
{
    let mut moved = new;
    for cell in cells.iter_mut() {
        moved = mem::replace(cell, moved);
    }
    moved
}

// A cell comes to this place, and those from there on go one place further. `ArrayVec::insert` calls C's memmove, which the
// archive for C does without.
fn open_cell(cells: &mut ArrayVec<Cell, 64>, at: usize, new: Cell)
    requires { (at ≤ array_vec_len cells.old) × (array_vec_len cells.old < 64) }
    ensures items { cells.new.items ≡ insert cells.old.items at new }
    ensures len { array_vec_len cells.new ≡ array_vec_len cells.old + 1 }
{
    let last = carry(&mut cells.as_mut_slice()[at..], new);
    cells.push(last);
}

// A candidate comes to its cell.
fn put_cell(cells: &mut ArrayVec<Cell, 64>, new: Cell, candidates: &[Candidate])
    requires { ContestRoom new cells.old.items candidates.now }
    ensures { (array_vec_len cells.new ≤ array_vec_len cells.old + 1)
        × (cells_in cells.new.items ≡ put_cell (far_at candidates.now) (cell_in new) (cells_in cells.old.items)) }
{
    let at = place_of(cells.as_slice(), new.hash).unwrap_or(cells.len());
    if at < cells.len() && cells.as_slice()[at].hash == new.hash {
        contest(cells.as_mut_slice(), at, new.place, candidates);
        return;
    }
    open_cell(cells, at, new);
}

// The cells after all candidates have come, in their order.
fn cells_after(offer: Offer) -> ArrayVec<Cell, 64>
    requires { length offer.candidates.now ≤ 64 }
    ensures { (array_vec_len result ≤ length offer.entry.candidates.now) × (cells_in result.items
        ≡ cells_of offer.entry.point offer.entry.vectors offer.entry.planes.now offer.entry.candidates.now) }
{
    let p = offer.vectors.get(offer.point.node);
    let mut cells = ArrayVec::new();
    for (i, candidate) in offer.candidates.iter().enumerate() {
        let hash = hash_of(
            p,
            offer.vectors.get(candidate.node),
            offer.planes,
            offer.point.bits,
        );
        let cell = Cell {
            hash,
            place: i as u32,
        };
        put_cell(&mut cells, cell, offer.candidates);
    }
    cells
}

// The nodes of the candidates that hold cells, with the keys of their distances, at the front of a slice.
fn rank_places(candidates: &[Candidate], cells: &[Cell], pairs: &mut [Keyed])
    requires { PlaceRoom candidates.now cells.now pairs.old }
    ensures { pairs.new ≡ put_front (map (λ cell. ranked_place candidates.now (place_in cell)) cells.now) pairs.old }
{
    for (i, cell) in cells.iter().enumerate() {
        let candidate = candidates[cell.place as usize];
        pairs[i] = Keyed {
            key: order::key(candidate.far),
            id: candidate.node.0,
        };
    }
}

// The entries of a row, with the keys of their distances from p, at the front of a slice. Returns how
// many there are.
fn rank_row(vectors: Vectors, p: &[f32], row: &[u32], pairs: &mut [Keyed]) -> usize
    requires { RowRoom row.now pairs.old }
    ensures { (result ≡ length (old_pairs vectors.entry p.now row.now))
        × (pairs.new ≡ put_front (old_pairs vectors.entry p.now row.now) pairs.old) }
{
    let degree = (row.len() - 1) as u16;
    let entries = lists::row_of(row, degree, Node(0));
    for (i, entry) in entries.iter().enumerate() {
        let key = order::key(vectors.distance_from(p, Node(*entry)));
        pairs[i] = Keyed { key, id: *entry };
    }
    entries.len()
}

// Whether the first of some pairs has this id.
fn begins_with(pairs: &[Keyed], id: u32) -> bool
    ensures { result ≡ starts_with id (map id_in pairs.now) }
{
    pairs.first().is_some_and(|pair| id == pair.id)
}

// Of neighbours with equal ids one stays: what is left stands at the end, from the place returned on. From
// the end, as the definition goes; which of equals stays makes no difference.
// kept (3): std's `dedup_by_key` is of a Vec, which takes its memory from an allocator, and there is none here.
fn dedup(pairs: &mut [Keyed]) -> usize
    ensures { (result ≤ length pairs.old) × (map id_in (drop result pairs.new) ≡ dedup (map id_in pairs.old)) }
{
    let mut from = pairs.len();
    for i in (0..pairs.len()).rev() {
        let pair = pairs[i];
        if !begins_with(&pairs[from..], pair.id) {
            from -= 1;
            pairs[from] = pair;
        }
    }
    from
}

// A row: a count, as many of the nodes as there is room for, and zeros.
fn write_row(row: &mut [u32], pairs: &[Keyed])
    requires { (1 ≤ length row.old) × (length pairs.now ≤ 64) }
    ensures { row.new ≡ row_block (length row.old - 1) (take (length row.old - 1) (map id_in pairs.now)) }
{
    let count = pairs.len().min(row.len() - 1);
    row.fill(0);
    row[0] = count as u32;
    for (i, pair) in pairs[..count].iter().enumerate() {
        row[i + 1] = pair.id;
    }
}

// The nodes that hold cells after the candidates have come, the nearest first, with their keys, at the
// front of a slice. Returns how many there are.
fn select(offer: Offer, pairs: &mut [Keyed], spare: &mut [Keyed]) -> usize
    requires { SelectRoom (length offer.candidates.now) pairs.old spare.old }
    ensures { Selected (selected_pairs offer.entry.point offer.entry.vectors offer.entry.planes.now offer.entry.candidates.now)
        (length offer.entry.candidates.now) result pairs.old pairs.new }
{
    let cells = cells_after(offer);
    rank_places(offer.candidates, cells.as_slice(), pairs);
    let held = cells.len();
    sorting::sort_pairs(&mut pairs[..held], spare);
    held
}

// A row of the nodes of some pairs, the nearest first, of equal neighbours one.
fn merge_row(pairs: &mut [Keyed], spare: &mut [Keyed], row: &mut [u32])
    requires { MergeRoom pairs.old spare.old row.old }
    ensures { row.new ≡ row_block (length row.old - 1) (merged_pairs (length row.old - 1) pairs.old) }
{
    sorting::sort_pairs(pairs, spare);
    let from = dedup(pairs);
    write_row(row, &pairs[from..]);
}

// The turn of a node, where sizes fit: the row's entries come first, then what is selected.
// kept (6): an ArrayVec of pairs is no plainer: where the row's pairs end is still needed, to sort those behind them alone,
// and its `truncate` also writes over each pair that is cut off.
fn insert_fitting(offer: Offer, row: &mut [u32])
    requires { TurnRoom offer.candidates.now row.old }
    ensures { row.new ≡ row_after offer.entry.point offer.entry.vectors offer.entry.planes.now offer.entry.candidates.now row.old }
{
    let none = Keyed { key: 0, id: 0 };
    let mut pairs = [none; 96];
    let mut spare = [none; 64];
    let p = offer.vectors.get(offer.point.node);
    let old = rank_row(offer.vectors, p, row, &mut pairs);
    let new = select(offer, &mut pairs[old..], &mut spare);
    let all = old + new.min(row.len() - 1);
    merge_row(&mut pairs[..all], &mut spare, row);
}

// The turn of a node: `row` is its row, a count and D entries with D at most 32.
// It is promised for sizes that fit (`Turn` of specs/Inside/Hashprune); for others it is safe, and no more is said.
pub fn hashprune_insert(offer: Offer, row: &mut [u32])
    ensures { Inserted offer.entry.point offer.entry.vectors offer.entry.planes.now offer.entry.candidates.now row.old row.new }
{
    if offer.candidates.len() > 64 {
        return;
    }
    if row.len() == 0 {
        return;
    }
    if row.len() > 33 {
        return;
    }
    insert_fitting(offer, row);
}
