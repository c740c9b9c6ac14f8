// The two stores of an index (scope, Records and Refusals).
//
// A gateway passes in a word store and a float store of any content. This layer says where everything is in
// them (specs/Layout), what they mean (specs/View), which of them are well formed (specs/WellFormed), and
// which checks every call but `new` begins with (specs/Opening). Offsets and sizes are computed here and
// nowhere else. The Rust keeps vectors of vectors, and has no such checks.
//
// It promises: each reader returns what the layout says, on slices of any length; `check_opening` returns
// the refusal of the first check that fails. The check reads each word of the store once and joins its
// tests without a branch for each word, since it happens at every call.
//
// It uses `params` for the limits, and `finite` for the vectors.
#![tactic(auto)]

ghost use Rattle.std.specs.Prelude.{◌≡◌, true, ◌+◌, ◌*◌, ◌≤◌, length, drop, set};
ghost use Rattle.basics.specs.Refusals.{first_refusal};
ghost use Rattle.basics.specs.Lists.{every, pieces};
ghost use Rattle.store.specs.Layout.{
  word,
  docs_at,
  rows_at,
  row_size,
  row_at,
  bridges_at,
  bridge_size,
  bridge_at,
  words_size,
  floats_size,
  scratch_words,
  scratch_floats,
  degree_at,
  capacity_at,
  dimension_at,
};
ghost use Rattle.store.specs.View.{params_of};
ghost use Rattle.store.specs.WellFormed.{is_node, header_ok, row_ok, count_ok, bridge_ok, rest_ok};
ghost use Rattle.error.specs.Inside.Refused.{answer_of};
ghost use Rattle.store.specs.Opening.{store_short, scratch_short, too_short, opening};

use error::Refusal;
use params::{PipnnParams, finite};
use std::num::{f32_from_bits_with_nan, f64_from_bits_with_nan};
use words::ids::{DocId, Node};
use words::slices;
pub use words::slices::word_at;

// The header's words.
pub const STATE: usize = 0;

pub const DIMENSION: usize = 1;

pub const NODES: usize = 2;

pub const MAX_LEAF_SIZE: usize = 3;

pub const MIN_LEAF_SIZE: usize = 4;

pub const DEGREE: usize = 5;

pub const HASH_BITS: usize = 6;

pub const FINAL_PRUNE: usize = 7;

pub const EF_SEARCH: usize = 8;

pub const ENTRY: usize = 9;

pub const BRIDGE_COUNT: usize = 10;

pub const CAPACITY: usize = 11;

pub const FRACTION_HIGH: usize = 12;

pub const FRACTION_LOW: usize = 13;

pub const ALPHA: usize = 14;

pub const ZERO: usize = 15;

pub const HEADER_SIZE: usize = 16;

// A bridge's words: near, far.
pub const BRIDGE_SIZE: usize = 2;

// What the state word says.
// kept (1): a state is a word of the store, here and in `BUILT`; an enum would be made of it by a conversion that can fail, where `header_ok` has ruled the failure out.
pub const OPEN: u32 = 0;

pub const BUILT: u32 = 1;

// A node's doc id. Here and in `put_doc` nodes and doc ids meet, and nowhere else.
pub fn doc_of(words: &[u32], node: Node) -> DocId
    ensures { result.0 ≡ word words.now (docs_at + node.0) }
{
    DocId(word_at(words, HEADER_SIZE + node.0 as usize))
}

// A doc id goes to a node's place.
pub fn put_doc(words: &mut [u32], node: Node, doc: DocId)
    ensures { words.new ≡ set words.old (docs_at + node.0) doc.0 }
{
    slices::put(words, HEADER_SIZE + node.0 as usize, doc.0);
}

// Where the rows start.
pub fn rows_at(capacity: u32) -> usize
    ensures { result ≡ rows_at capacity }
{
    HEADER_SIZE + capacity as usize
}

// What decides where rows and bridges stand. None of their offsets and sizes can leave a usize, since a degree comes as
// a u16.
#[derive(Clone, Copy)]
pub struct Layout {
    pub capacity: u32,
    pub degree: u16,
}

impl Layout {
    // A row's words: its count and D entries.
    fn row_size(self) -> usize
        ensures { result ≡ row_size self.degree }
    {
        1 + self.degree as usize
    }

    // Where a node's row starts.
    pub fn row_at(self, node: Node) -> usize
        ensures { result ≡ row_at self.capacity self.degree node.0 }
    {
        rows_at(self.capacity) + node.0 as usize * self.row_size()
    }

    // Where the bridges start.
    pub fn bridges_at(self) -> usize
        ensures { result ≡ bridges_at self.capacity self.degree }
    {
        rows_at(self.capacity) + self.capacity as usize * self.row_size()
    }

    // Where bridge j starts.
    pub fn bridge_at(self, j: u32) -> usize
        ensures { result ≡ bridge_at self.capacity self.degree j }
    {
        self.bridges_at() + j as usize * BRIDGE_SIZE
    }

    // The word store's size.
    pub fn words_size(self) -> usize
        ensures { result ≡ words_size self.capacity self.degree }
    {
        HEADER_SIZE + self.capacity as usize * (4 + self.degree as usize)
    }
}

// The float store's size.
pub fn floats_size(capacity: u32, dimension: u32) -> usize
    ensures { result ≡ floats_size capacity dimension }
{
    capacity as usize * dimension as usize
}

// Scratch, in words and in floats.
pub fn scratch_words(capacity: u32) -> usize
    ensures { result ≡ scratch_words capacity }
{
    64 * capacity as usize
}

pub fn scratch_floats(capacity: u32) -> usize
    ensures { result ≡ scratch_floats capacity }
{
    16 * capacity as usize + 256
}

// The parameters as the header has them.
pub fn params_of(words: &[u32]) -> PipnnParams
    ensures { result ≡ params_of words.now }
{
    let high = word_at(words, FRACTION_HIGH) as u64;
    let low = word_at(words, FRACTION_LOW) as u64;
    let fraction = high * 4294967296 + low;
    PipnnParams {
        max_leaf_size: word_at(words, MAX_LEAF_SIZE),
        min_leaf_size: word_at(words, MIN_LEAF_SIZE),
        leader_fraction: f64_from_bits_with_nan(fraction),
        max_degree: word_at(words, DEGREE),
        num_hash_bits: word_at(words, HASH_BITS),
        final_prune: word_at(words, FINAL_PRUNE) == 1,
        alpha: f32_from_bits_with_nan(word_at(words, ALPHA)),
        ef_search: word_at(words, EF_SEARCH),
    }
}

// Whether the header's 16 words are well formed.
fn header_ok(words: &[u32]) -> bool
    ensures { result ≡ header_ok words.now }
{
    let state = word_at(words, STATE);
    let n = word_at(words, NODES);
    let entry = word_at(words, ENTRY);
    let bridges = word_at(words, BRIDGE_COUNT);
    let capacity = word_at(words, CAPACITY);
    let open = (state == OPEN) & (entry == 0) & (bridges == 0);
    let built = (state == BUILT) & (1 <= n) & (entry < n) & (bridges < n);
    params::within_limits(params_of(words))
        & params::dimension_within(word_at(words, DIMENSION))
        & params::capacity_within(capacity)
        & (word_at(words, FINAL_PRUNE) <= 1)
        & (word_at(words, ZERO) == 0)
        & (n <= capacity)
        & (open | built)
}

// Whether each entry is a node. Each is read, whatever came before it.
fn all_nodes(entries: &[u32], n: u32) -> bool
    ensures { result ≡ every (is_node n) entries.now }
{
    entries.iter().fold(true, |ok, entry| ok & (*entry < n))
}

// Whether each entry is, four a turn, one of each quarter: a turn costs little more than one entry does. True
// means that each is; false means nothing.
fn nodes_by_fours(entries: &[u32], n: u32) -> bool
    ensures { result ≡ true → every (is_node n) entries.now ≡ true }
{
    let quarter = entries.len() / 4;
    let rest = 4 * quarter;
    let mut ok = all_nodes(&entries[rest..], n);
    for i in 0..quarter {
        let low = (entries[i] < n) & (entries[quarter + i] < n);
        let high = (entries[2 * quarter + i] < n) & (entries[3 * quarter + i] < n);
        ok = ok & (low & high);
    }
    ok
}

// Whether a row, its count and D entries, is well formed. Only the entries counted are read.
fn row_ok(row: &[u32], degree: u16, n: u32) -> bool
    requires { length row.now ≡ row_size degree }
    ensures { result ≡ row_ok degree n row.now }
{
    let count = row[0];
    if count > degree as u32 {
        return false;
    }
    let end = 1 + count as usize;
    all_nodes(&row[1..end], n)
}

// The rows of n nodes, one after the other: a count and D entries each.
// kept (6): n is also what bounds each entry, and `whole` says that the words are those of n rows.
#[derive(Clone, Copy)]
struct Rows<'a> {
    words: &'a [u32],
    degree: u16,
    n: u32,
    ghost whole: { length words.now ≡ n * row_size degree },
}

impl<'a> Rows<'a> {
    // Whether each row is well formed, row by row.
    // kept (2): one function for this and `counts_ok` is no plainer: it takes a closure, and its contract says on which rows that may be called.
    fn each_ok(self) -> bool
        ensures { result ≡ every (row_ok self.entry.degree self.entry.n) (pieces (row_size self.entry.degree) self.entry.n self.entry.words.now) }
    {
        let mut ok = true;
        for row in self.words.chunks_exact(1 + self.degree as usize) {
            ok = ok & row_ok(row, self.degree, self.n);
        }
        ok
    }

    // Whether each row counts at most D entries.
    fn counts_ok(self) -> bool
        ensures { result ≡ every (count_ok self.entry.degree) (pieces (row_size self.entry.degree) self.entry.n self.entry.words.now) }
    {
        let mut ok = true;
        for row in self.words.chunks_exact(1 + self.degree as usize) {
            ok = ok & (row[0] <= self.degree as u32);
        }
        ok
    }

    // Whether each row is well formed. In rows as the calls leave them every word is a valid node number, the counts
    // and what is past them too, if there are more nodes than D: then one pass over all words of the rows is enough. Where
    // it fails, each row is checked by itself.
    fn ok(self) -> bool
        ensures { result ≡ every (row_ok self.entry.degree self.entry.n) (pieces (row_size self.entry.degree) self.entry.n self.entry.words.now) }
    {
        if self.counts_ok() & nodes_by_fours(self.words, self.n) {
            return true;
        }
        self.each_ok()
    }
}

// Whether each of some bridges has two different nodes for its ends.
fn bridges_ok(bridges: &[u32], count: u32, n: u32) -> bool
    requires { length bridges.now ≡ count * bridge_size }
    ensures { result ≡ every (bridge_ok n) (pieces bridge_size count bridges.now) }
{
    let mut ok = true;
    for bridge in bridges.chunks_exact(BRIDGE_SIZE) {
        let near = bridge[0];
        let far = bridge[1];
        ok = ok & ((near < n) & (far < n) & (near != far));
    }
    ok
}

// Whether a store is shorter than its shape asks.
pub fn store_short(words: &[u32], floats: &[f32], layout: Layout, dimension: u32) -> bool
    ensures { result ≡ store_short layout.capacity layout.degree dimension words.now floats.now }
{
    (words.len() < layout.words_size()) | (floats.len() < floats_size(layout.capacity, dimension))
}

// The scratch that a call is passed besides the two stores, by its numbers of words and floats.
#[derive(Clone, Copy)]
pub struct Scratch {
    pub words: usize,
    pub floats: usize,
}

// Whether scratch is passed in, and too short.
fn scratch_short(capacity: u32, lent: Option<Scratch>) -> bool
    ensures { result ≡ scratch_short capacity lent }
{
    match lent {
        None => false,
        Some(scratch) => {
            (scratch.words < scratch_words(capacity)) | (scratch.floats < scratch_floats(capacity))
        }
    }
}

// The words of a store whose header is well formed.
#[derive(Clone, Copy)]
struct Formed<'a> {
    words: &'a [u32],
    ghost header: { header_ok words.now ≡ true },
}

impl<'a> Formed<'a> {
    // Where the header puts rows and bridges. Its degree is 32 at most.
    fn layout(self) -> Layout
        ensures { (result.capacity ≡ word self.entry.words.now capacity_at) × (result.degree ≡ word self.entry.words.now degree_at) }
    {
        Layout {
            capacity: word_at(self.words, CAPACITY),
            degree: word_at(self.words, DEGREE) as u16,
        }
    }

    // Whether what is passed in is shorter than the header's shape asks.
    fn too_short(self, floats: &[f32], lent: Option<Scratch>) -> bool
        ensures { result ≡ too_short lent self.entry.words.now floats.now }
    {
        let layout = self.layout();
        store_short(self.words, floats, layout, word_at(self.words, DIMENSION))
            | scratch_short(layout.capacity, lent)
    }

    // Whether the rest of the store is well formed.
    fn rest_ok(self, floats: &[f32]) -> bool
        requires degree_at_in_bounds { words_size (word self.words.now capacity_at) (word self.words.now degree_at) ≤ length self.words.now }
        requires dimension_at_in_bounds { floats_size (word self.words.now capacity_at) (word self.words.now dimension_at) ≤ length floats.now }
        ensures { result ≡ rest_ok self.entry.words.now floats.now }
    {
        let n = word_at(self.words, NODES);
        let count = word_at(self.words, BRIDGE_COUNT);
        let layout = self.layout();
        let rows_from = rows_at(layout.capacity);
        let rows_to = layout.row_at(Node(n));
        let bridges_from = layout.bridges_at();
        let bridges_to = layout.bridge_at(count);
        let vectors_end = floats_size(n, word_at(self.words, DIMENSION));
        let rows = Rows {
            words: &self.words[rows_from..rows_to],
            degree: layout.degree,
            n,
        };
        rows.ok()
            & bridges_ok(&self.words[bridges_from..bridges_to], count, n)
            & finite::all_finite(&floats[..vectors_end])
    }
}

// The checks with which every call but `new` begins: the first that fails is the refusal. `lent` is the scratch of a call
// that takes some.
pub fn check_opening(words: &[u32], floats: &[f32], lent: Option<Scratch>) -> Result<(), Refusal>
    ensures { answer_of result ≡ first_refusal (opening lent words.now floats.now) }
{
    if words.len() < HEADER_SIZE {
        return Err(Refusal::SliceTooShort);
    }
    if !header_ok(words) {
        return Err(Refusal::NotWellFormed);
    }
    let formed = Formed { words };
    if formed.too_short(floats, lent) {
        return Err(Refusal::SliceTooShort);
    }
    if !formed.rest_ok(floats) {
        return Err(Refusal::NotWellFormed);
    }
    Ok(())
}
