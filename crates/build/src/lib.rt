// `build` (scope, parts 4 to 7, Records and Refusals), as src/pipnn/mod.rs has it: the graph of the stored
// vectors goes into the word store, and the store is built.
//
// It promises one equation for the number and both stores, whole: `build_spec` of `def_calls`. What
// scratch held before has no effect on them.
//
// Scratch, for n nodes; a later step writes over what an earlier one is done with:
//
//   carving         words    from 0          2·n  the nodes of all leaves, leaf after leaf
//                            from 2·n        2·n  the leaves' sizes
//   leaf lists      floats   from 0         16·n  eight distances for each place of a leaf
//   entry node      floats   from 0    dimension  the centroid
//   repair          words    from 0          4·n  links (`lists::chains`): n heads, n tails, 2·n slots
//
// kept (5): a struct of the three `&mut` of a store and its scratch is no plainer: each contract then also has to say that each field still holds the same reference.
#![tactic(auto)]

ghost use Rattle.std.specs.Prelude.{◌≡◌, ◌+◌, ◌≤◌, length, set};
ghost use Rattle.basics.specs.Refusals.{first_refusal};
ghost use Rattle.error.specs.Inside.Refused.{answer_of};
ghost use Rattle.distance.specs.Vectors.{vectors_of};
ghost use Rattle.def_graph.specs.Rows.{rows_of};
ghost use Rattle.store.specs.Layout.{header_size, built_state, state_at, entry_at, bridge_count_at};
ghost use Rattle.lists.specs.Inside.Words.{Blocks};
ghost use Rattle.store.specs.View.{view};
ghost use Rattle.def_calls.specs.Graph.{settings_of, graph_for};
ghost use Rattle.def_calls.specs.Build.{build_checks, laid, built_words, build_spec};
ghost use Rattle.build.specs.Inside.Fits.{leaf_entries, LeavesFit, LeavesPut, RowsFit, RepairFits, RepairPut};

use build_leaf::LeafParams;
use carving::CarveParams;
use dealing::DealParams;
use distance::vectors::Vectors;
use error::Refusal;
use finish::{medoid, reverse_edges};
use params::PipnnParams;
use store::{Layout, Scratch};
use words::ids::Node;
use words::slices;

// The first of build's checks that fails.
fn check_build(words: &[u32], floats: &[f32], lent: Scratch) -> Result<(), Refusal>
    ensures { answer_of result ≡ first_refusal (build_checks lent.words lent.floats words.now floats.now) }
{
    store::check_opening(words, floats, Some(lent))?;
    if store::word_at(words, store::NODES) == 0 {
        return Err(Refusal::EmptyIndex);
    }
    Ok(())
}

// Copies the bridges to their place, `at`.
fn put_bridges(words: &mut [u32], at: usize, bridges: &[u32])
    requires { at + length bridges.now ≤ length words.old }
    ensures { words.new ≡ laid at bridges.now words.old }
{
    let end = at + bridges.len();
    slices::copy(&mut words[at..end], bridges);
}

// Writes words 0, 9 and 10: the store is built.
fn put_header(words: &mut [u32], entry: Node, bridges: u32)
    requires { header_size ≤ length words.old }
    ensures { words.new ≡ set (set (set words.old state_at built_state) entry_at entry.0) bridge_count_at bridges }
{
    words[store::STATE] = store::BUILT;
    words[store::ENTRY] = entry.0;
    words[store::BRIDGE_COUNT] = bridges;
}

// How many nodes all leaves have together: each node once, or twice where there is more than one leaf.
fn leaf_entries(n: u32, max_leaf_size: u32) -> usize
    ensures { result ≡ leaf_entries n max_leaf_size }
{
    if n <= max_leaf_size {
        return n as usize;
    }
    2 * n as usize
}

// The nodes that a graph is built of: n of them, their vectors, and where their rows and bridges stand.
#[derive(Clone, Copy)]
struct Stored<'a> {
    vectors: Vectors<'a>,
    n: u32,
    layout: Layout,
}

// The lists of the leaves that stand in `carved`, as `partition` leaves them, go into the rows.
fn put_leaves(
    rows: &mut [u32],
    stored: Stored,
    max_leaf_size: u32,
    leaf: LeafParams,
    carved: &[u32],
    count: u32,
    scratch_floats: &mut [f32],
)
    requires { LeavesFit stored.n count (length carved.now) }
    ensures { LeavesPut stored.entry.n max_leaf_size leaf stored.entry.vectors carved.now count
        (length scratch_floats.old) rows.old rows.new }
{
    let nodes_end = leaf_entries(stored.n, max_leaf_size);
    let sizes_at = carving::SIZES_AT * stored.n as usize;
    let sizes_end = sizes_at + count as usize;
    build_leaf::build_leaves(
        stored.vectors,
        leaf,
        &carved[..nodes_end],
        &carved[sizes_at..sizes_end],
        rows,
        scratch_floats,
    );
}

// The rows before repair, in place of whatever rows there were: leaves are carved, their lists are
// built, reverse edges are added. The final prune has nothing to do, since no row is longer than the
// degree (`prune_changes_nothing` of def_graph/proofs/graph_rows).
fn put_rows(
    rows: &mut [u32],
    stored: Stored,
    p: PipnnParams,
    scratch_words: &mut [u32],
    scratch_floats: &mut [f32],
)
    requires { RowsFit stored.n stored.vectors.dimension p rows.old stored.vectors.components.now (length scratch_words.old) (length scratch_floats.old) }
    ensures { Blocks p.max_degree (rows_of (settings_of stored.entry.vectors.dimension p) (vectors_of stored.entry.vectors)) rows.new }
{
    let degree = p.max_degree as u16;
    let carve = CarveParams {
        max_leaf: p.max_leaf_size,
        dealing: DealParams {
            min_leaf: p.min_leaf_size,
            leader_fraction: p.leader_fraction,
        },
    };
    let leaf = LeafParams {
        degree,
        bits: p.num_hash_bits,
    };
    rows.fill(0);
    let count = carving::partition(stored.vectors, carve, stored.n, scratch_words);
    put_leaves(
        rows,
        stored,
        p.max_leaf_size,
        leaf,
        scratch_words,
        count,
        scratch_floats,
    );
    reverse_edges::add_reverse_edges(rows, degree);
}

// The entry node and the bridges, for rows that stand in the store: words 0, 9 and 10 and the bridges are
// written. The bridges are built beside the store, since its rows are read meanwhile.
// kept (6): `graph_utils` writes bridges into a slice that it is passed, and returns how many there are.
fn repair(
    words: &mut [u32],
    stored: Stored,
    bridges: &mut [u32],
    scratch_words: &mut [u32],
    scratch_floats: &mut [f32],
)
    requires { RepairFits stored.n stored.layout.capacity stored.layout.degree stored.vectors.dimension words.old stored.vectors.components.now
        (length bridges.old) (length scratch_words.old) (length scratch_floats.old) }
    ensures { RepairPut stored.entry.n stored.entry.layout.capacity stored.entry.layout.degree stored.entry.vectors.dimension (vectors_of stored.entry.vectors)
        words.old words.new }
{
    let Stored { vectors, n, layout } = stored;
    let dimension = vectors.dimension as usize;
    let entry = medoid::compute_medoid(
        vectors.components,
        n as u16,
        &mut scratch_floats[..dimension],
    );
    let from = store::rows_at(layout.capacity);
    let to = layout.row_at(Node(n));
    let built = graph_utils::ensure_connectivity(
        &words[from..to],
        layout.degree,
        vectors,
        entry,
        bridges,
        scratch_words,
    );
    // there are fewer than n, which only rows as a build makes them promise
    let count = built.min(n);
    let end = 2 * count as usize;
    put_header(words, entry, count);
    put_bridges(words, layout.bridges_at(), &bridges[..end]);
}

// Repair, with room for the bridges. A function of its own, so that this room and that of carving, which ends before, can
// be the same part of the stack.
fn repair_rows(
    words: &mut [u32],
    stored: Stored,
    scratch_words: &mut [u32],
    scratch_floats: &mut [f32],
)
    requires { RepairFits stored.n stored.layout.capacity stored.layout.degree stored.vectors.dimension words.old stored.vectors.components.now
        2048 (length scratch_words.old) (length scratch_floats.old) }
    ensures { RepairPut stored.entry.n stored.entry.layout.capacity stored.entry.layout.degree stored.entry.vectors.dimension (vectors_of stored.entry.vectors)
        words.old words.new }
{
    let mut bridges = [0u32; 2048];
    repair(
        words,
        stored,
        &mut bridges[..],
        scratch_words,
        scratch_floats,
    );
}

// The graph of an open store that has nodes: its rows, then its entry node and bridges.
fn build_graph(
    words: &mut [u32],
    floats: &[f32],
    scratch_words: &mut [u32],
    scratch_floats: &mut [f32],
)
    requires { first_refusal (build_checks (length scratch_words.old) (length scratch_floats.old) words.old floats.now) ≡ 0 }
    ensures { words.new ≡ built_words (graph_for (view words.old floats.now)) words.old }
{
    let n = store::word_at(words, store::NODES);
    let dimension = store::word_at(words, store::DIMENSION);
    let p = store::params_of(words);
    let layout = Layout {
        capacity: store::word_at(words, store::CAPACITY),
        degree: p.max_degree as u16,
    };
    let end = store::floats_size(n, dimension);
    let vectors = Vectors {
        components: &floats[..end],
        dimension,
    };
    let stored = Stored { vectors, n, layout };
    let from = store::rows_at(layout.capacity);
    let to = layout.row_at(Node(n));
    put_rows(
        &mut words[from..to],
        stored,
        p,
        scratch_words,
        scratch_floats,
    );
    repair_rows(words, stored, scratch_words, scratch_floats);
}

// `PipnnIndex::build`: an open store that has nodes becomes a built one. On a built store it is success,
// and nothing changes.
pub fn build(
    words: &mut [u32],
    floats: &[f32],
    scratch_words: &mut [u32],
    scratch_floats: &mut [f32],
) -> Result<(), Refusal>
    ensures { (answer_of result, words.new, floats.now)
        ≡ build_spec (length scratch_words.old) (length scratch_floats.old) words.old floats.now }
{
    let lent = Scratch {
        words: scratch_words.len(),
        floats: scratch_floats.len(),
    };
    check_build(words, floats, lent)?;
    if store::word_at(words, store::STATE) == store::BUILT {
        return Ok(());
    }
    build_graph(words, floats, scratch_words, scratch_floats);
    Ok(())
}
