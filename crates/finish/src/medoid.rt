// The entry node (scope, part 6), as the Rust's `compute_medoid` finds it: the node nearest to the centroid
// of the stored vectors.
//
// specs/Centroid of def_graph  the mean of the stored vectors, component by component
// specs/Medoid of def_graph    the nearest node to it, the lowest of equally near ones
// proofs/medoid of def_graph   it is one of the nodes
// proofs/medoid/Rows           rows that come off the front of a slice, and the nearest of those passed
//
// Components are summed node by node, in the order of adding, each step rounded, and then divided by
// the number of nodes as an f32.
ghost use Rattle.std.specs.Prelude.{◌≡◌, ◌*◌, ◌/◌, ◌^◌, ◌≤◌, ◌<◌, length};
ghost use Rattle.std.specs.Float.{binary32};
ghost use Rattle.distance.specs.Vectors.{vectors_in};
ghost use Rattle.def_graph.specs.Centroid.{add_to, row_sums_from, centroid_of, rows_in};
ghost use Rattle.def_graph.specs.Medoid.{nearest_to, compute_medoid};

use distance::vectors::Nearest;
use words::ids::Node;

// The centroid of the first n rows of `vectors`, or of as many as stand there whole, whose dimension is
// the length of `out`.
// kept (6): n rows are taken, here and in `compute_medoid`: both promise the Rust's answer for longer slices too.
pub fn centroid(vectors: &[f32], n: u16, out: &mut [f32])
    ensures { out.new ≡ centroid_of binary32 (length out.old) (rows_in (length out.old) n vectors.now) }
{
    if out.is_empty() {
        return;
    }
    mean(first_rows(vectors, n, out.len()), out);
}

// The entry node of the first n rows: the one nearest to their centroid, the lowest of equally near ones,
// and 0 if no distance is below infinity. `centroid` is room for as many floats as a row has. A u16 counts
// any index's nodes.
// kept (1): node 0 is the Rust's answer then, as the entry node of that index.
pub fn compute_medoid(vectors: &[f32], n: u16, centroid: &mut [f32]) -> Node
    ensures { result.0 ≡ compute_medoid (length centroid.old) (rows_in (length centroid.old) n vectors.now) }
{
    self::centroid(vectors, n, centroid);
    if centroid.is_empty() {
        return Node(0);
    }
    nearest_row(first_rows(vectors, n, centroid.len()), centroid)
}

// The first n rows, or as many as stand whole in `vectors`.
fn first_rows(vectors: &[f32], n: u16, dimension: usize) -> &[f32]
    requires { 0 < dimension }
    ensures { vectors_in dimension result.now ≡ rows_in dimension n vectors.now }
{
    let count = (n as usize).min(vectors.len() / dimension);
    &vectors[..count * dimension]
}

// The centroid of all rows of a slice, few enough that an f32 counts them without a gap.
fn mean(rows: &[f32], out: &mut [f32])
    requires { (0 < length out.old) × (length rows.now / length out.old ≤ 2 ^ 24) }
    ensures { out.new ≡ centroid_of binary32 (length out.old) (vectors_in (length out.old) rows.now) }
{
    out.fill(0.0);
    sum_rows(rows, out);
    let n = rows.len() / out.len();
    norm::divide(out, n as f32);
}

// The row nearest to the centroid.
fn nearest_row(rows: &[f32], centroid: &[f32]) -> Node
    requires { (0 < length centroid.now) × (length rows.now / length centroid.now < 2 ^ 32) }
    ensures { result.0
        ≡ (nearest_to centroid.now (vectors_in (length centroid.now) rows.now) (length (vectors_in (length centroid.now) rows.now))).node }
{
    let mut best = Nearest {
        node: Node(0),
        distance: f32::INFINITY,
    };
    for (i, row) in rows.chunks_exact(centroid.len()).enumerate() {
        let found = Nearest {
            node: Node(i as u32),
            distance: distance::cosine_distance_normalized(centroid, row),
        };
        best = best.nearer(found);
    }
    best.node
}

// The rows added to the sums, one after the other.
fn sum_rows(rows: &[f32], sums: &mut [f32])
    requires { 0 < length sums.old }
    ensures { sums.new ≡ row_sums_from binary32 sums.old (vectors_in (length sums.old) rows.now) }
{
    for row in rows.chunks_exact(sums.len()) {
        add_row(row, sums);
    }
}

// kept (2): it shares with `params::finite::add_to` a loop of one line; there the sums are an array of 32.
fn add_row(row: &[f32], sums: &mut [f32])
    requires { length row.now ≡ length sums.old }
    ensures { sums.new ≡ add_to binary32 sums.old row.now }
{
    for (j, sum) in sums.iter_mut().enumerate() {
        *sum = *sum + row[j];
    }
}
