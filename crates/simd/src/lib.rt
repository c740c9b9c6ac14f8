// The dot product that distances use (scope, part 1), as `fallback::dot` of the Rust's simd.rs.
//
// Products are added from the first component on, each step rounded once, starting at +0. Such a sum
// waits for each of its additions, so eight rows' sums run side by side, each in its own order: the bits
// are those of eight single sums. `dot8` takes eight rows as they lie in memory; `dot_block` takes a block
// in which each component's eight numbers are adjacent, and so loads and multiplies whole vectors. All are
// equal to `dot_of` of specs/Dot for slices of any length and floats of any kind; where two lengths differ,
// the sum ends with the shorter one.
#![tactic(auto)]

ghost use Rattle.std.specs.Prelude.{◌≡◌, ◌+◌, ◌/◌, ◌≤◌, ◌<◌, ℕ, length, get_or, slice_range};
ghost use Rattle.std.specs.Float.{binary32, nan};
ghost use Rattle.std.specs.Float.Ieee.{add, mul};
ghost use Rattle.basics.specs.Sum.{sum_from, products};
ghost use Rattle.simd.specs.Dot.{dot_of};
ghost use Rattle.simd.specs.Inside.Eight.{NoneShorter, dots_of, block_dots_of, none};

// A sum with the products of two slices added, as far as the shorter one goes.
fn add_products(sum: f32, a: &[f32], b: &[f32]) -> f32
    ensures { result ≡ sum_from binary32 sum (products binary32 a.now b.now) }
{
    a.iter().zip(b).fold(sum, |total, (x, y)| total + *x * *y)
}

#[tactic(auto, unfolding(crate::specs::Dot::dot_of))]
pub fn dot(a: &[f32], b: &[f32]) -> f32
    ensures { result ≡ dot_of binary32 a.now b.now }
{
    add_products(0.0, a, b)
}

// The dots of one query with eight rows.
pub fn dot8(q: &[f32], rows: [&[f32]; 8]) -> [f32; 8]
    ensures { result ≡ dots_of q.now rows.entry }
{
    if rows.iter().all(|row| q.len() <= row.len()) {
        return dot8_within(q, rows);
    }
    rows.map(|row| dot(q, row))
}

// Eight sums that do not wait for each other. Four components are taken in a turn: the compiler loads and
// multiplies four numbers of a row at once, and turns them so that four rows are added at once.
fn dot8_within(q: &[f32], rows: [&[f32]; 8]) -> [f32; 8]
    requires { NoneShorter q.now rows }
    ensures { result ≡ dots_of q.now rows.entry }
{
    let mut sums = [0.0f32; 8];
    let whole = q.len() / 4;
    for k in 0..whole {
        add_part(&mut sums, q, &rows, 4 * k, 4 * k + 4);
    }
    for i in 4 * whole..q.len() {
        add_part(&mut sums, q, &rows, i, i + 1);
    }
    sums
}

// The products of some components, from one on and before another, added to eight sums.
fn add_part(sums: &mut [f32; 8], q: &[f32], rows: &[&[f32]; 8], from: usize, to: usize)
    requires { (from ≤ to) × (to ≤ length q.now) × NoneShorter q.now rows.now }
    ensures { (j : ℕ) → j < 8 → get_or sums.new j nan
        ≡ sum_from binary32 (get_or sums.old j nan) (products binary32 (slice_range q.now from to) (slice_range (get_or rows.now j none).now from to)) }
{
    for (j, sum) in sums.iter_mut().enumerate() {
        *sum = add_products(*sum, &q[from..to], &rows[j][from..to]);
    }
}

// The dots of one query with the eight rows of a block: component i of row j stands at 8 · i + j.
pub fn dot_block(q: &[f32], block: &[f32]) -> [f32; 8]
    ensures { result ≡ block_dots_of q.now block.now }
{
    let mut sums = [0.0f32; 8];
    for (x, column) in q.iter().zip(block.as_chunks::<8>().0) {
        add_column(&mut sums, *x, column);
    }
    sums
}

// The products of one component with those of eight rows, added to eight sums.
// kept (2): it shares with `finish::medoid::add_row` a loop of one line, and here each sum gets a product.
pub fn add_column(sums: &mut [f32; 8], x: f32, column: &[f32; 8])
    ensures { (j : ℕ) → j < 8 → get_or sums.new j nan ≡ add binary32 (get_or sums.old j nan) (mul binary32 x (get_or column.now j nan)) }
{
    for (j, sum) in sums.iter_mut().enumerate() {
        *sum = *sum + x * column[j];
    }
}
