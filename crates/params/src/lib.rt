// The parameters of an index and their limits (scope, Records).
//
// `PipnnParams` is the Rust's record of that name, with its fields in its order; dimension and capacity are
// arguments of their own. It goes by value. Each limit is written once in the code and once in specs/Limits,
// and whatever checks parameters, those of a call or those in a header, calls the functions below.
//
// It promises: each test is total and says exactly whether the value is within its limits, both ends
// included. It uses `finite` for alpha.
#![tactic(auto)]

pub mod finite;

ghost use Rattle.std.specs.Prelude.{◌≡◌};
ghost use Rattle.params.specs.Limits.{dimension_within, capacity_within, within_limits};

// The largest value of each. The smallest is 1 for a dimension, a capacity and max_leaf_size, and 0 for the others.
pub const MOST_DIMENSION: u32 = 64;

pub const MOST_CAPACITY: u32 = 1024;

pub const MOST_LEAF_SIZE: u32 = 2048;

pub const MOST_MIN_LEAF_SIZE: u32 = 1024;

pub const MOST_DEGREE: u32 = 32;

pub const MOST_HASH_BITS: u32 = 16;

pub const MOST_EF: u32 = 1024;

#[derive(Clone, Copy)]
pub struct PipnnParams {
    pub max_leaf_size: u32,
    pub min_leaf_size: u32,
    pub leader_fraction: f64,
    pub max_degree: u32,
    pub num_hash_bits: u32,
    pub final_prune: bool,
    pub alpha: f32,
    pub ef_search: u32,
}

// Whether a dimension is within its limits.
// kept (2): one test of a range, here and in `capacity_within`; what they share is std's `contains`.
pub fn dimension_within(dimension: u32) -> bool
    ensures { result ≡ dimension_within dimension }
{
    (1..=MOST_DIMENSION).contains(&dimension)
}

// Whether a capacity is.
pub fn capacity_within(capacity: u32) -> bool
    ensures { result ≡ capacity_within capacity }
{
    (1..=MOST_CAPACITY).contains(&capacity)
}

// Whether each parameter is. A fraction of -0 is 0, and one that is no number is nowhere within.
pub fn within_limits(p: PipnnParams) -> bool
    ensures { result ≡ within_limits p }
{
    (1..=MOST_LEAF_SIZE).contains(&p.max_leaf_size)
        & (p.min_leaf_size <= MOST_MIN_LEAF_SIZE)
        & (0.0..=1.0).contains(&p.leader_fraction)
        & (p.max_degree <= MOST_DEGREE)
        & (p.num_hash_bits <= MOST_HASH_BITS)
        & finite::is_finite(p.alpha)
        & (p.ef_search <= MOST_EF)
}
