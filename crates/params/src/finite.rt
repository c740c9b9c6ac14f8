// Finite floats (scope, Refusals: 4, 7, 13). The Rust has no such test: its `add_slice` and
// `search_with_ef` take any float.
//
// Over a slice sums are tested first: if the sum of all is finite, each component is; only if it is not are
// the components tested one by one.
//
// specs/Inside/Sums  one component more in each of some sums
// proofs/Sums        what a finite sum says of its components
ghost use Rattle.std.specs.Prelude.{◌≡◌, true, length};
ghost use Rattle.std.specs.Float.Ieee.Scale.{finite};
ghost use Rattle.basics.specs.Lists.{every};
ghost use Rattle.params.specs.Inside.Sums.{AddedUp};

// Whether x is finite.
pub fn is_finite(x: f32) -> bool
    ensures { result ≡ finite x }
{
    x.is_finite()
}

// Whether each component is, one by one. Each is read, whatever came before it.
fn each_finite(v: &[f32]) -> bool
    ensures { result ≡ every finite v.now }
{
    v.iter().fold(true, |ok, x| ok & is_finite(*x))
}

// Adds 32 components to 32 sums, each to its own.
fn add_to(sums: &mut [f32; 32], components: &[f32])
    requires { length components.now ≡ 32 }
    ensures { AddedUp 32 sums.old components.now sums.new }
{
    for (k, sum) in sums.iter_mut().enumerate() {
        *sum = *sum + components[k];
    }
}

// The sum of all, one after the other. No sum with a component that is not finite is finite.
fn sum_of(v: &[f32]) -> f32
    ensures { finite result ≡ true → every finite v.now ≡ true }
{
    v.iter().fold(0.0, |sum, x| sum + *x)
}

// Whether the sum of 32 sums is, each of every 32nd component, and of what is past the last 32. True means
// that all are; false means nothing, since a sum can overflow. A component costs one addition, and the 32
// sums do not wait for each other: the check of a store is then bound by reading it.
fn sums_finite(v: &[f32]) -> bool
    ensures { result ≡ true → every finite v.now ≡ true }
{
    let mut sums = [0.0f32; 32];
    let chunks = v.chunks_exact(32);
    let rest = chunks.remainder();
    for chunk in chunks {
        add_to(&mut sums, chunk);
    }
    is_finite(sum_of(&sums[..])) & each_finite(rest)
}

// Whether each component is finite.
pub fn all_finite(v: &[f32]) -> bool
    ensures { result ≡ every finite v.now }
{
    sums_finite(v) || each_finite(v)
}
