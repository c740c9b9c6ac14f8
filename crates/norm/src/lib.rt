// The length of a vector and the vector scaled by it (scope, part 2), as the Rust's `add_slice` and
// `search_with_ef` compute them.
//
// The squares have a sum of their own, apart from the sum of distances. Both functions are equal to
// their definitions in specs/Norm for slices of any length and floats of any kind.
#![tactic(auto)]

pub mod root;

ghost use Rattle.std.specs.Prelude.{◌≡◌, map, Float};
ghost use Rattle.std.specs.Float.{binary32};
ghost use Rattle.std.specs.Float.Ieee.{div};
ghost use Rattle.norm.specs.Norm.{squares_of, length_of, scaled_of};

// The sum of the squares, from the first component on.
// kept (2): it shares with `params::finite::sum_of` std's `fold` alone.
fn sum_of_squares(v: &[f32]) -> f32
    ensures { result ≡ squares_of binary32 v.now }
{
    v.iter().fold(0.0, |sum, x| sum + *x * *x)
}

pub fn norm(v: &[f32]) -> f32
    ensures { result ≡ length_of binary32 v.now }
{
    root::sqrt(sum_of_squares(v))
}

// Each component divided by the length, where that is above 1e-10. A vector of that very length, or
// a shorter one, stays as it is; an infinite length leaves zeros with the components' signs.
pub fn normalize(v: &mut [f32])
    ensures { v.new ≡ scaled_of binary32 v.old }
{
    let length = norm(v);
    if length > 1e-10 {
        divide(v, length);
    }
}

// Each component divided.
pub fn divide(v: &mut [f32], by: f32)
    ensures { v.new ≡ map (λ (x : Float). div binary32 x by) v.old }
{
    for x in v.iter_mut() {
        *x = *x / by;
    }
}
