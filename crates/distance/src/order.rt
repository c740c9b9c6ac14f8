// The order of distances (scope, part 1): Rust's `total_cmp` with a NaN taken as positive, as a u32 key
// whose order is that order.
//
// Distances are sorted, selected and compared by this key alone, so that sorting is written and proved once,
// over u32. `before_key` of proofs/order/Laws says that the keys' order is the distances' order, for the values of
// any format; `key_injective` that only equal values have equal keys, and `value_key` that `value` returns the
// distance whose key it gets. It uses the toolchain's definitions of IEEE 754.
ghost use Rattle.std.specs.Prelude.{◌≡◌};
ghost use Rattle.std.specs.Float.{binary32};
ghost use Rattle.distance.specs.Order.{key_of, value_of};

use std::num::f32_from_bits_with_nan;

// `f32::total_cmp` turns the bits below the sign where the sign is set, and compares signed numbers; this key
// turns the sign too and is compared unsigned. Which bits are turned is computed from the sign bit: no branch
// depends on it, here and in `value` (`key_turned`, `value_turned` of proofs/order/Turning). A NaN is tested
// first: it has many patterns.
pub fn key(x: f32) -> u32
    ensures { result ≡ key_of binary32 x }
{
    if x.is_nan() {
        return u32::MAX;
    }
    let bits = x.to_bits();
    let sign = bits / 0x8000_0000;
    bits ^ (0x8000_0000 + sign * 0x7fff_ffff)
}

// The distance that has this key.
pub fn value(key: u32) -> f32
    ensures { result ≡ value_of binary32 key }
{
    let sign = 1 - key / 0x8000_0000;
    f32_from_bits_with_nan(key ^ (0x8000_0000 + sign * 0x7fff_ffff))
}
