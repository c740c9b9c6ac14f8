// The square root (scope, part 2), where the Rust calls `f32::sqrt`.
//
// std has `f32::sqrt` and `u64::isqrt`; the scope asks for the root computed on whole numbers and proved
// against IEEE 754. A finite value above zero is q · 2^k with q of 24 binary digits; q is shifted so that k
// becomes even, the whole root of four times that number is taken digit by digit, and half of it, rounded, is
// the significand. No tie can occur, since an odd square is no multiple of four. `sqrt` equals `root_of` of
// specs/Root for every f32.
// specs/Part2 states part 2's words over any format: `roots` (proofs/Words) proves that `root_of` is that
// root, and the code is proved by it, since there is only one (`only_root`).
ghost use Rattle.std.specs.Prelude.{◌≡◌, ◌*◌, ◌^◌, ◌≤◌, ◌<◌};
ghost use Rattle.std.specs.Float.{binary32};
ghost use Rattle.std.specs.Float.Ieee.{of_bits};
ghost use Rattle.norm.specs.Root.{isqrt, pattern_units, root_of};

// The root of a zero is that zero, of infinity infinity; what is below zero has no root.
pub fn sqrt(s: f32) -> f32
    ensures { result ≡ root_of binary32 s }
{
    if s > 0.0 {
        let b = s.to_bits();
        if b >= 0x7f80_0000 {
            return s;
        }
        return f32::from_bits(root_bits(b));
    }
    if s < 0.0 {
        return f32::NAN;
    }
    s
}

// The root's pattern, of the pattern of a finite value above zero.
fn root_bits(b: u32) -> u32
    requires { (0 < b) × (b < 0x7f80_0000) }
    ensures { (of_bits binary32 result ≡ root_of binary32 (of_bits binary32 b)) × (result < 0x7f80_0000) }
{
    let Scaled { q, k } = scale(b);
    let n = (q << 24) >> (k % 2);
    let m = (whole_root(4 * n) + 1) / 2;
    (((k + 1) / 2 + 51) * 0x80_0000 + m) as u32
}

#[derive(Clone, Copy)]
struct Scaled {
    q: u64,
    k: u64,
}

// The value as q · 2^k / 2^23 of the smallest one, q of 24 digits.
fn scale(b: u32) -> Scaled
    requires { (0 < b) × (b < 0x7f80_0000) }
    ensures { (result.q * 2 ^ result.k ≡ pattern_units b * 2 ^ 23) × (2 ^ 23 ≤ result.q) × (result.q < 2 ^ 24) × (result.k ≤ 276) }
{
    let field = b / 0x80_0000;
    let digits = b % 0x80_0000;
    if field > 0 {
        return Scaled {
            q: (0x80_0000 + digits) as u64,
            k: (field + 22) as u64,
        };
    }
    let shift = digits.leading_zeros() - 8;
    Scaled {
        q: (digits << shift) as u64,
        k: (23 - shift) as u64,
    }
}

// The largest r with r · r ≤ n, digit by digit.
fn whole_root(n: u64) -> u64
    requires { n < 2 ^ 50 }
    ensures { result ≡ isqrt n }
{
    let mut r: u64 = 0;
    for k in (0..25u64).rev() {
        let t = r + (1u64 << k);
        if t * t <= n {
            r = t;
        }
    }
    r
}
