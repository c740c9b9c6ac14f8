// The generator that the hyperplanes' stream (scope, part 3) and the leaders' draws (part 4) share: a
// 64-bit linear congruential step.
//
// `wrapping_mul` is Rust's `u64::wrapping_mul`, made from halves of 32 bits and the supplied wrapping sum, as the
// scope asks (Language forms); `next` is one step of the recurrence with the addend of the caller's choice. Both
// are equal to their definitions in specs/Lcg for all arguments.
ghost use Rattle.std.specs.Prelude.{◌≡◌, ◌*◌, ◌%◌, ◌^◌};
ghost use Rattle.random.specs.Lcg.{next_of, plane_addend, draw_addend};

// The product modulo 2^64. The product of the two upper halves is a multiple of 2^64 and drops out.
// kept (3): the scope asks for an own wrapping product from the supplied wrapping sum.
pub fn wrapping_mul(a: u64, b: u64) -> u64
    ensures { result ≡ (a * b) % 2 ^ 64 }
{
    let a_low = a & 0xffff_ffff;
    let a_high = a >> 32;
    let b_low = b & 0xffff_ffff;
    let b_high = b >> 32;
    let cross = (a_high * b_low).wrapping_add(a_low * b_high);
    (a_low * b_low).wrapping_add(cross << 32)
}

// r one step on.
pub fn next(addend: u64, r: u64) -> u64
    ensures { result ≡ next_of addend r }
{
    wrapping_mul(r, 6364136223846793005).wrapping_add(addend)
}

// The step of the hyperplanes' stream, and that of the leaders' draws.
// kept: each says in its contract which definition's addend it has, which a constant could not.
pub fn next_plane(r: u64) -> u64
    ensures { result ≡ next_of plane_addend r }
{
    next(1442695040888963407, r)
}

pub fn next_draw(r: u64) -> u64
    ensures { result ≡ next_of draw_addend r }
{
    next(1, r)
}
