// Steps the hyperplanes' stream (scope, part 3) by the wrapping multiply, through all 1,024 numbers, and
// compares each with the table that the index reads (`hyperplanes::planes_into`), bit for bit.
//
// A number of the stream is (h − 2^30)/2^30, rounded once: the size of h − 2^30 is split so that both parts
// and their products are exact, and their sum alone rounds.
use random::{hyperplanes, lcg};
use replay::tallies::Tally;
use std::num::f32_to_bits_with_nan;

// a/2^30, rounded once, for an a of at most 2^30.
fn fraction(a: u64) -> f32 {
    (replay::float_of(a / 4096) * 4096.0 + replay::float_of(a % 4096)) / 1073741824.0
}

// The number that r stands for.
// kept (4): a state is a plain u64 in `random`, and other generators make other numbers of one.
fn number_of(r: u64) -> f32 {
    let h = r >> 33;
    if h < 1073741824 {
        return -fraction(1073741824 - h);
    }
    fraction(h - 1073741824)
}

// How many numbers there are, and how many are not those of the stream.
pub fn tally() -> Tally {
    let mut planes = [0.0f32; 1024];
    hyperplanes::planes_into(&mut planes);
    let mut tally = Tally::default();
    let mut r: u64 = 42;
    for plane in &planes {
        r = lcg::next_plane(r);
        tally.count(f32_to_bits_with_nan(number_of(r)) == f32_to_bits_with_nan(*plane));
    }
    tally
}
