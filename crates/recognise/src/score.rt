// How sure a recognition is, and what it says (scope, Recognising).
//
// The score of a distance d is floor(100 · (1 − d)), held to 0..100 and exact: it is computed on d's bit
// pattern, since 100 · (1 − d) in floats would round. `score` equals `score_of` of specs/Score for every
// f32; that definition is over values and knows no format. `decide` is the answer for the nearest node's
// doc id and distance; the call that finds this node, and that may refuse, is `recognise`. It uses what
// `root` proves about patterns, and the toolchain's definitions of IEEE 754.
ghost use Rattle.std.specs.Prelude.{◌≡◌, ◌<◌};
ghost use Rattle.std.specs.Float.{binary32};
ghost use Rattle.std.specs.Float.Ieee.{of_bits};
ghost use Rattle.recognise.specs.Score.{score_of};
ghost use Rattle.recognise.specs.Recognised.{recognised_values, recognised_as};

use words::ids::DocId;

// At zero and below all of the score, from 1 up none; a NaN scores 0.
pub fn score(d: f32) -> u32
    ensures { result ≡ score_of d }
{
    if d > 0.0 {
        let b = f32::to_bits(d);
        if b >= 0x3f80_0000 {
            return 0;
        }
        return score_bits(b);
    }
    if d.is_nan() {
        return 0;
    }
    100
}

// Of the pattern of a value between 0 and 1. Below 1/128 the score is 99. From there on the value is
// q / 2^s, q of 24 digits, and 100 − ⌈100 · q / 2^s⌉ is taken as 99 − ⌊(100 · q − 1) / 2^s⌋.
fn score_bits(b: u32) -> u32
    requires { (0 < b) × (b < 0x3f80_0000) }
    ensures { result ≡ score_of (of_bits binary32 b) }
{
    if b < 0x3c00_0000 {
        return 99;
    }
    let q = 0x80_0000 + b % 0x80_0000;
    let s = 150 - b / 0x80_0000;
    99 - ((100 * q - 1) >> s)
}

// What recognising a phone answers: the doc id of the phone that it is, or that it is none of those
// stored, either with the score of the nearest one's distance.
#[derive(Clone, Copy, PartialEq, Eq, Debug)]
pub enum Recognised {
    Known(DocId, u32),
    New(u32),
}

// The answer where `doc` is at distance d, which is Known or New. A NaN is at most nothing, so it is New
// with score 0.
pub fn decide(doc: DocId, d: f32, limit: f32) -> Recognised
    ensures { recognised_values result ≡ recognised_as doc.0 d limit }
{
    let sure = score(d);
    if d <= limit {
        return Recognised::Known(doc, sure);
    }
    Recognised::New(sure)
}
