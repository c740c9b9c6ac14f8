// The two streams of numbers that a build draws from.
//
// lcg          the wrapping multiply and the recurrence of both streams
// hyperplanes  the table of 1,024 numbers that the first stream makes (scope, part 3)
// leaders      how many leaders a segment has, and the positions drawn from the second stream (scope, part 4)
#![tactic(auto)]

pub mod hyperplanes;
pub mod lcg;
pub mod leaders;
