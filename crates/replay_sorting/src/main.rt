// Replays the recorded answers on the order of distances (recorded/README.md, sorting): all of them sorted,
// and the first few, each compared with the oracle's indexes. Prints for each kind how many cases there
// were and how many differ.
#![tactic(auto)]

use distance::order;
use replay::lines::{Line, Replayed};
use replay::tallies::Tallies;
use replay::tokens::Tokens;
use sorting::Keyed;
use std::io;

#[derive(Clone, Copy)]
enum Kind {
    Sort,
    First,
}

// The kinds, in the order in which they are reported.
const NAMES: [(&'static str, Kind); 2] = [("sort", Kind::Sort), ("first", Kind::First)];

// The most distances that a line can have.
const MOST: usize = 2048;

// A distance's key, and its place among a line's distances.
const NONE: Keyed = Keyed { key: 0, id: 0 };

// Whether an answer is the places of these.
fn places_are(mut answer: Tokens<'_>, pairs: &[Keyed]) -> bool {
    pairs.iter().all(|pair| answer.is(pair.id))
}

// How many cases there were, and room for a line's distances, made once.
#[derive(Drop)]
struct Sorting {
    tallies: Tallies<2>,
    room: [Keyed; MOST],
    spare: [Keyed; MOST],
}

impl Sorting {
    fn new() -> Self {
        Sorting {
            tallies: Tallies::default(),
            room: [NONE; MOST],
            spare: [NONE; MOST],
        }
    }

    // sort N d.. = place..
    fn sort_is_same(&mut self, line: Line<'_>) -> bool {
        let mut question = line.question();
        let n: usize = question.read();
        let Some(pairs) = self.room.get_mut(..n) else {
            return false;
        };
        for (pair, id) in pairs.iter_mut().zip(0..) {
            let key = order::key(question.read());
            *pair = Keyed { key, id };
        }
        sorting::sort_pairs(pairs, &mut self.spare);
        places_are(line.answer(), pairs)
    }

    // first M N d.. = place..
    fn first_is_same(&mut self, line: Line<'_>) -> bool {
        let mut question = line.question();
        let most: usize = question.read();
        let n: u64 = question.read();
        let Some(pairs) = self.room.get_mut(..most) else {
            return false;
        };
        let mut held = 0;
        for id in 0..n.min(65536) as u32 {
            let key = order::key(question.read());
            held = sorting::keep_first(pairs, held, Keyed { key, id });
        }
        places_are(line.answer(), replay::front(pairs, held))
    }
}

impl Replayed for Sorting {
    fn replay(&mut self, line: Line<'_>) {
        let kind = line.kind(&NAMES);
        let same = match kind {
            Some((_, Kind::Sort)) => self.sort_is_same(line),
            Some((_, Kind::First)) => self.first_is_same(line),
            None => false,
        };
        self.tallies.count(kind.map(|(at, _)| at), same);
    }
}

// kept (2): it shares with the main of `replay_numbers` the loop and the report, over a struct of its own.
fn main(rt: HostRuntime) -> io::Result<()> {
    let mut sorting = Sorting::new();
    replay::lines::replay_all(&mut rt.stdin(), &mut sorting, &mut [0; 8192])?;
    sorting.tallies.write(&rt, &NAMES)
}
