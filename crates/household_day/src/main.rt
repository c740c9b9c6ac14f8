// How many phones a household saw on a day, for whoever looks at its sightings.
//
// Standard input has one sighting in each line: the second since 1970-01-01 UTC, a blank, the doc id, both
// decimal. The arguments are the numbers of the days asked for. A line that is not a sighting is skipped,
// and the output says how many there were. At most the first 65,536 bytes are read, and 513 sightings kept:
// one more than the count takes, so that too many are refused and not cut.
//
// Everything here is proved safe on every text, and nothing more; `household` has the count.
#![tactic(auto)]

use arrayvec::ArrayVec;
use std::env::{Env, FillError};
use std::io;

const MOST_KEPT: usize = household::MOST_SIGHTINGS + 1;

// The sightings, and how many other lines there were.
// kept (6): the count takes seconds and doc ids as two lists, for C.
#[derive(Drop)]
struct Sightings {
    seconds: ArrayVec<u64, MOST_KEPT>,
    docs: ArrayVec<u32, MOST_KEPT>,
    others: u64,
}

// The second and the doc id of a line without its line feed, if it is a sighting.
fn sighting(line: &[u8]) -> Option<(u64, u32)> {
    let blank = line.iter().position(|b| *b == b' ')?;
    let second = replay::decimal(&line[..blank])?;
    let doc = replay::decimal(&line[blank + 1..])?;
    Some((second, doc))
}

impl Sightings {
    // Those of all lines.
    fn of(text: &[u8]) -> Self {
        let mut sightings = Sightings {
            seconds: ArrayVec::new(),
            docs: ArrayVec::new(),
            others: 0,
        };
        for line in text.split_inclusive(|b| *b == b'\n') {
            match sighting(replay::without_end(line)) {
                Some((second, doc)) => sightings.keep(second, doc),
                None => sightings.others = sightings.others.wrapping_add(1),
            }
        }
        sightings
    }

    // Keeps a sighting, if there is room.
    fn keep(&mut self, second: u64, doc: u32) {
        let _ = self.seconds.try_push(second);
        let _ = self.docs.try_push(doc);
    }

    // Reports the count of one day.
    fn tell_day(&self, rt: &impl Print, day: u64) -> io::Result<()> {
        match household::household_count(day, self.seconds.as_slice(), self.docs.as_slice()) {
            Ok(phones) => println!(rt; "phones on day {day}: {phones}"),
            Err(refusal) => {
                let number = refusal.number();
                println!(rt;
                    "phones on day {day}: turned back with number {number}, over 512 sightings"
                )
            }
        }
    }

    // Reports the days that are asked for. An argument of more than 4,096 bytes counts as an empty one: it is no
    // day number either.
    // kept (6): std puts an argument into the caller's memory and answers how long it is.
    fn tell_days(&self, rt: &(impl Env + Print)) -> io::Result<()> {
        let mut word = [0u8; 4096];
        for i in 1..usize::MAX {
            let n = match rt.arg(i, &mut word) {
                Ok(n) => n,
                Err(FillError::TooLong) => 0,
                Err(FillError::NotPresent) => return Ok(()),
            };
            match replay::decimal(&word[..n]) {
                Some(day) => self.tell_day(rt, day)?,
                None => println!(rt; "argument {i} is no day number")?,
            }
        }
        Ok(())
    }
}

fn main(rt: HostRuntime) -> io::Result<()> {
    let mut text = [0u8; 65536];
    let sightings = Sightings::of(replay::read_full(&mut rt.stdin(), &mut text)?);
    println!(rt; "sightings: {}", sightings.docs.as_slice().len())?;
    println!(rt; "lines that are no sighting: {}", sightings.others)?;
    sightings.tell_days(&rt)
}
