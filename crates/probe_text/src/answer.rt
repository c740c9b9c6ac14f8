// What is printed for a line.
use error::Refusal;
use std::fmt;
use std::num::f32_to_bits_with_nan;
use words::ids::Node;

// No answer is longer than the largest capacity that the probe takes.
pub const MOST_FOUND: usize = 64;

// What a search found: how many nodes it scored, and its answers, the first `count` of the two lists.
// kept (6): a search fills two slices of its caller, for C, and answers how many it found.
#[derive(Clone, Copy)]
pub struct Found {
    pub scored: u32,
    pub count: u32,
    pub docs: [u32; MOST_FOUND],
    pub distances: [f32; MOST_FOUND],
}

// What came of a line that does not end the reading.
// kept (1): each of the four is printed in its own way, and a refusal is one of the answers.
#[derive(Clone, Copy)]
pub enum Answer {
    Silent,
    Refused(Refusal),
    Built { entry: Node, bridges: u32 },
    Found(Found),
}

impl fmt::Display for Found {
    fn fmt<W: fmt::Write>(&self, f: &mut fmt::Formatter<W>) -> fmt::Result {
        let scored = self.scored;
        writeln!(f, "scored={scored}")?;
        let ranks = 1..=self.count;
        for ((rank, doc), distance) in ranks.zip(&self.docs).zip(&self.distances) {
            let dist = f32_to_bits_with_nan(*distance);
            writeln!(f, "rank={rank} doc={doc} dist={dist:08x}")?;
        }
        Ok(())
    }
}

impl fmt::Display for Answer {
    fn fmt<W: fmt::Write>(&self, f: &mut fmt::Formatter<W>) -> fmt::Result {
        match self {
            Answer::Silent => Ok(()),
            Answer::Refused(refusal) => {
                let number = refusal.number();
                writeln!(f, "refused={number}")
            }
            Answer::Built { entry, bridges } => {
                let entry = entry.0;
                writeln!(f, "entry={entry} bridges={bridges}")
            }
            Answer::Found(found) => write!(f, "{found}"),
        }
    }
}
