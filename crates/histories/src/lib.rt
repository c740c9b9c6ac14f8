// The recorded histories of calls (recorded/README.md): two stores are kept from line to line, some lines set
// them or say how much of them is passed to the calls, and the others ask for a call's number or for what the
// stores hold.
//
// Here are the lines that prepare, those of `new` and add, and those that ask for what the stores hold; the
// crate graph_histories has those of builds and searches, and of leaves. Each method below is for one kind of
// line, which is shown above it; those whose names end in `_is_same` compute the answer by this project's calls
// and say whether it is the recorded one. All are proved safe on lines and stores of any content, and contracts
// say which tokens are read and what is passed to calls.
//
// memory     memory of which a part is passed to calls
// patterns   what `fill` puts into the stores, and the scratch of a call
// vectors    the vectors that `adds` and `leavesof` generate
#![tactic(auto)]

pub mod memory;
pub mod patterns;
pub mod vectors;

use error::Refusal;
use memory::Memory;
use params::PipnnParams;
use random::lcg;
use replay::lines::Line;
use replay::tokens::Tokens;
use std::num::{f32_from_bits_with_nan, f32_to_bits_with_nan};
use vectors::Vectors;
use words::ids::DocId;

// The largest store has 36,885 words and 65,539 floats.
pub const MOST_WORDS: usize = 40960;

pub const MOST_FLOATS: usize = 65600;

// The two stores. A float keeps no pattern of a NaN, so the last one that a line set is kept here, with its place.
#[derive(Drop)]
pub struct Stores {
    pub words: Memory<u32, MOST_WORDS>,
    pub floats: Memory<f32, MOST_FLOATS>,
    nan: Option<(usize, u32)>,
}

fn params_asked(question: &mut Tokens<'_>) -> PipnnParams {
    PipnnParams {
        max_leaf_size: question.read(),
        min_leaf_size: question.read(),
        leader_fraction: question.read(),
        max_degree: question.read(),
        num_hash_bits: question.read(),
        final_prune: question.is(1u64),
        alpha: question.read(),
        ef_search: question.read(),
    }
}

// Before the first `fill`.
impl Default for Stores {
    fn default() -> Self {
        Stores {
            words: Memory::new(),
            floats: Memory::new(),
            nan: None,
        }
    }
}

impl Stores {
    // fill W F seed
    // kept (2): it shares with `set_word` the reading of a question, and no step.
    pub fn fill(&mut self, line: Line<'_>) {
        let mut question = line.question();
        let words = question.read();
        let floats = question.read();
        let seed = question.read();
        self.words.fill(words, seed);
        self.floats.fill(floats, seed);
        self.nan = None;
    }

    // lend W F
    pub fn lend(&mut self, line: Line<'_>) {
        let mut question = line.question();
        self.words.lend(question.read());
        self.floats.lend(question.read());
    }

    // word I X
    pub fn set_word(&mut self, line: Line<'_>) {
        let mut question = line.question();
        let at = question.read();
        self.words.set(at, question.read());
    }

    // float I X
    pub fn set_float(&mut self, line: Line<'_>) {
        let mut question = line.question();
        let at: usize = question.read();
        let pattern = question.read();
        let x = f32_from_bits_with_nan(pattern);
        self.floats.set(at, x);
        if x.is_nan() {
            self.nan = Some((at, pattern));
        }
    }

    // new DIM LEAF MIN FRACTION DEGREE BITS FINAL ALPHA EF CAP = number
    pub fn new_is_same(&mut self, line: Line<'_>) -> bool {
        let mut question = line.question();
        let dimension = question.read();
        let params = params_asked(&mut question);
        let capacity = question.read();
        let words = self.words.lent_mut();
        let floats = self.floats.lent_mut();
        let made = pipnn::new(words, floats, dimension, params, capacity);
        line.answer().is(made)
    }

    // Adds a vector.
    fn add(&mut self, doc: u32, vector: &[f32]) -> Result<(), Refusal> {
        let words = self.words.lent_mut();
        let floats = self.floats.lent_mut();
        pipnn::add_slice(words, floats, DocId(doc), vector)
    }

    // add DOC N v.. = number
    pub fn add_is_same(&mut self, line: Line<'_>, room: &mut [f32]) -> bool {
        let mut question = line.question();
        let doc = question.read();
        let vector = question.read_counted(room);
        line.answer().is(self.add(doc, vector))
    }

    // Adds generated vectors, up to the first refusal.
    fn add_generated(
        &mut self,
        count: u64,
        mut vectors: Vectors,
        vector: &mut [f32],
    ) -> Result<(), Refusal> {
        let mut doc: u32 = 1;
        for _ in 0..count {
            vectors.next_into(vector);
            self.add(doc, vector)?;
            doc = doc.wrapping_add(7);
        }
        Ok(())
    }

    // The dimension of generated vectors: word 1, or 0 if it is not passed in or above the limit.
    // kept (1): vectors without components are generated then, and the calls refuse them.
    fn generated_dimension(&self) -> usize {
        match store::word_at(self.words.lent(), store::DIMENSION) {
            dimension @ 0..=params::MOST_DIMENSION => dimension as usize,
            _ => 0,
        }
    }

    // adds COUNT SEED STYLE = number
    pub fn adds_is_same(&mut self, line: Line<'_>, room: &mut [f32]) -> bool {
        let mut question = line.question();
        let count = question.read();
        let vectors = Vectors::asked(&mut question);
        let dimension = self.generated_dimension().min(room.len());
        let added = self.add_generated(count, vectors, &mut room[..dimension]);
        line.answer().is(added)
    }

    // The pattern of float i.
    fn pattern(&self, i: usize, x: f32) -> u32 {
        match self.nan {
            Some((at, pattern)) if at == i && x.is_nan() => pattern,
            _ => f32_to_bits_with_nan(x),
        }
    }

    // sum = words floats
    pub fn sum_is_same(&self, line: Line<'_>) -> bool {
        let of_floats = self
            .floats
            .made()
            .iter()
            .enumerate()
            .fold(0, |sum, (i, x)| sum_on(sum, self.pattern(i, *x)));
        let mut answer = line.answer();
        answer.is(sum_words(0, self.words.made())) && answer.is(of_floats)
    }

    // words I N = w..
    pub fn words_is_same(&self, line: Line<'_>) -> bool {
        let mut question = line.question();
        let at: usize = question.read();
        let n: usize = question.read();
        let words = self.words.all.get(at..).and_then(|rest| rest.get(..n));
        words.is_some_and(|words| line.answer().are(words))
    }
}

// A checksum with one more pattern.
pub fn sum_on(before: u64, x: u32) -> u64 {
    lcg::next(u64::from(x) + 1, before)
}

// A checksum with more words.
pub fn sum_words(before: u64, words: &[u32]) -> u64 {
    words.iter().fold(before, |sum, x| sum_on(sum, *x))
}
