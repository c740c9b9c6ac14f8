// The lines of the program probe (scope, Checked values): which call a line makes, and what is printed for
// it. What the scope leaves open of them is decided in oracle/README.md, "The probe".
//
// `Index` is what stands between two lines: the header lines so far, and the two stores. `Index::step` takes one
// line, without its line feed. A line is read whole, by itself (`probe_text`); then the header lines so far say
// whether it is its turn; then its call is made. What is printed for it is its answer: the probe writes, this
// crate does not.
//
// Everything here is proved safe on every line and index, and nothing more: what is printed is compared with
// recorded runs. It uses `pipnn`, `build` and `search` for the calls.
#![tactic(auto)]

use error::Refusal;
use params::PipnnParams;
use probe_text::answer::{Answer, Found, MOST_FOUND};
use probe_text::reading;
use probe_text::reading::{HEADERS, Header, Read};
use std::num::{f32_from_bits_with_nan, f64_from_bits_with_nan};
use words::ids::{DocId, Node};

// The probe takes a capacity up to this one. Above it reading ends.
pub const MOST_CAPACITY: u32 = 64;

// The sizes of both stores that are enough for it: 16 + 64·(4 + 32) words and 64·64 floats.
pub const WORDS_SIZE: usize = 2320;

pub const FLOATS_SIZE: usize = 4096;

// Scratch that is enough for it: 64·64 words and 16·64 + 256 floats.
const SCRATCH_WORDS: usize = 4096;

const SCRATCH_FLOATS: usize = 1280;

// One more than any dimension: components past these are read and left out, since that many are refused
// whatever they are.
const MOST_COMPONENTS: usize = 65;

// How many header lines there were, and their values; and the two stores.
// kept (6): each value stands at its header's place, and a read of a vector would answer an Option.
#[derive(Drop)]
pub struct Index {
    headers: usize,
    values: [u64; HEADERS],
    words: [u32; WORDS_SIZE],
    floats: [f32; FLOATS_SIZE],
}

// Before the first line.
impl Default for Index {
    fn default() -> Self {
        Index {
            headers: 0,
            values: [0; HEADERS],
            words: [0; WORDS_SIZE],
            floats: [0.0; FLOATS_SIZE],
        }
    }
}

impl Index {
    // The value of a header line.
    fn value(&self, header: Header) -> u64 {
        self.values[header as usize]
    }

    // The same, where it is below 2^32.
    fn word(&self, header: Header) -> u32 {
        (self.value(header) % 0x1_0000_0000) as u32
    }

    fn params_asked(&self) -> PipnnParams {
        PipnnParams {
            max_leaf_size: self.word(Header::Leaf),
            min_leaf_size: self.word(Header::Min),
            leader_fraction: f64_from_bits_with_nan(self.value(Header::Fraction)),
            max_degree: self.word(Header::Degree),
            num_hash_bits: self.word(Header::Bits),
            final_prune: self.value(Header::Final) == 1,
            alpha: f32_from_bits_with_nan(self.word(Header::Alpha)),
            ef_search: self.word(Header::Ef),
        }
    }

    // The call of `new`. A `final` that is neither 0 nor 1 is no bool: it is refused here, like a parameter beyond
    // its limits and in the place of one.
    fn call_new(&mut self) -> Result<Answer, Refusal> {
        let dimension = self.word(Header::Dim);
        if self.value(Header::Final) > 1 {
            return Err(if params::dimension_within(dimension) {
                Refusal::ParameterOutOfRange
            } else {
                Refusal::DimensionOutOfRange
            });
        }
        let params = self.params_asked();
        let capacity = self.word(Header::Cap);
        pipnn::new(
            &mut self.words,
            &mut self.floats,
            dimension,
            params,
            capacity,
        )?;
        Ok(Answer::Silent)
    }

    // A header line, if it is the next one. The last of them, cap, makes the call of `new`.
    fn take_header(&mut self, header: Header, value: u64) -> Option<Result<Answer, Refusal>> {
        if header as usize != self.headers {
            return None;
        }
        self.values[header as usize] = value;
        self.headers = header as usize + 1;
        if header != Header::Cap {
            return Some(Ok(Answer::Silent));
        }
        if self.word(Header::Cap) > MOST_CAPACITY {
            return None;
        }
        Some(self.call_new())
    }

    fn add(&mut self, doc: DocId, vector: &[f32]) -> Result<Answer, Refusal> {
        pipnn::add_slice(&mut self.words, &mut self.floats, doc, vector)?;
        Ok(Answer::Silent)
    }

    // A build: the entry node and how many bridges there are.
    fn build(&mut self) -> Result<Answer, Refusal> {
        let mut scratch_words = [0u32; SCRATCH_WORDS];
        let mut scratch_floats = [0.0f32; SCRATCH_FLOATS];
        build::build(
            &mut self.words,
            &self.floats,
            &mut scratch_words,
            &mut scratch_floats,
        )?;
        Ok(Answer::Built {
            entry: Node(store::word_at(&self.words, store::ENTRY)),
            bridges: store::word_at(&self.words, store::BRIDGE_COUNT),
        })
    }

    // A search: what it found.
    // kept (5): no plainer: a line has the three one by one, and the call takes them so.
    fn find(&self, k: u32, ef: u32, query: &[f32]) -> Result<Answer, Refusal> {
        let mut docs = [0u32; MOST_FOUND];
        let mut distances = [0.0f32; MOST_FOUND];
        let mut scratch_words = [0u32; SCRATCH_WORDS];
        let mut scratch_floats = [0.0f32; SCRATCH_FLOATS];
        let walked = search::search_with_ef(
            &self.words,
            &self.floats,
            query,
            k,
            ef,
            &mut docs,
            &mut distances,
            &mut scratch_words,
            &mut scratch_floats,
        )?;
        Ok(Answer::Found(Found {
            scored: walked.scored,
            count: walked.count,
            docs,
            distances,
        }))
    }

    // Takes a line without its line feed: makes its call and answers what is printed for it; `None` if the line
    // ends the reading.
    pub fn step(&mut self, line: &[u8]) -> Option<Answer> {
        let mut room = [0.0f32; MOST_COMPONENTS];
        let called = match reading::read_line(line, &mut room)? {
            Read::Header(header, value) => self.take_header(header, value)?,
            _ if self.headers != HEADERS => return None,
            Read::Add { doc, vector } => self.add(doc, vector),
            Read::Build => self.build(),
            Read::Find { k, ef, query } => self.find(k, ef, query),
        };
        Some(called.unwrap_or_else(Answer::Refused))
    }
}
