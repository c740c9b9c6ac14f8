// The library behind C: every public call as a function over plain numbers and slices. `drintelbok_c` exports
// them for C and Rust to link; include/pipnn.h is their manual.
//
// Each function passes its arguments on and returns what it gets, so what a call does is said where it is
// proved: `pipnn` (new, add), `build`, `search`, `recognise`, `household`, `store` (sizes). A caller has to
// provide only what the types say: slices of initialised memory, of which none that may be written overlaps
// another. A slice crosses C as a pointer and a length, a struct by its fields in order.
//
// It promises, for each call, the equation of the call behind it: number, stores and outputs, refusals
// included. What C adds has a definition in specs/: `new_from` (final_prune is a number), the structs
// returned (specs/Given), and sizes of 0 for what `pipnn_new` refuses (specs/Sizes).
//
// kept: each function is one of C's, with numbers of refusals, structs of numbers and slices beside each other.
#![tactic(auto)]

ghost use Rattle.std.specs.Prelude.{◌≡◌, length};
ghost use Rattle.pipnn.specs.Add.{add_spec};
ghost use Rattle.def_calls.specs.Build.{build_spec};
ghost use Rattle.def_calls.specs.Search.{search_with_ef_spec, search_spec};
ghost use Rattle.recognise.specs.Recognise.{recognise_spec};
ghost use Rattle.drintelbok.specs.New.{params_from, new_from};
ghost use Rattle.recognise.specs.Recognised.{answer_values};
ghost use Rattle.household.specs.Household.{household_values, household_of};
ghost use Rattle.drintelbok.specs.Given.{found_of, found_with, recognised_with, counted_as};
ghost use Rattle.drintelbok.specs.Sizes.{words_needed, floats_needed, scratch_words_needed, scratch_floats_needed};

use beam_search::Walked;
use error::Refusal;
use params::PipnnParams;
use recognise::score::Recognised;
use store::Layout;
use words::ids::DocId;

// What a search returns besides its two outputs: 0 or the number of a refusal, how many nodes are in the
// outputs, how many were scored.
#[repr(C)]
#[derive(Clone, Copy)]
pub struct PipnnFound {
    pub number: u32,
    pub count: u32,
    pub scored: u32,
}

impl From<Result<Walked, Refusal>> for PipnnFound {
    ghost from_gives = { λ answer found. found ≡ found_of answer };

    fn from(answer: Result<Walked, Refusal>) -> PipnnFound {
        match answer {
            Ok(walked) => PipnnFound {
                number: 0,
                count: walked.count,
                scored: walked.scored,
            },
            Err(refusal) => PipnnFound {
                number: refusal.number(),
                count: 0,
                scored: 0,
            },
        }
    }
}

// What recognising returns: 0 or the number of a refusal; 1 for Known and 0 for New; the doc id, 0 for New;
// the score. After a refusal all but the number are 0.
#[repr(C)]
#[derive(Clone, Copy)]
pub struct PipnnRecognised {
    pub number: u32,
    pub known: u32,
    pub doc: u32,
    pub score: u32,
}

impl From<Result<Recognised, Refusal>> for PipnnRecognised {
    ghost from_gives = { λ answer recognised. recognised ≡ recognised_with (answer_values answer) };

    fn from(answer: Result<Recognised, Refusal>) -> PipnnRecognised {
        match answer {
            Ok(recognised) => match recognised {
                Recognised::Known(doc, score) => PipnnRecognised {
                    number: 0,
                    known: 1,
                    doc: doc.0,
                    score,
                },
                Recognised::New(score) => PipnnRecognised {
                    number: 0,
                    known: 0,
                    doc: 0,
                    score,
                },
            },
            Err(refusal) => PipnnRecognised {
                number: refusal.number(),
                known: 0,
                doc: 0,
                score: 0,
            },
        }
    }
}

// What the household count returns: 0 or the number of a refusal, how many different phones.
#[repr(C)]
#[derive(Clone, Copy)]
pub struct PipnnHousehold {
    pub number: u32,
    pub phones: u32,
}

impl From<Result<u32, Refusal>> for PipnnHousehold {
    ghost from_gives = { λ answer counted. counted ≡ counted_as (household_values answer) };

    fn from(answer: Result<u32, Refusal>) -> PipnnHousehold {
        match answer {
            Ok(phones) => PipnnHousehold { number: 0, phones },
            Err(refusal) => {
                let number = refusal.number();
                PipnnHousehold { number, phones: 0 }
            }
        }
    }
}

// How many words the word store has to have; 0 where a number is beyond its limits. So for the next three.
pub fn pipnn_words_size(capacity: u32, max_degree: u32) -> usize
    ensures { result ≡ words_needed capacity max_degree }
{
    if params::capacity_within(capacity) & (max_degree <= params::MOST_DEGREE) {
        let degree = max_degree as u16;
        return Layout { capacity, degree }.words_size();
    }
    0
}

pub fn pipnn_floats_size(capacity: u32, dimension: u32) -> usize
    ensures { result ≡ floats_needed capacity dimension }
{
    if params::capacity_within(capacity) & params::dimension_within(dimension) {
        return store::floats_size(capacity, dimension);
    }
    0
}

pub fn pipnn_scratch_words(capacity: u32) -> usize
    ensures { result ≡ scratch_words_needed capacity }
{
    if params::capacity_within(capacity) {
        return store::scratch_words(capacity);
    }
    0
}

pub fn pipnn_scratch_floats(capacity: u32) -> usize
    ensures { result ≡ scratch_floats_needed capacity }
{
    if params::capacity_within(capacity) {
        return store::scratch_floats(capacity);
    }
    0
}

// `new`. A final_prune that is neither 0 nor 1 is a parameter beyond its limits.
pub fn pipnn_new(
    words: &mut [u32],
    floats: &mut [f32],
    dimension: u32,
    max_leaf_size: u32,
    min_leaf_size: u32,
    leader_fraction: f64,
    max_degree: u32,
    num_hash_bits: u32,
    final_prune: u32,
    alpha: f32,
    ef_search: u32,
    capacity: u32,
) -> u32
    ensures { (result, words.new, floats.new)
        ≡ new_from dimension final_prune
        (params_from max_leaf_size min_leaf_size leader_fraction max_degree num_hash_bits final_prune alpha ef_search)
        capacity words.old floats.old }
{
    if params::dimension_within(dimension) & (1 < final_prune) {
        return Refusal::ParameterOutOfRange.number();
    }
    let p = PipnnParams {
        max_leaf_size,
        min_leaf_size,
        leader_fraction,
        max_degree,
        num_hash_bits,
        final_prune: final_prune == 1,
        alpha,
        ef_search,
    };
    error::number_or_zero(pipnn::new(words, floats, dimension, p, capacity))
}

pub fn pipnn_add(words: &mut [u32], floats: &mut [f32], doc: u32, vector: &[f32]) -> u32
    ensures { (result, words.new, floats.new) ≡ add_spec words.old floats.old doc vector.now }
{
    error::number_or_zero(pipnn::add_slice(words, floats, DocId(doc), vector))
}

pub fn pipnn_build(
    words: &mut [u32],
    floats: &[f32],
    scratch_words: &mut [u32],
    scratch_floats: &mut [f32],
) -> u32
    ensures { (result, words.new, floats.now)
        ≡ build_spec (length scratch_words.old) (length scratch_floats.old)
        words.old floats.now }
{
    error::number_or_zero(build::build(words, floats, scratch_words, scratch_floats))
}

pub fn pipnn_search_with_ef(
    words: &[u32],
    floats: &[f32],
    query: &[f32],
    k: u32,
    ef: u32,
    docs: &mut [u32],
    distances: &mut [f32],
    scratch_words: &mut [u32],
    scratch_floats: &mut [f32],
) -> PipnnFound
    ensures { found_with result docs.new distances.new
        ≡ search_with_ef_spec (length scratch_words.old) (length scratch_floats.old)
        words.now floats.now query.now k ef docs.old distances.old }
{
    PipnnFound::from(search::search_with_ef(
        words,
        floats,
        query,
        k,
        ef,
        docs,
        distances,
        scratch_words,
        scratch_floats,
    ))
}

// With the store's ef_search.
pub fn pipnn_search(
    words: &[u32],
    floats: &[f32],
    query: &[f32],
    k: u32,
    docs: &mut [u32],
    distances: &mut [f32],
    scratch_words: &mut [u32],
    scratch_floats: &mut [f32],
) -> PipnnFound
    ensures { found_with result docs.new distances.new
        ≡ search_spec (length scratch_words.old) (length scratch_floats.old)
        words.now floats.now query.now k docs.old distances.old }
{
    PipnnFound::from(search::search(
        words,
        floats,
        query,
        k,
        docs,
        distances,
        scratch_words,
        scratch_floats,
    ))
}

pub fn pipnn_recognise(
    words: &[u32],
    floats: &[f32],
    query: &[f32],
    ef: u32,
    limit: f32,
    scratch_words: &mut [u32],
    scratch_floats: &mut [f32],
) -> PipnnRecognised
    ensures { result
        ≡ recognised_with (recognise_spec (length scratch_words.old) (length scratch_floats.old)
        words.now floats.now query.now ef limit) }
{
    PipnnRecognised::from(recognise::recognise(
        words,
        floats,
        query,
        ef,
        limit,
        scratch_words,
        scratch_floats,
    ))
}

pub fn pipnn_household_count(day: u64, seconds: &[u64], docs: &[u32]) -> PipnnHousehold
    ensures { result ≡ counted_as (household_of day seconds.now docs.now) }
{
    PipnnHousehold::from(household::household_count(day, seconds, docs))
}
