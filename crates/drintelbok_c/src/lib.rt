// The static library: every call of `drintelbok` under its C name. `bindings/archive` writes the archive libdrintelbok.a;
// include/pipnn.h is its manual.
//
// Each export passes its arguments on and returns what it gets, and its clause is that of the function that it calls. What
// crosses to C is said there: slices as a pointer and a length, structs by their fields in order.
//
// kept: each function is one of C's, with numbers of refusals and slices beside each other.
#![tactic(auto)]

ghost use Rattle.std.specs.Prelude.{◌≡◌, length};
ghost use Rattle.pipnn.specs.Add.{add_spec};
ghost use Rattle.def_calls.specs.Build.{build_spec};
ghost use Rattle.def_calls.specs.Search.{search_with_ef_spec, search_spec};
ghost use Rattle.recognise.specs.Recognise.{recognise_spec};
ghost use Rattle.household.specs.Household.{household_of};
ghost use Rattle.drintelbok.specs.New.{params_from, new_from};
ghost use Rattle.drintelbok.specs.Given.{found_with, recognised_with, counted_as};
ghost use Rattle.drintelbok.specs.Sizes.{words_needed, floats_needed, scratch_words_needed, scratch_floats_needed};

use drintelbok::{PipnnFound, PipnnHousehold, PipnnRecognised};

#[unsafe(no_mangle)]
pub extern "C" fn pipnn_words_size(capacity: u32, max_degree: u32) -> usize
    ensures { result ≡ words_needed capacity max_degree }
{
    drintelbok::pipnn_words_size(capacity, max_degree)
}

#[unsafe(no_mangle)]
pub extern "C" fn pipnn_floats_size(capacity: u32, dimension: u32) -> usize
    ensures { result ≡ floats_needed capacity dimension }
{
    drintelbok::pipnn_floats_size(capacity, dimension)
}

#[unsafe(no_mangle)]
pub extern "C" fn pipnn_scratch_words(capacity: u32) -> usize
    ensures { result ≡ scratch_words_needed capacity }
{
    drintelbok::pipnn_scratch_words(capacity)
}

#[unsafe(no_mangle)]
pub extern "C" fn pipnn_scratch_floats(capacity: u32) -> usize
    ensures { result ≡ scratch_floats_needed capacity }
{
    drintelbok::pipnn_scratch_floats(capacity)
}

#[unsafe(no_mangle)]
pub extern "C" fn pipnn_new(
    words: &mut [u32],
    floats: &mut [f32],
    dimension: u32,
    max_leaf_size: u32,
    min_leaf_size: u32,
    leader_fraction: f64,
    max_degree: u32,
    num_hash_bits: u32,
    final_prune: u32,
    alpha: f32,
    ef_search: u32,
    capacity: u32,
) -> u32
    ensures { (result, words.new, floats.new)
        ≡ new_from dimension final_prune
        (params_from max_leaf_size min_leaf_size leader_fraction max_degree num_hash_bits final_prune alpha ef_search)
        capacity words.old floats.old }
{
    drintelbok::pipnn_new(
        words,
        floats,
        dimension,
        max_leaf_size,
        min_leaf_size,
        leader_fraction,
        max_degree,
        num_hash_bits,
        final_prune,
        alpha,
        ef_search,
        capacity,
    )
}

#[unsafe(no_mangle)]
pub extern "C" fn pipnn_add(words: &mut [u32], floats: &mut [f32], doc: u32, vector: &[f32]) -> u32
    ensures { (result, words.new, floats.new) ≡ add_spec words.old floats.old doc vector.now }
{
    drintelbok::pipnn_add(words, floats, doc, vector)
}

#[unsafe(no_mangle)]
pub extern "C" fn pipnn_build(
    words: &mut [u32],
    floats: &[f32],
    scratch_words: &mut [u32],
    scratch_floats: &mut [f32],
) -> u32
    ensures { (result, words.new, floats.now)
        ≡ build_spec (length scratch_words.old) (length scratch_floats.old)
        words.old floats.now }
{
    drintelbok::pipnn_build(words, floats, scratch_words, scratch_floats)
}

#[unsafe(no_mangle)]
pub extern "C" fn pipnn_search_with_ef(
    words: &[u32],
    floats: &[f32],
    query: &[f32],
    k: u32,
    ef: u32,
    docs: &mut [u32],
    distances: &mut [f32],
    scratch_words: &mut [u32],
    scratch_floats: &mut [f32],
) -> PipnnFound
    ensures { found_with result docs.new distances.new
        ≡ search_with_ef_spec (length scratch_words.old) (length scratch_floats.old)
        words.now floats.now query.now k ef docs.old distances.old }
{
    drintelbok::pipnn_search_with_ef(
        words,
        floats,
        query,
        k,
        ef,
        docs,
        distances,
        scratch_words,
        scratch_floats,
    )
}

#[unsafe(no_mangle)]
pub extern "C" fn pipnn_search(
    words: &[u32],
    floats: &[f32],
    query: &[f32],
    k: u32,
    docs: &mut [u32],
    distances: &mut [f32],
    scratch_words: &mut [u32],
    scratch_floats: &mut [f32],
) -> PipnnFound
    ensures { found_with result docs.new distances.new
        ≡ search_spec (length scratch_words.old) (length scratch_floats.old)
        words.now floats.now query.now k docs.old distances.old }
{
    drintelbok::pipnn_search(
        words,
        floats,
        query,
        k,
        docs,
        distances,
        scratch_words,
        scratch_floats,
    )
}

#[unsafe(no_mangle)]
pub extern "C" fn pipnn_recognise(
    words: &[u32],
    floats: &[f32],
    query: &[f32],
    ef: u32,
    limit: f32,
    scratch_words: &mut [u32],
    scratch_floats: &mut [f32],
) -> PipnnRecognised
    ensures { result
        ≡ recognised_with (recognise_spec (length scratch_words.old) (length scratch_floats.old)
        words.now floats.now query.now ef limit) }
{
    drintelbok::pipnn_recognise(
        words,
        floats,
        query,
        ef,
        limit,
        scratch_words,
        scratch_floats,
    )
}

#[unsafe(no_mangle)]
pub extern "C" fn pipnn_household_count(day: u64, seconds: &[u64], docs: &[u32]) -> PipnnHousehold
    ensures { result ≡ counted_as (household_of day seconds.now docs.now) }
{
    drintelbok::pipnn_household_count(day, seconds, docs)
}
