// `search_with_ef` and `search` (scope, part 8 and Refusals), as src/pipnn/mod.rs has them: the first k of
// what the walk scored, as doc ids and distances, with their number and the scored count.
//
// A call checks its stores, the query, k and ef, the room of its outputs and scratch; then `finding` walks the
// graph in the store and leaves the doc ids of the nodes found. A call that is refused writes to neither output.
//
// It promises one equation for everything that a call leaves: `search_with_ef_spec` of `def_calls`, and
// `search_spec`. The stores stay as they are, nothing past the answer is written, and what scratch held
// before has no effect.
//
// It uses `store` for the checks that calls begin with, and `finding` for the walk over a checked store.
//
// kept (5): no plainer: what C passes is passed on as it came, and of a struct of the four `&mut` each contract would say that each field still holds the same reference.
// kept (6): doc ids and distances are two outputs, for C.
#![tactic(auto)]

ghost use Rattle.std.specs.Prelude.{◌≡◌, length};
ghost use Rattle.basics.specs.Refusals.{first_refusal};
ghost use Rattle.error.specs.Inside.Refused.{answer_of};
ghost use Rattle.def_calls.specs.Search.{search_checks, search_with_ef_spec, search_spec};
ghost use Rattle.search.specs.Inside.Reply.{found_with};

use beam_search::Walked;
use error::Refusal;
use finding::Request;
use params::finite;
use store::Scratch;

// The limits of k and ef.
pub const MOST_NODES: u32 = 1024;

pub const MOST_BEAM: u32 = 1024;

// The first of a search's checks that fails.
fn check_search(
    request: Request,
    ef: u32,
    docs: &[u32],
    distances: &[f32],
    lent: Scratch,
) -> Result<(), Refusal>
    ensures { answer_of result ≡ first_refusal (search_checks request.entry.words.now request.entry.query.now request.entry.k ef
        docs.now distances.now lent.words lent.floats request.entry.floats.now) }
{
    let Request {
        words,
        floats,
        query,
        k,
        ..
    } = request;
    store::check_opening(words, floats, Some(lent))?;
    if store::word_at(words, store::STATE) != store::BUILT {
        return Err(Refusal::NotBuilt);
    }
    if query.len() != store::word_at(words, store::DIMENSION) as usize {
        return Err(Refusal::DimensionMismatch);
    }
    if !finite::all_finite(query) {
        return Err(Refusal::NonFiniteInput);
    }
    if (MOST_NODES < k) | (MOST_BEAM < ef) {
        return Err(Refusal::KOrEfTooLarge);
    }
    let room = finding::wanted(words, k);
    if (docs.len() < room) | (distances.len() < room) {
        return Err(Refusal::OutputTooShort);
    }
    Ok(())
}

// `search_with_ef`: the nearest k of the nodes that a walk with max(ef, k) places scores, all if fewer. Their
// doc ids and distances go to the front of the two outputs, nearest first; what lies past them stays.
pub fn search_with_ef(
    words: &[u32],
    floats: &[f32],
    query: &[f32],
    k: u32,
    ef: u32,
    docs: &mut [u32],
    distances: &mut [f32],
    scratch_words: &mut [u32],
    scratch_floats: &mut [f32],
) -> Result<Walked, Refusal>
    ensures { found_with result docs.new distances.new
        ≡ search_with_ef_spec (length scratch_words.old) (length scratch_floats.old)
        words.now floats.now query.now k ef docs.old distances.old }
{
    let lent = Scratch {
        words: scratch_words.len(),
        floats: scratch_floats.len(),
    };
    let request = Request {
        words,
        floats,
        query,
        k,
        stops: def_walk::USUAL,
    };
    check_search(request, ef, docs, distances, lent)?;
    Ok(request.find(ef, docs, distances, scratch_words, scratch_floats))
}

// `search`: with the store's ef_search.
pub fn search(
    words: &[u32],
    floats: &[f32],
    query: &[f32],
    k: u32,
    docs: &mut [u32],
    distances: &mut [f32],
    scratch_words: &mut [u32],
    scratch_floats: &mut [f32],
) -> Result<Walked, Refusal>
    ensures { found_with result docs.new distances.new
        ≡ search_spec (length scratch_words.old) (length scratch_floats.old)
        words.now floats.now query.now k docs.old distances.old }
{
    let ef = store::word_at(words, store::EF_SEARCH);
    search_with_ef(
        words,
        floats,
        query,
        k,
        ef,
        docs,
        distances,
        scratch_words,
        scratch_floats,
    )
}
