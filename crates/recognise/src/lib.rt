// `recognise`: whether a phone is one of those stored, as one call (scope, Recognising). The Rust has no
// such call.
//
// It is `search_with_ef` with k = 1 and the caller's ef, with outputs of its own, so no output of the
// caller's can be too short; then the limit has to be finite (13); then `score::decide` says Known or New
// by the nearest node's distance, with its score.
//
// It promises one equation for the answer, refusals included, for every content and length of what is
// passed in: `recognise_spec` of specs/Recognise. The stores stay as they are, and what scratch held before
// has no effect. proofs/Laws has what a reader expects of that definition, proofs/Examples what it returns
// for the three phones of the worked example.
//
// It uses `search` for the checks and the walk, and `score` for the answer at a distance.
//
// kept (5): no plainer: what C passes is passed on to a search as it came.
#![tactic(auto)]

pub mod score;

ghost use Rattle.std.specs.Prelude.{◌≡◌, length};
ghost use Rattle.recognise.specs.Recognised.{answer_values};
ghost use Rattle.recognise.specs.Recognise.{recognise_spec};

use error::Refusal;
use params::finite;
use score::Recognised;
use words::ids::DocId;

pub fn recognise(
    words: &[u32],
    floats: &[f32],
    query: &[f32],
    ef: u32,
    limit: f32,
    scratch_words: &mut [u32],
    scratch_floats: &mut [f32],
) -> Result<Recognised, Refusal>
    ensures { answer_values result
        ≡ recognise_spec (length scratch_words.old) (length scratch_floats.old)
        words.now floats.now query.now ef limit }
{
    let mut doc = [0u32; 1];
    let mut distance = [0.0f32; 1];
    let found = search::search_with_ef(
        words,
        floats,
        query,
        1,
        ef,
        &mut doc,
        &mut distance,
        scratch_words,
        scratch_floats,
    )?;
    if !finite::is_finite(limit) {
        return Err(Refusal::LimitNotFinite);
    }
    if found.count == 0 {
        return Ok(Recognised::New(0));
    }
    Ok(score::decide(DocId(doc[0]), distance[0], limit))
}
