// The recorded cases of recognising (recorded/README.md): the call within a history, the score of a distance,
// the answer at a distance, and the household count.
//
// Each function whose name ends in `_is_same` and that takes a line, alone or with the stores, is for one kind
// of line, which is shown above it: it computes the answer by this project's calls and says whether it is the
// recorded one, to its end. A line's tokens are its own and no more. A query is read into a room of any length;
// `recognise_is_same_in` takes a `Room`, which is made once. All are proved safe on lines and stores of any content,
// and nothing more.
#![tactic(auto)]

use error::Refusal;
use histories::Stores;
use histories::patterns::{Room, Scratch};
use recognise::score;
use recognise::score::Recognised;
use replay::lines::Line;
use replay::tokens::Tokens;
use words::ids::DocId;

// score d = s
pub fn score_is_same(line: Line<'_>) -> bool {
    let mut answer = line.answer();
    answer.is(score::score(line.question().read())) && answer.is_at_end()
}

// Known is 1, the doc id, the score; New is 0, the score.
fn decided_is_same(mut answer: Tokens<'_>, decided: Recognised) -> bool {
    let same = match decided {
        Recognised::Known(doc, sure) => answer.is(1u32) && answer.is(doc.0) && answer.is(sure),
        Recognised::New(sure) => answer.is(0u32) && answer.is(sure),
    };
    same && answer.is_at_end()
}

// decide DOC d limit = known doc score
pub fn decide_is_same(line: Line<'_>) -> bool {
    let mut question = line.question();
    let doc = DocId(question.read());
    let d = question.read();
    let limit = question.read();
    decided_is_same(line.answer(), score::decide(doc, d, limit))
}

// A refusal is its number and nothing more.
fn recognised_is_same(mut answer: Tokens<'_>, recognised: Result<Recognised, Refusal>) -> bool {
    match recognised {
        Ok(decided) => answer.is(0u32) && decided_is_same(answer, decided),
        Err(refusal) => answer.is(refusal) && answer.is_at_end(),
    }
}

// Whether recognising answers what a line has: the query's components go to `components`, as far as there are places.
fn compare_recognise(
    stores: &Stores,
    line: Line<'_>,
    components: &mut [f32],
    scratch: &mut Scratch,
) -> bool {
    let mut question = line.question();
    scratch.asked(&mut question);
    let ef = question.read();
    let limit = question.read();
    let query = question.read_counted(components);
    let recognised = recognise::recognise(
        stores.words.lent(),
        stores.floats.lent(),
        query,
        ef,
        limit,
        scratch.words.lent_mut(),
        scratch.floats.lent_mut(),
    );
    recognised_is_same(line.answer(), recognised)
}

// recognise SW SF EF limit N q.. = number known doc score
pub fn recognise_is_same(stores: &Stores, line: Line<'_>, room: &mut [f32]) -> bool {
    compare_recognise(stores, line, room, &mut Room::new().scratch)
}

// The same in a room that was made once, which has scratch too.
pub fn recognise_is_same_in(stores: &Stores, line: Line<'_>, room: &mut Room) -> bool {
    compare_recognise(stores, line, &mut room.components, &mut room.scratch)
}

fn counted_is_same(mut answer: Tokens<'_>, counted: Result<u32, Refusal>) -> bool {
    let same = match counted {
        Ok(phones) => answer.is(0u32) && answer.is(phones),
        Err(refusal) => answer.is(refusal),
    };
    same && answer.is_at_end()
}

// household DAY N seconds.. M docs.. = number phones
// The seconds are the tokens themselves.
pub fn household_is_same(line: Line<'_>) -> bool {
    let mut question = line.question();
    let day = question.read();
    let sightings: usize = question.read();
    let seconds = replay::front(question.rest(), sightings);
    let mut room = [0u32; 1024];
    let docs = line
        .tokens_at(sightings.wrapping_add(2))
        .read_counted(&mut room);
    counted_is_same(
        line.answer(),
        household::household_count(day, seconds, docs),
    )
}
