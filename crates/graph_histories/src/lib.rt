// The recorded histories of calls (recorded/README.md), as far as the graph goes: the lines that ask for a
// build, for a search, or for leaves. The other lines are in the crate histories.
//
// Each function whose name ends in `_is_same` is for one kind of line, which is shown above it: it computes
// the answer by this project's calls and says whether it is the recorded one. A line's tokens are its own and no
// more, so that an answer can be compared to its end. Vectors are read or generated into a room of any length;
// `build_is_same` and the functions whose names end in `_is_same_in` take a `Room`, which is made once. All are
// proved safe on lines and stores of any content, and nothing more.
#![tactic(auto)]

pub mod leaf_histories;

use beam_search::Walked;
use error::Refusal;
use histories::patterns::{Room, Scratch};
use histories::{Stores, patterns};
use replay::lines::Line;
use replay::tokens::Tokens;

// build SW SF = number
pub fn build_is_same(stores: &mut Stores, line: Line<'_>, room: &mut Room) -> bool {
    let scratch = &mut room.scratch;
    scratch.asked(&mut line.question());
    let built = build::build(
        stores.words.lent_mut(),
        stores.floats.lent(),
        scratch.words.lent_mut(),
        scratch.floats.lent_mut(),
    );
    line.answer().is(built)
}

// Outputs: no answer is longer than 1,024, and k goes to 1,025.
const OUTPUTS: usize = 1100;

// Whether a search found what is recorded, and left the rest of its outputs alone. One that is refused found and
// scored nothing.
// kept (6): a search puts doc ids and distances into two slices, for C.
fn found_is_same(
    mut answer: Tokens<'_>,
    found: Result<Walked, Refusal>,
    docs: &[u32],
    distances: &[f32],
) -> bool {
    let walked = found.unwrap_or_default();
    let count = walked.count as usize;
    answer.is(found.map(|_| ()))
        && answer.is(walked.count)
        && answer.is(walked.scored)
        && answer.are(replay::front(docs, count))
        && answer.are(replay::front(distances, count))
        && answer.is_at_end()
        && patterns::are_kept(docs, count)
        && patterns::are_kept(distances, count)
}

// Whether a search's answer is that of a line: the query's components go to `components`, as far as there are places.
fn compare_find(
    stores: &Stores,
    line: Line<'_>,
    components: &mut [f32],
    scratch: &mut Scratch,
) -> bool {
    let mut question = line.question();
    scratch.asked(&mut question);
    let k = question.read();
    let ef = question.read();
    let docs_size = question.read::<usize>().min(OUTPUTS);
    let distances_size = question.read::<usize>().min(OUTPUTS);
    let query = question.read_counted(components);
    let mut docs = patterns::scattered::<u32, OUTPUTS>();
    let mut distances = patterns::scattered::<f32, OUTPUTS>();
    let found = search::search_with_ef(
        stores.words.lent(),
        stores.floats.lent(),
        query,
        k,
        ef,
        &mut docs[..docs_size],
        &mut distances[..distances_size],
        scratch.words.lent_mut(),
        scratch.floats.lent_mut(),
    );
    found_is_same(line.answer(), found, &docs, &distances)
}

// find SW SF K EF OD OF N q.. = number count scored doc.. dist..
pub fn find_is_same(stores: &Stores, line: Line<'_>, room: &mut [f32]) -> bool {
    compare_find(stores, line, room, &mut Room::new().scratch)
}

// The same in a room that was made once, which has scratch too.
pub fn find_is_same_in(stores: &Stores, line: Line<'_>, room: &mut Room) -> bool {
    compare_find(stores, line, &mut room.components, &mut room.scratch)
}
