// The recorded leaves of vectors (recorded/README.md): the lines that ask for them.
ghost use Rattle.std.specs.Prelude.{◌≤◌, length};

use carving::CarveParams;
use dealing::DealParams;
use distance::vectors::Vectors;
use histories::patterns;
use histories::patterns::Room;
use histories::vectors::Vectors as Generated;
use replay::lines::Line;
use replay::tokens::{Token, Tokens};

// What a question's first five tokens, DIM LEAF MIN FRACTION N, say.
#[derive(Clone, Copy)]
struct Asked {
    dimension: Token,
    params: CarveParams,
    count: Token,
}

impl Asked {
    fn read(question: &mut Tokens<'_>) -> Asked {
        Asked {
            dimension: question.token(),
            params: CarveParams {
                max_leaf: question.read(),
                dealing: DealParams {
                    min_leaf: question.read(),
                    leader_fraction: question.read(),
                },
            },
            count: question.token(),
        }
    }
}

// The leaves that hold a node: their nodes, leaf after leaf, and their sizes.
#[derive(Clone, Copy)]
struct Leaves<'a> {
    nodes: &'a [u32],
    sizes: &'a [u32],
}

// The leaves of vectors, carved in words of which 64 a node are passed in.
fn carve<'a>(asked: &Asked, components: &[f32], words: &'a mut [u32]) -> Leaves<'a> {
    let n = u32::from(asked.count);
    let lent = words.len().min(64 * (n as usize));
    let vectors = Vectors {
        components,
        dimension: u32::from(asked.dimension),
    };
    let found = carving::partition(vectors, asked.params, n, &mut words[..lent]);
    let sizes = words.get(carving::SIZES_AT * (n as usize)..).unwrap_or(&[]);
    Leaves {
        nodes: words,
        sizes: replay::front(sizes, found as usize),
    }
}

// Whether the leaves of an answer are those found. A recorded leaf that holds no node is not among them.
fn leaves_are_same(mut answer: Tokens<'_>, found: Leaves<'_>) -> bool {
    let mut nodes = found.nodes;
    let mut sizes = found.sizes;
    for _ in 0..answer.read::<u64>() {
        if answer.rest().is_empty() {
            return false;
        }
        let size: usize = answer.read();
        if size == 0 {
            continue;
        }
        let Some((found_size, more_sizes)) = sizes.split_first() else {
            return false;
        };
        let Some((leaf, more_nodes)) = nodes.split_at_checked(size) else {
            return false;
        };
        if *found_size as usize != size || !answer.are(leaf) {
            return false;
        }
        sizes = more_sizes;
        nodes = more_nodes;
    }
    sizes.is_empty() && answer.is_at_end()
}

// Whether a line's leaves are those found: its vectors go to `room`, as far as it goes, and the leaves to `words`.
fn compare_leaves(line: Line<'_>, room: &mut [f32], words: &mut [u32]) -> bool {
    let mut question = line.question();
    let asked = Asked::read(&mut question);
    let components = question.read_into(line.asked.saturating_sub(5), room);
    let found = carve(&asked, components, words);
    leaves_are_same(line.answer(), found)
}

// leaves DIM LEAF MIN FRACTION N v.. = COUNT (size node..)..
pub fn leaves_is_same(line: Line<'_>, room: &mut [f32]) -> bool {
    compare_leaves(line, room, &mut patterns::scattered::<u32, 65536>())
}

// The same in a room that was made once, which has scratch too.
pub fn leaves_is_same_in(line: Line<'_>, room: &mut Room) -> bool {
    let words = &mut room.scratch.words;
    words.scatter(0);
    compare_leaves(line, &mut room.components, &mut words.all)
}

// Generates this many vectors, as far as there is room, and answers how many floats they have.
fn generate_all(room: &mut [f32], dimension: usize, count: u64, mut vectors: Generated) -> usize
    ensures { result ≤ length room.new }
{
    let mut at: usize = 0;
    'all: for _ in 0..count {
        if room.len() - at < dimension {
            return at;
        }
        let end = at + dimension;
        vectors.next_into(&mut room[at..end]);
        at = end;
    }
    at
}

// The checksum of leaves: each one's size, then its nodes.
fn sum_leaves(leaves: Leaves<'_>) -> u64 {
    let mut sum: u64 = 0;
    let mut nodes = leaves.nodes;
    for size in leaves.sizes {
        let (leaf, more) = nodes.split_at(nodes.len().min(*size as usize));
        sum = histories::sum_words(histories::sum_on(sum, *size), leaf);
        nodes = more;
    }
    sum
}

// Whether a line's leaves are those of the vectors generated into `room`, as far as it goes; the leaves go to `words`.
// `None` where they cannot be compared.
fn compare_leavesof(line: Line<'_>, room: &mut [f32], words: &mut [u32]) -> Option<bool> {
    let mut question = line.question();
    let asked = Asked::read(&mut question);
    let vectors = Generated::asked(&mut question);
    let given = generate_all(
        room,
        usize::from(asked.dimension),
        u64::from(asked.count),
        vectors,
    );
    let found = carve(&asked, &room[..given], words);
    let mut answer = line.answer();
    let recorded: usize = answer.read();
    let count = found.sizes.len();
    if count < recorded {
        return None;
    }
    Some(count == recorded && answer.is(sum_leaves(found)))
}

// leavesof DIM LEAF MIN FRACTION N SEED STYLE = COUNT checksum
// The checksum takes leaves without a node too, wherever they stand. Where there are any, the answer counts
// more leaves than are found, and cannot be compared: `None`.
pub fn leavesof_is_same(line: Line<'_>, room: &mut [f32]) -> Option<bool> {
    compare_leavesof(line, room, &mut patterns::scattered::<u32, 65536>())
}

// The same in a room that was made once, which has scratch too.
pub fn leavesof_is_same_in(line: Line<'_>, room: &mut Room) -> Option<bool> {
    let words = &mut room.scratch.words;
    words.scatter(0);
    compare_leavesof(line, &mut room.components, &mut words.all)
}
