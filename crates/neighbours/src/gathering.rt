// The fresh nodes of a list: those that a walk has not seen yet (scope, part 8; `visited_insert` of
// `beam_search`). A walk reads a node's whole list first, and then computes the distances of the fresh
// nodes, several at a time.
//
// A slice of words has a mark for each of the first n nodes, 0 or 1, and behind the marks n words for the
// fresh nodes. Entries that are not below n are skipped. A node's list is its row and then the other ends of
// its bridges, as `list_of` of `basics` says; chains link them, so that only the bridges of the node are read.
//
// kept (5): a struct of words, size and count is no plainer: each contract then also has to say that the field still holds the same reference.
// kept (6): words are the caller's scratch, since there is no heap, and a count says how many of a part hold.
ghost use Rattle.std.specs.Prelude.{[], ◌∷◌, ◌≤◌, length};
ghost use Rattle.lists.specs.Inside.Lists.{ends_of};
ghost use Rattle.neighbours.specs.Inside.Gathering.{fresh_end, Gathering, GatheringList, Beginning};

use lists::Shape;
use lists::chains::Lists;
use words::ids::Node;

// A mark and room for a fresh node, for each node.
const WORDS: usize = 2;

// Marks a node, and puts it behind the `count` fresh ones that are there; it stays there as one of them if it
// was not marked. Returns how many there are then. Which nodes are fresh depends on the data, so there is no
// branch on it.
fn visit(words: &mut [u32], size: usize, count: usize, node: u32) -> usize
    requires { fresh_end size ≤ length words.old }
    ensures { Gathering size count (node ∷ []) words.old words.new result }
{
    let at = node as usize;
    if at >= size {
        return count;
    }
    // where as many are fresh as there are nodes, each node is marked
    if count >= size {
        return count;
    }
    let fresh = words[at] == 0;
    words[at] = 1;
    words[size + count] = node;
    count + fresh as usize
}

// The entries of a row.
fn visit_all(words: &mut [u32], size: usize, count: usize, row: &[u32]) -> usize
    requires { fresh_end size ≤ length words.old }
    ensures { Gathering size count row.now words.old words.new result }
{
    let mut fresh = count;
    for node in row {
        fresh = visit(words, size, fresh, *node);
    }
    fresh
}

// The other ends of a node's bridges, by its chain.
// kept (2): `graph_utils::marking::visit_list` has the same loop round another step; a loop for both would need a law for a step that writes.
fn visit_ends(words: &mut [u32], lists: Lists, count: usize, node: Node) -> usize
    requires { fresh_end lists.shape.n ≤ length words.old }
    ensures { Gathering lists.entry.shape.n count (ends_of lists.entry node.0) words.old words.new result }
{
    let mut fresh = count;
    for end in lists.ends(node) {
        fresh = visit(words, lists.shape.n, fresh, end.0);
    }
    fresh
}

// Gathers the fresh nodes of a node's list, of rows and linked bridges, and returns how many there are.
// kept (1): a count of 0, not an Option: a caller has checked the sizes, and has no refusal for the other case.
pub fn gather(words: &mut [u32], lists: Lists, node: Node) -> usize
    ensures { GatheringList lists.entry node.0 words.old words.new result }
{
    let size = lists.shape.n;
    if words.len() / WORDS < size {
        return 0;
    }
    let row = lists::row_of(lists.rows, lists.shape.degree, node);
    let count = visit_all(words, size, 0, row);
    visit_ends(words, lists, count, node)
}

// Marks the one node that a walk starts at: the first fresh node. It is gathered as the list of node 0 is, of a row for
// one entry and no bridges: so `gather` has two callers, and the compiler makes a function of it, in which the loop over
// a row has all its numbers in registers (DECISIONS 74).
pub fn begin(words: &mut [u32], n: usize, node: Node) -> usize
    ensures { Beginning n node.0 words.old words.new result }
{
    let row = [1, node.0];
    let alone = Lists {
        shape: Shape { n, degree: 1 },
        rows: &row,
        bridges: &[],
        links: &[],
    };
    gather(words, alone, Node(0))
}
