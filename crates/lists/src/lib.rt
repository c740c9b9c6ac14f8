// Lists of the graph, as words hold them (scope, Records): rows of a count and D entries, one after the
// other, and bridges of two words. `Shape` has the sizes that readers of an index go by.
//
// `ListView` is a view of the rows: the slice and the stride, which is how many words a row takes. Readers call what
// stands above it: `row_of` for a node's row, `entry_of` for one entry while
// other rows change (reverse edges), and `chains` for a node's whole list, with the other ends of its bridges. All are
// total, whatever the words hold.
//
// Elsewhere these words are read only by the check of a store (`store`, which this crate uses), and by what
// writes them: `add_entry` of reverse_edges, which searches the row that it adds to, `write_row` of
// hashprune, `put_bridge` of graph_utils, and build, which clears rows and copies bridges.
//
// specs/Inside/Words  a block of words, the rows and bridges that words stand for, the words a build makes of rows
// proofs/Reading      a word of a block, and a row, from its block
// proofs/Blocks       rows as a build leaves them: how long, what is read back, one row replaced
// proofs/Places       a place that is too large for a number of 64 bits is past the end
#![tactic(auto)]

pub mod chains;

ghost use Rattle.std.specs.Prelude.{◌≡◌, [], get_or};
ghost use Rattle.lists.specs.Inside.Words.{block_at, row_lists};

use words::ids::Node;

// The sizes of an index: n nodes, rows with room for `degree` entries.
#[derive(Clone, Copy)]
pub struct Shape {
    pub n: usize,
    pub degree: u16,
}

// Blocks of `stride` words each, one after the other: rows.
#[derive(Clone, Copy)]
pub struct ListView<'a> {
    pub words: &'a [u32],
    pub stride: u32,
}

impl<'a> ListView<'a> {
    // What stands of a block. Past the last word there is nothing.
    pub fn block(self, i: u32) -> &'a [u32]
        ensures { result.now ≡ block_at self.entry.stride i self.entry.words.now }
    {
        let size = self.stride as usize;
        let most = self.words.len();
        let at = most.min(i as usize * size);
        let end = most.min(at + size);
        &self.words[at..end]
    }
}

// The entries of a node's row, where rows have room for `degree` entries. A node that is not there has none.
// A count above the room counts them all.
pub fn row_of(rows: &[u32], degree: u16, node: Node) -> &[u32]
    ensures { result.now ≡ get_or (row_lists degree rows.now) node.0 [] }
{
    let stride = 1 + degree as u32;
    let blocks = ListView {
        words: rows,
        stride,
    };
    let row = blocks.block(node.0);
    if row.len() < stride as usize {
        return &[];
    }
    let count = row[0];
    if count < stride {
        let end = 1 + count as usize;
        return &row[1..end];
    }
    &row[1..]
}

// An entry of a node's row, 0 where there is none.
// kept (1): a place past the end reads as 0, as a word of a store does.
pub fn entry_of(rows: &[u32], degree: u16, node: Node, e: usize) -> Node
    ensures { result.0 ≡ get_or (get_or (row_lists degree rows.now) node.0 []) e 0 }
{
    Node(store::word_at(row_of(rows, degree, node), e))
}
