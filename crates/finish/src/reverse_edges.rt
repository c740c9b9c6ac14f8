// Reverse edges (scope, part 6), as the Rust's `add_reverse_edges` adds them to the rows of a build: node
// by node, each goes to the end of its neighbours' rows that lack it and have room.
//
// The Rust copies a node's row before its turn. Here its entries are read one by one (`lists`) while other
// rows change: the turn does not change the node's own row, since a node that is in its own row is not added
// to it again (`own_row` of proofs/Laws).
//
// specs/Inside/Reversed  what the functions leave of rows as a build makes them
// proofs/Entry           one row: whether it holds a node, its words with the node at the end
// proofs/Laws            a node's own row in its turn; what the words are after each step
ghost use Rattle.std.specs.Prelude.{◌≡◌, length, ◌≤◌};
ghost use Rattle.finish.specs.Inside.Reversed.{Reversed, Turned, BackAdded, EntryAdded};

use words::ids::Node;

// The rows of n nodes, each a count and `degree` entries, and at most 1,024 of them. Words that are no
// such rows are left with some content.
pub fn add_reverse_edges(rows: &mut [u32], degree: u16)
    ensures { Reversed degree rows.old rows.new }
{
    let size = 1 + degree as usize;
    let n = (rows.len() / size).min(1024) as u32;
    for i in 0..n {
        add_backs(rows, degree, Node(i));
    }
}

// A node's turn: it goes to the rows of its neighbours, in their order.
fn add_backs(rows: &mut [u32], degree: u16, node: Node)
    ensures { Turned degree node.0 rows.old rows.new }
{
    let count = lists::row_of(rows, degree, node).len();
    for e in 0..count {
        let nb = lists::entry_of(rows, degree, node, e);
        add_back(rows, degree, node, nb);
    }
}

// The node goes to the row of one neighbour. A neighbour that is not there is passed over.
// kept (2): `build_leaf` cuts a row so too; a function that returns the part is no plainer: its contract also says what the rows are once it is written.
fn add_back(rows: &mut [u32], degree: u16, node: Node, nb: Node)
    ensures { BackAdded degree node.0 nb.0 rows.old rows.new }
{
    let size = 1 + degree as usize;
    let at = nb.0 as usize * size;
    let end = at + size;
    if rows.len() < end {
        return;
    }
    add_entry(&mut rows[at..end], node.0);
}

// One row: the node goes to its end, if the row lacks it and has room. A row's words are at most 65,536.
fn add_entry(row: &mut [u32], node: u32)
    requires { length row.old ≤ 65536 }
    ensures { EntryAdded node row.old row.new }
{
    let Some(&count) = row.first() else {
        return;
    };
    let last = 1 + count as usize;
    if row.len() <= last {
        return;
    }
    if row[1..last].contains(&node) {
        return;
    }
    row[last] = node;
    row[0] = last as u32;
}
