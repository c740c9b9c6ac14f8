// Marking what is reached along out-edges (scope, part 7), as `mark_reachable` of src/graph_utils.rs: depth
// first, with a stack. Of n nodes the first n words of `state` are marks and the next n the stack. A node's
// list is its row, then its bridges' other ends, which chains link.
//
// Every function is total and equal to its definition on words. On n nodes of which marks and stack are those
// of a list of reached nodes, that is the definition of repair.
//
// specs/Inside/Marking  marking on words
// proofs/Refining       it is the walk of the definition
ghost use Rattle.std.specs.Prelude.{◌≡◌};
ghost use Rattle.lists.specs.Inside.Lists.{list_in};
ghost use Rattle.graph_utils.specs.Inside.Marking.{marks, visited, visited_all, marked};

use lists::chains::Lists;
use words::ids::Node;
use words::slices;

// Marks every node that the lists lead to from a node that is not marked; from a marked one, nothing.
pub fn mark_reachable(lists: Lists, state: &mut [u32], start: Node)
    ensures { state.new ≡ marked lists.entry.shape.n (list_in lists.entry) start.0 state.old }
{
    let n = lists.shape.n;
    let mut top = visit(state, n, 0, start.0);
    // no node comes onto the stack twice, so n turns are enough
    // kept (3): a stack, which grows in between.
    'turns: for _ in 0..n {
        if top == 0 {
            return;
        }
        top -= 1;
        let u = Node(store::word_at(state, n.saturating_add(top)));
        top = visit_list(lists, state, top, u);
    }
}

// Visits the nodes of a node's list.
// kept (6): a struct of `state`, n and top is no plainer, here and in `visit`: each contract then also has to say that the field still holds the same reference.
fn visit_list(lists: Lists, state: &mut [u32], top: usize, u: Node) -> usize
    ensures { marks state.new result
        ≡ visited_all lists.entry.shape.n (list_in lists.entry u.0) (marks state.old top) }
{
    let mut front = top;
    for v in lists.of(u) {
        front = visit(state, lists.shape.n, front, v.0);
    }
    front
}

// Marks a node and puts it on the stack, if it is not marked. The number of nodes on the stack is returned.
fn visit(state: &mut [u32], n: usize, top: usize, v: u32) -> usize
    ensures { marks state.new result ≡ visited n v (marks state.old top) }
{
    let mark = store::word_at(state, v as usize);
    if ((v as usize) < n) & (mark == 0) & (top < n) {
        slices::put(state, v as usize, 1);
        slices::put(state, n.saturating_add(top), v);
        return top + 1;
    }
    top
}
