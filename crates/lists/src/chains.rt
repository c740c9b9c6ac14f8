// The other ends of a node's bridges, linked. A node's list is its row, then for each bridge in order the
// other end, if it is one end (scope, Records). The Rust keeps lists that grow; here the bridges are one
// after the other in words, and going through all of them for each node would cost nodes times bridges. So
// each node has a chain: a slice that is passed in holds its first link, its last link, and for each word
// of the bridges the next link of the node in that word. Appending a bridge and following a link cost a few
// steps each.
//
// A reader goes along a node's whole list with `Entries`: over the row's entries, then from link to link with `Ends`.
// A word holds a link as its slot plus 1, or 0 where there is none; a reader has an `Option`.
//
// Every function is total, for any number of nodes. On any content each link leads to a larger one, so that a chain ends.
//
// specs/Inside/Chains  what is read from a link on, how a bridge is appended, and when chains are those of bridges
// specs/Inside/Lists   a node's list, and what is left of it
// proofs/Reading       the equations of a chain's reader: none, one more
// proofs/Laws          chains with one bridge more; what a reader finds is the other ends, in order
//
// kept (6): links are words of the caller's scratch, since there is no heap; n is how many nodes they are of.
ghost use Rattle.std.specs.Prelude.{◌≡◌, ◌+◌, ◌*◌, ◌<◌, ◌^◌, get_or, drop};
ghost use Rattle.std.specs.Iterator.{YieldsFirstBy, item_count};
ghost use Rattle.lists.specs.Inside.Chains.{other_end_at, link_above, next_link, capped, cleared_links, link_place, append_slot, chain_bridge, as_link};
ghost use Rattle.lists.specs.Inside.Lists.{ends_of, list_in, ends_left, entries_left};

use super::Shape;
use words::ids::Node;
use words::slices;

// Where a slot's next link stands, behind the heads and tails of n nodes. The largest number is past the end of every
// slice, and stands for all larger ones.
fn next_place(n: usize, slot: u32) -> usize
    ensures { result ≡ capped (2 * n + slot) }
{
    n.saturating_mul(2).saturating_add(slot as usize)
}

// No node has a link: the heads and tails of n nodes are zero.
pub fn clear_links(links: &mut [u32], n: usize)
    ensures { links.new ≡ cleared_links n links.old }
{
    let end = next_place(n, 0).min(links.len());
    links[..end].fill(0);
}

// Bridge j comes to the end of both its ends' chains, once where they are one node.
pub fn chain_bridge(links: &mut [u32], n: usize, j: u32, near: Node, far: Node)
    ensures { links.new ≡ chain_bridge n j near.0 far.0 links.old }
{
    if j >= 0x4000_0000 {
        return;
    }
    append_slot(links, n, near, 2 * j);
    if near == far {
        return;
    }
    append_slot(links, n, far, 2 * j + 1);
}

// The next link of each slot, in order.
fn nexts_of(links: &[u32], n: usize) -> &[u32]
    ensures { result.now ≡ drop (2 * n) links.now }
{
    let from = next_place(n, 0).min(links.len());
    &links[from..]
}

// The link that a word is, where it is larger than the link before it and has a place. Links rise, so that a loop over a
// chain ends.
fn link_above(nexts: &[u32], before: u32, word: u32) -> Option<u32>
    ensures { result ≡ as_link (link_above nexts.now before word) }
{
    if word <= before {
        return None;
    }
    (word as usize <= nexts.len()).then_some(word)
}

// The first link of a node. Where there are no heads there is nothing more to look at.
fn first_link(links: &[u32], nexts: &[u32], node: Node) -> Option<u32>
    ensures { result ≡ as_link (link_above nexts.now 0 (get_or links.now node.0 0)) }
{
    let head = links.get(node.0 as usize)?;
    link_above(nexts, 0, *head)
}

// The link after a link.
fn next_link(nexts: &[u32], link: u32) -> Option<u32>
    ensures { result ≡ as_link (next_link 0 nexts.now link) }
{
    let place = (link as usize).saturating_sub(1);
    link_above(nexts, link, store::word_at(nexts, place))
}

// The node that a link leads to: the other word of the bridge that its slot is a word of.
fn other_end(bridges: &[u32], link: u32) -> Node
    ensures { result.0 ≡ other_end_at bridges.now link }
{
    let slot = link.saturating_sub(1) as usize;
    Node(store::word_at(bridges, slot + 1 - 2 * (slot % 2)))
}

// The other ends of a node's bridges, from a link on.
#[derive(Clone, Copy)]
pub struct Ends<'a> {
    bridges: &'a [u32],
    nexts: &'a [u32],
    link: Option<u32>,
}

impl<'a> Iterator for Ends<'a> {
    type Item = Node;

    ghost next_gives = { YieldsFirstBy (λ node. node.0) ends_left };

    ghost remaining = { item_count ends_left };

    fn next(&mut self) -> Option<Node> {
        let link = self.link?;
        self.link = next_link(self.nexts, link);
        Some(other_end(self.bridges, link))
    }
}

// A node's list from an entry on: the rest of its row, then the other ends of its bridges.
#[derive(Clone, Copy)]
pub struct Entries<'a> {
    row: &'a [u32],
    ends: Ends<'a>,
}

impl<'a> Iterator for Entries<'a> {
    type Item = Node;

    ghost next_gives = { YieldsFirstBy (λ node. node.0) entries_left };

    ghost remaining = { item_count entries_left };

    fn next(&mut self) -> Option<Node> {
        let Some((first, rest)) = self.row.split_first() else {
            return self.ends.next();
        };
        self.row = rest;
        Some(Node(*first))
    }
}

// The lists of an index: its rows, its bridges, and the chains that link their ends.
#[derive(Clone, Copy)]
pub struct Lists<'a> {
    pub shape: Shape,
    pub rows: &'a [u32],
    pub bridges: &'a [u32],
    pub links: &'a [u32],
}

impl<'a> Lists<'a> {
    // The other ends of a node's bridges.
    pub fn ends(self, node: Node) -> Ends<'a>
        ensures { ends_left result ≡ ends_of self.entry node.0 }
    {
        let nexts = nexts_of(self.links, self.shape.n);
        Ends {
            bridges: self.bridges,
            nexts,
            link: first_link(self.links, nexts, node),
        }
    }

    // A node's list.
    pub fn of(self, node: Node) -> Entries<'a>
        ensures { entries_left result ≡ list_in self.entry node.0 }
    {
        Entries {
            row: super::row_of(self.rows, self.shape.degree, node),
            ends: self.ends(node),
        }
    }
}

// A slot comes to the end of a node's chain.
fn append_slot(links: &mut [u32], n: usize, node: Node, slot: u32)
    requires { slot < 2 ^ 31 }
    ensures { links.new ≡ append_slot n node.0 slot links.old }
{
    let tail_place = n.saturating_add(node.0 as usize);
    let tail = store::word_at(links, tail_place);
    let place = link_place(n, node, tail);
    slices::put(links, place, slot + 1);
    slices::put(links, next_place(n, slot), 0);
    slices::put(links, tail_place, slot + 1);
}

fn link_place(n: usize, node: Node, tail: u32) -> usize
    ensures { result ≡ capped (link_place n node.0 tail) }
{
    if tail == 0 {
        return node.0 as usize;
    }
    next_place(n, tail - 1)
}
