// The two queues of a search's walk (scope, part 8): the frontier, whose nearest node is taken next, and
// the nodes held for the cutoff, of which the worst leaves first. `frontier.pop()` of `beam_search` and
// `keep_closest` of src/graph_utils.rs.
//
// Both are tournaments. The frontier has a slot for each node, and a pair is a node's key and the node, so that
// of equally near nodes the lower one is first. The held have a slot for each of the walk's places, and a pair is
// a held distance's key, complemented so that the worst is first, and its slot: a nearer node then takes the
// worst's slot, whichever node that was, since only the cutoff is asked of the held. The distances of nodes are
// in a slice of floats, each at its node. Every function is total; what it promises is about trees that represent
// some list of nodes (`Queue` and `Held` of specs/Inside/Queues), and about that list as `def_walk` changes it.
//
// proofs/Laws     the frontier: empty, a node put in, the first taken out
// proofs/Holding  the held: none, one more, the worst's slot taken, which pair is first
// proofs/Keeping  the cases of `keep_closest`
//
// kept (6): a queue is words of the caller's scratch, since there is no heap.
ghost use Rattle.std.specs.Prelude.{◌≡◌, ◌-◌, false, get_or};
ghost use Rattle.std.specs.Float.{inf};
ghost use Rattle.beam_state.specs.Inside.Tournament.{Putting};
ghost use Rattle.beam_state.specs.Inside.Queues.{Popping, Worst, Keeping, Entering, held_rank};

use super::tournament;
use distance::order;
use sorting::Keyed;
use words::ids::Node;

// The nearest node of the frontier with its distance, or nothing where the frontier is empty.
// kept (1): the scope asks for this enum, of a distance and a node or nothing.
#[derive(Clone, Copy)]
pub enum Popped {
    At(f32, Node),
    Empty,
}

// How many nodes are held, and the cutoff.
#[derive(Clone, Copy)]
pub struct Closest {
    pub held: u32,
    pub cutoff: f32,
}

// A node's distance; infinity for one that has none.
// kept (1): a walk compares a distance, and infinity is never the nearer one.
pub fn distance_of(floats: &[f32], node: Node) -> f32
    ensures { result ≡ get_or floats.now node.0 (inf false) }
{
    floats
        .get(node.0 as usize)
        .copied()
        .unwrap_or(f32::INFINITY)
}

// Puts a node into the frontier, by its distance's key.
pub fn enter(tree: &mut [u32], key: u32, node: Node)
    ensures { Entering node.0 key tree.old tree.new }
{
    tournament::put(tree, node.0, Keyed { key, id: node.0 });
}

// Takes the nearest node from the frontier, the lower one of equally near nodes, with its distance.
pub fn pop(tree: &mut [u32], floats: &[f32]) -> Popped
    ensures { Popping floats.now tree.old tree.new result }
{
    let Some(top) = tournament::first_if_any(tree) else {
        return Popped::Empty;
    };
    tournament::remove(tree, top.id);
    let node = Node(top.id);
    Popped::At(distance_of(floats, node), node)
}

// A held distance's key, turned so that the worst is first, and back.
fn turned(key: u32) -> u32
    ensures { result ≡ 4294967295 - key }
{
    0xffff_ffff - key
}

// Puts a distance's key into a slot of the held.
fn hold(tree: &mut [u32], slot: u32, key: u32)
    ensures { Putting slot (held_rank key slot) tree.old tree.new }
{
    let pair = Keyed {
        key: turned(key),
        id: slot,
    };
    tournament::put(tree, slot, pair);
}

// The worst distance held; infinity where none is.
// kept (1): the cutoff of part 8 is infinity where nothing is held.
fn worst_of(tree: &[u32]) -> f32
    ensures { Worst tree.now result }
{
    match tournament::first_if_any(tree) {
        None => f32::INFINITY,
        Some(worst) => order::value(turned(worst.key)),
    }
}

// Offers a scored node, by its distance and the distance's key, to the held, which have `places` slots, and
// returns the cutoff: infinity where the node went to a free slot, also the last one, else the worst distance
// held. A node takes the worst's slot where its distance is less, as numbers are compared.
pub fn keep_closest(tree: &mut [u32], held: u32, places: u32, distance: f32, key: u32) -> Closest
    ensures { Keeping places held distance key tree.old tree.new result }
{
    if held < places {
        hold(tree, held, key);
        return Closest {
            held: held + 1,
            cutoff: f32::INFINITY,
        };
    }
    let Some(worst) = tournament::first_if_any(tree) else {
        return Closest {
            held,
            cutoff: f32::INFINITY,
        };
    };
    let most = order::value(turned(worst.key));
    if distance < most {
        hold(tree, worst.id, key);
        let cutoff = worst_of(tree);
        return Closest { held, cutoff };
    }
    Closest { held, cutoff: most }
}
