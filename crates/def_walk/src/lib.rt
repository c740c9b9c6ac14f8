// A search of a graph along out-edges, and its two cases: repair (scope, part 7) and the walk of a search (part
// 8). Definitions and laws, and the record of two numbers that definitions and code share; no functions.
//
// A walk keeps the nodes seen, latest first, and a frontier of those whose lists are still to be read. It
// takes the frontier's first node, reads its list, and adds what is new to both. Where a new node goes in
// the frontier, and when to stop, before a node is expanded or after, is the caller's to say.
//
// Repair is `mark_reachable` and `ensure_connectivity` of src/graph_utils.rs. A search follows out-edges from the
// entry node, so a node to which no path of them leads would never be found. Repair goes through the nodes in
// order and builds a bridge to each that is not reached by then, from the nearest reached node of a few that are
// cheap to look at. A bridge is an entry in both its ends' lists. The rows are not touched: repair returns the
// bridges, in order.
//
// The walk of a search is `beam_search` of src/pipnn/mod.rs and `keep_closest` of src/graph_utils.rs. It starts
// at the entry node and always goes on from the nearest node whose list it has not looked at. A live node is
// scored when its distance to the query is computed, each once. The b closest so far set a cutoff, and the walk ends
// early where everything left lies well beyond it, or where many nodes are scored: `Stops` below says how far and
// how many. The answer is the first few of what it scored. The walk goes through nodes that are not live as well,
// and does not score them; today every node of a store is live.
//
// specs/Walk                what an out-edge reaches, and the walk
// specs/Repair              `mark_reachable` and `ensure_connectivity`, over rows as a list of lists
// specs/Lengths             how long the lists of the nodes are, together and at most
// specs/KeepClosest         the nodes held for the cutoff, and the cutoff
// specs/Beam                what is walked over, the frontier's order, both stops, the nodes scored in order, the answer
// proofs/walk/Laws          a walk that ends with an empty frontier has seen all that is reached; each node once;
//                           how much it can see at most, by any measure that one node more raises by one at
//                           most
// proofs/graph_utils/Laws   every node is reached along out-edges of the lists with bridges; fewer bridges than
//                           nodes; both ends of one are nodes, and different
// proofs/graph_utils/Lengths  a bridge makes the lists longer by two entries in total
// proofs/beam/Laws          what a search promises where every node is reached: how many nodes it scores, how
//                           many it returns, in which order, and what it cannot leave out; where all nodes are live,
//                           all that is seen is scored
// proofs/*/Examples         walks and repairs that compute: the worked example, and others that agree with the Rust
#![tactic(auto)]

// The two stop numbers of a walk. Once b nodes are held it ends before a node that lies farther than the cutoff
// times the factor; and it ends after more than the multiplier times b nodes are scored.
#[derive(Clone, Copy)]
pub struct Stops {
    pub factor: f32,
    pub multiplier: u32,
}

// Those of part 8.
pub const USUAL: Stops = Stops {
    factor: 1.5,
    multiplier: 10,
};
