// The candidates of one position of a leaf (scope, part 5), as the Rust's `build_leaf` takes them: the
// nearest of the other positions, of equally near ones the earlier.
//
// The Rust sorts all other positions. Here they are offered one by one to the first few so far, which is
// what sorting and cutting leaves (`keep_more` of Rattle.sorting), and most are refused at the cost of one
// comparison. The distances are those that `leaf_distances` leaves in one lane of its floats.
//
// specs/Inside/Candidates  what is offered, and what the candidates are
// proofs/Laws              positions in place of nodes: sorting orders both in the same way
//
// kept (6): an ArrayVec of pairs is no plainer: `sorting::keep_first` takes a slice as long as the most that are kept, which is
// known from the degree and the leaf, and a count. An ArrayVec always has room for 64, so the most that are kept would be passed beside it.
ghost use Rattle.std.specs.Prelude.{◌≡◌, ◌-◌, ◌≤◌, ◌<◌, length, map};
ghost use Rattle.basics.specs.Nodes.{Below};
ghost use Rattle.sorting.specs.Inside.Pairs.{id_in};
ghost use Rattle.build_leaf.specs.Inside.Candidates.{far_in_lane, Offered, NearestPlaces, NodesAt, Candidates, LanesSized};

use arrayvec::ArrayVec;
use distance::order;
use hashprune::Candidate;
use sorting::Keyed;
use words::ids::Node;

// A place of a leaf: the nodes of the leaf, which of them it is, and the floats that hold its distances to all
// of them in one lane.
#[derive(Clone, Copy)]
pub struct Place<'a> {
    pub nodes: &'a [u32],
    pub i: usize,
    pub floats: &'a [f32],
    pub lane: usize,
}

impl<'a> Place<'a> {
    // The candidates of the place: none where the sizes do not fit.
    pub fn candidates_at(self, degree: u16) -> ArrayVec<Candidate, 64>
        ensures { Candidates self.entry degree result.items }
    {
        if self.nodes.len() <= self.i {
            return ArrayVec::new();
        }
        if 8 <= self.lane {
            return ArrayVec::new();
        }
        if 32 < degree {
            return ArrayVec::new();
        }
        if 4294967295 < self.nodes.len() {
            return ArrayVec::new();
        }
        if self.floats.len() / 8 < self.nodes.len() {
            return ArrayVec::new();
        }
        Lane { place: self }.candidates(degree)
    }
}

// A place that is one of its leaf, and whose distances stand in its lane.
#[derive(Clone, Copy)]
struct Lane<'a> {
    place: Place<'a>,
    ghost sized: { LanesSized place },
}

impl<'a> Lane<'a> {
    // The candidates.
    fn candidates(self, degree: u16) -> ArrayVec<Candidate, 64>
        requires { degree ≤ 32 }
        ensures { Candidates self.entry.place degree result.items }
    {
        let mut pairs = [Keyed { key: 0, id: 0 }; 64];
        let most = 2 * (degree as usize).min(self.place.nodes.len() - 1);
        let held = self.nearest(&mut pairs[..most]);
        self.gather(&pairs[..held])
    }

    // The first of the other places by the key of their distance.
    fn nearest(self, pairs: &mut [Keyed]) -> usize
        ensures { NearestPlaces self.entry.place result pairs.new }
    {
        let i = self.place.i;
        let held = self.offer(0, i, pairs, 0);
        self.offer(i + 1, self.place.nodes.len(), pairs, held)
    }

    // The places from `from` on and before `to` are offered to the first so far.
    fn offer(self, from: usize, to: usize, pairs: &mut [Keyed], held: usize) -> usize
        requires { (from ≤ to) × (to ≤ length self.place.nodes.now) }
        ensures { Offered self.entry.place from (to - from) pairs.old held pairs.new result }
    {
        let mut kept = held;
        for j in from..to {
            let pair = Keyed {
                key: order::key(self.distance(j)),
                id: j as u32,
            };
            kept = sorting::keep_first(pairs, kept, pair);
        }
        kept
    }

    // The nodes of some places, and their distances.
    fn gather(self, pairs: &[Keyed]) -> ArrayVec<Candidate, 64>
        requires { Below (length self.place.nodes.now) (map id_in pairs.now) × (length pairs.now ≤ 64) }
        ensures { NodesAt self.entry.place pairs.now result.items }
    {
        let mut candidates = ArrayVec::new();
        for pair in pairs {
            let j = pair.id as usize;
            candidates.push(Candidate {
                node: Node(self.place.nodes[j]),
                far: self.distance(j),
            });
        }
        candidates
    }

    // How far place j is.
    fn distance(self, j: usize) -> f32
        requires { j < length self.place.nodes.now }
        ensures { result ≡ far_in_lane self.entry.place j }
    {
        self.place.floats[8 * j + self.place.lane]
    }
}
