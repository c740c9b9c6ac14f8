// Replays the recorded histories of calls on the two stores (recorded/README.md): each call's answer is compared
// with the oracle's, and so are both stores afterwards, by their checksums and word by word. The histories try
// `new`, `add` and damaged stores, builds and leaves, searches, recognising and household counts.
//
// It takes all of standard input and prints for each kind of line how many cases there were and how many
// differ. Everything here is proved safe on every text, and nothing more.
#![tactic(auto)]

use graph_histories::leaf_histories;
use histories::Stores;
use histories::patterns::Room;
use replay::lines::{Line, Replayed};
use replay::tallies::Tallies;
use std::io;

// The lines whose answers are compared.
#[derive(Clone, Copy)]
enum Kind {
    New,
    Add,
    Adds,
    Build,
    Find,
    Sum,
    Words,
    Leaves,
    LeavesOf,
    Recognise,
    Score,
    Decide,
    Household,
}

// Their names, in the order in which they are reported.
const NAMES: [(&'static str, Kind); 13] = [
    ("new", Kind::New),
    ("add", Kind::Add),
    ("adds", Kind::Adds),
    ("build", Kind::Build),
    ("find", Kind::Find),
    ("sum", Kind::Sum),
    ("words", Kind::Words),
    ("leaves", Kind::Leaves),
    ("leavesof", Kind::LeavesOf),
    ("recognise", Kind::Recognise),
    ("score", Kind::Score),
    ("decide", Kind::Decide),
    ("household", Kind::Household),
];

// The lines that prepare.
#[derive(Clone, Copy)]
enum Preparing {
    Fill,
    Lend,
    Word,
    Float,
}

const PREPARING: [(&'static str, Preparing); 4] = [
    ("fill", Preparing::Fill),
    ("lend", Preparing::Lend),
    ("word", Preparing::Word),
    ("float", Preparing::Float),
];

// What the history has come to, what a line needs besides, and what has been counted. Leaves that cannot be
// compared are counted behind all kinds.
#[derive(Drop)]
struct Calls {
    stores: Stores,
    room: Room,
    tallies: Tallies<13>,
    not_compared: u64,
}

impl Calls {
    fn new() -> Self {
        Calls {
            stores: Stores::default(),
            room: Room::new(),
            tallies: Tallies::default(),
            not_compared: 0,
        }
    }

    // Takes a line whose answer is not compared.
    // kept (2): it shares with `is_same` a match on its kind, and no arm.
    fn prepare(&mut self, step: Preparing, line: Line<'_>) {
        match step {
            Preparing::Fill => self.stores.fill(line),
            Preparing::Lend => self.stores.lend(line),
            Preparing::Word => self.stores.set_word(line),
            Preparing::Float => self.stores.set_float(line),
        }
    }

    // Whether a case is as recorded; `None` if it cannot be compared.
    fn is_same(&mut self, kind: Kind, line: Line<'_>) -> Option<bool> {
        let room = &mut self.room;
        Some(match kind {
            Kind::New => self.stores.new_is_same(line),
            Kind::Add => self.stores.add_is_same(line, &mut room.components),
            Kind::Adds => self.stores.adds_is_same(line, &mut room.components),
            Kind::Build => graph_histories::build_is_same(&mut self.stores, line, room),
            Kind::Find => graph_histories::find_is_same_in(&self.stores, line, room),
            Kind::Sum => self.stores.sum_is_same(line),
            Kind::Words => self.stores.words_is_same(line),
            Kind::Leaves => leaf_histories::leaves_is_same_in(line, room),
            Kind::LeavesOf => return leaf_histories::leavesof_is_same_in(line, room),
            Kind::Recognise => recognise_histories::recognise_is_same_in(&self.stores, line, room),
            Kind::Score => recognise_histories::score_is_same(line),
            Kind::Decide => recognise_histories::decide_is_same(line),
            Kind::Household => recognise_histories::household_is_same(line),
        })
    }
}

impl Replayed for Calls {
    fn replay(&mut self, line: Line<'_>) {
        let line = line.alone();
        if let Some((_, step)) = line.kind(&PREPARING) {
            return self.prepare(step, line);
        }
        let Some((at, kind)) = line.kind(&NAMES) else {
            return self.tallies.count(None, false);
        };
        match self.is_same(kind, line) {
            Some(same) => self.tallies.count(Some(at), same),
            None => self.not_compared = self.not_compared.wrapping_add(1),
        }
    }
}

// The longest line has 2,123 tokens: a search that found 1,024.
const MOST_TOKENS: usize = 2560;

fn main(rt: HostRuntime) -> io::Result<()> {
    let mut calls = Calls::new();
    replay::lines::replay_all(&mut rt.stdin(), &mut calls, &mut [0; MOST_TOKENS])?;
    calls.tallies.write(&rt, &NAMES)?;
    let many = calls.not_compared;
    println!(rt; "leavesof with leaves of no node: {many} not compared")
}

// The answers are the published Rust's, or the oracle's where it has no such call.
#[cfg(test)]
mod tests {
    use super::*;
    use replay::lines;

    // Three vectors of 32,769 components.
    const COMPONENTS: usize = 98307;

    fn read<'a>(text: &'a [u8], tokens: &'a mut [u64]) -> Line<'a> {
        lines::read_line(text, tokens).alone()
    }

    #[test]
    fn vectors_are_read_as_far_as_there_is_room(rt: HostRuntime) {
        let mut tokens = [0u64; 98325];
        for (at, token) in [
            (0, 0x8001),
            (1, 1),
            (2, 1),
            (3, 0x3ff0_0000_0000_0000),
            (4, 3),
            (5, 0x3f80_0000),
            (32774, 0x3f19_999a),
            (32775, 0x3f4c_cccd),
            (65544, 0x3f80_0000),
        ] {
            tokens[at] = token;
        }
        for (i, token) in [6, 1, 2, 1, 1, 1, 0, 1, 2, 1, 0, 1, 1].iter().enumerate() {
            tokens[98312 + i] = *token;
        }
        let line = Line {
            name: None,
            tokens: &tokens,
            asked: 98312,
            count: 98325,
        };
        assert!(rt; leaf_histories::leaves_is_same(line, &mut [0.0; COMPONENTS]));
    }

    #[test]
    fn vectors_are_generated_as_far_as_there_is_room(rt: HostRuntime) {
        let text = b"leavesof 8001 1 1 3ff0000000000000 3 1 0 = 6 74761dceb6c45680\n";
        let mut tokens = [0u64; 16];
        let line = read(text, &mut tokens);
        let same = leaf_histories::leavesof_is_same(line, &mut [0.0; COMPONENTS]);
        assert_eq!(rt; same, Some(true));
    }

    // An index of one phone of one component. Queries have two components, and there is room for the first.
    #[test]
    fn queries_are_read_as_far_as_there_is_room(rt: HostRuntime) {
        let mut stores = Stores::default();
        let mut tokens = [0u64; 16];
        let mut room = [0.0; 1];
        let new = b"new 1 2 1 3fe0000000000000 3 4 1 3f99999a a 5 = 0\n";
        let find = b"find 1000 1000 1 a 1 1 2 bf800000 3f800000 = 0 1 1 7 40000000\n";
        let recognise = b"recognise 1000 1000 a 3e800000 2 3f800000 bf800000 = 0 1 7 64\n";
        stores.fill(read(b"fill 1000 1000 0\n", &mut tokens));
        assert!(rt; stores.new_is_same(read(new, &mut tokens)));
        let add = read(b"add 7 1 3f800000 = 0\n", &mut tokens);
        assert!(rt; stores.add_is_same(add, &mut room));
        stores.set_word(read(b"word 0 1\n", &mut tokens));
        let line = read(find, &mut tokens);
        assert!(rt; graph_histories::find_is_same(&stores, line, &mut room));
        let line = read(recognise, &mut tokens);
        assert!(rt; recognise_histories::recognise_is_same(&stores, line, &mut room));
    }
}
