// What `fill` puts into the stores, and what scratch and outputs hold before a call: patterns that are not zero,
// so that what a call finds in them is not, and what it must leave alone shows.
ghost use Rattle.std.specs.Prelude.{◌≡◌, ◌≤◌, true, length};
ghost use Rattle.replay.specs.Inside.Reading.{next_of, moved};

use crate::memory::Memory;
use replay::tokens::{Recorded, Token, Tokens};

// What is made from a pattern.
pub trait Patterned: Recorded + From<Token> {
    fn token_of(pattern: u64) -> Token;
}

impl Patterned for u32 {
    fn token_of(pattern: u64) -> Token {
        Token(pattern)
    }
}

// A float below 2.
impl Patterned for f32 {
    fn token_of(pattern: u64) -> Token {
        Token(pattern % 0x4000_0000)
    }
}

// Element i of those from a seed on.
fn element<T: Patterned>(seed: u64, i: usize) -> Token {
    let on = (i as u64).wrapping_mul(2654435761);
    T::token_of(seed.wrapping_add(on))
}

pub fn scatter<T: Patterned>(xs: &mut [T], seed: u64) {
    for (i, x) in xs.iter_mut().enumerate() {
        *x = T::from(element::<T>(seed, i));
    }
}

// Where the patterns of scratch and outputs start.
const OLD: u64 = 0x9e37_79b9;

pub(crate) fn scatter_old<T: Patterned>(xs: &mut [T]) {
    scatter(xs, OLD);
}

pub fn scattered<T: Patterned, const N: usize>() -> [T; N] {
    let mut xs = zeros();
    scatter_old(&mut xs);
    xs
}

pub(crate) fn zeros<T: Patterned, const N: usize>() -> [T; N] {
    [T::from(Token(0)); N]
}

// Whether all past the first `count` are as `scattered` made them.
pub fn are_kept<T: Patterned>(xs: &[T], count: usize) -> bool
    ensures { length xs.now ≤ count → result ≡ true }
{
    xs.iter()
        .enumerate()
        .skip(count)
        .all(|(i, x)| x.is_recorded(element::<T>(OLD, i)))
}

// The largest index needs 64·1,024 words and 16·1,024 + 256 floats.
const MOST_WORDS: usize = 65536;

const MOST_FLOATS: usize = 16640;

// Scratch of a call.
#[derive(Drop)]
pub struct Scratch {
    pub words: Memory<u32, MOST_WORDS>,
    pub floats: Memory<f32, MOST_FLOATS>,
}

impl Scratch {
    // Patterns again, of which as much as a question's next tokens, SW SF, say.
    // kept (2): it shares with `Stores::lend` the reading of two tokens, and here both are filled anew.
    pub fn asked(&mut self, question: &mut Tokens<'_>)
        ensures lent { (self.new.words.lent ≡ next_of question.old) × (self.new.floats.lent ≡ next_of (moved 1 question.old)) }
        ensures moved { question.new ≡ moved 2 question.old }
    {
        self.words.scatter(question.read());
        self.floats.scatter(question.read());
    }
}

// The most floats of a line's vectors: the leaves of 1,024 of 64 components are asked for.
const MOST_COMPONENTS: usize = 65536;

// What a line needs besides the stores: room for its vectors, and scratch of its call. It is made once, since arrays of this
// size would be made and copied at each line.
#[derive(Drop)]
pub struct Room {
    pub components: [f32; MOST_COMPONENTS],
    pub scratch: Scratch,
}

impl Room {
    pub fn new() -> Self
        ensures { (result.scratch.words.lent ≡ 0) × (result.scratch.floats.lent ≡ 0) }
    {
        Room {
            components: zeros(),
            scratch: Scratch {
                words: Memory::new(),
                floats: Memory::new(),
            },
        }
    }
}
