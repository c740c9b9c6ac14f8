// A line that was read, and the loop over an input's lines.
ghost use Rattle.std.specs.Prelude.{◌≡◌, ◌≤◌, length, take};
ghost use Rattle.replay.specs.Inside.Reading.{IsAt};

use crate::tokens;
use crate::tokens::Tokens;
use std::io;
use std::io::Read;

// The name of its kind, if a blank ends it. The first `count` tokens are the line's own, and of these the first `asked`
// are the question; the rest are left from earlier lines.
// kept (6): no plainer: a program reads past a line that is too short, so that the rest has to be passed too.
#[derive(Clone, Copy)]
pub struct Line<'a> {
    pub name: Option<&'a [u8]>,
    pub tokens: &'a [u64],
    pub asked: usize,
    pub count: usize,
}

impl<'a> Line<'a> {
    // The kind that its name has in a table of names, and the place of the name there.
    pub fn kind<K: Copy>(&self, names: &[(&str, K)]) -> Option<(usize, K)> {
        let name = self.name?;
        let at = names
            .iter()
            .position(|(other, _)| other.as_bytes() == name)?;
        Some((at, names[at].1))
    }

    // The same line with its own tokens alone.
    pub fn alone(&self) -> Line<'a>
        ensures { result.tokens.now ≡ take self.now.count self.now.tokens.now }
    {
        Line {
            tokens: crate::front(self.tokens, self.count),
            ..*self
        }
    }

    // Its tokens from this place on.
    pub fn tokens_at(&self, at: usize) -> Tokens<'a>
        ensures { IsAt at self.now result }
    {
        Tokens {
            all: self.tokens,
            at,
        }
    }

    // The question's tokens.
    pub fn question(&self) -> Tokens<'a>
        ensures { IsAt 0 self.now result }
    {
        self.tokens_at(0)
    }

    // The answer's tokens.
    pub fn answer(&self) -> Tokens<'a>
        ensures { IsAt self.now.asked self.now result }
    {
        self.tokens_at(self.asked)
    }
}

// Reads a line, with the byte that ends it. Its tokens go to `tokens`, as far as there is room.
pub fn read_line<'a>(line: &'a [u8], tokens: &'a mut [u64]) -> Line<'a>
    ensures { (result.asked ≤ result.count) × (result.count ≤ length result.tokens.now) }
{
    let (name, text) = match line.iter().position(|b| *b == b' ') {
        Some(blank) => (Some(&line[..blank]), &line[blank + 1..]),
        None => (None, &line[..0]),
    };
    let (question, answer) = crate::split_after_last(text, b'=');
    let asked = tokens::put_tokens(question, tokens);
    let count = asked + tokens::put_tokens(answer, &mut tokens[asked..]);
    Line {
        name,
        tokens,
        asked,
        count,
    }
}

// A program that replays lines, one after the other.
pub trait Replayed {
    fn replay(&mut self, line: Line<'_>);
}

// Replays the lines whose end stands in the text. Answers where the first of the others starts.
fn replay_lines<P: Replayed>(program: &mut P, text: &[u8], tokens: &mut [u64]) -> usize
    ensures { result ≤ length text.now }
{
    let whole = crate::whole_lines(text);
    for line in whole.split_inclusive(|b| *b == b'\n') {
        program.replay(read_line(line, tokens));
    }
    whole.len()
}

// How often an input is read from at most.
const MOST_PIECES: u32 = 1000;

// Reads an input piece by piece, up to its end, and replays its lines. A line has at most as many tokens as
// `tokens` has room for.
// kept (6): the part of a line at the text's end stays in front of what is read next.
pub fn replay_all<R: Read, P: Replayed>(
    input: &mut R,
    program: &mut P,
    tokens: &mut [u64],
) -> io::Result<()> {
    let mut text = [0u8; 65536];
    let mut kept = 0;
    'pieces: for _ in 0..MOST_PIECES {
        let end = kept + crate::read_full(input, &mut text[kept..])?.len();
        if end == 0 {
            return Ok(());
        }
        let at = replay_lines(program, &text[..end], tokens);
        text.copy_within(at..end, 0);
        kept = end - at;
    }
    Ok(())
}
