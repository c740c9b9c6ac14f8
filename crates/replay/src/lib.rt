// Reading recorded answers (recorded/README.md) and replaying them: a line is a kind, the question's tokens, `=`,
// and the answer's tokens, each a hexadecimal number.
//
// lines    a line that was read, and the loop over an input's lines
// tokens   what a token stands for, and a reader of tokens
// tallies  how many cases of each kind there were, and how many differ
//
// Everything here is proved safe on every text, and contracts say what is read and counted; what a replay prints is
// compared with what it should print. A token that is missing counts as 0.
#![tactic(auto)]

pub mod lines;
pub mod tallies;
pub mod tokens;

ghost use Rattle.std.specs.Prelude.{◌≡◌, ◌≤◌, length, take, IfOk, IfSome};
ghost use Rattle.basics.specs.Lists.{every};
ghost use Rattle.replay.specs.Inside.Text.{IsFront, WithoutEnd, IsDecimal, is_digit};

use std::io;
use std::io::Read;
use std::str::FromStr;

// Reads until `text` is full or the input ends, and answers what was read.
pub fn read_full<'a, R: Read>(input: &mut R, text: &'a mut [u8]) -> io::Result<&'a [u8]>
    ensures { IfOk result (λ read. length read.now ≤ length text.old) }
{
    let mut done: usize = 0;
    // kept (3): each step is as long as what a read answers, and std has no method that stops at the input's end.
    while done < text.len() {
        let more = input.read(&mut text[done..])?;
        if more == 0 {
            break;
        }
        done += more;
    }
    Ok(&text[..done])
}

// Two parts of a text: up to and with the last place of this byte, and what follows.
fn split_after_last(text: &[u8], byte: u8) -> (&[u8], &[u8])
    ensures { IsFront result.0.now text.now }
{
    let last = text.iter().rposition(|b| *b == byte);
    text.split_at(last.map_or(0, |last| last + 1))
}

// The part of a text that is whole lines, which its last line feed ends.
pub fn whole_lines(text: &[u8]) -> &[u8]
    ensures { IsFront result.now text.now }
{
    split_after_last(text, b'\n').0
}

// A line without its line feed.
pub fn without_end(line: &[u8]) -> &[u8]
    ensures { WithoutEnd line.now result.now }
{
    line.strip_suffix(b"\n").unwrap_or(line)
}

// Whether each byte is a digit.
fn is_digits(text: &[u8]) -> bool
    ensures { result ≡ every is_digit text.now }
{
    text.iter().fold(true, |ok, b| ok & b.is_ascii_digit())
}

// The decimal number that a text is, if it is digits alone, and the number fits.
pub fn decimal<N: FromStr>(text: &[u8]) -> Option<N>
where
    N::Err: Drop,
    ensures { IfSome result (λ number. IsDecimal N.from_str_gives text.now number) }
{
    if !is_digits(text) {
        return None;
    }
    str::from_utf8(text).ok()?.parse().ok()
}

// The first n, or all if there are fewer.
// kept (6): it is `get` with an answer for a number that is too large.
pub fn front<T>(xs: &[T], n: usize) -> &[T]
    ensures { result.now ≡ take n xs.now }
{
    xs.get(..n).unwrap_or(xs)
}

// A whole number up to 2^24 as a float, which holds each of them; a larger one counts as 2^24.
// kept (4): not every number has a float, so std has no `From` here either.
pub fn float_of(x: u64) -> f32 {
    x.min(16777216) as f32
}
