// The tokens of a line, and what each stands for.
ghost use Rattle.std.specs.Prelude.{◌≡◌, true, ◌<◌, ◌≤◌, eqb, min, length, get_or, drop, IfSome};
ghost use Rattle.replay.specs.Inside.Reading.{next_of, Stands, moved};

use error::Refusal;
use std::num::{f32_from_bits_with_nan, f32_to_bits_with_nan, f64_from_bits_with_nan};

// A number as it is recorded.
#[derive(Clone, Copy)]
pub struct Token(pub u64);

impl From<Token> for u64 {
    fn from(token: Token) -> u64 {
        token.0
    }
}

impl From<Token> for usize {
    ghost from_gives = { λ token n. n ≡ token.0 };

    fn from(token: Token) -> usize {
        token.0 as usize
    }
}

impl From<Token> for u32 {
    fn from(token: Token) -> u32 {
        (token.0 % 0x1_0000_0000) as u32
    }
}

impl From<Token> for f32 {
    fn from(token: Token) -> f32 {
        f32_from_bits_with_nan(u32::from(token))
    }
}

impl From<Token> for f64 {
    fn from(token: Token) -> f64 {
        f64_from_bits_with_nan(token.0)
    }
}

// What is compared with an answer's token; a float is compared bit for bit.
pub trait Recorded: Copy {
    fn is_recorded(self, token: Token) -> bool;
}

impl Recorded for u64 {
    fn is_recorded(self, token: Token) -> bool {
        self == token.0
    }
}

impl Recorded for u32 {
    fn is_recorded(self, token: Token) -> bool {
        self == u32::from(token)
    }
}

impl Recorded for f32 {
    fn is_recorded(self, token: Token) -> bool {
        f32_to_bits_with_nan(self) == u32::from(token)
    }
}

impl Recorded for Refusal {
    fn is_recorded(self, token: Token) -> bool {
        self.number().is_recorded(token)
    }
}

// What a call gives that gives a refusal or nothing: 0 if it was not refused.
impl Recorded for Result<(), Refusal> {
    fn is_recorded(self, token: Token) -> bool {
        error::number_or_zero(self).is_recorded(token)
    }
}

// A reader of tokens, one after the other.
#[derive(Clone, Copy)]
pub struct Tokens<'a> {
    pub all: &'a [u64],
    pub at: usize,
}

impl<'a> Tokens<'a> {
    // The next token.
    pub fn token(&mut self) -> Token
        ensures { (result.0 ≡ next_of self.old) × (self.new ≡ moved 1 self.old) }
    {
        let token = self.all.get(self.at).copied().unwrap_or(0);
        self.skip(1);
        Token(token)
    }

    // The next token, as what it stands for.
    pub fn read<T: From<Token>>(&mut self) -> T
        ensures value { Stands T.from_gives self.old result }
        ensures moved { self.new ≡ moved 1 self.old }
    {
        T::from(self.token())
    }

    // The next n tokens, as far as `out` has room for them, at its front.
    // kept (6): n is how many tokens are read, and those without room are skipped.
    pub fn read_into<'b, T: From<Token> + Copy>(
        &mut self,
        n: usize,
        out: &'b mut [T],
    ) -> &'b mut [T]
        ensures { length result.now ≡ min n (length out.old) }
    {
        let count = n.min(out.len());
        let front = &mut out[..count];
        for x in front.iter_mut() {
            *x = self.read();
        }
        self.skip(n - count);
        front
    }

    // The same, as many as the next token says.
    pub fn read_counted<'b, T: From<Token> + Copy>(&mut self, out: &'b mut [T]) -> &'b mut [T]
        ensures { length result.now ≡ min (next_of self.old) (length out.old) }
    {
        let n = self.read();
        self.read_into(n, out)
    }

    // The next n tokens are not read.
    pub fn skip(&mut self, n: usize)
        ensures { self.new ≡ moved n self.old }
    {
        self.at = self.at.saturating_add(n);
    }

    // Whether the next token is this one.
    pub fn is<T: Recorded>(&mut self, x: T) -> bool
        ensures { self.new ≡ moved 1 self.old }
    {
        x.is_recorded(self.token())
    }

    // Whether the next tokens are these.
    pub fn are<T: Recorded>(&mut self, xs: &[T]) -> bool
        ensures { result ≡ true → self.new ≡ moved (length xs.now) self.old }
    {
        for x in xs {
            if !self.is(*x) {
                return false;
            }
        }
        true
    }

    // The tokens that are not read yet.
    pub fn rest(&self) -> &'a [u64]
        ensures { result.now ≡ drop self.now.at self.now.all.now }
    {
        self.all.get(self.at..).unwrap_or(&[])
    }

    // Whether just the last token was read.
    pub fn is_at_end(&self) -> bool
        ensures { result ≡ eqb self.now.at (length self.now.all.now) }
    {
        self.at == self.all.len()
    }
}

// The value of a hexadecimal digit in lower case.
pub fn digit(b: u8) -> Option<u64>
    ensures { IfSome result (λ d. d < 16) }
{
    match b {
        b'0'..=b'9' => Some((b - b'0') as u64),
        b'a'..=b'f' => Some((b - b'a' + 10) as u64),
        _ => None,
    }
}

// The number of some digits, modulo 2^64.
fn number(digits: &[u8]) -> u64 {
    digits
        .iter()
        .filter_map(|b| digit(*b))
        .fold(0, |n, d| n << 4 | d)
}

// Puts the tokens of a text at the front of `tokens`, as far as there is room, and answers how many. A token is
// some digits and the byte that ends them.
// kept (3): only what passes the test takes a place, so `enumerate` does not give it.
pub(crate) fn put_tokens(text: &[u8], tokens: &mut [u64]) -> usize
    ensures { result ≤ length tokens.new }
{
    let mut count = 0;
    for piece in text.split_inclusive(|b| digit(*b).is_none()) {
        let Some((end, digits)) = piece.split_last() else {
            continue;
        };
        if digit(*end).is_none() && !digits.is_empty() && count < tokens.len() {
            tokens[count] = number(digits);
            count += 1;
        }
    }
    count
}
