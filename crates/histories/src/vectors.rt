// The vectors that a seed and a style determine (recorded/README.md, "Generated vectors").
ghost use Rattle.std.specs.Prelude.{◌≡◌};
ghost use Rattle.replay.specs.Inside.Reading.{moved};

use random::lcg;
use replay::tokens::{Token, Tokens};

#[derive(Clone, Copy)]
enum Style {
    Plain,
    Ties,
    Repeats,
    Clusters,
}

impl From<Token> for Style {
    // kept (7): a recorded style is a number, and here it becomes one of the enum.
    fn from(token: Token) -> Style {
        match token.0 {
            1 => Style::Ties,
            2 => Style::Repeats,
            3 => Style::Clusters,
            _ => Style::Plain,
        }
    }
}

// The number from -1 up to 1 that a state of the generator stands for.
// kept (4): one of two numbers that a state stands for, so that it is no `From`.
fn number_of(r: u64) -> f32 {
    replay::float_of(r / 0x100_0000_0000) / 8388608.0 - 1.0
}

// The same with many ties: -1, 0 or 1.
fn tie_of(r: u64) -> f32 {
    replay::float_of(r / 0x100_0000_0000 % 3) - 1.0
}

// A vector near a centre.
fn generate_near(vector: &mut [f32], centre: u64, noise: u64) {
    let mut r = centre;
    let mut s = noise;
    for x in vector {
        r = lcg::next_plane(r);
        s = lcg::next_plane(s);
        *x = number_of(r) + 0.05 * number_of(s);
    }
}

// A vector whose states come after r. Answers the last of them.
fn generate_plain<F: Fn(u64) -> f32>(vector: &mut [f32], r: u64, number: F) -> u64
    requires { F.IsAlwaysCallable number }
{
    let mut s = r;
    for x in vector {
        s = lcg::next_plane(s);
        *x = number(s);
    }
    s
}

// The vectors that are still to come: how many were made, and the state that the last one left.
#[derive(Clone, Copy)]
pub struct Vectors {
    seed: u64,
    style: Style,
    made: u64,
    state: u64,
}

impl Vectors {
    // Those of a question's next tokens, SEED STYLE.
    pub fn asked(question: &mut Tokens<'_>) -> Self
        ensures { question.new ≡ moved 2 question.old }
    {
        let seed = question.read();
        Vectors {
            seed,
            style: question.read(),
            made: 0,
            state: seed,
        }
    }

    // Generates the next one.
    pub fn next_into(&mut self, vector: &mut [f32]) {
        match self.style {
            Style::Plain => self.state = generate_plain(vector, self.state, number_of),
            Style::Ties => self.state = generate_plain(vector, self.state, tie_of),
            Style::Repeats => {
                generate_plain(vector, self.seed.wrapping_add(self.made % 7), number_of);
            }
            Style::Clusters => {
                let centre = self.seed.wrapping_add(self.made % 16);
                let noise = self.seed.wrapping_mul(31).wrapping_add(1000);
                generate_near(vector, centre, noise.wrapping_add(self.made));
            }
        }
        self.made = self.made.wrapping_add(1);
    }
}
