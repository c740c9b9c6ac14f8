// Recorded runs of the program probe (recorded/README.md, "probe/"): the oracle's output on an input, compared
// with what `probe_lines` answers to its lines.
//
// `replay_runs` takes one text of all runs, each a heading, the bytes of its input and those of its output,
// and counts them. Every run starts on stores that are zero. Everything here is proved safe on every text,
// and nothing more.
ghost use Rattle.std.specs.Prelude.{◌<◌, length, IfSome};

use probe_lines::Index;
use replay::lines;
use replay::tallies::Tally;
use std::fmt;
use std::fmt::Write;

// What is left of an output: what is printed must come next in it.
#[derive(Drop)]
struct Expected<'a> {
    left: &'a [u8],
}

impl<'a> fmt::Write for Expected<'a> {
    fn write_str(&mut self, printed: &str) -> fmt::Result {
        let Some(left) = self.left.strip_prefix(printed.as_bytes()) else {
            return Err(fmt::Error);
        };
        self.left = left;
        Ok(())
    }
}

// A recorded run.
#[derive(Clone, Copy)]
struct Run<'a> {
    input: &'a [u8],
    output: &'a [u8],
}

impl<'a> Run<'a> {
    // Whether the probe on its input prints just its output. The last line may lack its line feed.
    fn holds(&self) -> bool {
        let mut index = Index::default();
        let mut expected = Expected { left: self.output };
        for line in self.input.split_inclusive(|b| *b == b'\n') {
            let Some(answer) = index.step(replay::without_end(line)) else {
                break;
            };
            if write!(expected, "{answer}").is_err() {
                return false;
            }
        }
        expected.left.is_empty()
    }
}

// The first run of a text, if it is whole, and what comes after it. Its heading has the sizes of input and output.
fn read_run<'a>(text: &'a [u8], tokens: &mut [u64]) -> Option<(Run<'a>, &'a [u8])>
    requires { 0 < length text.now }
    ensures { IfSome result (λ run. length run.1.now < length text.now) }
{
    let end = text.iter().position(|b| *b == b'\n');
    let (heading, rest) = text.split_at(end.map_or(text.len(), |end| end + 1));
    let mut sizes = lines::read_line(heading, tokens).question();
    let inputs: usize = sizes.read();
    let outputs: usize = sizes.read();
    if rest.len() < inputs {
        return None;
    }
    let (input, behind) = rest.split_at(inputs);
    if behind.len() < outputs {
        return None;
    }
    let (output, next) = behind.split_at(outputs);
    Some((Run { input, output }, next))
}

// Replays all runs of a text. One that is not whole counts as one that differs, and is the last.
pub fn replay_runs(text: &[u8]) -> Tally {
    let mut tokens = [0u64; 2];
    let mut tally = Tally::default();
    let mut rest = text;
    // kept (3): how long a run is stands in its heading, so that no method of std splits them.
    while !rest.is_empty() {
        let Some((run, next)) = read_run(rest, &mut tokens) else {
            tally.count(false);
            break;
        };
        tally.count(run.holds());
        rest = next;
    }
    tally
}
