// The program probe (scope, Checked values): reads key=value lines from standard input, makes the calls
// that they ask for on one index of capacity up to 64, and writes what each returns.
//
// Each line is answered as soon as it is read. The last may lack its line feed. A line of more than 65,535
// bytes ends the reading, as a line that cannot be read does.
//
// Everything here is proved safe on every input, and nothing more; `probe_lines` has what a line means.
#![tactic(auto)]

use probe_lines::Index;
use std::io;
use std::io::Read;

// Takes lines, of which the last may lack its line feed. Answers whether the reading goes on.
fn tell_lines(rt: &impl Print, text: &[u8], index: &mut Index) -> io::Result<bool> {
    for line in text.split_inclusive(|b| *b == b'\n') {
        let Some(answer) = index.step(replay::without_end(line)) else {
            return Ok(false);
        };
        rt.print(answer)?;
    }
    Ok(true)
}

// Takes all lines. The turns are more than any input has bytes.
// kept (2): `replay::lines::replay_all` reads until its room is full, and here each line is answered as soon as it is read.
// kept (6): the part of a line at the text's end stays in front of what is read next.
fn tell_all<R: Read>(rt: &impl Print, input: &mut R) -> io::Result<()> {
    let mut index = Index::default();
    let mut text = [0u8; 65536];
    let mut kept = 0;
    'turns: for _ in 0..u64::MAX {
        if kept == text.len() {
            return Ok(());
        }
        let end = kept + input.read(&mut text[kept..])?;
        if end == kept {
            tell_lines(rt, &text[..end], &mut index)?;
            return Ok(());
        }
        let whole = replay::whole_lines(&text[..end]);
        if !tell_lines(rt, whole, &mut index)? {
            return Ok(());
        }
        let at = whole.len();
        text.copy_within(at..end, 0);
        kept = end - at;
    }
    Ok(())
}

fn main(rt: HostRuntime) -> io::Result<()> {
    tell_all(&rt, &mut rt.stdin())
}
