// Replays the recorded runs of the program probe (recorded/README.md, "probe/"), and prints how many there were
// and how many differ.
#![tactic(auto)]

mod probe_runs;

use std::io;

fn main(rt: HostRuntime) -> io::Result<()> {
    // All runs together have some 82,000 bytes.
    let mut text = [0u8; 131072];
    let runs = replay::read_full(&mut rt.stdin(), &mut text)?;
    println!(rt; "probe: {}", probe_runs::replay_runs(runs))
}
