// The leaders of a segment (scope, part 4): how many there are, and which positions are drawn. It is the
// part of the Rust's `partition` that samples leaders.
//
// Counts and draws are equal to `leader_count` and `drawn` of specs/Leaders. The draws' recurrence has
// its own addend, 1; r starts anew for each segment, from its level alone.
ghost use Rattle.std.specs.Prelude.{◌≡◌, ◌^◌, ◌≤◌, min, ◌++◌, length, drop};
ghost use Rattle.random.specs.Leaders.{leader_count, drawn, drawn_into, up_to};

use super::lcg;

// The floor of the rounded product of length and fraction, at least 2, at most the length.
pub fn leader_count(n: u32, fraction: f64) -> u32
    ensures { result ≡ leader_count n fraction }
{
    let floor = std::num::saturating_f64_to_u64((n as f64) * fraction);
    floor.max(2).min(n as u64) as u32
}

// Draws positions of a segment of n, or of as many as `left` has room for: as many as `out` has room
// for, at most all. `left` holds those not drawn yet; what it holds afterwards is free.
pub fn draw_leaders(level: u32, n: u32, left: &mut [u32], out: &mut [u32])
    ensures { out.new ≡ drawn_into level (min n (length left.old)) out.old }
{
    let room = (n as usize).min(left.len());
    draw_segment(level, &mut left[..room], out);
}

// The positions 0, 1 and so on of a segment of n, or of as many as there is room for; what stands behind
// them stays.
pub fn all_positions(n: u32, left: &mut [u32])
    ensures { left.new ≡ up_to (min n (length left.old)) ++ drop (min n (length left.old)) left.old }
{
    let room = (n as usize).min(left.len());
    count_up(&mut left[..room]);
}

// The draws where all of `left` is the segment.
fn draw_segment(level: u32, left: &mut [u32], out: &mut [u32])
    requires { length left.old ≤ 2 ^ 32 }
    ensures { out.new ≡ drawn_into level (length left.old) out.old }
{
    count_up(left);
    let count = out.len().min(left.len());
    draw(left, &mut out[..count], (level as u64) * 2654435761 + 42);
}

// 0, 1, 2 and so on.
fn count_up(left: &mut [u32])
    requires { length left.old ≤ 2 ^ 32 }
    ensures { left.new ≡ up_to (length left.old) }
{
    for (i, position) in left.iter_mut().enumerate() {
        *position = i as u32;
    }
}

// A draw for each place of `out`: it steps r and takes the position that r determines, and the last of those
// left moves into its place (`swap_remove`).
fn draw(left: &mut [u32], out: &mut [u32], start: u64)
    requires { length out.old ≤ length left.old }
    ensures { out.new ≡ drawn (length out.old) start left.old }
{
    let mut r = start;
    for (i, position) in out.iter_mut().enumerate() {
        r = lcg::next_draw(r);
        let rest = left.len() - i;
        let p = ((r / 0x2_0000_0000) % (rest as u64)) as usize;
        let last = left[rest - 1];
        *position = left[p];
        left[p] = last;
    }
}
