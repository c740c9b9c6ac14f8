// Replays the recorded answers on numbers (recorded/numbers.txt): each case is computed by this project's
// functions and compared with the oracle's answer, bit for bit. Prints for each kind how many cases there
// were and how many differ.
#![tactic(auto)]

mod plane_stream;

use finish::medoid;
use norm::root;
use random::{hyperplanes, lcg, leaders};
use replay::lines::{Line, Replayed};
use replay::tallies::Tallies;
use replay::tokens::Recorded;
use std::io;

#[derive(Clone, Copy)]
enum Kind {
    Dot,
    Distance,
    Root,
    Scale,
    Multiply,
    Plane,
    Leaders,
    Draw,
    Centroid,
}

// The kinds, in the order in which they are reported.
const NAMES: [(&'static str, Kind); 9] = [
    ("dot", Kind::Dot),
    ("distance", Kind::Distance),
    ("root", Kind::Root),
    ("scale", Kind::Scale),
    ("multiply", Kind::Multiply),
    ("plane", Kind::Plane),
    ("leaders", Kind::Leaders),
    ("draw", Kind::Draw),
    ("centroid", Kind::Centroid),
];

// multiply a b = r, the product that the generator's step takes
// kept (2): each reads what its own call takes, here and in `leaders_is_same`, `dot_is_same` and `draw_is_same`.
fn multiply_is_same(line: Line<'_>) -> bool {
    let mut question = line.question();
    let a: u64 = question.read();
    let b = question.read();
    line.answer().is(lcg::wrapping_mul(a, b))
}

// root x = r
fn root_is_same(line: Line<'_>) -> bool {
    line.answer().is(root::sqrt(line.question().read()))
}

// leaders n fraction = count
fn leaders_is_same(line: Line<'_>) -> bool {
    let mut question = line.question();
    let n = question.read();
    let fraction = question.read();
    line.answer().is(leaders::leader_count(n, fraction))
}

// What has been counted, and room for a line's lists.
#[derive(Drop)]
struct Numbers {
    tallies: Tallies<9>,
    a: [f32; 8192],
    b: [f32; 8192],
    left: [u32; 2048],
    drawn: [u32; 2048],
}

impl Numbers {
    fn new() -> Self {
        Numbers {
            tallies: Tallies::default(),
            a: [0.0; 8192],
            b: [0.0; 8192],
            left: [0; 2048],
            drawn: [0; 2048],
        }
    }

    // dot NA a.. NB b.. = r
    fn dot_is_same(&mut self, line: Line<'_>) -> bool {
        let mut question = line.question();
        let a = question.read_counted(&mut self.a);
        let b = question.read_counted(&mut self.b);
        line.answer().is(simd::dot(a, b))
    }

    // distance NA a.. NB b.. = r, alone and as each of eight rows
    fn distance_is_same(&mut self, line: Line<'_>) -> bool {
        let mut question = line.question();
        let q = question.read_counted(&mut self.a);
        let r: &[f32] = question.read_counted(&mut self.b);
        let want = line.answer().token();
        let one = distance::cosine_distance_normalized(q, r);
        let eight = distance::cosine_distance_normalized8(q, [r; 8]);
        one.is_recorded(want) && eight.iter().all(|d| d.is_recorded(want))
    }

    // scale N v.. = length scaled..
    fn scale_is_same(&mut self, line: Line<'_>) -> bool {
        let v = line.question().read_counted(&mut self.a);
        let length = norm::norm(v);
        norm::normalize(v);
        let mut answer = line.answer();
        answer.is(length) && answer.are(v)
    }

    // plane k = bits
    fn plane_is_same(&mut self, line: Line<'_>) -> bool {
        hyperplanes::planes_into(&mut self.a);
        let k: usize = line.question().read();
        let Some(plane) = self.a.get(k) else {
            return false;
        };
        line.answer().is(*plane)
    }

    // draw level n fraction = position..
    fn draw_is_same(&mut self, line: Line<'_>) -> bool {
        let mut question = line.question();
        let level = question.read();
        let n = question.read();
        let count = leaders::leader_count(n, question.read()) as usize;
        let Some(drawn) = self.drawn.get_mut(..count) else {
            return false;
        };
        leaders::draw_leaders(level, n, &mut self.left, drawn);
        line.answer().are(drawn)
    }

    // centroid N DIM v.. = c..
    fn centroid_is_same(&mut self, line: Line<'_>) -> bool {
        let mut question = line.question();
        let n: u32 = question.read();
        let dimension: usize = question.read();
        let vectors = question.read_into(8192, &mut self.a);
        let Some(sums) = self.b.get_mut(..dimension) else {
            return false;
        };
        medoid::centroid(vectors, (n % 65536) as u16, sums);
        line.answer().are(sums)
    }

    // Whether a case is as recorded.
    fn is_same(&mut self, kind: Kind, line: Line<'_>) -> bool {
        match kind {
            Kind::Dot => self.dot_is_same(line),
            Kind::Distance => self.distance_is_same(line),
            Kind::Root => root_is_same(line),
            Kind::Scale => self.scale_is_same(line),
            Kind::Multiply => multiply_is_same(line),
            Kind::Plane => self.plane_is_same(line),
            Kind::Leaders => leaders_is_same(line),
            Kind::Draw => self.draw_is_same(line),
            Kind::Centroid => self.centroid_is_same(line),
        }
    }
}

impl Replayed for Numbers {
    fn replay(&mut self, line: Line<'_>) {
        let kind = line.kind(&NAMES);
        let same = kind.is_some_and(|(_, kind)| self.is_same(kind, line));
        self.tallies.count(kind.map(|(at, _)| at), same);
    }
}

fn main(rt: HostRuntime) -> io::Result<()> {
    let mut numbers = Numbers::new();
    replay::lines::replay_all(&mut rt.stdin(), &mut numbers, &mut [0; 8192])?;
    numbers.tallies.write(&rt, &NAMES)?;
    println!(rt; "stream: {}", plane_stream::tally())
}
