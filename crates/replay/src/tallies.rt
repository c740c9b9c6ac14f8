// How many cases there were, and how many differ.
ghost use Rattle.std.specs.Prelude.{◌≡◌, ◌+◌, ◌%◌, ◌^◌};
ghost use Rattle.basics.specs.Choice.{pick};

use std::{fmt, io};

// Of one kind.
#[derive(Clone, Copy, Default)]
pub struct Tally {
    pub cases: u64,
    pub differ: u64,
}

impl Tally {
    pub fn count(&mut self, same: bool)
        ensures { (self.new.cases ≡ (self.old.cases + 1) % 2 ^ 64) × (self.new.differ ≡ (self.old.differ + pick same 0 1) % 2 ^ 64) }
    {
        self.cases = self.cases.wrapping_add(1);
        self.differ = self.differ.wrapping_add(u64::from(!same));
    }
}

impl fmt::Display for Tally {
    fn fmt<W: fmt::Write>(&self, f: &mut fmt::Formatter<W>) -> fmt::Result {
        let cases = self.cases;
        let differ = self.differ;
        write!(f, "{cases} cases, {differ} differ")
    }
}

// Of each of N kinds, in the order in which they are reported, and of lines of no kind.
#[derive(Drop)]
pub struct Tallies<const N: usize> {
    of_kind: [Tally; N],
    of_none: Tally,
}

impl<const N: usize> Default for Tallies<N> {
    fn default() -> Self {
        Tallies {
            of_kind: [Tally::default(); N],
            of_none: Tally::default(),
        }
    }
}

impl<const N: usize> Tallies<N> {
    // Counts a case of the kind with this number, or a line of no kind.
    // kept (7): `same` is what is counted, and no step depends on it.
    pub fn count(&mut self, kind: Option<usize>, same: bool) {
        match kind {
            Some(kind) => {
                if let Some(tally) = self.of_kind.get_mut(kind) {
                    tally.count(same);
                }
            }
            None => self.of_none.count(same),
        }
    }

    // Writes a line for each kind, and one for lines of no kind.
    // kept (4): the names are the program's; a `Display` would need a type that holds both.
    pub fn write<K>(&self, rt: &impl Print, names: &[(&str, K)]) -> io::Result<()> {
        for ((name, _), tally) in names.iter().zip(&self.of_kind) {
            println!(rt; "{name}: {tally}")?;
        }
        println!(rt; "of no kind: {}", self.of_none)
    }
}
