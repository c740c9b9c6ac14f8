// Memory of which a part is passed to calls: a store, or scratch.
ghost use Rattle.std.specs.Prelude.{◌≡◌, min, length, take};

use crate::patterns;
use crate::patterns::Patterned;

// The last `fill` made the first `made` elements, and the first `lent` are passed to calls.
#[derive(Drop)]
pub struct Memory<T, const N: usize> {
    pub all: [T; N],
    pub made: usize,
    pub lent: usize,
}

impl<T: Patterned, const N: usize> Memory<T, N> {
    // All of it zero, and nothing passed to calls.
    pub(crate) fn new() -> Self
        ensures { result.lent ≡ 0 }
    {
        Memory {
            all: patterns::zeros(),
            made: 0,
            lent: 0,
        }
    }

    // Becomes what a call must not depend on: patterns, of which n elements are passed to it; 0 where its caller passes `all`.
    pub fn scatter(&mut self, n: usize)
        ensures { self.new.lent ≡ n }
    {
        patterns::scatter_old(&mut self.all);
        self.lend(n);
    }

    // Fills n elements from a seed on, and passes them to calls.
    pub fn fill(&mut self, n: usize, seed: u64)
        ensures { (self.new.made ≡ n) × (self.new.lent ≡ n) }
    {
        self.made = n;
        self.lend(n);
        patterns::scatter(&mut self.all[..n.min(N)], seed);
    }

    // Passes n elements to the calls that follow, or all if there are fewer.
    pub fn lend(&mut self, n: usize)
        ensures { self.new ≡ record self.old { lent = n } }
    {
        self.lent = n;
    }

    pub(crate) fn set(&mut self, i: usize, x: T) {
        if let Some(place) = self.all.get_mut(i) {
            *place = x;
        }
    }

    // kept (2): one call of `front`, here and in `lent`.
    pub(crate) fn made(&self) -> &[T] {
        replay::front(&self.all, self.made)
    }

    pub fn lent(&self) -> &[T]
        ensures { result.now ≡ take self.now.lent self.now.all }
    {
        replay::front(&self.all, self.lent)
    }

    pub fn lent_mut(&mut self) -> &mut [T]
        ensures { length result.now ≡ min self.old.lent N }
    {
        let n = self.lent.min(N);
        let all = &mut self.all;
        &mut all[..n]
    }
}
