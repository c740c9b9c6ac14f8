// Single elements of slices, read and written where there may be none, and a slice copied. The Rust uses `get`, `get_mut` and
// `extend_from_slice`.
//
// Each function is total, and `put` and `copy` state the whole slice that they leave.
ghost use Rattle.std.specs.Prelude.{◌≡◌, ◌++◌, length, get_or, set, take, drop};

// A word; one that is missing counts as 0.
pub fn word_at(words: &[u32], i: usize) -> u32
    ensures { result ≡ get_or words.now i 0 }
{
    words.get(i).copied().unwrap_or(0)
}

// Writes an element; an index past the end is ignored.
// kept (3): with `get_mut` the proof loses what the slice holds.
pub fn put<T: Copy>(items: &mut [T], at: usize, item: T)
    ensures { items.new ≡ set items.old at item }
{
    if at < items.len() {
        items[at] = item;
    }
}

// Copies `from` to `to`, as far as the shorter one goes. std's `copy_from_slice` calls C's memmove, which the archive for C
// does without.
pub fn copy<T: Copy>(to: &mut [T], from: &[T])
    ensures both { to.new ≡ take (length to.old) from.now ++ drop (length from.now) to.old }
    ensures after { length to.old ≡ length from.now → to.new ≡ from.now }
{
    for i in 0..to.len().min(from.len()) {
        to[i] = from[i];
    }
}
