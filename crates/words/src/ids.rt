// The two kinds of number that share a range and mean different things (scope, Records). A node leads to
// its doc id through the doc id words of the word store, and in no other way.

// A node: 0 up, in the order of adding.
#[derive(Clone, Copy, PartialEq, Eq, PartialOrd, Ord, Debug)]
pub struct Node(pub u32);

// A doc id: the caller's number for a phone. Doc ids may repeat.
#[derive(Clone, Copy, PartialEq, Eq, PartialOrd, Ord, Debug)]
pub struct DocId(pub u32);
