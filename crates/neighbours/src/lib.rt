// What one step of a search's walk finds (scope, part 8).
//
// gathering  the fresh nodes of a list: marked, and put in order
// scoring    their distances to the query, eight at a time
#![tactic(auto)]

pub mod gathering;
pub mod scoring;
