// The calls build and search (scope, Records, Refusals, parts 7 and 8), as `build`, `search_with_ef` and
// `search` of src/pipnn/mod.rs. Definitions and laws.
//
// Each is one definition of everything that the call leaves: its number, both stores or both outputs whole,
// the counts, also where it refuses. `new` and `add` have theirs in `pipnn`.
//
// specs/Graph      parts 1 to 7 for an index's parameters and vectors: rows, entry node, bridges
// specs/Build      `build`
// specs/Search     `search_with_ef` and `search`
// proofs/Taken     what a build and a search that are accepted have passed
// proofs/Graph     what that graph promises, and a view that a search can walk (`Walkable`)
// proofs/AllLive   every node of a store is live: a search scores all that its walk sees
// proofs/Laid      words laid over others: what stays before and behind them
// proofs/Views     the view after an accepted build
// proofs/Examples  the worked example, from `new` to the answers
#![tactic(auto)]
