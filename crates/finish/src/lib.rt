// The last steps of a build before repair (scope, part 6).
//
// medoid         the centroid and the entry node, as `compute_medoid` of src/pipnn/mod.rs
// reverse_edges  reverse edges over rows in words, as `add_reverse_edges`
#![tactic(auto)]

pub mod medoid;
pub mod reverse_edges;
