// The graph before repair (scope, parts 4 to 6), as steps 1 to 5 of `build` of src/pipnn/mod.rs make it.
// Definitions and laws; no code.
//
// Carving puts the nodes of an index into small overlapping leaves (`partition`). A segment is dealt to leaders
// drawn from it, small buckets are gathered, and each bucket is carved one level down, until a segment fits a
// leaf or 20 levels are passed. The first level deals each node to two leaders, so that leaves overlap.
//
// In a leaf each node gets its nearest, spread over directions (`build_leaf`, `hashprune_insert`,
// `simhash_residual`). Each position of a leaf offers its node the nearest of the other positions. They compete
// for hash cells, so that nodes in one direction do not fill the row, and the nearest winners join what the row
// has from earlier leaves.
//
// Then each entry of a row gets the row's node back where it lacks it and has room (`add_reverse_edges`). The
// final prune (`final_prune`) thins out rows of more than max_degree entries, of which there are none by then.
// The entry node is the node nearest to the centroid (`compute_medoid`).
//
// specs/Partition           fanout, dealing, gathering, carve_segment and carve_buckets with their equations
// specs/Inside/Occurrences  what the laws of carving count
// specs/Simhash             the hash of a residual, a bit for each hyperplane
// specs/Leaf                hash cells, one node's row, a leaf, all leaves
// specs/Refine              reverse edges and the final prune, over rows as a list of lists
// specs/Centroid            the centroid of the vectors
// specs/Medoid              the node nearest to it, the entry node
// specs/Rows                Settings, `rows_of` and `entry_of`: parts 1 to 6 as one definition of the lists and the entry node
// proofs/partition/Laws     over all leaves each node occurs once if n <= max_leaf_size, else exactly twice; no
//                           other number occurs; how many entries there are
// proofs/leaf/Planes        a plane is a part of the first numbers of the stream
// proofs/leaf/Cells         cells are in strictly rising order and are no more than the candidates
// proofs/leaf/Laws          n rows stay n rows, at most max_degree entries each, all of them nodes of the leaves
// proofs/refine/Laws        both keep the rows within their bounds; the final prune leaves such rows as they are
// proofs/graph_rows/Laws    what demand 3 needs: n rows, entries below n, at most max_degree a row, an
//                           entry node below n; the final prune changes nothing
// proofs/*/Examples         leaves and graphs that compute: the worked example, and others whose outcome is the Rust's
//
// It uses `random` for the streams, and `sorting` and `distance` for the nearest.
#![tactic(auto)]
