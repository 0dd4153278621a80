//! Worked examples of the definitions of coalescing, splits, offers and the steps of the greedy
//! allocator, each proved down to the lanes that are live: they stand in `proofs/`.
