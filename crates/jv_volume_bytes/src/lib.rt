//! What bytes a volume's files have: the places that lists show, the bytes that blocks have there, how often slices are named,
//! and slices that aren't committed yet. The definitions lie in `specs/`, the laws on them in `proofs/`. It has no code.
#![tactic(auto)]
