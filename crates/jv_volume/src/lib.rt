//! What a volume's rows stand for: rows by their types, the tree that they have, and what makes a volume whole. The
//! definitions lie in `specs/`, the laws on them in `proofs/`. It has no code.
#![tactic(auto)]
