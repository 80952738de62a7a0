//! What all clients of a volume share: the rows of its metadata, the blocks of its files, and what is known of them for good. The
//! definitions lie in `specs/`, the laws on them in `proofs/`. It has no code.
#![tactic(auto)]
