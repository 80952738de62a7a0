//! What each request of a client's step is to the model and to what clients share, at once: from what a call on the devices promises to
//! the entries that it makes, the tree that it leads to, and what it leaves alone. The definitions lie in `specs/`, the laws on them in
//! `proofs/`. It has no code.
#![tactic(auto)]
