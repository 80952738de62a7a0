//! What each kind of step of a client's operation is to the model: the entries that it makes, that they may be made, and the state
//! that they lead to. The definitions lie in `specs/`, the laws on them in `proofs/`. It has no code.
#![tactic(auto)]
