//! Closed examples of the definitions of `jv_model`, in `proofs/`: scripts with what they do to the tree and print, and
//! journals that are legal, or must not be. They have no code.
#![tactic(auto)]
