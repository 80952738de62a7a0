//! What holds of yards. Each law is a function that does nothing.
ghost use Rattle.jv_yard.specs.Laws.{LaterIsReflexive, LaterIsTransitive, PutsGrow};

/// A yard is later than itself.
pub fn later_is_reflexive()
    ensures { LaterIsReflexive }
{}

/// A yard that is later than one that is later than a third is later than that.
pub fn later_is_transitive()
    ensures { LaterIsTransitive }
{}

/// Once a block's bytes are put under its name, the depot has that block, and all blocks that it had before.
pub fn puts_grow()
    ensures { PutsGrow }
{}
