//! What holds of plans, of the blocks that they need, and of names. Each law is a function that does nothing.
ghost use Rattle.jv_slices.specs.Laws.{PlansAreDetermined, NeedsAreOnce, NeedsAreThose, NeedsAreFew, NeedsHaveEachByte, IndexesAreLow, NamesAreDistinct};

/// A list has one plan of a range.
pub fn plans_are_determined()
    ensures { PlansAreDetermined }
{}

/// No block is listed twice among those that pieces need.
pub fn needs_are_once()
    ensures { NeedsAreOnce }
{}

/// Those blocks are listed in which some piece has bytes.
pub fn needs_are_those()
    ensures { NeedsAreThose }
{}

/// A plan needs at most as many blocks as it has positions.
pub fn needs_are_few()
    ensures { NeedsAreFew }
{}

/// The block of each byte that a piece shows is needed.
pub fn needs_have_each_byte()
    ensures { NeedsHaveEachByte }
{}

/// Where no slice is longer than a window, the indexes of the needed blocks are below [`jv_model::MAX_BLOCKS`].
pub fn indexes_are_low()
    ensures { IndexesAreLow }
{}

/// Two blocks of a volume have two names.
pub fn names_are_distinct()
    ensures { NamesAreDistinct }
{}
