//! What a reader of a part may rely on. Each law is a function that does nothing.
ghost use Rattle.jv_slices_reading.specs.Laws.{BlocksAreKnown, NamedAreThere, ReadsGoOn};

/// Of each block that is there the bytes are known.
pub fn blocks_are_known()
    ensures { BlocksAreKnown }
{}

/// Where all blocks of all slices are there, so is each block of the slice of a record.
pub fn named_are_there()
    ensures { NamedAreThere }
{}

/// A part goes on to read as blocks have it, where more of them come, and where one that is there is filled in.
pub fn reads_go_on()
    ensures { ReadsGoOn }
{}
