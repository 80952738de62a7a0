//! What is printed is read again. Each law is a function that does nothing.
ghost use Rattle.jv_script.specs.RoundTrips.{DataIsReadAgain, NamesAreReadAgain, PathsAreReadAgain, TargetsAreReadAgain};

/// DATA as it is printed is read as the same bytes: any bytes of which a read may answer as many, up to MAX_DATA.
pub fn data_is_read_again()
    ensures { DataIsReadAgain }
{}

/// A path as it is printed is read as the same path: any bytes but 0, of which the first is a slash.
pub fn paths_are_read_again()
    ensures { PathsAreReadAgain }
{}

/// A target as `readlink` prints it is read as the same target: one byte or more, and none of them 0.
pub fn targets_are_read_again()
    ensures { TargetsAreReadAgain }
{}

/// A name as `readdir` prints it, after the printed path of its directory and a slash, is read as the path of that
/// entry: any bytes but 0, so every name that a tree may have.
pub fn names_are_read_again()
    ensures { NamesAreReadAgain }
{}
