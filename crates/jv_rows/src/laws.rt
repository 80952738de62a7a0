//! What holds of the grammar of rows. Each law is a function that does nothing.
ghost use Rattle.jv_rows.specs.RoundTrips.{RowsAreExact};

/// In each table an allowed value whose numbers have the widths of its row is read from its bytes, and bytes from
/// which a value is read are the bytes of that value, which is allowed.
pub fn rows_are_exact()
    ensures { RowsAreExact }
{}
