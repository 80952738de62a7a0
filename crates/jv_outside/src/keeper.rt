ghost use Rattle.std.specs.Option.{option_copied};
ghost use Rattle.jv_outside.specs.promise.Store.{Store};
ghost use Rattle.jv_outside.specs.Store.{Opens, Finds, Scans, Commits};

use crate::batch::Batch;
use jv_model::row_bytes::RowBytes;
use jv_model::{Down, RowKey, Rows, Text};

/// Where the rows of a volume's metadata are kept, each with its bytes at its key (JuiceFS, Architecture: metadata
/// engine).
///
/// Each call returns [`Down::Failed`] if the device failed, or [`Down::Memory`] if it is out of memory. Rows and place
/// are then the same as before the call.
pub trait Keeper {
    // The rows, where they are known, the place where the keeper was opened last, and how many calls failed: a count of
    // 64 bits at least, which saturates.
    ghost seen: { Self → Store };

    /// Opens the rows at a place. They are then the same as before, or, but at `:memory:`, no longer known: nobody knows the
    /// rows of a file. A keeper of rows in memory takes any place, and keeps them.
    fn attach(&mut self, place: &Text) -> Result<(), Down>
        ensures { Opens (seen self.old) (seen self.new) result place.now };

    /// The bytes at a key, or None if and only if there is no such row.
    fn get(&mut self, key: &RowKey) -> Result<Option<RowBytes>, Down>
        ensures { Finds (seen self.old) (seen self.new) result key.now };

    /// The first `n` rows of a table after a key, or from the table's first row on, in the order of their keys. They are
    /// fewer only at the table's end.
    fn scan(&mut self, tab: u8, after: Option<&RowKey>, n: u32) -> Result<Rows, Down>
        ensures { Scans (seen self.old) (seen self.new) result tab (option_copied after.entry) n };

    /// Makes all the changes, in their order, or none of them after an error.
    fn commit(&mut self, batch: &Batch) -> Result<(), Down>
        ensures { Commits (seen self.old) (seen self.new) result batch.now };
}
