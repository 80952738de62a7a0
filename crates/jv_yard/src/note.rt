//! The log of a yard.
use jv_model::BlockId;

/// The number of main in a log. Workers have the numbers from 1 on.
pub const MAIN: u32 = 0;

/// What was done with a block.
#[derive(Clone, Copy, Debug, PartialEq, Eq)]
pub enum What {
    /// It was put into the depot.
    Put,
    /// It was staged on its client's shelf.
    Stage,
    /// It was taken, to be published from there.
    Take,
    /// It was published, and is staged no more.
    Publish,
    /// Publishing it failed, or taking it from the shelf.
    Failed,
}

/// An entry of a yard's log.
#[derive(Clone, Copy, Debug, PartialEq, Eq)]
pub struct Note {
    /// Who did it: [`MAIN`], or the number of a worker.
    pub by: u32,
    /// The block's client, a number up to [`jv_model::LAST_CLIENT`].
    pub client: u8,
    pub what: What,
    pub block: BlockId,
}
