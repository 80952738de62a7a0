//! What words may ask for.
ghost use Rattle.std.specs.Prelude.{◌≡◌};
ghost use Rattle.jv_cmd.specs.declared.words.request.WordsFault.TheVariants as fault;

use jv_model::{Setting, Text};
use std::alloc::AllocError;
use thiserror::Error;

/// What the words ask for.
#[derive(Debug, Drop, PartialEq, Eq)]
pub enum Command {
    /// Format a volume.
    Format {
        /// Where its rows lie.
        place: Text,
        /// The setting that is to be written.
        setting: Setting,
    },
    /// Run a script over a volume.
    Session {
        /// Where its rows lie.
        place: Text,
        options: SessionOptions,
    },
}

/// The options of a session.
#[derive(Debug, Drop, PartialEq, Eq)]
pub struct SessionOptions {
    /// Each client's cache in MiB, at most [`jv_model::options::MAX_CACHE`]; 0 keeps no block.
    pub cache: u64,
    /// The most pending bytes in MiB, from [`jv_model::options::MIN_BUFFER`] to [`jv_model::options::MAX_BUFFER`].
    pub buffer: u64,
    /// Uploads at once, at most [`jv_model::options::MAX_UPLOADS`]; with 0 there are none but those that a script line
    /// asks for. Without effect yet.
    pub uploads: u32,
    /// Written blocks are staged first, and uploaded later. Without effect yet.
    pub writeback: bool,
    /// The folder of staged blocks.
    pub cache_dir: Text,
    /// The seed of the script that is run in place of the source's.
    pub generate: Option<u64>,
}

/// Why words are no command.
#[derive(Debug, Drop, Error)]
pub enum WordsFault {
    /// The words are malformed, or ask for help. This is the text for standard error, with its line feed.
    #[error("{0}")]
    Refused(String),
    /// Out of memory.
    #[error("out of memory")]
    Memory,
}

impl From<AllocError> for WordsFault {
    ghost from_gives = { λ _ refusal. refusal ≡ fault.Memory };

    fn from(_error: AllocError) -> WordsFault {
        WordsFault::Memory
    }
}
