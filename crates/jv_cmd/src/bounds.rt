//! What the options of a session bound.
ghost use Rattle.std.specs.Prelude.{◌≡◌, ◌<◌, ◌≤◌};
ghost use Rattle.jv_cmd.specs.Bounds.{AreAllowed};
ghost use Rattle.jv_cmd.specs.promise.Bounds.{cache_entries, limits_of};
ghost use Rattle.jv_model.specs.declared.options.TheConstants.{MAX_CACHE};

use crate::words::SessionOptions;
use jv_model::{Limits, MIB};

/// The blocks of a length that a client's cache of `cache` MiB holds: at least one, unless the cache is empty.
fn cache_entries(cache: u64, block: u32) -> usize
    requires few { cache ≤ MAX_CACHE }
    requires some { 0 < block }
    ensures { result ≡ cache_entries cache block }
{
    if cache == 0 {
        return 0;
    }
    let entries = cache * MIB / u64::from(block);
    (entries as usize).max(1)
}

/// The limits of a session with these options, over a volume whose blocks have a length.
pub(crate) fn limits_of(options: &SessionOptions, block: u32) -> Limits
    requires allowed { AreAllowed options.now }
    requires some { 0 < block }
    ensures { result ≡ limits_of options.now block }
{
    Limits {
        buffer: options.buffer * MIB,
        entries: cache_entries(options.cache, block),
        writeback: false,
    }
}
