ghost use Rattle.jv_outside.specs.promise.Stream.{Stream};
ghost use Rattle.jv_outside.specs.Stream.{Reads};

use jv_model::Down;

/// Where bytes are read (POSIX.1-2017, read).
pub trait Source {
    // The bytes left, where they are known, and how many calls failed: a count of 64 bits at least, which saturates.
    ghost seen: { Self → Stream };

    /// Reads bytes into the front of `into`, and returns their number, which may be less than there is room for. Where
    /// there is room, it is 0 only at the end of the input. Returns [`Down::Failed`] if the source failed: the bytes left
    /// are then the same, and nothing is known of what `into` holds. It is never out of memory.
    fn read(&mut self, into: &mut [u8]) -> Result<usize, Down>
        ensures { Reads (seen self.old) (seen self.new) result into.new };
}
