ghost use Rattle.jv_outside.specs.promise.Stream.{Stream};
ghost use Rattle.jv_outside.specs.Stream.{Writes, WritesAll};

use jv_model::Down;

/// Where bytes are written (POSIX.1-2017, write).
pub trait Sink {
    // The bytes taken, where they are known, and how many calls failed: a count of 64 bits at least, which saturates.
    ghost seen: { Self → Stream };

    /// Takes bytes from the front of `piece`, and returns their number, which may be less than the piece has, and is 0
    /// only if the piece is empty. Returns [`Down::Failed`] if the sink failed: where its bytes are known, it has then
    /// taken none. It is never out of memory.
    fn write(&mut self, piece: &[u8]) -> Result<usize, Down>
        ensures { Writes (seen self.old) (seen self.new) result piece.now };
}

/// Writes all the bytes, by as many calls as it takes. Returns [`Down::Failed`] after the first call that failed: where
/// its bytes are known, the sink has then taken a proper prefix of the bytes.
pub fn write_whole<K: Sink>(sink: &mut K, bytes: &[u8]) -> Result<(), Down>
    ensures { WritesAll (K.seen sink.old) (K.seen sink.new) result bytes.now }
{
    let mut at = 0;
    'pieces: while at < bytes.len() {
        at += sink.write(&bytes[at..])?;
    }
    Ok(())
}
