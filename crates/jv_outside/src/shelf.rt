ghost use Rattle.std.specs.Option.{option_copied};
ghost use Rattle.std.specs.Prelude.{IfErr, ◌≡◌};
ghost use Rattle.jv_model.specs.declared.fault.Down.TheVariants.{Failed};
ghost use Rattle.jv_outside.specs.promise.Holding.{Holding, Attaches};
ghost use Rattle.jv_outside.specs.Holding.{Answers, Changes};
ghost use Rattle.jv_outside.specs.promise.Blocks.{StagedMap, staged_at};
ghost use Rattle.jv_outside.specs.Blocks.{staging, unstaged, names_after};

use jv_model::{Bytes, ClientId, Down, Name, NameList, Text};

/// A local disk, on which each client stages blocks until they are published (JuiceFS, Cache: writeback).
///
/// Each call returns [`Down::Failed`] if the device failed, or [`Down::Memory`] if it is out of memory. Blocks and place
/// are then the same as before the call.
pub trait Shelf {
    // The blocks, where they are known, the place where the shelf was opened last, and how many calls failed: a count of
    // 64 bits at least, which saturates.
    ghost seen: { Self → Holding StagedMap };

    /// Opens the blocks at a place. They are then the same as before, or, but at `:memory:`, no longer known. A shelf of
    /// blocks in memory takes any place, and keeps them.
    fn attach(&mut self, place: &Text) -> Result<(), Down>
        ensures { Attaches (seen self.old) (seen self.new) result place.now };

    /// Puts a block's bytes at a client's name, whether there was a block or not.
    fn put(&mut self, c: ClientId, name: &Name, bytes: &[u8]) -> Result<(), Down>
        ensures { Changes (seen self.old) (seen self.new) result (staging c name.now bytes.now) };

    /// The bytes of a client's block, or None if and only if it has none of that name.
    fn get(&mut self, c: ClientId, name: &Name) -> Result<Option<Bytes>, Down>
        ensures { Answers (seen self.old) (seen self.new) result (staged_at c name.now) };

    /// Removes a client's block. It is no error if it has none of that name. The call is never out of memory.
    fn remove(&mut self, c: ClientId, name: &Name) -> Result<(), Down>
        ensures removed { Changes (seen self.old) (seen self.new) result (unstaged c name.now) }
        ensures failed { IfErr result (λ e. e ≡ Failed) };

    /// The names of a client's first `n` blocks after a name, or from its first on, in the order of the names' bytes. They
    /// are fewer only at the end.
    fn list(&mut self, c: ClientId, after: Option<&Name>, n: u32) -> Result<NameList, Down>
        ensures { Answers (seen self.old) (seen self.new) result
            (names_after c (option_copied after.entry) n) };
}
