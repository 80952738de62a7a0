//! The rows of a volume that was just formatted.
ghost use Rattle.std.specs.Prelude.{◌≡◌, IfOk, IsTrue};
ghost use Rattle.jv_model.specs.promise.rows.RowGrammar.{is_setting};
ghost use Rattle.jv_volume.specs.promise.Fresh.{new_directory};
ghost use Rattle.jv_rows.specs.FreshRows.{default_setting};
ghost use Rattle.jv_rows.specs.promise.FreshRows.{fresh_rows};

use crate::writing::{put_counters, put_node, put_setting};
use jv_model::options::DEFAULT_TRASH_DAYS;
use jv_model::tables::ROWS_VERSION;
use jv_model::{
    Counters, DEFAULT_BLOCK, DIRECTORY_LENGTH, FULL_MODE, Moment, Node, READ_ONLY_MODE, ROOT,
    Sequence, Setting, TRASH_ROOT, copied,
};
use jv_outside::Batch;
use std::alloc::{AllocError, Global};

/// The numbers of a volume without files.
const FRESH_COUNTERS: Counters = Counters {
    inode: ROOT + 1,
    slice: 1,
    session: 1,
    used_space: 0,
    used_inodes: 0,
};

/// The setting of a volume named `juicefs` over memory, with default options. The only error is out of memory.
pub fn default_setting(alloc: Global) -> Result<Setting, AllocError>
    ensures fields { IfOk result (λ setting. setting ≡ default_setting) }
    ensures allowed { IfOk result (λ setting. IsTrue (is_setting setting)) }
{
    Ok(Setting {
        version: ROWS_VERSION,
        block: DEFAULT_BLOCK,
        trash_days: DEFAULT_TRASH_DAYS,
        capacity: 0,
        inodes: 0,
        hash: 0,
        name: copied(alloc, b"juicefs")?,
        bucket: copied(alloc, b":memory:")?,
    })
}

/// An empty directory of a parent, with these permission bits (0 to [`FULL_MODE`]), made at a moment in seconds.
pub fn new_directory(alloc: Global, parent: u64, mode: u16, at: Moment) -> Node
    ensures { result ≡ new_directory parent mode at }
{
    Node {
        kind: 2,
        mode,
        uid: 0,
        gid: 0,
        nlink: 2,
        mtime: at.seconds(),
        ctime: at.seconds(),
        length: DIRECTORY_LENGTH,
        parent,
        target: Sequence::new(alloc),
    }
}

/// The rows of a volume that is formatted at a moment: its setting, its counters, its root and its trash. The moment is
/// in seconds. The only error is out of memory. JuiceFS, Command Reference: `format`.
pub fn fresh_rows(alloc: Global, setting: &Setting, at: Moment) -> Result<Batch, AllocError>
    requires { IsTrue (is_setting setting.now) }
    ensures { IfOk result (λ batch. batch ≡ fresh_rows setting.now at) }
{
    let mut batch = Batch::new(alloc);
    put_setting(alloc, &mut batch, setting)?;
    put_counters(alloc, &mut batch, &FRESH_COUNTERS)?;
    put_node(
        alloc,
        &mut batch,
        ROOT,
        &new_directory(alloc, ROOT, FULL_MODE, at),
    )?;
    put_node(
        alloc,
        &mut batch,
        TRASH_ROOT,
        &new_directory(alloc, ROOT, READ_ONLY_MODE, at),
    )?;
    Ok(batch)
}
