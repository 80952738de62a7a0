//! Devices and the setting of a volume.
use jv_model::{MIN_BLOCK, Sequence, Setting, copied};
use jv_outside::Fails;
use std::alloc::{AllocError, Global};

/// A volume `test` with blocks of the least length.
pub fn setting(alloc: Global) -> Result<Setting, AllocError> {
    Ok(Setting {
        version: 1,
        block: MIN_BLOCK,
        trash_days: 1,
        capacity: 0,
        inodes: 0,
        hash: 0,
        name: copied(alloc, b"test")?,
        bucket: copied(alloc, b"/tmp")?,
    })
}

/// Has one call of a device fail, counted from 1; none by 0.
pub fn failing_at(alloc: Global, number: u64) -> Result<Fails, AllocError> {
    let mut numbers = Sequence::new(alloc);
    numbers.push(number)?;
    Ok(Fails::At(numbers))
}
