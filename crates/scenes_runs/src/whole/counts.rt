//! Counts by number.
use std::alloc::AllocError;
use std::collections::BTreeMap;

/// How often numbers came: 0 for one that isn't there.
pub type Counts = BTreeMap<u64, u64>;

/// Counts a number once more.
pub fn count(counts: &mut Counts, number: u64) -> Result<(), AllocError> {
    let before = count_of(counts, number);
    counts.insert(number, before.saturating_add(1))?;
    Ok(())
}

/// How often a number came.
pub fn count_of(counts: &Counts, number: u64) -> u64 {
    counts.get(&number).copied().unwrap_or(0)
}
