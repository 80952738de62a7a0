//! Sessions, and the files without entries that they keep.
use crate::whole::names::Names;
use crate::whole::stop::{Stop, expect};
use crate::whole::tables::{Kept, Tables};

/// Each session has a number from 1 on that was given.
pub fn check_sessions(tables: &Tables) -> Result<(), Stop> {
    for sid in tables.sessions.iter() {
        expect(
            1 <= *sid && *sid < tables.counters.session,
            "a session's number is 0 or isn't below the next one",
        )?;
    }
    Ok(())
}

/// Each file that a session keeps has no entry, and the session is there and the only one that keeps it.
pub fn check_kept(tables: &Tables, names: &Names) -> Result<(), Stop> {
    for kept in tables.kept.as_slice() {
        check_kept_file(tables, names, *kept)?;
    }
    Ok(())
}

fn check_kept_file(tables: &Tables, names: &Names, kept: Kept) -> Result<(), Stop> {
    let Kept { sid, inode } = kept;
    expect(
        tables.sessions.contains(&sid),
        "a session that isn't there keeps a file",
    )?;
    expect(tables.is_file(inode), "a session keeps what is no file")?;
    expect(
        names.of(inode) == 0,
        "a session keeps a file that has an entry",
    )?;
    expect(
        tables.keepers.get(&inode).copied() == Some(sid),
        "two sessions keep a file",
    )
}
