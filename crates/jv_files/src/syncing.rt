//! Files and folders that are still there after a loss of power.
use crate::names::{joined, parent, time_at};
use jv_model::Moment;
use std::fs::{self, File};
use std::io::{self, ErrorKind, Write};

/// Waits until the disk has the names of a folder.
pub(crate) fn sync_folder(rt: HostRuntime, folder: &str) -> io::Result<()> {
    File::open(&rt, folder)?.sync_all()
}

/// Writes a whole file, and waits until the disk has it. A moment becomes the time at which it was written.
pub(crate) fn write_file(
    rt: HostRuntime,
    path: &str,
    bytes: &[u8],
    at: Option<Moment>,
) -> io::Result<()> {
    let mut file = File::create(&rt, path)?;
    file.write_all(bytes)?;
    if let Some(moment) = at {
        file.set_modified(time_at(moment)?)?;
    }
    file.sync_all()
}

/// Makes a folder and those between it and a file below it, where they aren't there.
pub(crate) fn make_folders(rt: HostRuntime, root: &str, file: &str) -> io::Result<()> {
    make_folder(rt, root)?;
    let Some(inner) = parent(file).strip_prefix(root) else {
        return Ok(());
    };
    let mut path = String::from_str(rt.alloc(), root)?;
    for part in inner.split('/') {
        if !part.is_empty() {
            path = joined(rt.alloc(), path.as_str(), part)?;
            make_folder(rt, path.as_str())?;
        }
    }
    Ok(())
}

/// Makes a folder, unless it is there, and waits until the disk has its name.
fn make_folder(rt: HostRuntime, path: &str) -> io::Result<()> {
    match fs::create_dir(&rt, path) {
        Ok(()) => {}
        Err(error) if error.kind() == ErrorKind::AlreadyExists => return Ok(()),
        Err(error) => return Err(error),
    }
    let synced = sync_folder(rt, parent(path));
    if synced.is_err() {
        // A folder that is there counts as synced, so that this one has to go.
        let _ = fs::remove_dir(&rt, path);
    }
    synced
}
