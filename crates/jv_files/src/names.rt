//! Which names files may have, and where they and their drafts are.
use jv_model::{LAST_MOMENT, Moment};
use std::alloc::{AllocError, Global};
use std::fs::Metadata;
use std::io::{self, ErrorKind};
use std::path::Path;
use std::time::{Duration, SystemTime, UNIX_EPOCH};

/// A file below a folder, and the draft beside it in which its bytes are written before they are there as a whole.
#[derive(Drop)]
pub(crate) struct Place {
    pub(crate) file: String,
    pub(crate) draft: String,
}

impl Place {
    /// Where the file of a name is below a folder. Fails if no file may have the name.
    pub(crate) fn below(alloc: Global, root: &str, name: &[u8]) -> io::Result<Place> {
        let name = file_name(name)?;
        let (folder, last) = name.rsplit_once('/').unwrap_or(("", name));
        let file = joined(alloc, root, name)?;
        let inner = joined(alloc, root, folder)?;
        let draft = format!(in alloc; "{}/.{last}", inner.as_str())?;
        Ok(Place { file, draft })
    }
}

/// Bytes as the name of a file below a folder: text of parts between slashes, none of which is empty, has a zero byte or begins
/// with a dot, as drafts and the two links of each folder do.
fn file_name(name: &[u8]) -> io::Result<&str> {
    match str::from_utf8(name) {
        Ok(name) if name.split('/').all(is_part) => Ok(name),
        _ => Err(io::Error::new(ErrorKind::InvalidInput, "not a file's name")),
    }
}

/// Whether text is one part of the name of a file.
pub(crate) fn is_part(part: &str) -> bool {
    !part.is_empty() && !part.starts_with('.') && !part.contains('\0')
}

/// The path of what is below a folder.
pub(crate) fn joined(alloc: Global, root: &str, name: &str) -> Result<String, AllocError> {
    let mut path = String::from_str(alloc, root)?;
    if !name.is_empty() {
        path.push('/')?;
        path.push_str(name)?;
    }
    Ok(path)
}

/// The folder that a path is in.
pub(crate) fn parent(path: &str) -> &str {
    match Path::new(path).parent() {
        Some(parent) if parent.as_str().is_empty() => ".",
        Some(parent) => parent.as_str(),
        None => path,
    }
}

/// The time of a moment.
pub(crate) fn time_at(moment: Moment) -> io::Result<SystemTime> {
    UNIX_EPOCH
        .checked_add(Duration::from_secs(moment.seconds()))
        .ok_or(io::Error::from(ErrorKind::InvalidInput))
}

/// The moment at which a file was written last, or the first or the last moment where that is before or after all of them.
pub(crate) fn written_at(file: &Metadata) -> Moment {
    let since_1970 = match file.modified() {
        Ok(time) => time.duration_since(UNIX_EPOCH).unwrap_or(Duration::ZERO),
        Err(_) => Duration::ZERO,
    };
    Moment(since_1970.as_secs().min(LAST_MOMENT))
}

/// What was found, or None if it isn't there.
pub(crate) fn if_there<T>(found: io::Result<T>) -> io::Result<Option<T>> {
    match found {
        Ok(found) => Ok(Some(found)),
        Err(error) if error.kind() == ErrorKind::NotFound => Ok(None),
        Err(error) => Err(error),
    }
}
