//! The names of drafts, and the drafts that killed calls left: a program can't catch signals, so the next call removes them.

use std::alloc::{AllocError, Global};
use std::fs::{self, DirEntry, Files};
use std::io::ErrorKind;
use std::os::unix::fs::MetadataExt;
use std::path::{Path, PathBuf};

/// What stands in a draft's name between the file's name and the number of the process that writes it.
const BEFORE: &str = ".flight_tools-";

/// What stands in a draft's name after the number of its process.
const BEHIND: &str = ".part";

/// The name of the draft of the file `own` that the process of this number writes.
pub fn draft_name(alloc: Global, own: &str, process: &str) -> Result<String, AllocError> {
    format!(in alloc; "{own}{BEFORE}{process}{BEHIND}")
}

/// The number of this process, if the system says it.
pub fn own_process<R: Files + AllocGlobal>(rt: &R) -> Option<PathBuf> {
    fs::read_link(rt, "/proc/self").ok()
}

/// The user that this process runs as, if the system says it.
pub fn own_user<R: Files>(rt: &R) -> Option<u32> {
    match fs::metadata(rt, "/proc/self") {
        Ok(own) => Some(own.uid()),
        Err(_) => None,
    }
}

/// The number of the process that wrote the file of this name, if the name is that of a draft of the file `own` in the same folder.
fn writer_of<'n>(name: &'n str, own: &str) -> Option<&'n str> {
    let number = name
        .strip_prefix(own)?
        .strip_prefix(BEFORE)?
        .strip_suffix(BEHIND)?;
    if number.is_empty() || !number.bytes().all(|byte| byte.is_ascii_digit()) {
        return None;
    }
    Some(number)
}

/// Whether no process has this number.
fn is_gone<R: Files + AllocGlobal>(rt: &R, number: &str) -> bool {
    let Ok(place) = format!(in rt.alloc(); "/proc/{number}") else {
        return false;
    };
    match fs::metadata(rt, place.as_str()) {
        Ok(_) => false,
        Err(error) => error.kind() == ErrorKind::NotFound,
    }
}

/// Removes the file of this entry if it is a draft of the file `own` that a process of this user left.
fn remove_left<R: Files + AllocGlobal, F: Files>(
    rt: &R,
    entry: &DirEntry<F>,
    own: &str,
    user: u32,
) {
    let Some(number) = writer_of(entry.file_name(), own) else {
        return;
    };
    let is_left = match entry.metadata() {
        Ok(there) => there.is_file() && there.uid() == user && is_gone(rt, number),
        Err(_) => false,
    };
    if is_left {
        let _gone = fs::remove_file(rt, entry.path());
    }
}

/// Removes the drafts of the file `own` that killed calls of this user left in its folder. Drafts of running calls stay, and so does
/// what can't be removed.
pub fn remove_leftovers<R: Files + AllocGlobal>(rt: &R, own: &str) {
    let path = Path::new(own);
    let (Some(user), Some(name), Some(folder)) = (own_user(rt), path.file_name(), path.parent())
    else {
        return;
    };
    let folder = folder.as_str();
    let Ok(entries) = fs::read_dir(&rt, if folder.is_empty() { "." } else { folder }) else {
        return;
    };
    for entry in entries {
        if let Ok(entry) = entry {
            remove_left(rt, &entry, name, user);
        }
    }
}
