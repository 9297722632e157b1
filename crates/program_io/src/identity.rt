//! Whether two names are of the same file.

use std::fs::{self, Files, Metadata};
use std::os::unix::fs::MetadataExt;
use std::path::{Path, PathBuf};

/// Whether two files are the same, by device and inode number.
fn is_same(first: &Metadata, second: &Metadata) -> bool {
    first.ino() != 0 && (first.dev(), first.ino()) == (second.dev(), second.ino())
}

/// Whether two files are the same regular file.
fn is_one_node(first: &Metadata, second: &Metadata) -> bool {
    first.is_file() && second.is_file() && is_same(first, second)
}

/// The folder of a name, under its canonical name; `None` if there is none.
fn folder_of<R: Files + AllocGlobal>(rt: &R, name: &str) -> Option<PathBuf> {
    let folder = Path::new(name).parent()?;
    let folder = folder.as_str();
    fs::canonicalize(rt, if folder.is_empty() { "." } else { folder }).ok()
}

/// Whether two names that don't exist yet would be of the same file.
fn is_one_place<R: Files + AllocGlobal>(rt: &R, first: &str, second: &str) -> bool {
    if Path::new(first).file_name() != Path::new(second).file_name() {
        return false;
    }
    match (folder_of(rt, first), folder_of(rt, second)) {
        (Some(one), Some(other)) => one.as_str() == other.as_str(),
        _ => false,
    }
}

/// Whether two names are of the same regular file, or would be if both were created: by device and inode if both exist, by folder and
/// name if neither does. False for devices and pipes, which can't lose contents. Links to nothing, and files that others replace
/// meanwhile, aren't recognized.
pub fn is_one_file<R: Files + AllocGlobal>(rt: &R, first: &str, second: &str) -> bool {
    match (fs::metadata(rt, first), fs::metadata(rt, second)) {
        (Ok(one), Ok(other)) => is_one_node(&one, &other),
        (Err(_), Err(_)) => is_one_place(rt, first, second),
        _ => false,
    }
}

/// Whether a name is of the file, pipe or device that is standard output, as `/dev/stdout` is.
pub fn is_standard_output<R: Files>(rt: &R, name: &str) -> bool {
    match (fs::metadata(rt, name), fs::metadata(rt, "/dev/stdout")) {
        (Ok(one), Ok(output)) => is_same(&one, &output),
        _ => false,
    }
}
