//! Files that are written under a temporary name and renamed at the end.

use crate::leftover::{draft_name, own_process, own_user, remove_leftovers};
use crate::standard::STANDARD;
use crate::why::{FileFault, Why, fault_of};
use std::fs::{self, File, Files, Metadata, OpenFile};
use std::io::{self, ErrorKind};
use std::os::unix::fs::MetadataExt;

/// The temporary name of a file, and the name that it gets at the end.
#[derive(Drop)]
struct DraftNames {
    beside: String,
    own: String,
}

/// A file that is being written under a temporary name in the same folder. An old file of its final name stays until `keep`. A device
/// or a pipe is written directly.
#[derive(Drop)]
pub struct Draft<F: Drop> {
    /// The file to write to.
    pub file: F,
    names: Option<DraftNames>,
}

/// The name that a link leads to.
fn target_of<R: Files + AllocGlobal>(rt: &R, name: &str) -> Result<String, FileFault> {
    match fs::canonicalize(rt, name) {
        Ok(path) => Ok(path.into_string()),
        Err(error) => Err(fault_of(&error)),
    }
}

/// A draft of the file `own`, under a name with this process's number; drafts that killed calls of this user left there are removed.
fn beside<R: Files + AllocGlobal>(rt: &R, own: String) -> Result<Draft<R::File>, FileFault> {
    remove_leftovers(rt, own.as_str());
    let process = own_process(rt);
    let number = process.as_ref().map_or("0", |number| number.as_str());
    let Ok(beside) = draft_name(rt.alloc(), own.as_str(), number) else {
        return Err(FileFault::Memory);
    };
    match File::create_new(rt, beside.as_str()) {
        Ok(file) => Ok(Draft {
            file,
            names: Some(DraftNames { beside, own }),
        }),
        Err(error) => Err(fault_of(&error)),
    }
}

/// A draft of a device or a pipe, which is written directly.
fn as_it_stands<R: Files>(rt: &R, name: &str) -> Result<Draft<R::File>, FileFault> {
    match File::create(rt, name) {
        Ok(file) => Ok(Draft { file, names: None }),
        Err(error) => Err(fault_of(&error)),
    }
}

/// A draft for a file that exists, with its permissions if the system allows that. Error: `NotOwn` for another user's file.
fn beside_old<R: Files + AllocGlobal>(
    rt: &R,
    name: &str,
    old: &Metadata,
) -> Result<Draft<R::File>, FileFault> {
    if own_user(rt).is_some_and(|user| user != old.uid()) {
        return Err(FileFault::Unusable(Why::NotOwn));
    }
    let draft = beside(rt, target_of(rt, name)?)?;
    if let Some(names) = &draft.names {
        let _allowed = fs::set_permissions(rt, names.beside.as_str(), old.permissions());
    }
    Ok(draft)
}

/// A draft for a name that the system finds no file for, with this error. Errors: `Nowhere` for a link that leads nowhere; those of the
/// system.
fn beside_none<R: Files + AllocGlobal>(
    rt: &R,
    name: &str,
    error: &io::Error,
) -> Result<Draft<R::File>, FileFault> {
    if error.kind() != ErrorKind::NotFound {
        return Err(fault_of(error));
    }
    match fs::symlink_metadata(rt, name) {
        Ok(_) => Err(FileFault::Unusable(Why::Nowhere)),
        Err(_) => match String::from_str(rt.alloc(), name) {
            Ok(own) => beside(rt, own),
            Err(_) => Err(FileFault::Memory),
        },
    }
}

/// Begins a file that gets this name at the end. Errors are of the system, `Dash` for `-`, `Folder` for a folder's name, `Nowhere` and
/// `Loop` for a link that leads to no file, `NotOwn` for another user's file, and a lack of memory.
pub fn begin<R: Files + AllocGlobal>(rt: &R, name: &str) -> Result<Draft<R::File>, FileFault> {
    if name == STANDARD {
        return Err(FileFault::Unusable(Why::Dash));
    }
    match fs::metadata(rt, name) {
        Ok(there) if there.is_dir() => Err(FileFault::Unusable(Why::Folder)),
        Ok(there) if there.is_file() => beside_old(rt, name, &there),
        Ok(_) => as_it_stands(rt, name),
        Err(error) => beside_none(rt, name, &error),
    }
}

/// Flushes the file to the device and gives it its name. If that fails, the draft is removed and the old file stays.
pub fn keep<R: Files>(rt: &R, draft: Draft<R::File>) -> Result<(), FileFault> {
    let Draft { file, names } = draft;
    let Some(names) = names else {
        return Ok(());
    };
    let kept = match file.sync_all() {
        Ok(()) => fs::rename(rt, names.beside.as_str(), names.own.as_str()),
        Err(error) => Err(error),
    };
    match kept {
        Ok(()) => Ok(()),
        Err(error) => {
            let _gone = fs::remove_file(rt, names.beside.as_str());
            Err(fault_of(&error))
        }
    }
}

/// Removes the draft; an old file of its name stays.
pub fn discard<R: Files>(rt: &R, draft: Draft<R::File>) {
    let Draft { file: _, names } = draft;
    if let Some(names) = names {
        let _gone = fs::remove_file(rt, names.beside.as_str());
    }
}
