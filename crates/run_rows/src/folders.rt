//! The folders of `data/`.

use std::fs;

/// The folder of what rows share.
const TEXTS: &str = "texts";

/// The names of all folders but that one, in ascending order.
pub fn row_names(rt: &HostRuntime) -> anyhow::Result<Vec<String>> {
    let mut names = Vec::new(rt.alloc());
    for entry in fs::read_dir(rt, ".")? {
        let entry = entry?;
        let name = entry.file_name();
        if name != TEXTS && fs::metadata(rt, entry.path())?.is_dir() {
            names.push(String::from_str(rt.alloc(), name)?)?;
        }
    }
    names.sort()?;
    Ok(names)
}
