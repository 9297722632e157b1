//! Files of `data/`.

use std::fs;

/// The bytes of a folder's file.
pub fn read(rt: &HostRuntime, folder: &str, file: &str) -> anyhow::Result<Vec<u8>> {
    let name = format!(in rt.alloc(); "{folder}/{file}")?;
    match fs::read(rt, name.as_str()) {
        Ok(bytes) => Ok(bytes),
        Err(error) => anyhow::bail!("{name}: {error}"),
    }
}
