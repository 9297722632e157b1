//! What a row's run is made of.

use crate::files::read;
use std::str;
use stream_script::read_script;

/// A row's schedule, its rule texts and its stream, and whether it has a line of the engine's effort.
#[derive(Drop)]
pub struct Row {
    /// The text of the schedule.
    pub schedule: Vec<u8>,
    /// The rule texts, in the order of their numbers.
    pub texts: Vec<Vec<u8>>,
    /// The bytes of the stream.
    pub stream: Vec<u8>,
    /// Whether the engine's effort is expected, too.
    pub has_effort: bool,
}

impl Row {
    /// What the folder's `row.txt` says.
    pub fn read(rt: &HostRuntime, folder: &str) -> anyhow::Result<Row> {
        let mut row = Row {
            schedule: Vec::new(rt.alloc()),
            texts: Vec::new(rt.alloc()),
            stream: Vec::new(rt.alloc()),
            has_effort: false,
        };
        let text = read(rt, folder, "row.txt")?;
        for line in str::from_utf8(text.as_slice())?.lines() {
            row.take(rt, line)?;
        }
        Ok(row)
    }

    /// Reads one line of `row.txt`.
    fn take(&mut self, rt: &HostRuntime, line: &str) -> anyhow::Result<()> {
        if let Some(file) = line.strip_prefix("schedule ") {
            self.schedule = read(rt, ".", file)?;
        } else if let Some(file) = line.strip_prefix("rules ") {
            self.texts.push(read(rt, ".", file)?)?;
        } else if let Some(file) = line.strip_prefix("scenario ") {
            let scenario = read(rt, ".", file)?;
            self.stream = read_script(rt.alloc(), scenario.as_slice())?;
        } else if let Some(file) = line.strip_prefix("stream ") {
            self.stream = read(rt, ".", file)?;
        } else if let Some(size) = line.strip_prefix("cut ") {
            self.stream.truncate(size.parse()?);
        } else if line == "effort" {
            self.has_effort = true;
        } else {
            anyhow::bail!("`{line}` says nothing of a row");
        }
        Ok(())
    }
}
