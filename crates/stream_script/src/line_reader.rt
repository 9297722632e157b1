//! From a script to its stream, line by line.

ghost use Rattle.std.specs.Prelude.{◌≡◌, ◌+◌, ◌∷◌, ℕ, List, Ok, Err, IfOk, IfErr, IsErr};
ghost use Rattle.lc_model.specs.Host.ScheduleText.{lines_of, words_of};
ghost use Rattle.stream_script.specs.ByLines.{AreStarts, starts_in};
ghost use Rattle.stream_script.specs.Error.{IsRefused, IsScriptError, ScriptFault};
ghost use Rattle.stream_script.specs.Script.{line_said, lines_said, nothing_said, script_in};
ghost use Rattle.stream_script.specs.declared.error.ScriptError.TheVariants.{Memory};

use crate::error::{ScriptError, StatementFault};
use crate::script::Script;
use crate::statement::statement;
use std::alloc::Global;
use text_lines::{first_line, is_silent, words};

/// The script after this line.
fn line_said(alloc: Global, script: Script, line: &[u8]) -> Result<Script, StatementFault>
    ensures said { IfOk result (λ after. line_said script (words_of line.now) ≡ Ok after) }
    ensures refused { IfErr result (IsRefused (line_said script (words_of line.now))) }
{
    if is_silent(line) {
        return Ok(script);
    }
    let words = words(alloc, line)?;
    statement(alloc, script, words.as_slice())
}

/// The script after a line, or the line's fault with its number.
fn read_line(alloc: Global, script: Script, line: &[u8], n: usize) -> Result<Script, ScriptError>
    ensures said { IfOk result (λ after. (lines : List (List ℕ)) →
        lines_said script n (line.now ∷ lines) ≡ lines_said after (n + 1) lines) }
    ensures after { IfOk result (λ after. line_said script (words_of line.now) ≡ Ok after) }
    ensures refused { IfErr result (λ error. (lines : List (List ℕ)) →
        IsScriptError (lines_said script n (line.now ∷ lines)) error) }
{
    match line_said(alloc, script, line) {
        Ok(after) => Ok(after),
        Err(StatementFault::Line(reason)) => Err(ScriptError::Line { n, reason }),
        Err(StatementFault::Memory) => Err(ScriptError::Memory),
    }
}

/// The script after all lines, and the length of the stream before each line in bytes.
fn read_lines(alloc: Global, script: &[u8]) -> Result<(Script, Vec<usize>), ScriptError>
    ensures said { IfOk result
        (λ all. lines_said nothing_said 1 (lines_of script.now) ≡ Ok all.0) }
    ensures starts { IfOk result (λ all. all.1.items ≡ starts_in script.now) }
    ensures refused { IfErr result
        (IsScriptError (lines_said nothing_said 1 (lines_of script.now))) }
{
    let mut said = Script::new(alloc);
    let mut starts = Vec::new(alloc);
    let mut left = Some(script);
    while let Some(text) = left {
        let (line, rest) = first_line(text);
        starts.push(said.size())?;
        match read_line(alloc, said, line, starts.len()) {
            Ok(after) => said = after,
            Err(error) => return Err(error),
        }
        left = rest;
    }
    Ok((said, starts))
}

/// A script's stream, and where in it each line begins. Line `k`, counted from 0, gives the bytes from `starts[k]` up to
/// `starts[k + 1]`; the last line gives those from its start on.
#[derive(Drop)]
pub struct ScriptStream {
    /// The stream's bytes.
    pub stream: Vec<u8>,
    /// For each line, the length of the stream before it in bytes.
    pub starts: Vec<usize>,
}

/// Reads a script to its stream, with the place of each line. Lines end at a line feed or at the end of the text. Spaces, tabs and
/// carriage returns separate words. A line without words, or whose first word begins with `#`, is skipped.
///
/// Errors: `Line` for the first faulty line, with its number from 1 and its reason; `Memory` only if there is no memory for the
/// stream, the places or a line.
pub fn read_script_by_lines(alloc: Global, script: &[u8]) -> Result<ScriptStream, ScriptError>
    ensures said { IfOk result (λ all. script_in script.now ≡ Ok all.stream.items) }
    ensures starts { IfOk result (λ all. all.starts.items ≡ starts_in script.now) }
    ensures fronts { IfOk result (λ all. AreStarts script.now all.stream.items all.starts.items) }
    ensures refused { IfErr result (IsScriptError (script_in script.now)) }
    ensures accepts { (stream : List ℕ) → script_in script.now ≡ Ok stream →
        IfErr result (λ error. error ≡ Memory) }
    ensures refuses { (fault : ScriptFault) → script_in script.now ≡ Err fault → IsErr result }
{
    match read_lines(alloc, script) {
        Ok((said, starts)) => Ok(ScriptStream {
            stream: said.into_bytes(),
            starts,
        }),
        Err(error) => Err(error),
    }
}

/// Reads a script to its stream, without the places of its lines; rules and errors as in `read_script_by_lines`.
pub fn read_script(alloc: Global, script: &[u8]) -> Result<Vec<u8>, ScriptError>
    ensures said { IfOk result (λ stream. script_in script.now ≡ Ok stream.items) }
    ensures refused { IfErr result (IsScriptError (script_in script.now)) }
    ensures accepts { (stream : List ℕ) → script_in script.now ≡ Ok stream →
        IfErr result (λ error. error ≡ Memory) }
    ensures refuses { (fault : ScriptFault) → script_in script.now ≡ Err fault → IsErr result }
{
    match read_script_by_lines(alloc, script) {
        Ok(all) => Ok(all.stream),
        Err(error) => Err(error),
    }
}
