//! The words of the command line.

ghost use Rattle.std.specs.Prelude.{◌≡◌, map, IfOk, string_bytes};
ghost use Rattle.program_io.specs.Arguments.{arguments_error};
ghost use Rattle.program_io.specs.declared.arguments.ArgumentsError.TheVariants.{Memory};

use std::alloc::{AllocError, AllocFailed, Global};
use std::env::{self, Env};
use std::io::ErrorKind;

/// Why the words of the command line can't be read.
#[derive(Clone, Copy, Debug, PartialEq, Eq)]
pub enum ArgumentsError {
    /// There is no memory.
    Memory,
    /// A word isn't valid UTF-8.
    NoText,
}

impl<T: Drop> From<AllocFailed<T>> for ArgumentsError {
    ghost from_gives = { λ _ e. e ≡ Memory };

    fn from(_error: AllocFailed<T>) -> Self {
        ArgumentsError::Memory
    }
}

/// The error for an error kind of the system: a lack of memory, or words that aren't valid UTF-8.
pub fn arguments_error(kind: ErrorKind) -> ArgumentsError
    ensures { result ≡ arguments_error kind }
{
    match kind {
        ErrorKind::OutOfMemory => ArgumentsError::Memory,
        _ => ArgumentsError::NoText,
    }
}

/// The words of the command line, the program's name first. Errors: `Memory`, or `NoText` if a word isn't valid UTF-8.
pub fn arguments_of<R: Env + AllocGlobal>(rt: &R) -> Result<Vec<String>, ArgumentsError> {
    let args = match env::args(rt) {
        Ok(args) => args,
        Err(error) => return Err(arguments_error(error.kind())),
    };
    let mut words = Vec::new(rt.alloc());
    for word in args {
        words.push(word)?;
    }
    Ok(words)
}

/// The same words, borrowed. The only error is a lack of memory.
pub fn lend_words<'a>(alloc: Global, words: &'a [String]) -> Result<Vec<&'a str>, AllocError>
    ensures { IfOk result
        (λ lent. map (λ word. word.now) lent.items ≡ map string_bytes words.now) }
{
    let mut lent = Vec::new(alloc);
    for word in words {
        lent.push(word.as_str())?;
    }
    Ok(lent)
}
