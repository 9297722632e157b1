//! The words that `clap` found, by their names.

ghost use Rattle.std.specs.Prelude.{◌≡◌, option_map, IfOk, IfSome, Some};
ghost use Rattle.clap.specs.Words.{first_of, found_of, rows_of};
ghost use Rattle.flight_tools_args.specs.Words.{HasWords, HoldsWords, IsFlag};

use clap::ArgMatches;
use std::alloc::{AllocError, Global};

/// The one word of a name, if it is given.
pub fn file_of<'a>(found: &ArgMatches<'a>, name: &str) -> Option<&'a str>
    ensures { IfSome result
        (λ word. first_of name.now (rows_of (found_of found.now)) ≡ Some word.now) }
{
    found.get_str(name)
}

/// The value of an option, if it is given.
pub fn option_value<'a>(found: &ArgMatches<'a>, name: &str) -> Option<&'a str>
    ensures { first_of name.now (rows_of (found_of found.now)) ≡
        option_map (λ word. word.now) result }
{
    found.get_str(name)
}

/// Whether a flag is given.
pub fn flag(found: &ArgMatches<'_>, name: &str) -> bool
    ensures { IsFlag name.now (rows_of (found_of found.now)) result }
{
    found.get_flag(name)
}

/// All words of this name, if it is given.
pub fn words_of<'a>(
    alloc: Global,
    found: &ArgMatches<'a>,
    name: &str,
) -> Result<Option<Vec<&'a str>>, AllocError>
    ensures { IfOk result (λ words. IfSome words
        (λ words. HasWords name.now (rows_of (found_of found.now)) words.items)) }
{
    match found.get_strs(name) {
        Some(words) => Ok(Some(Vec::from_slice(alloc, words)?)),
        None => Ok(None),
    }
}

/// All words of a name; none if it isn't given.
pub fn option_values<'a>(
    alloc: Global,
    found: &ArgMatches<'a>,
    name: &str,
) -> Result<Vec<&'a str>, AllocError>
    ensures { IfOk result (λ words. HoldsWords name.now (rows_of (found_of found.now)) words.items) }
{
    match found.get_strs(name) {
        Some(words) => Ok(Vec::from_slice(alloc, words)?),
        None => Ok(Vec::new(alloc)),
    }
}
