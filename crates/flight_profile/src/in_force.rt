//! Which rule text is in force on a host.

ghost use Rattle.std.specs.Prelude.{◌≡◌, drop, option_map};
ghost use Rattle.lc_model.specs.Tables.File.{headers_length};
ghost use Rattle.app_host.specs.Delivered.{executive_in};
ghost use Rattle.app_host.specs.Hosted.{shown};
ghost use Rattle.flight_profile.specs.Force.{is_of_file, is_of_pair, text_in_force};

use app_host::{App, Host};
use lc_model::Kind;
use rpn_compiler::TablePair;
use table_file::{HEADERS_LENGTH, table_name};

/// The image in a table file.
fn image_of(file: &[u8]) -> &[u8]
    ensures { result.now ≡ drop headers_length file.now }
{
    let (_, image) = file.split_at(HEADERS_LENGTH.min(file.len()));
    image
}

/// Whether there is an image, and it is that of the table file.
fn is_of_file(image: Option<&[u8]>, file: &[u8]) -> bool
    ensures { result ≡ is_of_file (option_map (λ image. image.now) image.entry) file.now }
{
    match image {
        None => false,
        Some(image) => image == image_of(file),
    }
}

/// Whether the active images of the two tables are those of a text's files.
fn is_of_pair(wdt: Option<&[u8]>, adt: Option<&[u8]>, pair: &TablePair) -> bool
    ensures { result ≡ is_of_pair (option_map (λ image. image.now) wdt.entry)
        (option_map (λ image. image.now) adt.entry) pair.now }
{
    is_of_file(wdt, pair.wdt.as_slice()) && is_of_file(adt, pair.adt.as_slice())
}

/// The number, from 0, of the rule text in force on a host among those that these table files are of: the first whose images are
/// the active ones of both tables. None if there is no such text.
pub fn text_in_force<B: App>(host: &Host<B>, pairs: &[TablePair]) -> Option<usize>
    ensures { result ≡ text_in_force pairs.now (executive_in (shown B.meaning host.now)) }
{
    let wdt = host.active_image(table_name(Kind::Wdt));
    let adt = host.active_image(table_name(Kind::Adt));
    pairs.iter().position(|pair| is_of_pair(wdt, adt, pair))
}
