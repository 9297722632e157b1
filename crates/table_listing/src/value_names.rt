//! The words of the rule language for values in tables.

ghost use Rattle.std.specs.Prelude.{◌≡◌};
ghost use Rattle.table_listing.specs.Words as model;

/// Returns the word for the number of an image's kind: `watchpoints` for 1, `actionpoints` for 2, else `unknown`.
pub fn kind_word(kind: u16) -> &'static str
    ensures { result.now ≡ model.kind_word kind }
{
    match kind {
        1 => "watchpoints",
        2 => "actionpoints",
        _ => "unknown",
    }
}
