//! What an error says of the class of tokens that was expected.

ghost use Rattle.std.specs.Prelude.{◌≡◌, ◌≤◌, ◌++◌, codes, length};
ghost use Rattle.rule_parser.specs.What.{sign_text, what_text, word_text};

use rule_parser::{Sign, What, Word};

/// The words for a class of tokens.
pub(crate) fn words_for(what: What) -> &'static [u8]
    ensures text { result.now ≡ what_text what }
    ensures size { length result.now ≤ 40 }
{
    match what {
        What::Item => b"`packet`, `field` or `rule`",
        What::Name => b"a name",
        What::Number => b"a number",
        What::Text => b"a string",
        What::FieldKind => b"a field type",
        What::State => b"`active`, `passive` or `disabled`",
        What::Level => b"`debug`, `info`, `error` or `critical`",
        What::Operand => b"a name, `not` or `(`",
        What::Compare => b"a comparison",
        What::Word(word) => quoted_word(word),
        What::Sign(sign) => quoted_sign(sign),
    }
}

fn quoted_word(word: Word) -> &'static [u8]
    ensures text { result.now ≡ codes "`" ++ word_text word ++ codes "`" }
    ensures size { length result.now ≤ 40 }
{
    match word {
        Word::Mid => b"`mid`",
        Word::Length => b"`length`",
        Word::At => b"`at`",
        Word::Mask => b"`mask`",
        Word::Stale => b"`stale`",
        Word::Fails => b"`fails`",
        Word::Sequence => b"`sequence`",
        Word::Event => b"`event`",
        Word::Report => b"`report`",
        Word::When => b"`when`",
    }
}

fn quoted_sign(sign: Sign) -> &'static [u8]
    ensures text { result.now ≡ codes "`" ++ sign_text sign ++ codes "`" }
    ensures size { length result.now ≤ 40 }
{
    match sign {
        Sign::Equals => b"`=`",
        Sign::Semicolon => b"`;`",
        Sign::Close => b"`)`",
    }
}
