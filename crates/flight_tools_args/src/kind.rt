//! The commands by their words.

ghost use Rattle.std.specs.Prelude.{◌≡◌, IfSome};
ghost use Rattle.flight_tools_args.specs.Words.{word_of};

/// A command of `flight_tools` (docs/TOOLS.md).
#[derive(Clone, Copy)]
pub enum CommandKind {
    /// `table`.
    Table,
    /// `stream`.
    Stream,
    /// `packets`.
    Packets,
    /// `scenario`.
    Scenario,
    /// `import`.
    Import,
    /// `export`.
    Export,
    /// `report`.
    Report,
    /// `check`.
    Check,
    /// `changes`.
    Changes,
    /// `compare`.
    Compare,
    /// `try`.
    Try,
    /// `live`.
    Live,
    /// `format`.
    Format,
    /// `lsp`.
    LanguageServer,
}

/// The command with this word that lists files or serves an editor.
fn of_files(word: &str) -> Option<CommandKind>
    ensures { IfSome result (λ kind. word_of kind ≡ word.now) }
{
    match word {
        "table" => Some(CommandKind::Table),
        "stream" => Some(CommandKind::Stream),
        "packets" => Some(CommandKind::Packets),
        "lsp" => Some(CommandKind::LanguageServer),
        _ => None,
    }
}

/// The command with this word that creates or exports a stream.
fn of_streams(word: &str) -> Option<CommandKind>
    ensures { IfSome result (λ kind. word_of kind ≡ word.now) }
{
    match word {
        "scenario" => Some(CommandKind::Scenario),
        "import" => Some(CommandKind::Import),
        "export" => Some(CommandKind::Export),
        _ => None,
    }
}

/// The command with this word that judges rules or runs them.
fn of_rules(word: &str) -> Option<CommandKind>
    ensures { IfSome result (λ kind. word_of kind ≡ word.now) }
{
    match word {
        "report" => Some(CommandKind::Report),
        "check" => Some(CommandKind::Check),
        "changes" => Some(CommandKind::Changes),
        "compare" => Some(CommandKind::Compare),
        "try" => Some(CommandKind::Try),
        "live" => Some(CommandKind::Live),
        "format" => Some(CommandKind::Format),
        _ => None,
    }
}

/// The command with this word; `None` if there is none.
pub fn kind_of(word: &str) -> Option<CommandKind>
    ensures { IfSome result (λ kind. word_of kind ≡ word.now) }
{
    match of_files(word) {
        Some(kind) => Some(kind),
        None => match of_streams(word) {
            Some(kind) => Some(kind),
            None => of_rules(word),
        },
    }
}
