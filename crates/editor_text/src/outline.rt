//! What an outline of a text has. Places are numbers of the text's bytes before them.

/// What a word of a text is.
#[derive(Clone, Copy, Debug, PartialEq, Eq)]
pub enum WordClass {
    /// A reserved word, or the first word of a line.
    Keyword,
    /// An operator that is a word, or a sign.
    Operator,
    /// The type of a field.
    Type,
    /// A word for a state, a type of events, a mode or a result.
    Constant,
    /// The name of a packet.
    Packet,
    /// The name of a field.
    Field,
    /// The name of a rule.
    Rule,
    /// A number, or bytes.
    Number,
    /// A quoted text, the name of a file, a table or an application.
    Text,
    /// A comment.
    Comment,
}

/// A word of a text, with what it is. It lies on one line.
#[derive(Clone, Copy, Debug, PartialEq, Eq)]
pub struct ClassedWord {
    /// The place of its first byte.
    pub at: usize,
    /// How many bytes it has; one at least.
    pub size: usize,
    /// What it is.
    pub class: WordClass,
    /// Whether it is the name that an item declares.
    pub is_declaration: bool,
}

/// Something that a text declares or does, for a list of what the text has.
#[derive(Drop)]
pub struct Symbol {
    /// What it is.
    pub class: WordClass,
    /// Its name; not empty.
    pub name: String,
    /// What the list says beside the name.
    pub detail: String,
    /// The place of its first byte.
    pub from: usize,
    /// The place after its last byte.
    pub to: usize,
    /// The place of its name's first byte, not before `from`.
    pub name_from: usize,
    /// The place after its name's last byte, not after `to`.
    pub name_to: usize,
}

/// Lines that can be folded: from the line of `from` to the line of `to`.
#[derive(Clone, Copy, Debug, PartialEq, Eq)]
pub struct Fold {
    /// A place on the first line.
    pub from: usize,
    /// A place on the last line, a later one.
    pub to: usize,
    /// Whether the lines are comments.
    pub is_comment: bool,
}

/// A word that may stand at a place of a text.
#[derive(Drop)]
pub struct Choice {
    /// What it is.
    pub class: WordClass,
    /// The word.
    pub text: String,
    /// What is said of it in the list of choices; may be empty.
    pub detail: String,
}

/// What is said of a word.
#[derive(Drop)]
pub struct Hover {
    /// The place of the word's first byte.
    pub from: usize,
    /// The place after its last byte.
    pub to: usize,
    /// What is said of it, in Markdown.
    pub text: String,
}
