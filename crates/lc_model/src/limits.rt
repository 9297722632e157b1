//! The greatest sizes of tables, equations and texts (cFS Limit Checker user's guide for the entries; the others are this
//! project's own).

/// The entries of a table: the most watchpoints, and the most actionpoints.
pub const TABLE_ENTRIES: usize = 176;

/// The most words of an equation, EQUAL included.
pub const EQUATION_WORDS: usize = 32;

/// The most operands that may wait at once while an equation is evaluated.
pub const MOST_WAITING: usize = 8;

/// The most bytes of a rule text, and of a schedule's text.
pub const LONGEST_TEXT: usize = 65_536;
