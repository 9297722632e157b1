//! The results of an analysis: of conditions, rules and texts.

use lc_model::Term;

/// Why it isn't known whether a condition can be true.
#[derive(Clone, Copy, Debug, PartialEq, Eq)]
pub enum UnknownReason {
    /// Values of its fields make it true, but no packets with all these values were found: fields share bits with each other or with
    /// a packet's header, or end after the longest packet.
    Overlap,
    /// The allowed steps did not suffice; they are fewer than 2^n for its n different comparisons.
    Steps,
}

/// Whether a condition can be true.
#[derive(Debug, Drop)]
pub enum Finding {
    /// No packets make it true, in any order.
    Never,
    /// These packets make it true. They are listed latest first.
    Possible(Vec<Vec<u8>>),
    /// It isn't known, for this reason.
    Unknown(UnknownReason),
}

/// Whether a comparison has the same outcome for all values of its field.
#[derive(Clone, Copy, Debug, PartialEq, Eq)]
pub enum Constancy {
    /// It is true for all values.
    Always,
    /// It is false for all values.
    Never,
    /// It is true for some values and false for others.
    Varies,
}

/// A comparison of a rule, judged by itself.
#[derive(Clone, Copy, Debug)]
pub struct ComparisonJudgement {
    /// The comparison.
    pub term: Term,
    /// Whether its outcome is always the same.
    pub says: Constancy,
}

/// The judgement of one rule.
#[derive(Debug, Drop)]
pub struct RuleJudgement {
    /// Whether its condition can be true, so that it fails.
    pub fails: Finding,
    /// Whether its condition can be false, so that it passes.
    pub passes: Finding,
    /// Its comparisons, in the order of the text.
    pub comparisons: Vec<ComparisonJudgement>,
}

/// The judgement of a rule text.
#[derive(Debug, Drop)]
pub struct Judgement {
    /// The judgements of its rules, in their order.
    pub rules: Vec<RuleJudgement>,
}

/// How two rules are related whenever the fields of both are known, that is neither stale nor in error.
#[derive(Clone, Copy, Debug, PartialEq, Eq)]
pub enum Relation {
    /// Each rule fails whenever the other one fails.
    Same,
    /// The first rule fails whenever the second one fails.
    FirstFollows,
    /// The second rule fails whenever the first one fails.
    SecondFollows,
}

/// Two related rules of a text. Rules are numbered from 0; the smaller number is first.
#[derive(Clone, Copy, Debug, PartialEq, Eq)]
pub struct PairJudgement {
    /// The smaller rule number.
    pub first: usize,
    /// The greater rule number.
    pub second: usize,
    /// How the two rules are related.
    pub relation: Relation,
}

/// The judgements of the pairs of a text's rules.
#[derive(Debug, Drop)]
pub struct PairJudgements {
    /// The related pairs.
    pub related: Vec<PairJudgement>,
    /// The number of pairs of which it isn't known how they are related; one that is listed may be among them, if only one direction is
    /// known.
    pub unsettled: usize,
}

/// A comparison that a rule can do without: the rule has the same result with a fixed value in its place.
#[derive(Clone, Copy, Debug)]
pub struct SpareComparison {
    /// The rule's number, counted from 0.
    pub rule: usize,
    /// The comparison.
    pub term: Term,
    /// The fixed value.
    pub taken_as: bool,
}

/// The judgements of the comparisons of a text's rules.
#[derive(Debug, Drop)]
pub struct SpareJudgements {
    /// The comparisons that their rules can do without.
    pub spare: Vec<SpareComparison>,
    /// The number of comparisons of which it isn't known whether their rules can do without them.
    pub unsettled: usize,
}
