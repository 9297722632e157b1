//! The statements of schedules and scenarios: where a word may stand, what it may be there, and what may follow (docs/TOOLS.md, "Lines of
//! scripts" and "Expectations"; docs/FORMATS.md, "Schedules").

use crate::outline::ScriptKind;

/// Where a word stands: what came before it on its line.
#[derive(Clone, Copy, PartialEq, Eq)]
pub(crate) enum Stage {
    /// Nothing, in a schedule.
    Schedule,
    Slots,
    Slot,
    SlotSample,
    SlotHousekeeping,
    /// Nothing, in a scenario.
    Scenario,
    Moment,
    After,
    Fields,
    FieldsCount,
    FieldsLength,
    FieldType,
    FieldOffset,
    FieldValue,
    Telemetry,
    Command,
    CountOrCode,
    Tick,
    Sample,
    SampleLast,
    Ages,
    Housekeeping,
    Application,
    Load,
    Table,
    Half,
    HalfName,
    File,
    Packet,
    Record,
    RecordPart,
    RecordKind,
    Ramp,
    RampFrom,
    RampTo,
    RampBy,
    RampStep,
    RampEach,
    RampSeconds,
    RampTick,
    Repeat,
    RepeatOpen,
    Mode,
    State,
    StateWord,
    Filter,
    FilterEvent,
    Expect,
    ExpectNo,
    Sequence,
    Event,
    NoEvent,
    /// What may come, maybe with its number.
    Coming,
    /// What may come, without its span.
    Spans,
    /// A span that lacks its first second.
    From,
    /// A span with its first second, after which its end may come.
    FromSecond,
    /// A span that lacks its end.
    Until,
    /// A span with its end, after which its first second may come.
    UntilSecond,
    /// A span that lacks one second alone.
    LastSpan,
    ExpectState,
    ExpectResult,
    ResultWord,
    /// The name of a packet, and fields with their values.
    Values,
    /// A statement that lacks one number.
    OneNumber,
    /// A statement that lacks its bytes.
    Bytes,
    /// A whole statement.
    End,
}

/// Words of the language.
pub(crate) type WordList = &'static [&'static [u8]];

/// What a word may be.
#[derive(Clone, Copy)]
pub(crate) enum WordPart {
    Keyword(WordList),
    Constant(WordList),
    Sign(WordList),
    /// Names that the host has.
    Known(WordList),
    /// Any other name.
    Name,
    Number,
    Bytes,
    Type,
    Packet,
    Field,
    Rule,
    /// `FIELD=VALUE`.
    Value,
}

/// A word that may stand at a stage, and the stage after it.
pub(crate) type Step = (Stage, WordPart, Stage);

const APPLICATIONS: WordList = &[b"LC", b"SCH", b"COUNTER"];

const STATES: WordList = &[b"active", b"passive", b"disabled", b"off"];

const FROM: WordPart = WordPart::Keyword(&[b"from"]);

const AT: WordPart = WordPart::Keyword(&[b"at"]);

const UNTIL: WordPart = WordPart::Keyword(&[b"by", b"until"]);

/// All steps. The last one of a stage is taken for a word that none fits.
pub(crate) const STEPS: &[Step] = &[
    (
        Stage::Schedule,
        WordPart::Keyword(&[b"slots"]),
        Stage::Slots,
    ),
    (Stage::Schedule, WordPart::Number, Stage::Slot),
    (Stage::Slots, WordPart::Number, Stage::End),
    (
        Stage::Slot,
        WordPart::Keyword(&[b"sample"]),
        Stage::SlotSample,
    ),
    (
        Stage::Slot,
        WordPart::Keyword(&[b"housekeeping"]),
        Stage::SlotHousekeeping,
    ),
    (Stage::SlotSample, WordPart::Number, Stage::SampleLast),
    (Stage::Scenario, WordPart::Keyword(&[b"at"]), Stage::Moment),
    (
        Stage::Scenario,
        WordPart::Keyword(&[b"after"]),
        Stage::After,
    ),
    (Stage::Scenario, WordPart::Keyword(&[b"tick"]), Stage::Tick),
    (Stage::Scenario, WordPart::Keyword(&[b"ramp"]), Stage::Ramp),
    (
        Stage::Scenario,
        WordPart::Keyword(&[b"repeat"]),
        Stage::Repeat,
    ),
    (Stage::Scenario, WordPart::Sign(&[b"}"]), Stage::End),
    (
        Stage::Scenario,
        WordPart::Keyword(&[b"expect"]),
        Stage::Expect,
    ),
    (Stage::Scenario, WordPart::Keyword(&[b"mode"]), Stage::Mode),
    (
        Stage::Scenario,
        WordPart::Keyword(&[b"state"]),
        Stage::State,
    ),
    (
        Stage::Scenario,
        WordPart::Keyword(&[b"filter"]),
        Stage::Filter,
    ),
    (
        Stage::Scenario,
        WordPart::Keyword(&[b"sample"]),
        Stage::Sample,
    ),
    (
        Stage::Scenario,
        WordPart::Keyword(&[b"housekeeping"]),
        Stage::Housekeeping,
    ),
    (
        Stage::Scenario,
        WordPart::Keyword(&[b"start", b"stop", b"restart", b"reload"]),
        Stage::Application,
    ),
    (Stage::Scenario, WordPart::Keyword(&[b"load"]), Stage::Load),
    (
        Stage::Scenario,
        WordPart::Keyword(&[b"validate", b"activate", b"abort"]),
        Stage::Table,
    ),
    (
        Stage::Scenario,
        WordPart::Keyword(&[b"wdt", b"adt"]),
        Stage::Half,
    ),
    (Stage::Scenario, WordPart::Keyword(&[b"file"]), Stage::File),
    (
        Stage::Scenario,
        WordPart::Keyword(&[b"fields"]),
        Stage::Fields,
    ),
    (
        Stage::Scenario,
        WordPart::Keyword(&[b"telemetry"]),
        Stage::Telemetry,
    ),
    (
        Stage::Scenario,
        WordPart::Keyword(&[b"command"]),
        Stage::Command,
    ),
    (
        Stage::Scenario,
        WordPart::Keyword(&[b"packet"]),
        Stage::Packet,
    ),
    (
        Stage::Scenario,
        WordPart::Keyword(&[b"record"]),
        Stage::Record,
    ),
    (Stage::Scenario, WordPart::Packet, Stage::Values),
    (Stage::Values, WordPart::Value, Stage::Values),
    (Stage::Moment, WordPart::Number, Stage::OneNumber),
    (Stage::After, WordPart::Number, Stage::End),
    (Stage::OneNumber, WordPart::Number, Stage::End),
    (Stage::Fields, WordPart::Bytes, Stage::FieldsCount),
    (Stage::FieldsCount, WordPart::Number, Stage::FieldsLength),
    (Stage::FieldsLength, WordPart::Number, Stage::FieldType),
    (Stage::FieldType, WordPart::Type, Stage::FieldOffset),
    (Stage::FieldOffset, WordPart::Number, Stage::FieldValue),
    (Stage::FieldValue, WordPart::Number, Stage::FieldType),
    (Stage::Telemetry, WordPart::Bytes, Stage::CountOrCode),
    (Stage::Command, WordPart::Bytes, Stage::CountOrCode),
    (Stage::CountOrCode, WordPart::Number, Stage::Bytes),
    (Stage::Bytes, WordPart::Bytes, Stage::End),
    (Stage::Sample, WordPart::Number, Stage::SampleLast),
    (Stage::SampleLast, WordPart::Number, Stage::Ages),
    (
        Stage::Ages,
        WordPart::Constant(&[b"age", b"keep"]),
        Stage::End,
    ),
    (
        Stage::Application,
        WordPart::Known(APPLICATIONS),
        Stage::End,
    ),
    (Stage::Application, WordPart::Name, Stage::End),
    (Stage::Load, WordPart::Name, Stage::End),
    (
        Stage::Table,
        WordPart::Known(&[b"LC.LC_WDT", b"LC.LC_ADT"]),
        Stage::End,
    ),
    (Stage::Table, WordPart::Name, Stage::End),
    (Stage::Half, WordPart::Number, Stage::HalfName),
    (Stage::HalfName, WordPart::Name, Stage::End),
    (Stage::File, WordPart::Name, Stage::Bytes),
    (Stage::Packet, WordPart::Bytes, Stage::End),
    (Stage::Record, WordPart::Number, Stage::RecordPart),
    (Stage::RecordPart, WordPart::Number, Stage::RecordKind),
    (
        Stage::RecordKind,
        WordPart::Keyword(&[b"packet", b"tick", b"file", b"half"]),
        Stage::Bytes,
    ),
    (Stage::Ramp, WordPart::Field, Stage::RampFrom),
    (Stage::RampFrom, WordPart::Number, Stage::RampTo),
    (Stage::RampTo, WordPart::Number, Stage::RampBy),
    (Stage::RampBy, WordPart::Keyword(&[b"by"]), Stage::RampStep),
    (Stage::RampStep, WordPart::Number, Stage::RampEach),
    (
        Stage::RampEach,
        WordPart::Keyword(&[b"each"]),
        Stage::RampSeconds,
    ),
    (Stage::RampSeconds, WordPart::Number, Stage::RampTick),
    (Stage::RampTick, WordPart::Keyword(&[b"tick"]), Stage::End),
    (Stage::Repeat, WordPart::Number, Stage::RepeatOpen),
    (Stage::RepeatOpen, WordPart::Sign(&[b"{"]), Stage::End),
    (
        Stage::Mode,
        WordPart::Constant(&[b"active", b"passive", b"disabled"]),
        Stage::End,
    ),
    (Stage::State, WordPart::Constant(&[b"all"]), Stage::Mode),
    (Stage::State, WordPart::Number, Stage::StateWord),
    (Stage::State, WordPart::Rule, Stage::StateWord),
    (Stage::StateWord, WordPart::Constant(STATES), Stage::End),
    (
        Stage::Filter,
        WordPart::Known(APPLICATIONS),
        Stage::FilterEvent,
    ),
    (Stage::Filter, WordPart::Name, Stage::FilterEvent),
    (Stage::FilterEvent, WordPart::Number, Stage::OneNumber),
    (Stage::Expect, WordPart::Keyword(&[b"no"]), Stage::ExpectNo),
    (
        Stage::Expect,
        WordPart::Keyword(&[b"sequence"]),
        Stage::Sequence,
    ),
    (Stage::Expect, WordPart::Keyword(&[b"event"]), Stage::Event),
    (
        Stage::Expect,
        WordPart::Keyword(&[b"state"]),
        Stage::ExpectState,
    ),
    (
        Stage::Expect,
        WordPart::Keyword(&[b"result"]),
        Stage::ExpectResult,
    ),
    (
        Stage::ExpectNo,
        WordPart::Keyword(&[b"sequence"]),
        Stage::Coming,
    ),
    (
        Stage::ExpectNo,
        WordPart::Keyword(&[b"event"]),
        Stage::NoEvent,
    ),
    (
        Stage::NoEvent,
        WordPart::Constant(&[b"HOST"]),
        Stage::Coming,
    ),
    (Stage::NoEvent, FROM, Stage::From),
    (Stage::NoEvent, AT, Stage::LastSpan),
    (Stage::NoEvent, UNTIL, Stage::Until),
    (Stage::NoEvent, WordPart::Number, Stage::Spans),
    (Stage::Event, WordPart::Constant(&[b"HOST"]), Stage::Coming),
    (Stage::Event, FROM, Stage::From),
    (Stage::Event, AT, Stage::LastSpan),
    (Stage::Event, UNTIL, Stage::Until),
    (Stage::Event, WordPart::Number, Stage::Spans),
    (Stage::Sequence, FROM, Stage::From),
    (Stage::Sequence, AT, Stage::LastSpan),
    (Stage::Sequence, UNTIL, Stage::Until),
    (Stage::Sequence, WordPart::Number, Stage::Spans),
    (Stage::Coming, FROM, Stage::From),
    (Stage::Coming, AT, Stage::LastSpan),
    (Stage::Coming, UNTIL, Stage::Until),
    (Stage::Coming, WordPart::Number, Stage::Spans),
    (Stage::Spans, FROM, Stage::From),
    (Stage::Spans, AT, Stage::LastSpan),
    (Stage::Spans, UNTIL, Stage::Until),
    (Stage::From, WordPart::Number, Stage::FromSecond),
    (Stage::FromSecond, UNTIL, Stage::LastSpan),
    (Stage::Until, WordPart::Number, Stage::UntilSecond),
    (Stage::UntilSecond, FROM, Stage::LastSpan),
    (Stage::LastSpan, WordPart::Number, Stage::End),
    (Stage::ExpectState, WordPart::Rule, Stage::StateWord),
    (Stage::ExpectResult, WordPart::Rule, Stage::ResultWord),
    (
        Stage::ResultWord,
        WordPart::Constant(&[b"none", b"pass", b"fail", b"stale", b"error"]),
        Stage::End,
    ),
];

/// The stage at the beginning of a line.
pub(crate) fn first_stage(kind: ScriptKind) -> Stage {
    match kind {
        ScriptKind::Schedule => Stage::Schedule,
        ScriptKind::Scenario => Stage::Scenario,
    }
}
