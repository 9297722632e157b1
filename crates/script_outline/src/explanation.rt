//! What is said of statements, in the words of docs/TOOLS.md and docs/FORMATS.md.

use crate::statement::Stage;

/// The form of a statement, and what it says.
#[derive(Clone, Copy)]
pub(crate) struct Explanation {
    pub form: &'static str,
    pub says: &'static str,
}

/// What is said of statements, by the stage after the word that begins them.
const EXPLANATIONS: &[(Stage, &str, &str)] = &[
    (Stage::Slots, "slots N", "A schedule of N slots, 1 to 64."),
    (
        Stage::SlotSample,
        "S sample START END age|keep",
        "Slot S samples rules START to END, and the watchpoints age afterwards, or not.",
    ),
    (
        Stage::SlotHousekeeping,
        "S housekeeping",
        "Slot S asks for the Limit Checker's housekeeping.",
    ),
    (
        Stage::Moment,
        "at S F",
        "What follows is at second S and F / 65,536.",
    ),
    (Stage::After, "after S", "What follows is S seconds later."),
    (
        Stage::Fields,
        "fields MID COUNT LENGTH {TYPE OFFSET VALUE}",
        "A telemetry packet: each field has a type of the rule language, its first byte and a decimal value; all else is 0.",
    ),
    (
        Stage::Telemetry,
        "telemetry MID COUNT BYTES",
        "A telemetry packet with this message id and sequence count, and these bytes after the header.",
    ),
    (
        Stage::Command,
        "command MID CODE BYTES",
        "A command with this code and payload, its checksum, and sequence count 0.",
    ),
    (Stage::Tick, "tick", "A tick."),
    (
        Stage::Sample,
        "sample FIRST LAST age|keep",
        "A request to sample these rules, after which watchpoints age, or do not.",
    ),
    (
        Stage::Housekeeping,
        "housekeeping",
        "A request for LC's housekeeping.",
    ),
    (
        Stage::Application,
        "start|stop|restart|reload NAME",
        "An order to `LC`, `SCH` or `COUNTER`.",
    ),
    (
        Stage::Load,
        "load FILE",
        "A command to the table services: it loads a table file.",
    ),
    (
        Stage::Table,
        "validate|activate|abort TABLE",
        "A command to the table services; the tables are `LC.LC_WDT` and `LC.LC_ADT`.",
    ),
    (
        Stage::Half,
        "wdt|adt TEXT NAME",
        "A half of the rule text with this number, stored as the file NAME.",
    ),
    (Stage::File, "file NAME BYTES", "A file with these bytes."),
    (
        Stage::Packet,
        "packet BYTES",
        "A packet with these bytes, whatever they are.",
    ),
    (
        Stage::Record,
        "record S F KIND BYTES",
        "A record of kind `packet`, `tick`, `file` or `half` at second S and F / 65,536; so are the lines that follow.",
    ),
    (
        Stage::Ramp,
        "ramp FIELD FROM TO by STEP each SECONDS [tick]",
        "A packet for each value; after each packet a tick, if `tick` stands there, and then SECONDS pass.",
    ),
    (
        Stage::Repeat,
        "repeat NUMBER {",
        "The lines up to `}`, NUMBER times; may be nested.",
    ),
    (
        Stage::Mode,
        "mode active|passive|disabled",
        "The command that sets LC's mode.",
    ),
    (
        Stage::State,
        "state RULE active|passive|disabled|off",
        "The command that sets the state of a rule, or of `all` (which cannot be off); a number is the rule's own.",
    ),
    (
        Stage::Filter,
        "filter APPLICATION EVENT MASK",
        "The command that sets an event filter.",
    ),
    (
        Stage::Expect,
        "expect ..",
        "An expectation; it adds nothing to the stream.",
    ),
    (
        Stage::ExpectNo,
        "expect no sequence|event [NUMBER] ..",
        "No such request or event comes.",
    ),
    (
        Stage::Sequence,
        "expect sequence [NUMBER] ..",
        "A request for this command sequence comes; without a number, any.",
    ),
    (
        Stage::Event,
        "expect event [HOST] [NUMBER] ..",
        "An event of LC with this number comes, or after `HOST` one of the host's own; without a number, any.",
    ),
    (
        Stage::LastSpan,
        ".. from S, .. at S, .. by S, .. until S",
        "From second S on; in S; up to S; before S; else in the whole run. `from` goes with one of the last two.",
    ),
    (
        Stage::ExpectState,
        "expect state RULE active|passive|disabled|off",
        "The rule is in this state after the lines before this one.",
    ),
    (
        Stage::ExpectResult,
        "expect result RULE none|pass|fail|stale|error",
        "The rule's last result is this one after the lines before this one.",
    ),
];

/// What is said of the statement at a stage.
pub(crate) fn explanation_of(stage: Stage) -> Option<Explanation> {
    let named = match stage {
        Stage::From | Stage::Until => Stage::LastSpan,
        stage => stage,
    };
    let row = EXPLANATIONS.iter().find(|row| row.0 == named)?;
    Some(Explanation {
        form: row.1,
        says: row.2,
    })
}
