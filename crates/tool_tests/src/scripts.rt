//! What the library's refusals of scripts read like; the programs have other words for them.

use crate::claims::same;
use std::process::Abort;
use stream_script::{Reason, ScriptError};

/// Each reason, and its line.
const LINES: &[(Reason, &str)] = &[
    (Reason::UnknownStatement, "line 3: no statement"),
    (
        Reason::BadNumber,
        "line 3: a number is missing or out of range",
    ),
    (Reason::BadBytes, "line 3: bytes are missing"),
    (Reason::UnknownKind, "line 3: no kind of record"),
    (Reason::UnknownType, "line 3: no type of a field"),
    (
        Reason::OutsidePacket,
        "line 3: a field is outside its packet",
    ),
    (Reason::BadBody, "line 3: no body of a record of this kind"),
    (Reason::LongName, "line 3: a name is too long"),
];

#[test]
fn each_reason_has_its_sentence(rt: HostRuntime) {
    for (reason, line) in LINES {
        let error = ScriptError::Line {
            n: 3,
            reason: *reason,
        };
        let said = format!(in rt.alloc(); "{error}").expect(&rt, "memory for a line");
        same(&rt, *reason, said.as_str(), *line);
    }
    let said = format!(in rt.alloc(); "{}", ScriptError::Memory).expect(&rt, "memory for a line");
    same(&rt, "memory", said.as_str(), "out of memory");
}
