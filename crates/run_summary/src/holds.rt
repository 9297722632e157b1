//! What holds back the event of a request.

use crate::plans::RulePlan;
use lc_model::EventKind;

/// What holds back the event of a request.
#[derive(Clone, Copy)]
pub enum Hold {
    /// Events of its type are off for the Limit Checker.
    TypeOff,
    /// A filter.
    Filter,
}

/// The types of events that are on for the Limit Checker.
#[derive(Clone, Copy)]
pub struct TypesOn {
    /// Whether debug events are on.
    pub debug: bool,
    /// Whether information events are on.
    pub information: bool,
    /// Whether error events are on.
    pub error: bool,
    /// Whether critical events are on.
    pub critical: bool,
}

/// All types, before the host was asked.
pub(crate) const ALL_ON: TypesOn = TypesOn {
    debug: true,
    information: true,
    error: true,
    critical: true,
};

impl TypesOn {
    /// Whether events of this type are on.
    fn is_on(self, kind: EventKind) -> bool {
        match kind {
            EventKind::Debug => self.debug,
            EventKind::Information => self.information,
            EventKind::Error => self.error,
            EventKind::Critical => self.critical,
        }
    }
}

/// What holds back the event of a rule if it doesn't come; `None` if the rule isn't known.
pub(crate) fn hold_of(rule: Option<&RulePlan>, types: TypesOn) -> Option<Hold> {
    match rule {
        None => None,
        Some(rule) => if types.is_on(rule.kind()) {
            Some(Hold::Filter)
        } else {
            Some(Hold::TypeOff)
        },
    }
}

/// What held back an event; `None` if it came.
pub(crate) fn hold_unless(event: Option<u64>, hold: Option<Hold>) -> Option<Hold> {
    match event {
        None => hold,
        Some(_) => None,
    }
}
