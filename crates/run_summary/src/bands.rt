//! The tables in force and the Limit Checker's mode, over the run.

use crate::place::Place;
use lc_model::LcMode;
use std::alloc::{AllocError, Global};

/// The most entries of a band.
const MOST: usize = 500;

/// How tables came into force.
#[derive(Clone, Copy)]
pub enum How {
    /// No tables are in force.
    None,
    /// The Limit Checker started with them.
    Started,
    /// A housekeeping request adopted them.
    Adopted,
}

impl How {
    /// Whether no tables are in force.
    fn is_none_in_force(self) -> bool {
        match self {
            How::None => true,
            How::Started => false,
            How::Adopted => false,
        }
    }
}

/// The tables in force from a place on. An entry with `how` `None` is the last one: later changes aren't kept.
#[derive(Clone, Copy)]
pub struct TablesFrom {
    /// The place from which on they are in force.
    pub place: Place,
    /// The number of their rule text; `None` if there are no tables or their text isn't known.
    pub text: Option<usize>,
    /// How they came into force.
    pub how: Option<How>,
}

/// The Limit Checker's mode from a place on. An entry with `mode` `None` is the last one: later changes aren't kept.
#[derive(Clone, Copy)]
pub struct ModeFrom {
    /// The place from which on it has this mode.
    pub place: Place,
    /// The mode; `Some(None)` if no Limit Checker runs.
    pub mode: Option<Option<LcMode>>,
}

/// Whether two texts are the same, or both are unknown.
fn is_text(one: Option<usize>, other: Option<usize>) -> bool {
    match one {
        None => other.is_none(),
        Some(one) => match other {
            None => false,
            Some(other) => one == other,
        },
    }
}

/// The text in force if tables came into force so, and the host shows this one after them.
fn text_enforced(how: How, force: Option<usize>) -> Option<usize> {
    match how {
        How::None => None,
        How::Started => force,
        How::Adopted => force,
    }
}

/// How tables came into force that no packet reported, by the mode before the record.
fn how_unsaid(mode: Option<LcMode>) -> How {
    match mode {
        None => How::Started,
        Some(_) => How::Adopted,
    }
}

/// Appends an entry; in the last place `untold`, which ends the list. The only error is a lack of memory.
fn tell_more<T: Copy>(all: &mut Vec<T>, told: T, untold: T) -> Result<(), AllocError> {
    let count = all.len() + 1;
    if count < MOST {
        all.push(told)?;
    } else if count == MOST {
        all.push(untold)?;
    }
    Ok(())
}

/// A number for each mode, and for no Limit Checker.
fn mode_number(mode: Option<LcMode>) -> u16 {
    match mode {
        None => 0,
        Some(mode) => mode.code(),
    }
}

/// The changes of tables and modes over a run.
#[derive(Drop)]
pub struct Bands {
    tables: Vec<TablesFrom>,
    modes: Vec<ModeFrom>,
    force: Option<usize>,
    text: Option<usize>,
    how: How,
    mode: Option<LcMode>,
}

impl Bands {
    pub(crate) fn new(alloc: Global) -> Bands {
        Bands {
            tables: Vec::new(alloc),
            modes: Vec::new(alloc),
            force: None,
            text: None,
            how: How::None,
            mode: None,
        }
    }

    /// The tables in force, from each place on, in order.
    pub fn tables(&self) -> &[TablesFrom] {
        self.tables.as_slice()
    }

    /// The Limit Checker's modes, from each place on, in order.
    pub fn modes(&self) -> &[ModeFrom] {
        self.modes.as_slice()
    }

    /// The number of the rule text in force, if it is known.
    pub fn text(&self) -> Option<usize> {
        self.text
    }

    /// Whether the Limit Checker takes the packets that its tables watch: after the last record it runs and isn't disabled.
    pub(crate) fn is_watching(&self) -> bool {
        match self.mode {
            None => false,
            Some(LcMode::Active) => true,
            Some(LcMode::Passive) => true,
            Some(LcMode::Disabled) => false,
        }
    }

    /// Takes the text in force that the host shows.
    pub(crate) fn show(&mut self, force: Option<usize>) {
        self.force = force;
    }

    /// Whether the host showed another text than the one in force.
    pub(crate) fn has_changed(&self) -> bool {
        !is_text(self.text, self.force)
    }

    /// How tables came into force that no packet of the last record reported, if they did; the mode is that after the record.
    pub(crate) fn how_left(&self, mode: Option<LcMode>) -> Option<How> {
        match mode {
            None => if self.how.is_none_in_force() {
                None
            } else {
                Some(How::None)
            },
            Some(_) => if self.has_changed() {
                Some(how_unsaid(self.mode))
            } else {
                None
            },
        }
    }

    /// Takes that tables came into force, or none are. The only error is a lack of memory.
    pub(crate) fn enforce(&mut self, place: Place, how: How) -> Result<(), AllocError> {
        self.text = text_enforced(how, self.force);
        self.how = how;
        self.tell_tables(place)
    }

    /// Appends the tables in force. The only error is a lack of memory.
    fn tell_tables(&mut self, place: Place) -> Result<(), AllocError> {
        let told = TablesFrom {
            place,
            text: self.text,
            how: Some(self.how),
        };
        let untold = TablesFrom {
            place,
            text: None,
            how: None,
        };
        tell_more(&mut self.tables, told, untold)
    }

    /// Appends the mode to the band.
    fn tell_mode(&mut self, place: Place, mode: Option<LcMode>) -> Result<(), AllocError> {
        self.mode = mode;
        let told = ModeFrom {
            place,
            mode: Some(mode),
        };
        let untold = ModeFrom { place, mode: None };
        tell_more(&mut self.modes, told, untold)
    }

    /// Takes the mode after a record; it is appended at the first record and at each change. The only error is a lack of memory.
    pub(crate) fn take_mode(
        &mut self,
        place: Place,
        mode: Option<LcMode>,
    ) -> Result<(), AllocError> {
        if self.modes.len() == 0 || mode_number(self.mode) != mode_number(mode) {
            return self.tell_mode(place, mode);
        }
        Ok(())
    }

    /// Appends the tables in force, if nothing was appended before. The only error is a lack of memory.
    pub(crate) fn begin(&mut self, place: Place) -> Result<(), AllocError> {
        if self.tables.len() == 0 {
            return self.tell_tables(place);
        }
        Ok(())
    }

    /// Drops all entries, and keeps what is in force.
    pub(crate) fn begin_anew(&mut self) {
        self.tables.clear();
        self.modes.clear();
    }
}
