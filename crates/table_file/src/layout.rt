//! The layouts of table images (this project's own).

ghost use Rattle.std.specs.Prelude.{◌≡◌, ◌==◌, if◌then◌else◌, Some, None, option_map};
ghost use Rattle.lc_model.specs.Tables.Image as model;
ghost use Rattle.lc_model.specs.Tables.InForce.{layouts};
ghost use Rattle.table_file.specs.Layout.{layout_of};

use lc_model::Kind;

/// The bytes before an image's entries.
pub const PREAMBLE_LENGTH: usize = 40;

/// The form of an image: all that differs between the tables.
#[derive(Clone, Copy, Debug, PartialEq, Eq)]
pub enum Layout {
    /// Watchpoints, in entries of 24 bytes.
    Watchpoints,
    /// Actionpoints with equations of 20 words, in entries of 86 bytes.
    Actionpoints,
    /// Actionpoints with equations of 32 words, in entries of 110 bytes.
    WideActionpoints,
}

impl Layout {
    /// The table that has images of this form.
    pub fn kind(self) -> Kind
        ensures { result ≡ model.kind_of (layout_of self) }
    {
        match self {
            Layout::Watchpoints => Kind::Wdt,
            Layout::Actionpoints | Layout::WideActionpoints => Kind::Adt,
        }
    }

    /// The version's number in the preamble.
    pub fn version(self) -> u16
        ensures { result ≡ model.version_of (layout_of self) }
    {
        match self {
            Layout::Watchpoints | Layout::Actionpoints => 1,
            Layout::WideActionpoints => 2,
        }
    }

    /// The number of words of each equation, EQUAL and the zeros after it among them.
    pub fn words(self) -> usize
        ensures { result ≡ model.words_in (layout_of self) }
    {
        match self {
            Layout::Watchpoints => 0,
            Layout::Actionpoints => 20,
            Layout::WideActionpoints => 32,
        }
    }

    /// The bytes of an entry.
    pub fn entry_length(self) -> usize
        ensures { result ≡ model.entry_length (layout_of self) }
    {
        match self {
            Layout::Watchpoints => 24,
            Layout::Actionpoints => 86,
            Layout::WideActionpoints => 110,
        }
    }

    /// The bytes of an image.
    pub fn image_length(self) -> usize
        ensures { result ≡ model.image_length (layout_of self) }
    {
        match self {
            Layout::Watchpoints => 4_264,
            Layout::Actionpoints => 15_176,
            Layout::WideActionpoints => 19_400,
        }
    }

    /// This layout if its images have this length.
    fn of_length(self, length: usize) -> Option<Layout>
        ensures { result ≡
            (if model.image_length (layout_of self) == length then Some self else None) }
    {
        if length == self.image_length() {
            Some(self)
        } else {
            None
        }
    }

    /// The layout of the images of a table that have this image's length, if there is one.
    pub fn of_image(kind: Kind, image: &[u8]) -> Option<Layout>
        ensures { option_map layout_of result ≡ model.layout_of layouts kind image.now }
    {
        match kind {
            Kind::Wdt => Layout::Watchpoints.of_length(image.len()),
            Kind::Adt => Layout::Actionpoints
                .of_length(image.len())
                .or(Layout::WideActionpoints.of_length(image.len())),
        }
    }
}
