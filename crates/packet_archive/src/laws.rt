//! The laws of imports and exports, each stated by a function with an empty body.

ghost use Rattle.packet_archive.specs.Breaks.{StepsBackAreReported};
ghost use Rattle.packet_archive.specs.Export.{ArchivesAreGivenBack, ExportsGoOn, ExportsInPieces, ImportsAreGivenBack};
ghost use Rattle.packet_archive.specs.Import.{ImportsInPieces, TicksGoOn};
ghost use Rattle.packet_archive.specs.Parts.{EachByteHasAPlace};

/// States that an archive imported in pieces gives the same stream as a whole, if the rest of each piece goes before the next.
pub fn imports_in_pieces()
    ensures { ImportsInPieces }
{}

/// States that each byte of an archive is in a packet, a gap of zeros or a skipped part, or is left; and that an import that
/// resynchronizes leaves none at an archive's end.
pub fn imports_lose_no_byte()
    ensures { EachByteHasAPlace }
{}

/// States that ticks go on after each packet taken, whatever its time: the next one comes at most two periods after it.
pub fn ticks_go_on()
    ensures { TicksGoOn }
{}

/// States that an import reports exactly the steps back between a packet of its stream and the next, each with both moments.
pub fn steps_back_are_reported()
    ensures { StepsBackAreReported }
{}

/// States that the export of streams one after the other is the exports of each, one after the other.
pub fn exports_go_on()
    ensures { ExportsGoOn }
{}

/// States that a stream exported in pieces gives the same archive as a whole, if the rest of each piece goes before the next.
pub fn exports_in_pieces()
    ensures { ExportsInPieces }
{}

/// States that an import, exported again, gives byte for byte the packets of the archive that are asked for, with any options and
/// any times.
pub fn imports_are_given_back()
    ensures { ImportsAreGivenBack }
{}

/// States that an archive of packets without a fault, wholly imported and exported again, is the same packets byte for byte, also if
/// the import resynchronizes.
pub fn archives_are_given_back()
    ensures { ArchivesAreGivenBack }
{}
