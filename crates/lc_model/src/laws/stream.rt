//! Laws of streams.

ghost use Rattle.lc_model.specs.Laws.Stream.{AllFrontsStay, FrontDecides, RecordsGoOn};

/// The records of a stream are the next record and those of the rest, or its end.
pub fn front_decides()
    ensures { FrontDecides }
{}

/// A whole or a bad record at the start of some bytes is the same whatever bytes follow.
pub fn fronts_stay()
    ensures { AllFrontsStay }
{}

/// If some bytes end after a whole record, the records of a longer stream are those of these bytes, and then those of the bytes
/// that follow.
pub fn records_go_on()
    ensures { RecordsGoOn }
{}
