//! The law of places, stated by a function with an empty body.

ghost use Rattle.editor_text.specs.Laws.{PlacesAgree};

/// States that the place of a character's first byte gives that byte again.
pub fn places_agree()
    ensures { PlacesAgree }
{}
