//! The laws of scenarios, each stated by a function with an empty body.

ghost use Rattle.scenarios.specs.HostReads.{FieldsApartStay, LinesSayTheirValues, WrittenValuesAreRead};

/// States that the packet of a valid line has each value that the line gives, as the host reads it.
pub fn lines_say_their_values()
    ensures { LinesSayTheirValues }
{}

/// States that a written value that fits its field's type and mask is read again, whatever the packet had there before.
pub fn written_values_are_read()
    ensures { WrittenValuesAreRead }
{}

/// States that a field keeps its value if a field without common bytes is written.
pub fn fields_apart_stay()
    ensures { FieldsApartStay }
{}
