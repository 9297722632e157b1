//! The laws of scripts and streams, each stated by a function with an empty body.

ghost use Rattle.stream_script.specs.ByLines.{SaysItsFronts};
ghost use Rattle.stream_script.specs.Telemetry.{SaysTelemetry};
ghost use Rattle.stream_script.specs.Whole.{SaysTheRecords, SaysTheStream};

/// States that the script of a stream gives back its records, up to the first fault, byte for byte.
pub fn scripts_say_their_records()
    ensures { SaysTheRecords }
{}

/// States that the script of a stream that ends after a whole record gives back the stream, byte for byte. The numbers of its rule
/// texts may be any.
pub fn scripts_say_whole_streams()
    ensures { SaysTheStream }
{}

/// States that the part of a script before a line gives the part of the stream before that line's place.
pub fn scripts_say_their_fronts()
    ensures { SaysItsFronts }
{}

/// States that a `telemetry` line adds one record at the moment: the packet with its message id, count and payload.
pub fn telemetry_lines_say_telemetry()
    ensures { SaysTelemetry }
{}
