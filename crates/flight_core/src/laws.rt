//! Laws: however a stream is cut into pieces, its records are those of the whole stream.

ghost use Rattle.flight_core.specs.Cutting.{Begins, Comes, EndsBadly, EndsCut, EndsWhole, EveryCutting, Goes};
ghost use Rattle.flight_core.specs.Promises.{RunsKeepTheirPromises};
ghost use Rattle.flight_core.specs.Worlds.{HostsStandForTheTexts};

use host_refinement::{begins_as_the_world, keeps_to_the_world, records_of_bytes_are_fine};

/// Law: at any time the records of the whole stream are those handed out so far, and then those of the unread bytes and whatever
/// follows. It holds at the start, after each piece and after each record.
pub fn records_are_handed_out()
    ensures begins { Begins }
    ensures comes { Comes }
    ensures goes { Goes }
{}

/// Law: when the stream has ended, the unread bytes tell how: none after a whole record, a part of a record (142), or a bad
/// record (141), which ends it whatever follows.
pub fn the_rest_says_the_end()
    ensures bad { EndsBadly }
    ensures whole { EndsWhole }
    ensures cut { EndsCut }
{}

/// Law: for every list of calls of `Records`, the records handed out, their count and a bad record are those of the whole stream.
pub fn every_cutting_has_the_records_of_the_whole()
    ensures { EveryCutting }
{}

/// Law: the promises of a run with this profile's stock follow from `IsRun`.
pub fn runs_keep_their_promises()
    ensures { RunsKeepTheirPromises }
{}

/// Law: between two records the host agrees with the world that its records so far give, by the rule texts; and for the next
/// record `Host::step` writes exactly the packets that this world sends.
pub fn hosts_stand_for_the_texts()
    ensures { HostsStandForTheTexts }
{
    // For the proof: each record keeps the host in numbers and the world in agreement.
    begins_as_the_world();
    keeps_to_the_world();
    records_of_bytes_are_fine();
}
