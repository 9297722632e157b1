//! The host in numbers agrees with the world, and over whole runs writes what the rule texts call for. Each function does
//! nothing: it is a law. `app_host` and `flight_core` call those that their proofs need; nothing calls those marked *to read*.
#![tactic(auto)]

ghost use Rattle.std.specs.Prelude.{List, ℕ};
ghost use Rattle.lc_model.specs.Host.Promise.{Mission};
ghost use Rattle.lc_model.specs.Host.Schedule.{Schedule};
ghost use Rattle.lc_model.specs.Tables.HalvesAndBytes.{as_bytes};
ghost use Rattle.lc_model.specs.Tables.Image.{Layout};
ghost use Rattle.host_refinement.specs.Calls.{CallsKeepOthers, CopiesServe, PacketsKeep, PublishesFew, StartsGoWith, StartsWriteLittle, TheHostKeeps, WritesLittle};
ghost use Rattle.host_refinement.specs.Commands.{CommandsKeepForms, LoadsByName, MovesByName};
ghost use Rattle.host_refinement.specs.Invariants.{FilesStayAMap, NamesStayOwn, PipesFollowStates};
ghost use Rattle.host_refinement.specs.Parts.{HasSpares, HasStates, HoldsCounts, HoldsFiles, HoldsFilters, HoldsTables, IsKept, PipesAreEmpty, RunsOnOneSeat};
ghost use Rattle.host_refinement.specs.Writes.{CallsAreBounded, OpenHostsTake, WritesAreTheSteps};
ghost use Rattle.host_refinement.specs.Statements.{AreBytes, BeginsSo, EachRecordKeeps, RecordsAreFine, RunsGoOn, SchedulesFit, SeatsGoWith, StreamsBring, WritesByBytes, WritesByTexts, WritesWhatIsCalledFor, WritesWithFixedTables};

use lc_model::laws::table_services::table_services_go_by_names;

/// With nothing running and the same stock, the host in numbers and the world agree at the start.
pub fn begins_as_the_world()
    ensures { (layouts : List Layout) (schedule : Schedule) →
        BeginsSo (as_bytes layouts) AreBytes schedule }
{}

/// Each record keeps the host in numbers and the world in agreement, and the packets that it writes are those that the world
/// sends.
pub fn keeps_to_the_world()
    ensures { (layouts : List Layout) (schedule : Schedule) →
        EachRecordKeeps (as_bytes layouts) AreBytes schedule }
{}

/// Each record keeps the agreement, part by part. To read.
pub fn each_part_is_kept()
    // The stored files, the registered tables with their slots, the event senders with their types and filters, and the
    // sequence count of each message id are the world's.
    ensures files { (layouts : List Layout) (schedule : Schedule) →
        IsKept (as_bytes layouts) schedule AreBytes (HoldsFiles (as_bytes layouts) schedule) }
    ensures tables { (layouts : List Layout) (schedule : Schedule) →
        IsKept (as_bytes layouts) schedule AreBytes (HoldsTables (as_bytes layouts) schedule) }
    ensures filters { (layouts : List Layout) (schedule : Schedule) →
        IsKept (as_bytes layouts) schedule AreBytes (HoldsFilters (as_bytes layouts) schedule) }
    ensures counts { (layouts : List Layout) (schedule : Schedule) →
        IsKept (as_bytes layouts) schedule AreBytes (HoldsCounts (as_bytes layouts) schedule) }

    // An application that runs has one seat, and any other none; its object has the state that its lists give.
    ensures seats { (layouts : List Layout) (schedule : Schedule) →
        IsKept (as_bytes layouts) schedule AreBytes (RunsOnOneSeat (as_bytes layouts) schedule) }
    ensures states { (layouts : List Layout) (schedule : Schedule) →
        IsKept (as_bytes layouts) schedule AreBytes (HasStates (as_bytes layouts) schedule) }

    // The stock is the world's, and between records no packet waits.
    ensures spares { (layouts : List Layout) (schedule : Schedule) →
        IsKept (as_bytes layouts) schedule AreBytes (HasSpares (as_bytes layouts) schedule) }
    ensures pipes { (layouts : List Layout) (schedule : Schedule) →
        IsKept (as_bytes layouts) schedule AreBytes (PipesAreEmpty (as_bytes layouts) schedule) }
{}

/// Over whole runs the host in numbers writes exactly what the world sends. To read.
pub fn writes_what_is_called_for()
    ensures { (layouts : List Layout) (schedule : Schedule) →
        WritesWhatIsCalledFor (as_bytes layouts) AreBytes schedule }
{}

/// The host in numbers writes the packets of one more record after all earlier ones.
pub fn goes_on()
    ensures { (layouts : List Layout) → RunsGoOn (as_bytes layouts) }
{}

/// The records of a stream of bytes have files of bytes and halves of its texts, and these meet the laws' premises on records.
pub fn records_of_bytes_are_fine()
    ensures brought { StreamsBring }
    ensures fine { RecordsAreFine }
{}

/// The schedule of a text has 1 to 64 slots of at most eight entries. To read.
pub fn schedules_fit()
    ensures { SchedulesFit }
{}

/// Over a mission the host in numbers writes exactly what `run` promises: by the bytes of files, by the rule texts, and by one
/// text whose tables never change.
pub fn writes_a_mission()
    ensures bytes { (m : Mission) → WritesByBytes m }
    ensures texts { (m : Mission) → WritesByTexts m }
    ensures fixed { (m : Mission) → WritesWithFixedTables m }
{}

/// From its start on, an application's object agrees with the services of the host.
pub fn calls_go_with_services()
    // An object agrees with the services after its start, and still does after each packet.
    ensures start { (layouts : List Layout) → StartsGoWith (as_bytes layouts) }
    ensures packet { (layouts : List Layout) → PacketsKeep (as_bytes layouts) }

    // Calls of other applications, commands to services, stored files and sent requests keep this agreement.
    ensures others { (layouts : List Layout) → CallsKeepOthers (as_bytes layouts) }
    ensures host { (layouts : List Layout) → TheHostKeeps (as_bytes layouts) }

    // The Limit Checker does the same by its own copy of the tables in force as by the tables.
    ensures copies { (layouts : List Layout) → CopiesServe (as_bytes layouts) }

    // A call publishes at most eight packets, only for a tick, and no tick.
    ensures publications { (layouts : List Layout) → PublishesFew (as_bytes layouts) }
{}

/// Each object on a seat of an executive that agrees with a world agrees with its services. To read.
pub fn seats_go_with_services()
    ensures { (layouts : List Layout) (schedule : Schedule) →
        SeatsGoWith (as_bytes layouts) AreBytes schedule }
{}

/// One call writes at most 65,536 bytes. To read.
pub fn calls_write_little()
    ensures start { (layouts : List Layout) → StartsWriteLittle (as_bytes layouts) }
    ensures packet { (layouts : List Layout) → WritesLittle (as_bytes layouts) }
{}

/// A host's writes make up its step, with at most 520 calls of `on_packet`; if a write fails, the first bytes of the record's
/// output were written.
pub fn writes_are_the_steps()
    ensures packets { (layouts : List Layout) → WritesAreTheSteps (as_bytes layouts) }
    ensures calls { (layouts : List Layout) → CallsAreBounded (as_bytes layouts) }
    ensures taken { (layouts : List Layout) → OpenHostsTake (as_bytes layouts) }
{}

/// Every step keeps, for any input: at most eight stored files with different names; no two seats with objects of one name; and
/// pipes that have the subscriptions that their objects' states give, so that no other call can change them. To read.
pub fn steps_keep_their_order()
    ensures files { (layouts : List Layout) → FilesStayAMap (as_bytes layouts) }
    ensures names { (layouts : List Layout) → NamesStayOwn (as_bytes layouts) }
    ensures pipes { (layouts : List Layout) → PipesFollowStates (as_bytes layouts) }
{}

/// A table command changes the slot on the table's seat as the host in numbers changes it by name. A table keeps its name and
/// sizes.
pub fn table_commands_go_by_names()
    ensures moves { MovesByName }
    ensures loads { LoadsByName }
    ensures forms { CommandsKeepForms }
{
    table_services_go_by_names();
}
