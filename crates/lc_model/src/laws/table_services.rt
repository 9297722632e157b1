//! Laws of the table services.

ghost use Rattle.lc_model.specs.Laws.TableServices.{ChangesStaySound, CommandsStaySound, FilesStaySound, FirstIsSound, RegisteringStaysSound, UnregisteringStaysSound};
ghost use Rattle.lc_model.specs.Laws.TablesByName.{TablesAreFound, RegisteringTables, UnregisteringTables, ChangingTables, StoringFiles};

/// Every call keeps the invariant: at most eight files with different names and at most 32,768 bytes each, at most two tables a
/// seat, no table name twice.
pub fn table_services_stay_sound()
    ensures first { FirstIsSound }
    ensures files { FilesStaySound }
    ensures registering { RegisteringStaysSound }
    ensures unregistering { UnregisteringStaysSound }
    ensures commands { CommandsStaySound }
    ensures changes { ChangesStaySound }
{}

/// Every call changes files and slots by name as in the host in numbers.
pub fn table_services_go_by_names()
    ensures found { TablesAreFound }
    ensures registering { RegisteringTables }
    ensures unregistering { UnregisteringTables }
    ensures changes { ChangingTables }
    ensures files { StoringFiles }
{}
