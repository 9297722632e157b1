//! Laws of the event services: by seats, by names and by whole logs.

ghost use Rattle.std.specs.Prelude.{List, ℕ};
ghost use Rattle.lc_model.specs.Laws.Senders.{AllSameByLogs, ChangesKeep, CommandsByName, CommandsKeep, EventsByName, EventsKeep, FirstIsService, RegisteringByName, RegisteringKeeps, SameByLogs, UnregisteringByName, UnregisteringKeeps};

/// Every call of the event services keeps their invariant: eight seats, no name twice, a sequence count below 16,384.
pub fn event_services_stay_sound()
    ensures first { FirstIsService }
    ensures registering { RegisteringKeeps }
    ensures unregistering { UnregisteringKeeps }
    ensures commands { CommandsKeep }
    ensures events { EventsKeep }
    ensures changes { ChangesKeep }
{}

/// Every call changes the senders by name as in the host in numbers.
pub fn event_services_go_by_names()
    ensures registering { RegisteringByName }
    ensures unregistering { UnregisteringByName }
    ensures commands { CommandsByName }
    ensures events { EventsByName (List ℕ) }
{}

/// Over every list of calls, an event is sent exactly if its sender's log since registration chooses it.
pub fn event_services_go_by_logs()
    ensures call { SameByLogs }
    ensures calls { AllSameByLogs }
{}
