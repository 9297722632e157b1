//! Laws for every application, from the services' contracts.

ghost use Rattle.app_host.specs.Statements.{OpeningStarts, OpeningLeaves, OpeningSettles, TellingIsByName, TellingAnswers, TellingLeaves, TellingSettles, SilenceAnswers, SilenceLeaves, ClosingRetires, ClosingLeaves, NoTablesGo, StartedIsHome, GivenIsHome};

use host_refinement::calls_go_with_services;

/// Law: opening a seat, sending events, doing nothing and closing the seat keep the rules of the interface, and do exactly as
/// in the model.
pub fn seats_are_kept_by_the_rules()
    ensures opening_starts { OpeningStarts }
    ensures opening_leaves { OpeningLeaves }
    ensures opening_settles { OpeningSettles }
    ensures telling_is_by_name { TellingIsByName }
    ensures telling_answers { TellingAnswers }
    ensures telling_leaves { TellingLeaves }
    ensures telling_settles { TellingSettles }
    ensures silence_answers { SilenceAnswers }
    ensures silence_leaves { SilenceLeaves }
    ensures closing_retires { ClosingRetires }
    ensures closing_leaves { ClosingLeaves }
    ensures no_tables_go { NoTablesGo }
{}

/// Law: an object is at home on its seat from its start on, whatever packets it handles.
pub fn objects_are_at_home()
    ensures started { StartedIsHome }
    ensures given { GivenIsHome }
{
    calls_go_with_services();
}
