//! The laws of changed texts, each stated by a function with an empty body.

ghost use Rattle.rule_changes.specs.Runs.{RequestsAreSent, AlikeTextsRequestAlike, SequencesStayAlike, SequencesComeNoSooner};
ghost use Rattle.rule_changes.specs.RunsWritten.{AlikeTextsWriteSameRequests};

/// States that each request of a sequence is sent, so that laws of requests are laws of packets.
pub fn requests_are_sent()
    ensures { RequestsAreSent }
{}

/// States that two texts whose rules request alike, or never fail, call for the same sequence requests, byte for byte.
pub fn alike_texts_request_alike()
    ensures { AlikeTextsRequestAlike }
{}

/// States the same of two runs that write what their texts call for (`run`'s promise `by_texts`).
pub fn alike_texts_write_same_requests()
    ensures { AlikeTextsWriteSameRequests }
{}

/// States that two texts that are alike for a set of sequences request these at the same records, equally often and in the same
/// order.
pub fn sequences_stay_alike()
    ensures { SequencesStayAlike }
{}

/// States that a text that requests sequences of a set no sooner has, after each record, requested them at most as often, if no
/// command makes the Limit Checker passive.
pub fn sequences_come_no_sooner()
    ensures { SequencesComeNoSooner }
{}
