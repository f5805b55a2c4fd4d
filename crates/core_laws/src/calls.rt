//! What the core asks of the outside at an event, what is heard of it, and what the record has of both. Each law is the contract of a public function with an
//! empty body.

ghost use Rattle.core_laws.specs.Calls.{CallsAreAnswered, FailuresAreOfTheirCalls, RecordsHaveTheCalls};

/// What may be heard of an event answers what it asks: nothing where nothing is asked or a text is said, a block or a failure to a get; to a put that it was
/// written, came late or failed. Where it fails, it is a failed call of the party of the get, or of the one that writes.
pub fn each_call_is_answered()
    ensures answered { CallsAreAnswered }
    ensures failed { FailuresAreOfTheirCalls }
{}

/// The record gets of an event the put that it asks for, with whether it was written or late, or the text that it says, and nothing else: nothing of a get, and
/// nothing of a put that failed.
pub fn the_record_has_each_call()
    ensures recorded { RecordsHaveTheCalls }
{}
