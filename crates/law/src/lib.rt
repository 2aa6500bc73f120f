// The record law: what holds of every session, whatever was called and answered.
#![tactic(auto)]

ghost use Rattle.law.specs.Devices.{TypedLaw, RetiredLaw, NeverNamedAgain};
ghost use Rattle.law.specs.Drain.{DrainLaw};
ghost use Rattle.law.specs.Runs.{RecordLaw};

// No run of calls loses, doubles, reorders, misfiles or mistimes an accepted event.
pub fn record_law()
    ensures { RecordLaw }
{}

// Repeated calls for the next event give the queue in order, and then none.
pub fn drain_law()
    ensures { DrainLaw }
{}

// A device that is live, or was, has a type.
pub fn typed_law()
    ensures { TypedLaw }
{}

// What is retired is named by nothing that is held, and by no event that is handed out later.
pub fn retired_law()
    ensures held { RetiredLaw }
    ensures handed { NeverNamedAgain }
{}
