//! Three runs in which all occurs that the guarantee speaks of, so that it is not true for an empty reason.
ghost use Rattle.runs.specs.ExampleRuns.{ConfirmedRun, LateRun, LostRun};

/// In the one a change is confirmed, the view changes, a later view is opened and a question asked there.
/// In another a slip is lost. In the third a slip is confirmed after a later view was opened and asked.
pub fn guarantee_is_not_empty()
    ensures confirmed { ConfirmedRun }
    ensures lost { LostRun }
    ensures late { LateRun }
{}
