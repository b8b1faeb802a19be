//! The guarantee on confirmed changes, of every run.
ghost use Rattle.std.specs.Prelude.{Option};
ghost use Rattle.entries.specs.declared.kinds.Answer.{Answer};
ghost use Rattle.entries.specs.declared.kinds.Question.{Question};
ghost use Rattle.runs.specs.Guarantee.{EveryRun};

/// Of every type of change, every meaning that a kind may give it, and every list of steps from a made
/// site: confirmed changes survive in every later view, stand in one list, and are what later lookups
/// are answered from. No stamp is handed out twice, and no view is opened twice.
pub fn confirmed_changes_stand<E>()
    ensures { (says : E → Question → Option Answer) (unsettled : Answer) → EveryRun says unsettled }
{}
