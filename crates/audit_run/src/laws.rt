ghost use Rattle.audit_run.specs.Facts.{FactsFollow, NoReadFails, UsualLimitsGiveTheSameReport};

/// What stands after a run, where the source tells its bytes, fact by fact.
pub fn the_facts_of_a_run_follow()
    ensures { FactsFollow }
{}

/// A run of a generated trace never answers that a read failed.
pub fn no_read_of_a_generated_trace_fails()
    ensures { NoReadFails }
{}

/// Under the usual limits the audit of a large heap has exactly the report of `audit`, on the same words.
pub fn the_usual_limits_give_the_same_report()
    ensures { UsualLimitsGiveTheSameReport }
{}
