ghost use Rattle.trace_run.specs.Facts.{EqualReports, FactsFollow, NoReadFails};

/// What stands after a run, where the source tells its bytes, fact by fact.
pub fn the_facts_of_a_run_follow()
    ensures { FactsFollow }
{}

/// A run over a source that counts no faults never answers that a read failed.
pub fn no_read_without_faults_fails()
    ensures { NoReadFails }
{}

/// What stands after a run for a report stands for each report that is equal to it on every trace.
pub fn equal_reports_have_equal_runs()
    ensures { EqualReports }
{}
